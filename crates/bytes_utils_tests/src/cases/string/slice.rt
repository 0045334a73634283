//! Shared helper: pieces of a text, and copies of it, compared with those of its `str`.
use crate::cases::fixtures::is_text;
use bytes_utils::Str;

/// Whether the text between two places, from the first one on, and up to it, are those of its `str`,
/// and so are copies. The places have to be character boundaries, in order.
pub(super) fn are_slices(text: &Str, from: usize, to: usize) -> bool {
    let str = text.as_str();
    if from > to || !str.is_char_boundary(from) || !str.is_char_boundary(to) {
        return false;
    }
    is_text(text.slice(from..to).ok(), &str[from..to])
        && is_text(text.slice_from(from).ok(), &str[from..])
        && is_text(text.slice_to(from).ok(), &str[..from])
        && is_text(text.try_clone().ok(), str)
        && is_text(text.clone().ok(), str)
}
