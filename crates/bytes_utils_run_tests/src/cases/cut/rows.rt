//! Rows of tables: a text, how it is split, and what comes.
ghost use Rattle.std.specs.Prelude.{IsTrue};
ghost use Rattle.bytes_utils_run.specs.Cutting.{IsCuttingAllowed};

use bytes_utils_run::How;

/// Returns whether a text may be split this way.
pub(super) fn is_cut_row_allowed(how: How<'_>) -> bool
    ensures { IsTrue result → IsCuttingAllowed how.entry }
{
    match how {
        How::Inclusive(separator) => !separator.is_empty(),
        _ => true,
    }
}

/// Reads a row: how to split, the separator, the text and what comes, with a semicolon between. How to
/// split is the letter of the way, and after it the limit, if there is one. Returns the text, how it
/// is split, and what comes.
pub(super) fn cut_row_of(row: &str) -> (&str, How<'_>, &str) {
    let mut fields = row.split(';');
    let way = fields.next().unwrap_or("");
    let separator = fields.next().unwrap_or("");
    let how = match way.as_bytes() {
        [b's'] => How::Split(separator),
        [b's', most] => How::SplitN(usize::from(most.saturating_sub(b'0')), separator),
        [b'r'] => How::RSplit(separator),
        [b'r', most] => How::RSplitN(usize::from(most.saturating_sub(b'0')), separator),
        [b'w'] => How::Words,
        [b'a'] => How::AsciiWords,
        [b'l'] => How::Lines,
        _ => How::Inclusive(separator),
    };
    let text = fields.next().unwrap_or("");
    (text, how, fields.next().unwrap_or(""))
}
