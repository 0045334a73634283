//! Each white space, between words and at the ends of a text.
use super::borrowed::is_as_borrowed;
use super::ways::Way;
use bytes_utils::{Reason, Str};
use std::alloc::Global;
use std::iter::once;

/// The characters with the property White_Space, from the Unicode Character Database's PropList.
const SPACES: &str =
    "\t\n\u{b}\u{c}\r \u{85}\u{a0}\u{1680}\u{2000}\u{2001}\u{2002}\u{2003}\u{2004}\u{2005}\
                      \u{2006}\u{2007}\u{2008}\u{2009}\u{200a}\u{2028}\u{2029}\u{202f}\u{205f}\u{3000}";

/// Whether the character makes a word exactly if it is not white space, and the text between two of
/// it is trimmed as its `str`.
fn is_white_space_right_at(alloc: Global, c: char) -> Result<bool, Reason> {
    let mut words = Str::from_chars(alloc, once(c))?.split_whitespace_bytes();
    let is_space = words.next().is_none();
    drop(words);
    let text = format!(in alloc; "{c}a b{c}")?;
    Ok(is_space == SPACES.contains(c) && is_as_borrowed(alloc, Way::Trim, text.as_str(), ""))
}

/// Asserts this of each character up to U+3001.
#[test]
fn white_space_at_each_character(rt: HostRuntime) {
    for c in '\0'..='\u{3001}' {
        assert!(rt; is_white_space_right_at(rt.alloc(), c) == Ok(true), "{c:?}");
    }
}
