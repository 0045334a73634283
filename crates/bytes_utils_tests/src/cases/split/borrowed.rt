//! The splitters compared with the methods of `str` of the same names, which borrow their parts,
//! over the texts of the worked cases and all short texts of a few letters.
use super::ways::Way;
use bytes_utils::Str;
use std::alloc::{AllocError, Global};
use std::process::Abort;

/// Texts of worked cases, with a bar between them. The first is empty.
const TEXTS: &str =
    "|a|ab|aaa|ababa|,,|a,b|a,b,|a,b,,c|a,b,c|αβα|ββαβ|😈😉|abcdef|αβγδεζ| a\u{b}b\t😈 |\
                     a\r\n\nb\n|a\r|\r\r\n|\n|a\rb\r\n| |😈 | \t\n\r\u{c} |a  b|α\u{3000}β\u{a0}|\r\n\r\n|a\n\r\n\r";

/// The separators that texts are split by, with a bar between them. The first is empty.
const SEPARATORS: &str = "|a|aa|aba|,|β";

/// Separators, line ends, white space, and characters of one to four bytes.
const LETTERS: &str = "ab,\n\rβ😈\u{3000}";

/// The number of all texts of at most three of the letters.
const TEXTS_OF_THREE: u32 = 585;

/// The number of all texts of at most four of the letters.
const TEXTS_OF_FOUR: u32 = 4_681;

/// Returns the text with this number among all texts of the letters, shorter ones first.
fn text_borrowed_by_number(alloc: Global, number: u32) -> Result<String, AllocError> {
    let mut text = String::new(alloc);
    let mut left = usize::try_from(number).unwrap_or(0);
    for _ in 0..4 {
        if left == 0 {
            break;
        }
        left -= 1;
        text.push(LETTERS.chars().nth(left % 8).unwrap_or('a'))?;
        left /= 8;
    }
    Ok(text)
}

/// Whether the parts of a text, by a separator, are those that `str` borrows.
pub(super) fn is_as_borrowed(alloc: Global, way: Way, text: &str, separator: &str) -> bool {
    match Str::from_str(alloc, text) {
        Ok(whole) => way.beside(whole, separator, text) == Ok(true),
        Err(_) => false,
    }
}

/// Asserts this by each of the separators.
fn assert_each_as_borrowed(rt: &impl Abort, alloc: Global, way: Way, text: &str, separators: &str) {
    for separator in separators.split('|') {
        assert!(rt;
            is_as_borrowed(alloc, way, text, separator),
            "{way:?}, {text:?}, {separator:?}"
        );
    }
}

/// Asserts this of each text of the worked cases, and of this number of counted ones.
fn assert_all_as_borrowed(rt: &impl Abort, alloc: Global, way: Way, count: u32, separators: &str) {
    for text in TEXTS.split('|') {
        assert_each_as_borrowed(rt, alloc, way, text, separators);
    }
    for number in 0..count {
        let text = text_borrowed_by_number(alloc, number).expect(rt, "no memory");
        assert_each_as_borrowed(rt, alloc, way, text.as_str(), separators);
    }
}

/// A way, the number of the counted texts that it is compared over, and the separators. A text of
/// three letters may have up to four parts.
const ROWS: [(Way, u32, &str); 25] = [
    (Way::Split, TEXTS_OF_FOUR, SEPARATORS),
    (Way::RSplit, TEXTS_OF_FOUR, SEPARATORS),
    (Way::Indices, TEXTS_OF_FOUR, SEPARATORS),
    (Way::SplitInclusive, TEXTS_OF_FOUR, "a|aa|aba|,|β"),
    (Way::SplitOnce, TEXTS_OF_FOUR, SEPARATORS),
    (Way::RSplitOnce, TEXTS_OF_FOUR, SEPARATORS),
    (Way::StripPrefix, TEXTS_OF_FOUR, SEPARATORS),
    (Way::StripSuffix, TEXTS_OF_FOUR, SEPARATORS),
    (Way::Lines, TEXTS_OF_FOUR, ""),
    (Way::SplitWhitespace, TEXTS_OF_FOUR, ""),
    (Way::SplitAsciiWhitespace, TEXTS_OF_FOUR, ""),
    (Way::Fields, TEXTS_OF_FOUR, ""),
    (Way::Trim, TEXTS_OF_FOUR, ""),
    (Way::TrimStart, TEXTS_OF_FOUR, ""),
    (Way::TrimEnd, TEXTS_OF_FOUR, ""),
    (Way::SplitN(0), TEXTS_OF_THREE, SEPARATORS),
    (Way::SplitN(1), TEXTS_OF_THREE, SEPARATORS),
    (Way::SplitN(2), TEXTS_OF_THREE, SEPARATORS),
    (Way::SplitN(3), TEXTS_OF_THREE, SEPARATORS),
    (Way::SplitN(4), TEXTS_OF_THREE, SEPARATORS),
    (Way::RSplitN(0), TEXTS_OF_THREE, SEPARATORS),
    (Way::RSplitN(1), TEXTS_OF_THREE, SEPARATORS),
    (Way::RSplitN(2), TEXTS_OF_THREE, SEPARATORS),
    (Way::RSplitN(3), TEXTS_OF_THREE, SEPARATORS),
    (Way::RSplitN(4), TEXTS_OF_THREE, SEPARATORS),
];

// The search is among bytes, and different characters share some bytes.
#[test]
fn split_parts_are_the_borrowed_ones(rt: HostRuntime) {
    for (way, count, separators) in ROWS {
        assert_all_as_borrowed(&rt, rt.alloc(), way, count, separators);
    }
}
