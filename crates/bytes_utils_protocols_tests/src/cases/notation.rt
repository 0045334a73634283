//! How rows write bytes.
//!
//! | written | |
//! |---|---|
//! | `<600 ab>` | `ab`, 600 times |
//! | `\r`, `\n`, `\t`, `\f`, `\0` | a carriage return, a line feed, a tab, a form feed, a zero |
//! | `\M` | a byte order mark |
//! | `\\` | a backslash |
//! | `\F` | the byte 0xFF, which is in no text |
use std::alloc::Global;

/// Appends a text as often as `count` says.
fn append_notation_times(bytes: &mut Vec<u8>, count: &str, text: &str) -> Option<()> {
    let count: usize = count.parse().ok()?;
    for _ in 0..count {
        bytes.extend_from_slice(text.as_bytes()).ok()?;
    }
    Some(())
}

/// Appends a text that may begin with a part between `<` and `>`, which is repeated.
fn append_notation_part(bytes: &mut Vec<u8>, part: &str) -> Option<()> {
    let Some((repeated, rest)) = part.split_once('>') else {
        return bytes.extend_from_slice(part.as_bytes()).ok();
    };
    let (count, text) = repeated.split_once(' ')?;
    append_notation_times(bytes, count, text)?;
    bytes.extend_from_slice(rest.as_bytes()).ok()
}

/// Appends a text, with what it repeats.
pub(super) fn append_repeated_notation(bytes: &mut Vec<u8>, text: &str) -> Option<()> {
    for part in text.split('<') {
        append_notation_part(bytes, part)?;
    }
    Some(())
}

/// The bytes that a letter after a backslash means.
fn escaped_notation(letter: u8) -> &'static [u8] {
    match letter {
        b'r' => b"\r",
        b'n' => b"\n",
        b't' => b"\t",
        b'f' => b"\x0C",
        b'0' => b"\0",
        b'\\' => b"\\",
        b'M' => b"\xEF\xBB\xBF",
        _ => b"\xFF",
    }
}

/// A text, with what it repeats, or `None` if memory is refused.
fn repeated_notation(alloc: Global, written: &str) -> Option<Vec<u8>> {
    let mut text = Vec::new(alloc);
    append_repeated_notation(&mut text, written)?;
    Some(text)
}

/// Appends a text, with what its letters after backslashes mean.
fn append_escaped_notation(bytes: &mut Vec<u8>, text: &[u8]) -> Option<()> {
    let mut is_letter = false;
    for byte in text {
        if is_letter {
            bytes.extend_from_slice(escaped_notation(*byte)).ok()?;
        } else if *byte != b'\\' {
            bytes.push(*byte).ok()?;
        }
        is_letter = !is_letter && *byte == b'\\';
    }
    Some(())
}

/// The bytes that are written so, or `None` if memory is refused.
pub(super) fn bytes_of_notation(alloc: Global, written: &str) -> Option<Vec<u8>> {
    let text = repeated_notation(alloc, written)?;
    let mut bytes = Vec::new(alloc);
    append_escaped_notation(&mut bytes, &text)?;
    Some(bytes)
}
