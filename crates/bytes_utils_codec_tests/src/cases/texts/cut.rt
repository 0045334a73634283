//! Items out of pieces that are cut anywhere, and what std says of the same bytes. An error is read as U+FFFD, so both
//! kinds of reader have to give what `String::from_utf8_lossy` makes of all bytes.
use super::texts_of_kind;
use crate::cases::fixtures::assert_that;
use bytes::Bytes;
use bytes_utils::string::{Str, Utf8Error};
use bytes_utils_codec::texts::Texts;
use std::alloc::Global;
use std::process::Abort;
use std::str;

/// Appends the text of an item, or U+FFFD. Returns whether memory was there.
fn put_cut_text(item: &Result<Str, Utf8Error<Bytes>>, out: &mut String) -> bool {
    let text = match item {
        Ok(text) => text.as_str(),
        Err(_) => "\u{FFFD}",
    };
    out.push_str(text).is_ok()
}

/// Appends the texts of all items that come. Returns whether memory was there, and they had an end.
fn take_cut_texts(texts: &mut Texts, out: &mut String) -> bool {
    let mut is_put = true;
    for _ in 0..64 {
        match texts.next_item() {
            Ok(Some(item)) => is_put &= put_cut_text(&item, out),
            Ok(None) => return is_put,
            Err(_) => return false,
        }
    }
    false
}

/// Whether std says that these bytes are the first ones of a character, or none.
fn is_beginning_of_character(bytes: &[u8]) -> bool {
    match str::from_utf8(bytes) {
        Ok(text) => text.is_empty(),
        Err(fault) => fault.valid_up_to() == 0 && fault.error_len().is_none(),
    }
}

/// Whether std says of all bytes that came that they are these texts, and the first bytes of a character, or none, which
/// are held.
fn are_cut_texts_as_std(alloc: Global, came: &[u8], held: usize, out: &str) -> bool {
    if came.len() < held {
        return false;
    }
    let (front, back) = came.split_at(came.len() - held);
    let is_beginning = is_beginning_of_character(back);
    match String::from_utf8_lossy(alloc, front) {
        Ok(lossy) => is_beginning && lossy.as_str() == out,
        Err(_) => false,
    }
}

/// Pushes a piece of the block, and appends the texts of all items. Returns whether std says the same of all bytes that
/// came.
fn is_right_after_cut_text(
    alloc: Global,
    texts: &mut Texts,
    (block, from, to): (&Bytes, usize, usize),
    out: &mut String,
) -> bool {
    if to < from || block.len() < to {
        return false;
    }
    let is_pushed = match block.slice(from..to) {
        Ok(piece) => texts.push(piece).is_ok(),
        Err(_) => false,
    };
    let came = &block.as_slice()[..to];
    is_pushed
        && take_cut_texts(texts, out)
        && are_cut_texts_as_std(alloc, came, texts.remaining(), out.as_str())
}

/// Appends the text that comes with the end of the stream, which is U+FFFD if there is one.
fn take_last_cut_text(texts: &mut Texts, out: &mut String) -> bool {
    match texts.last_item() {
        Ok(Some(item)) => put_cut_text(&item, out) && out.as_str().ends_with("\u{FFFD}"),
        Ok(None) => true,
        Err(_) => false,
    }
}

/// Whether the stream ends with these texts, the last of which is U+FFFD if it came with the end, and nothing is left.
fn cut_texts_end(texts: &mut Texts, out: &mut String, want: &str) -> bool {
    take_last_cut_text(texts, out)
        && texts.remaining() == 0
        && matches!(texts.last_item(), Ok(None))
        && out.as_str() == want
}

/// Whether std says the same after each of three pieces of the block.
fn are_cut_pieces_right(
    alloc: Global,
    texts: &mut Texts,
    (block, cuts): (&Bytes, (usize, usize)),
    out: &mut String,
) -> bool {
    let (mut is_right, mut from) = (true, 0);
    for to in [cuts.0, cuts.1, block.len()] {
        is_right &= is_right_after_cut_text(alloc, texts, (block, from, to), out);
        from = to;
    }
    is_right
}

/// Whether that is so of a new reader, and these are the texts of the block.
fn is_cut_text_right(
    alloc: Global,
    kind: &str,
    block: &Bytes,
    cuts: (usize, usize),
    want: &str,
) -> bool {
    let mut texts = texts_of_kind(alloc, kind);
    let mut out = String::new(alloc);
    are_cut_pieces_right(alloc, &mut texts, (block, cuts), &mut out)
        && cut_texts_end(&mut texts, &mut out, want)
}

/// Whether that is so of both kinds of reader.
fn are_cut_texts_right(alloc: Global, block: &Bytes, cuts: (usize, usize), want: &str) -> bool {
    is_cut_text_right(alloc, "strict", block, cuts, want)
        && is_cut_text_right(alloc, "lossy", block, cuts, want)
}

/// The same of the block, cut at each two places.
fn are_texts_right_if_cut(alloc: Global, block: &Bytes, want: &str) -> bool {
    for first in 0..=block.len() {
        for second in first..=block.len() {
            if !are_cut_texts_right(alloc, block, (first, second), want) {
                return false;
            }
        }
    }
    true
}

/// Asserts the texts of these bytes, cut at each two places.
fn assert_cut_texts<R: Abort + AllocGlobal>(rt: &R, bytes: &[u8], want: &str) {
    let block = Bytes::copy_from_slice(rt.alloc(), bytes).expect(rt, "no memory");
    let holds = are_texts_right_if_cut(rt.alloc(), &block, want);
    assert_that(rt, holds);
}

/// Characters of one to four bytes, the first and the last of each length.
const TEXT: &str = "\0\u{7f}\u{80}\u{7ff}\u{800}\u{ffff}\u{10000}\u{10ffff}";

/// The examples of the Unicode Standard, chapter 3.9: that of its best practice, sequences that are
/// too long, surrogates, other faults, and characters that are cut short. Then a character that the stream ends
/// within is one U+FFFD.
const LOSSY: [(&[u8], &str); 8] = [
    (b"a\xF1\x80\x80\xE1\x80\xC2b\x80c\x80\xBFd", "a���b�c��d"),
    (b"\xC0\xAF\xE0\x80\xBF\xF0\x81\x82A", "��������A"),
    (b"\xED\xA0\x80\xED\xBF\xBF\xED\xAFA", "��������A"),
    (b"\xF4\x91\x92\x93\xFFA\x80\xBFB", "�����A��B"),
    (b"\xE1\x80\xE2\xF0\x91\x92\xF1\xBFA", "����A"),
    (b"\xF0\x9F\x98", "�"),
    (b"a\xE2\x82", "a�"),
    (b"\xE2\x82\xE2", "��"),
];

#[test]
fn texts_cut_at_every_two_places(rt: HostRuntime) {
    assert_cut_texts(&rt, TEXT.as_bytes(), TEXT);
    for (bytes, want) in LOSSY {
        assert_cut_texts(&rt, bytes, want);
    }
}

/// Whether the texts of these bytes, cut after the first and the second of them, are std's.
fn are_cut_texts_as_std_in_order(alloc: Global, bytes: &[u8]) -> bool {
    let block = Bytes::copy_from_slice(alloc, bytes);
    let want = String::from_utf8_lossy(alloc, bytes);
    match (&block, &want) {
        (Ok(block), Ok(want)) => are_cut_texts_right(alloc, block, (1, 2), want.as_str()),
        _ => false,
    }
}

/// Each first byte of a longer character and each second one, with bytes after them that may end any character. After
/// each other byte nothing is held, as before the first one, so one second byte is enough.
#[test]
fn texts_cut_between_any_two_bytes(rt: HostRuntime) {
    for lead in 0..=255 {
        let last = if is_beginning_of_character(&[lead]) {
            255
        } else {
            0
        };
        for second in 0..=last {
            let is_right = are_cut_texts_as_std_in_order(rt.alloc(), &[lead, second, 0x80, 0xBF]);
            assert_that(&rt, is_right);
        }
    }
}
