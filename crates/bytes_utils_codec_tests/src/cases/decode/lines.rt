//! Lines as texts, out of pieces: worked cases and limits.
use super::cuts::{assert_cuts, cuts_give};
use super::made::Made;
use super::rows::{assert_decode_row_lets_go, assert_decode_rows};
use crate::cases::fixtures::{assert_that, says};
use bytes_utils::{Reason, Str};
use bytes_utils_codec::decode::{Framed, LineFault, Lines};
use std::alloc::Global;

const STREAMS: &str = "\
any text: a<..b.=a||b|$
any text: a<=$a<|
any text: <<.=<|$
any text: .=|$
any text: =$
any text: a<b<.=a<b|$
any text: b=$b|
any text: a<.β.<.~.last<=a|β||~|$last<|
any text: ~<.a~b.~~=~|a~b|$~~|
any text: β~.β<.=β~|β|$
";

/// Lines of at most two bytes, and others. Of the last ones the end doesn't come.
const LIMITED: &str = "\
2 text: abc.d.=long|d|$
2 text: ab.c<.=ab|c|$
2 text: ab<.c=long|$c|
2 text: abcdefg.ab.abcd<.e=long|ab|long|$e|
2 text: abc.def.~.gh=long|long|~|$gh|
2 text: β.β<.b=β|long|$b|
2 text: ab=$ab|
2 text: ab<=long|$
2 text: abc=long|$
2 text: a.bcd~~~<=a|long|$
";

#[test]
fn lines_of_streams_cut_anywhere(rt: HostRuntime) {
    for rows in [STREAMS, LIMITED] {
        assert_cuts::<Lines, _>(&rt, rows);
    }
}

/// The case of `String::from_utf8_lossy`'s documentation, the one of the Unicode Standard, section
/// 3.9, a text, and a character that isn't whole.
const LOSSY: &[u8] = b"Hello \xF0\x90\x80World\r\na\xF1\x80\x80\xE1\x80\xC2b\x80c\x80\xBFd\n\
    \xCE\xB2\r\n\xE2\x82";

/// Its items, with U+FFFD for what is no character.
const REPLACED: &str = "Hello \u{FFFD}World|a\u{FFFD}\u{FFFD}\u{FFFD}b\u{FFFD}c\u{FFFD}\u{FFFD}d|\
    β|$\u{FFFD}|";

/// Lines of which some have more than two bytes.
const FEW: &[u8] = b"\xFF\xFF\nabc\n\xFF\r\na\xFF\r\n\r";

/// The items within that limit, which counts the bytes that came.
const REPLACED_FEW: &str = "\u{FFFD}\u{FFFD}|long|\u{FFFD}|long|$\r|";

#[test]
fn lossy_lines(rt: HostRuntime) {
    let cases = [
        ("any lossy", LOSSY, REPLACED),
        ("2 lossy", FEW, REPLACED_FEW),
    ];
    for (kind, stream, want) in cases {
        let holds = cuts_give::<Lines, _>(&rt, kind, stream, want.as_bytes());
        assert_that(&rt, holds);
    }
}

/// Whether the item is a fault that says this, with these bytes, or none of a line that is too long.
fn is_line_fault(
    alloc: Global,
    item: Result<Option<Result<Str, LineFault>>, Reason>,
    (bytes, text): (&[u8], &str),
) -> bool {
    match item {
        Ok(Some(Err(LineFault::NotUtf8(fault)))) => {
            says(alloc, &fault, text) && fault.into_inner().as_slice() == bytes
        }
        Ok(Some(Err(fault))) => says(alloc, &fault, text) && bytes.is_empty(),
        _ => false,
    }
}

/// Whether each fault says why, and those that are not UTF-8 have the bytes of their line.
fn lines_say_why(alloc: Global, reader: &mut Framed<Lines>) -> bool {
    let unfinished = b"\xE2\x82".as_slice();
    let why_unfinished = "incomplete utf-8 byte sequence from index 0";
    let why_invalid = "invalid utf-8 sequence of 1 bytes from index 1";
    reader.push_slice(b"\xE2\x82\nabcd\r\na\xFF").is_ok()
        && is_line_fault(alloc, reader.next_item(), (unfinished, why_unfinished))
        && is_line_fault(alloc, reader.next_item(), (b"", "the line is too long"))
        && is_line_fault(alloc, reader.last_item(), (b"a\xFF", why_invalid))
}

#[test]
fn line_faults_say_why(rt: HostRuntime) {
    let decoder = Lines::with_limit(rt.alloc(), 3).expect(&rt, "no memory");
    let holds = lines_say_why(rt.alloc(), &mut Framed::new(rt.alloc(), decoder));
    assert_that(&rt, holds);
}

const CALLS: &str = "\
4 text: +ab<.abcde.c., ab, long, c, -, $-, =
4 text: +abc<.abcd<.abcd., abc, long, abcd, -, $-, =
2 text: +a, -, +<, -, +.b, a, -, +<, -, +., b, -, +<<., <, +<., empty, $-, =
3 text: +ab, -, +c, -, +d, long, +efg, -, +h.i, -, +j, -, $ij, =
3 text: +abcd.e, long, +.fghi, e, long, -, +., -, +j.k, j, -, $k, =
4 text: +a~<., a~, +é<.é~., é, é~, -, +é., é, +é~~., é~~, +é~~~., long, -, +<~, -, $<~, =
0 text: +., empty, -, +a, long, +., -, +., empty, +<., long, +., empty, +b<., long, -, +b, long, +c<, -, $-, =
2 text: +abc, long, +d, -, $-, =
2 text: +abc, long, +d.e, $e, =
any text: +aé<.b, aé, -, +<, -, $b<, =
3 text: 10000 times: +ab<.abcd.; 10000 times: ab, long; $-, =
";

/// A line of 100,000 bytes, of which no more than the limit are held; it is reported once.
const ENDLESS: &str = "1000 text: 100 times: +aaaaaaaaaa, -, /1; \
    +aaaaaaaaaa, long, -; 9899 times: +aaaaaaaaaa, -, =";

#[test]
fn lines_after_each_piece(rt: HostRuntime) {
    for rows in [CALLS, ENDLESS] {
        assert_decode_rows::<Lines, _>(&rt, b"", rows);
    }
}

/// Texts, of which the last line of most has no line feed.
const TEXTS: &str = "|a|a\n|a\r|a\r\n\r|\n\r\n|a\nb\r\r\nc\r|é\n\r\r|\n\n\n é";

/// Returns the next line, or the last one if there is no end of a line.
fn next_or_last_line(reader: &mut Framed<Lines>) -> Result<Option<Result<Str, LineFault>>, Reason> {
    match reader.next_item() {
        Ok(None) => reader.last_item(),
        next => next,
    }
}

/// Whether this line comes.
fn is_line_of_text(reader: &mut Framed<Lines>, line: &str) -> bool {
    match next_or_last_line(reader) {
        Ok(Some(next)) => Lines::into_bytes(next).as_slice() == line.as_bytes(),
        _ => false,
    }
}

/// Whether the lines of the text are those of `str::lines`, and then nothing is left.
fn are_lines_of_text(reader: &mut Framed<Lines>, text: &str) -> bool {
    let mut is_right = reader.push_slice(text.as_bytes()).is_ok();
    for line in text.lines() {
        is_right &= is_line_of_text(reader, line);
    }
    is_right && matches!(reader.last_item(), Ok(None)) && reader.remaining() == 0
}

/// Whether the lines of each text come, one text after another.
fn are_lines_of_texts(reader: &mut Framed<Lines>) -> bool {
    let mut are_right = true;
    for text in TEXTS.split('|') {
        are_right &= are_lines_of_text(reader, text);
    }
    are_right
}

#[test]
fn all_lines_of_texts(rt: HostRuntime) {
    let decoder = Lines::new(rt.alloc()).expect(&rt, "no memory");
    let holds = are_lines_of_texts(&mut Framed::new(rt.alloc(), decoder));
    assert_that(&rt, holds);
}

/// A line of 200,000 bytes in 201 pieces, and a last one of the same length in 200. A limit may be the length of the
/// line with its carriage return, or the greatest number.
const LONG: &str = "\
200001 text: 200 times: &; +<., *#200000; 200 times: &; $*#200000
18446744073709551615 text: 200 times: &; +<., *#200000; 200 times: &; $*#200000
";

#[test]
fn a_long_line_within_a_limit(rt: HostRuntime) {
    for row in LONG.lines() {
        assert_decode_row_lets_go::<Lines, _>(&rt, &[b'a'; 1_000], row);
    }
}
