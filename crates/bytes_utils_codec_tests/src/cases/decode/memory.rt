//! What each call returns if a request for memory is refused, and what comes after that. A run with
//! one refused request ends well, whichever request it is, and prints which call was refused.
use super::rows::{assert_decode_row_reads, assert_decode_rows};
use crate::cases::fixtures::readers::SlowReader;
use bytes_utils_codec::decode::{Delimited, LengthPrefixed, Lines, UniversalLines};

/// A separator of 17 bytes, which the pieces cut, as they cut the frame before it. Of the second one only the beginning
/// comes.
const FRAMES: &str = "\
any 0123456789abcdef-: &, +a0123456, +789abcdef-0123456789abcdef-, a#601, $empty
700 0123456789abcdef-: &, -, +0123, -, +4567, -
";

#[test]
fn delimited_decoder_if_memory_is_refused(rt: HostRuntime) {
    assert_decode_rows::<Delimited, _>(&rt, &[b'a'; 600], FRAMES);
}

/// A line whose carriage return is in the second piece, and a last one; a last line of two pieces that are
/// held apart; a line and a last one, each with a U+FFFD.
const LINES: &str = "\
any text: +a, +b<, +.c, ab, $c
601 text: &, +a, $a#601
any lossy: +a~<.~b, a\u{fffd}, $\u{fffd}b
";

#[test]
fn lines_decoder_if_memory_is_refused(rt: HostRuntime) {
    assert_decode_rows::<Lines, _>(&rt, &[b'a'; 600], LINES);
}

/// A line that is in two segments, and a last one; a line and a last one, each with a U+FFFD.
const UNIVERSAL_LINES: &str = "\
any text: &, +a, +<c, a#601, $c
any lossy: +a~.~b, a\u{fffd}, $\u{fffd}b
";

#[test]
fn universal_lines_decoder_if_memory_is_refused(rt: HostRuntime) {
    assert_decode_rows::<UniversalLines, _>(&rt, &[b'a'; 600], UNIVERSAL_LINES);
}

/// Items; and the first bytes of two pieces that are held apart, in one block and in segments.
const PREFIXED: &str = "\
1 width 4: +\0\0\0\x01a, a
1 width 4: +\0, +\0, +\0\x01a, $a
9 width 4: &, +b, take_bytes 599 a#599, take_bytes 2 *ab, =
9 width 4: &, &, split_to 601 &#601 in 2, =#599
";

#[test]
fn length_prefixed_decoder_if_memory_is_refused(rt: HostRuntime) {
    assert_decode_rows::<LengthPrefixed, _>(&rt, &[b'a'; 600], PREFIXED);
}

/// Items of a reader, and single reads.
const READS: &str = "\
9 width 4: read_item ab, read_item cdef
9 width 4: read_from 5, =#5, read_from 5, =#10
9 width 4: room 600 5, =#5, room 600 5, =#10
";

#[test]
fn decoder_reads_if_memory_is_refused(rt: HostRuntime) {
    for row in READS.lines() {
        let input = SlowReader::new(b"\0\0\0\x02ab\0\0\0\x04cdef", 5);
        assert_decode_row_reads::<LengthPrefixed, _>(&rt, input, row);
    }
}
