//! Frames that a separator ends, out of pieces: worked cases and limits.
use super::cuts::assert_cuts;
use super::rows::assert_decode_rows;
use crate::cases::fixtures::{assert_that, debugs, says};
use bytes_utils_codec::decode::{Delimited, FrameTooLong, decoder_laws};

/// The kind of a reader is its separator.
const STREAMS: &str = "\
2 ;: ab;cd;;ef=ab|cd||$ef
2 --: a--b---c--d=a|b|-c|$d
2 aab: aaabaabaa=a||$aa
2 ;: ab;abc=ab|long|$
2 ;: ab;abc;=ab|long|$
2 --: ab--abc=ab|$abc
2 --: ab--abc-=ab|long|$
2 --: ab--abc--d=ab|long|$d
2 --: abc---d=long|$-d
2 ;: abc;de;fghi;;j=long|de|long||$j
2 0123456789abcdef-: ab0123456789abcdef-abc0123456789abcdef=ab|long|$
";

#[test]
fn delimited_streams_cut_anywhere(rt: HostRuntime) {
    decoder_laws::<Delimited>();
    assert_cuts::<Delimited, _>(&rt, STREAMS);
}

/// In the last row small pieces are copied to one block, and their frames share it.
const CALLS: &str = "\
2 []: +ab[, -, +]abc[]d, ab, long, -, +], -, +[], d], +ab, -, +c, -, +[, long, +], -, +[], empty, $-, =
2 []: +abc, -, +[, long, -, +[], -, +]a, -, $-, =]a
2 []: +abcd, long, +ef, -, $-, =
2 []: +abcd, long, +e[]f, $-, =f
0 []: +[], empty, +a[][, long, +], empty, +a, -, +b, long, +c, -, +[, -, +][], empty, $-, =
any []: +ab, -, +[], ab, +c, -, $-, =c
any -: own a, own b-c, own -d, /1, &ab, &c
";

#[test]
fn delimited_frames_after_each_piece(rt: HostRuntime) {
    assert_decode_rows::<Delimited, _>(&rt, b"", CALLS);
}

#[test]
fn delimited_error_says_why(rt: HostRuntime) {
    let holds = says(rt.alloc(), &FrameTooLong, "the frame is too long")
        && debugs(rt.alloc(), &FrameTooLong, "FrameTooLong");
    assert_that(&rt, holds);
}

/// Long pieces and single bytes in turn, and then single bytes. A search that began at the front at each call would
/// pass 200 million segments, and then take minutes.
const MANY: &str = "any <.: 10000 times: &, -, +b, -; 40000 times: +a, -; +<., *#5180000, =";

#[test]
fn delimited_frame_of_many_pieces(rt: HostRuntime) {
    assert_decode_rows::<Delimited, _>(&rt, &[b'a'; 513], MANY);
    let separator = "any -#20000: +, -; 19 times: copy, -; copy, empty";
    assert_decode_rows::<Delimited, _>(&rt, &[b'-'; 1_000], separator);
}

/// A frame of 2,000,000 bytes in 2,000 pieces, and one of a byte more, of which the first is that
/// after the first frame's end of 300 bytes. A limit may be the length of the frame, or the greatest number.
const LONG: &str = "\
2000001 -#300: 2000 times: &; 301 times: +-; *#2000000; 2000 times: &; 301 times: +-; *#2000001, =#1
18446744073709551615 -#300: 2000 times: &; 301 times: +-; *#2000000; 2000 times: &; 301 times: +-; *#2000001, =#1
";

#[test]
fn long_delimited_frame_within_a_limit(rt: HostRuntime) {
    assert_decode_rows::<Delimited, _>(&rt, &[b'a'; 1_000], LONG);
}
