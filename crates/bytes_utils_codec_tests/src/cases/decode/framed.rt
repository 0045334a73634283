//! What a reader holds, and the bytes that are taken off it as they are.
use super::rows::{are_decode_calls_right, assert_decode_rows};
use crate::cases::fixtures::assert_that;
use bytes_utils_codec::decode::{Delimited, Framed, LengthPrefixed};
use std::io::Print;
use std::process::Abort;

/// Pieces of at most three bytes are copied together, and a longer one is held as it came.
#[test]
fn framed_with_a_threshold(rt: HostRuntime) {
    let mut reader = Framed::with_threshold(rt.alloc(), LengthPrefixed::new(9), 3);
    let calls = "own ab, /1, own abc, /1, own abcd, /2, own ab, /3, =ababcabcdab";
    let holds = are_decode_calls_right(&rt, &mut reader, calls);
    assert_that(&rt, holds);
}

/// Whether the decoder of a reader has this separator and this limit.
fn has_its_decoder(reader: &Framed<Delimited>) -> bool {
    let decoder = reader.decoder();
    decoder.separator() == b"--".as_slice() && decoder.max_length() == 4
}

#[test]
fn framed_has_its_decoder(rt: HostRuntime) {
    let decoder = Delimited::with_limit(rt.alloc(), b"--", 4).expect(&rt, "no memory");
    let holds = has_its_decoder(&Framed::new(rt.alloc(), decoder));
    assert_that(&rt, holds);
}

/// Two heads, each with its body after it, whose length it is, and the beginning of a third head, in two
/// pieces, cut at each place. Separators are in both bodies.
const BODIES: &str = "\
4 --: +, -, +3--a--2----b, 3, take_bytes 3 a--, 2, take_bytes 2 --, -, =b
4 --: +3, -, +--a--2----b, 3, take_bytes 3 a--, 2, take_bytes 2 --, -, =b
4 --: +3-, -, +-a--2----b, 3, take_bytes 3 a--, 2, take_bytes 2 --, -, =b
4 --: +3--, 3, =, +a--2----b, take_bytes 3 a--, 2, take_bytes 2 --, -, =b
4 --: +3--a, 3, =a, +--2----b, take_bytes 3 a--, 2, take_bytes 2 --, -, =b
4 --: +3--a-, 3, =a-, +-2----b, take_bytes 3 a--, 2, take_bytes 2 --, -, =b
4 --: +3--a--, 3, take_bytes 3 a--, -, +2----b, 2, take_bytes 2 --, -, =b
4 --: +3--a--2, 3, take_bytes 3 a--, -, +----b, 2, take_bytes 2 --, -, =b
4 --: +3--a--2-, 3, take_bytes 3 a--, -, +---b, 2, take_bytes 2 --, -, =b
4 --: +3--a--2--, 3, take_bytes 3 a--, 2, =, +--b, take_bytes 2 --, -, =b
4 --: +3--a--2---, 3, take_bytes 3 a--, 2, =-, +-b, take_bytes 2 --, -, =b
4 --: +3--a--2----, 3, take_bytes 3 a--, 2, take_bytes 2 --, -, +b, -, =b
4 --: +3--a--2----b, 3, take_bytes 3 a--, 2, take_bytes 2 --, -, +, -, =b
";

/// The same in segments.
const SPLIT_BODIES: &str = "\
4 --: +, -, +3--a--2----b, 3, split_to 3 a--, 2, split_to 2 --, -, =b
4 --: +3, -, +--a--2----b, 3, split_to 3 a--, 2, split_to 2 --, -, =b
4 --: +3-, -, +-a--2----b, 3, split_to 3 a--, 2, split_to 2 --, -, =b
4 --: +3--, 3, =, +a--2----b, split_to 3 a--, 2, split_to 2 --, -, =b
4 --: +3--a, 3, =a, +--2----b, split_to 3 a--, 2, split_to 2 --, -, =b
4 --: +3--a-, 3, =a-, +-2----b, split_to 3 a--, 2, split_to 2 --, -, =b
4 --: +3--a--, 3, split_to 3 a--, -, +2----b, 2, split_to 2 --, -, =b
4 --: +3--a--2, 3, split_to 3 a--, -, +----b, 2, split_to 2 --, -, =b
4 --: +3--a--2-, 3, split_to 3 a--, -, +---b, 2, split_to 2 --, -, =b
4 --: +3--a--2--, 3, split_to 3 a--, 2, =, +--b, split_to 2 --, -, =b
4 --: +3--a--2---, 3, split_to 3 a--, 2, =-, +-b, split_to 2 --, -, =b
4 --: +3--a--2----, 3, split_to 3 a--, 2, split_to 2 --, -, +b, -, =b
4 --: +3--a--2----b, 3, split_to 3 a--, 2, split_to 2 --, -, +, -, =b
";

/// Frames begin after bytes that are taken from those in which the decoder has searched, or which it skips.
const AFTER_TAKEN: &str = "\
4 --: +abc-, -, take_bytes 3 &abc, +-abcdefg, empty, long, take_bytes 5 &#5, +h--, fgh, =
4 --: +abc-, -, split_to 3 abc in 1, +-abcdefg, empty, long, split_to 5 #5, +h--, fgh, =
4 --: +abc-, -, advance 3, =-, +-abcdefg, empty, long, advance 5, =fg, +h--, fgh, =
4 --: advance 0, =, +ab, advance 0, =ab, advance 2, =, +--, empty
";

#[test]
fn framed_bytes_that_are_taken(rt: HostRuntime) {
    let copied = "4 --: copy, =#100000";
    for rows in [BODIES, SPLIT_BODIES, AFTER_TAKEN, copied] {
        assert_decode_rows::<Delimited, _>(&rt, &[b'a'; 100_000], rows);
    }
}

/// Makes calls on a reader, on one with another decoder over what is held then, and on the first one again. Returns
/// whether they are right.
fn framed_goes_on<R: Abort + Print + AllocGlobal>(rt: &R, delimited: Delimited) -> bool {
    let mut heads = Framed::new(rt.alloc(), delimited);
    let is_first = are_decode_calls_right(rt, &mut heads, "+head--\0\0\0\x04a--bta, head");
    let (delimited, held) = heads.finish();
    let mut bodies = Framed::from_parts(rt.alloc(), LengthPrefixed::new(9), held);
    let is_second = are_decode_calls_right(rt, &mut bodies, "a--b");
    let (_, held) = bodies.finish();
    let mut heads = Framed::from_parts(rt.alloc(), delimited, held);
    is_first && is_second && are_decode_calls_right(rt, &mut heads, "+il--, tail, =")
}

#[test]
fn framed_goes_on_with_another_decoder(rt: HostRuntime) {
    let delimited = Delimited::with_limit(rt.alloc(), b"--", 4).expect(&rt, "no memory");
    assert_that(&rt, framed_goes_on(&rt, delimited));
}
