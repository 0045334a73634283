//! Tests of the callers.
use super::{body, header, message, send};
use crate::cases::fixtures::{assert_that, in_segments};
use bytes::{Buf, Bytes};
use bytes_utils::{Reason, SegmentedBuf, Str};
use bytes_utils_codec::decode::{FrameTooLong, Framed, LengthPrefixed, ReadItemError};
use std::alloc::Global;

/// Whether this message was read, or for `-` none.
fn is_message(message: &Option<Result<Bytes, FrameTooLong>>, want: &str) -> bool {
    match message {
        Some(Ok(message)) => message.as_slice() == want.as_bytes(),
        Some(Err(_)) => want == "long",
        None => want == "-",
    }
}

/// Whether these messages are read, and then `-` for the end of the input.
fn are_messages(
    mut input: &[u8],
    messages: &mut Framed<LengthPrefixed>,
) -> Result<bool, ReadItemError<Reason>> {
    for want in "Hi||long|!|-".split('|') {
        if !is_message(&message(&mut input, messages)?, want) {
            return Ok(false);
        }
    }
    Ok(true)
}

#[test]
fn messages_of_a_reader(rt: HostRuntime) {
    let input = b"\0\0\0\x02Hi\0\0\0\0\0\0\0\x05abcde\0\0\0\x01!";
    let mut messages = Framed::new(rt.alloc(), LengthPrefixed::new(4));
    let holds = matches!(are_messages(input, &mut messages), Ok(true));
    assert_that(&rt, holds);
}

/// Whether a line has this name and this value.
fn is_header(line: Str, (name, value): (&str, &str)) -> bool {
    match header(line) {
        Ok(Some((front, back))) => front.eq_str(name) && back.eq_str(value),
        _ => false,
    }
}

/// A line has no value, and another has both.
#[test]
fn headers(rt: HostRuntime) {
    let is_none = matches!(header(Str::from_static("Host:")), Ok(None));
    let line = Str::from_static("Host: é.org: 80");
    let holds = is_none && is_header(line, ("Host", "é.org: 80"));
    assert_that(&rt, holds);
}

/// A greeting in four pieces, one of them empty.
const GREETING: &[&[u8]] = &[b"Hello", b" ", b"", b"World"];

/// Whether the first bytes of the greeting come, and then no more than are there.
fn are_bodies(alloc: Global, came: &mut SegmentedBuf<Bytes>) -> Result<bool, Reason> {
    let is_front = match body(alloc, came, 8)? {
        Some(front) => front.as_slice() == b"Hello Wo".as_slice(),
        None => false,
    };
    Ok(is_front && body(alloc, came, 4)?.is_none() && came.remaining() == 3)
}

#[test]
fn bodies(rt: HostRuntime) {
    let mut came = in_segments(rt.alloc(), GREETING).expect(&rt, "no memory");
    let holds = are_bodies(rt.alloc(), &mut came) == Ok(true);
    assert_that(&rt, holds);
}

/// All of the greeting is written, and nothing is left.
#[test]
fn sent(rt: HostRuntime) {
    let mut came = in_segments(rt.alloc(), GREETING).expect(&rt, "no memory");
    let mut out = Vec::new(rt.alloc());
    let is_sent = send(&mut out, &mut came).is_ok();
    let holds = is_sent && out.as_slice() == b"Hello World".as_slice() && came.remaining() == 0;
    assert_that(&rt, holds);
}
