//! Parts that are given as they come: the rows of whole parts, put together from events, and what is
//! held meanwhile.
use super::multipart::{FORM, LIMITS, MAIL, ODD};
use super::readers::Protocol;
use super::walks::{Way, assert_walk_of_row, assert_walks_of_rows};
use bytes::Bytes;
use bytes_utils_protocols::multipart::{Limits, PartEvent, PartStream};
use std::alloc::Global;

#[test]
fn parts_of_streams(rt: HostRuntime) {
    for (boundary, rows) in [
        (b"simple boundary".as_slice(), MAIL),
        (b"AaB03x", FORM),
        (b"b", ODD),
    ] {
        let protocol = Protocol::PartStream(boundary, LIMITS);
        assert_walks_of_rows(&rt, rt.alloc(), protocol, "", rows);
    }
}

/// Bodies whose faults are seen as soon as they are certain. A delimiter has five bytes, so it may
/// begin in the last four.
const EARLY: &str = r#"
# a boundary that only begins a line, other bytes after a delimiter
--bc\r\n\r\na\r\n- => always Malformed
-b--

--b -\r\n\r\na\r\n- => always Malformed
-b--

# a head that begins with a folded line
--b\r\n X: y\r\n\r\n\r\n-- => always Malformed
b--

# a head that is not UTF-8
--b\r\n\F\r\n\r\n\r\n-- => always NotUtf8
b

# 100 bytes without the end of a head
--b\r\nA: <92 1>\r\n\r => always TooLarge
\n\r\n--b

--b\r\nA: <94 ->
end: not ended

--b\r\nA: <95 -> => always TooLarge

# a body of 91 bytes, and one without an end
--b\r\n\r\n<91 1>\r\n-- => always TooLarge
b

--b\r\n\r\n<94 ->
end: not ended

--b\r\n\r\n<95 -> => always TooLarge

a\r\n--b\r\n\r\n<95 -> => always TooLarge

# a preamble, after the line end that is held first, without and with the delimiter after it
<192 ->
end: not ended

<193 -> => always TooLarge

<188 ->\r\n--b
end: not ended

<189 ->\r\n-- => always TooLarge
b
"#;

#[test]
fn faults_of_part_streams(rt: HostRuntime) {
    let protocol = Protocol::PartStream(b"b", LIMITS);
    assert_walks_of_rows(&rt, rt.alloc(), protocol, "", EARLY);
}

/// More bytes at the same places, which come with one piece.
const MORE: &str = r#"
<600 -> => always TooLarge

<600 ->\r\n--b => always TooLarge

--b\r\nA: <600 -> => always TooLarge

--b\r\n\r\n<600 -> => always TooLarge

--b\r\n\r\n<600 ->\r\n--b => always TooLarge"#;

#[test]
fn long_faults_of_part_streams(rt: HostRuntime) {
    let whole = Way {
        first: usize::MAX,
        second: usize::MAX,
        by_slice: false,
        is_late: false,
    };
    for row in MORE.split("\n\n") {
        let protocol = Protocol::PartStream(b"b", LIMITS);
        assert_walk_of_row(&rt, rt.alloc(), protocol, row, whole);
    }
}

/// No limit that the bodies below come near.
const LARGE: Limits = Limits {
    head: 100,
    body: usize::MAX,
};

/// How many bytes of a body come with the events that are due, or `None` after an error.
fn body_bytes_given(parts: &mut PartStream) -> Option<usize> {
    let mut count = 0_usize;
    for _ in 0..parts.remaining().saturating_add(1) {
        match parts.next_event().ok()? {
            Some(PartEvent::Body(piece)) => count = count.saturating_add(piece.len()),
            Some(PartEvent::Head(_head)) => (),
            Some(PartEvent::End) => (),
            None => return Some(count),
        }
    }
    None
}

/// Whether a body of `pieces` pieces of `len` bytes is given but for four bytes, which are all that
/// wait, after each piece.
fn is_upload_given(alloc: Global, pieces: usize, len: usize) -> Option<bool> {
    let mut parts = PartStream::new(alloc, b"b", LARGE).ok()?;
    parts.push_slice(b"--b\r\n\r\n12345").ok()?;
    let mut given = body_bytes_given(&mut parts)?;
    let mut pushed = 5_usize;
    for _ in 0..pieces {
        let piece = Bytes::from_vec(vec![in alloc; b'a'; len].ok()?).ok()?;
        parts.push(piece).ok()?;
        pushed = pushed.saturating_add(len);
        given = given.saturating_add(body_bytes_given(&mut parts)?);
        if parts.remaining() != 4 || given.saturating_add(4) != pushed {
            return Some(false);
        }
    }
    Some(true)
}

#[test]
fn uploads_are_not_held(rt: HostRuntime) {
    for (pieces, len) in [(3_000, 1), (300, 100), (100, 1_448), (10, 65_536)] {
        assert!(rt;
            is_upload_given(rt.alloc(), pieces, len) == Some(true),
            "{len}"
        );
    }
}
