//! Worked cases of runs.
mod memory;

use bytes::{Buf, Bytes};
use bytes_utils::parts::BufParts;
use bytes_utils::{SegmentedBuf, SegmentedSlice};
use bytes_utils_run::odd::{Drip, Zeros};
use bytes_utils_run::{Call, ReadCall, Replies, Reply, drive, read_calls};
use std::alloc::Global;
use std::test::Fail;

/// Returns whether these are the slices in `wanted`, where a comma comes after each.
fn are_slices_of_call(slices: &[Vec<u8>], wanted: &str) -> bool {
    let mut rest = wanted;
    for slice in slices {
        let (front, following) = rest.split_once(',').unwrap_or(("", ""));
        if slice.as_slice() != front.as_bytes() {
            return false;
        }
        rest = following;
    }
    rest.is_empty()
}

/// Returns whether a piece is as written: by its bytes, or by their number.
fn is_piece_of_call(piece: &[u8], wanted: &str) -> bool {
    match wanted.strip_suffix(" bytes") {
        Some(count) => count.parse().ok() == Some(piece.len()),
        None => piece == wanted.as_bytes(),
    }
}

/// Returns whether a reply is as written: in words, as a number, or as a piece or its bytes.
fn is_reply_of_call(reply: &Reply, wanted: &str) -> bool {
    match reply {
        Reply::Done => wanted == "ok",
        Reply::PastEnd => wanted == "past end",
        Reply::TooLong => wanted == "too long",
        Reply::NoMemory | Reply::CopyStopped(_) => false,
        Reply::Number(number) => wanted.parse().ok() == Some(*number),
        Reply::Piece(piece) => is_piece_of_call(piece.as_slice(), wanted),
        Reply::Shown(chunk) => chunk.as_slice() == wanted.as_bytes(),
        Reply::Slices(slices) => are_slices_of_call(slices, wanted),
    }
}

/// Returns whether these are the replies, written with a bar between them.
fn are_replies_of_calls(replies: &Replies, wanted: &str) -> bool {
    let mut rest = wanted.split('|');
    for reply in &replies.given {
        if !is_reply_of_call(reply, rest.next().unwrap_or("none")) {
            return false;
        }
    }
    rest.next().is_none() && replies.refused.is_none()
}

/// Returns whether the buffer gives these replies to the calls.
fn calls_give_replies<B: BufParts>(
    alloc: Global,
    buf: &mut B,
    calls: &[ReadCall],
    wanted: &str,
) -> bool {
    match Vec::from_slice(alloc, calls) {
        Ok(calls) => are_replies_of_calls(&read_calls(alloc, buf, calls), wanted),
        Err(_) => false,
    }
}

/// Eight zero bytes, three times, and four of them.
const ZEROS: &str = "\0\0\0\0\0\0\0\0|\0\0\0\0\0\0\0\0,\0\0\0\0\0\0\0\0,\0\0\0\0,|\
    \0\0\0\0\0\0\0\0,\0\0\0\0\0\0\0\0,|ok|\0\0\0\0";

#[test]
fn calls_on_zeros_and_drips(rt: HostRuntime) -> Result<(), Fail> {
    let calls = [
        ReadCall::Chunk,
        ReadCall::Chunks(5),
        ReadCall::Chunks(2),
        ReadCall::Advance(16),
        ReadCall::Chunk,
    ];
    assert!(rt; calls_give_replies(rt.alloc(), &mut Zeros::new(20), &calls, ZEROS));
    let long = [ReadCall::CopyOut(50_000)];
    assert!(rt; calls_give_replies(rt.alloc(), &mut Zeros::new(70_000), &long, "50000 bytes"));
    let (first, second) = (Bytes::from_static(b"ab"), Bytes::from_static(b"c"));
    let drips = vec![in rt.alloc(); Drip::new(first), Drip::new(second)]?;
    let mut buf = SegmentedBuf::from_vec(rt.alloc(), drips)?;
    let calls = [
        ReadCall::Chunk,
        ReadCall::Chunks(2),
        ReadCall::Chunks(5),
        ReadCall::CopyOut(3),
    ];
    let is_right = calls_give_replies(rt.alloc(), &mut buf, &calls, "a|a,b,|a,b,c,|abc");
    drop(buf);
    assert!(rt; is_right);
    Ok(())
}

/// Makes a buffer out of four, one of them empty.
fn four_for_calls(alloc: Global) -> Result<SegmentedBuf<Bytes>, Fail> {
    let mut buf = SegmentedBuf::new(alloc);
    for text in "Hello| ||World".split('|') {
        buf.try_push(Bytes::from_static(text.as_bytes()))?;
    }
    Ok(buf)
}

#[test]
fn calls_on_nested_buffers(rt: HostRuntime) -> Result<(), Fail> {
    let mut both = vec![in rt.alloc(); four_for_calls(rt.alloc())?, four_for_calls(rt.alloc())?]?;
    let calls = [
        ReadCall::Remaining,
        ReadCall::CopyOut(12),
        ReadCall::Chunk,
        ReadCall::Advance(11),
        ReadCall::Advance(10),
        ReadCall::Chunk,
        ReadCall::Remaining,
    ];
    let wanted = "22|Hello WorldH|ello|past end|ok||0";
    assert!(rt; SegmentedSlice::total(&both).is_some());
    assert!(rt;
        calls_give_replies(
            rt.alloc(),
            &mut SegmentedSlice::new(&mut both),
            &calls,
            wanted
        )
    );
    Ok(())
}

// A buffer that would make the length pass `usize::MAX` isn't appended.
#[test]
fn calls_push_past_the_greatest_length(rt: HostRuntime) -> Result<(), Fail> {
    let all = vec![in rt.alloc(); Zeros::new(usize::MAX)]?;
    let mut buf = SegmentedBuf::from_vec(rt.alloc(), all)?;
    let calls = vec![in rt.alloc(); Call::Push(Zeros::new(1)), Call::Segments]?;
    let replies = drive(rt.alloc(), &mut buf, calls);
    assert!(rt; are_replies_of_calls(&replies, "too long|1") && buf.remaining() == usize::MAX);
    Ok(())
}

#[test]
fn many_calls_on_a_buffer(rt: HostRuntime) -> Result<(), Fail> {
    let mut pushes = Vec::new(rt.alloc());
    for _ in 0..10_000 {
        pushes.push(Call::Push(Zeros::new(10)))?;
    }
    let mut buf = SegmentedBuf::new(rt.alloc());
    let replies = drive(rt.alloc(), &mut buf, pushes);
    assert!(rt; replies.refused.is_none() && replies.given.len() == 10_000);
    assert!(rt; buf.segments() == 10_000);
    let reads = vec![in rt.alloc(); ReadCall::CopyOut(10); 10_000]?;
    let replies = read_calls(rt.alloc(), &mut buf, reads);
    assert!(rt; replies.refused.is_none() && replies.given.len() == 10_000);
    Ok(())
}
