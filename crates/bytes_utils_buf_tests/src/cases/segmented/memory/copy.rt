//! Refused memory: bytes copied out of segmented buffers.
use crate::cases::fixtures::refusals::{copies_rest_or_refusal, following_copy_or_refusal};
use crate::cases::fixtures::{FOUR, JOINED, assert_row, held_slices, lend};
use bytes::Buf;
use bytes_utils_buf::parts::BufParts;
use bytes_utils_buf::segmented::{SegmentedBuf, SegmentedSlice};
use std::alloc::Global;

/// Copies the first bytes of `JOINED` by the type's own `copy_to_bytes`, and the rest by `copy_out`.
fn copies_held_if_memory_allows<B: BufParts + Drop>(
    rt: &impl Print,
    alloc: Global,
    buf: &mut SegmentedBuf<B>,
) -> Option<bool> {
    if buf.remaining() < 2 {
        return None;
    }
    let copy = buf.copy_to_bytes(alloc, 2);
    let (call, left) = ("SegmentedBuf::copy_to_bytes", buf.remaining());
    let rest = following_copy_or_refusal(rt, call, copy, 2, left, JOINED.as_bytes())?;
    Some(copies_rest_or_refusal(rt, alloc, "copy_out of SegmentedBuf", buf, rest))
}

/// The same of borrowed buffers.
fn copies_borrowed_if_memory_allows<B: BufParts>(
    rt: &impl Print,
    alloc: Global,
    all: &mut SegmentedSlice<'_, B>,
) -> Option<bool> {
    if all.remaining() < 2 {
        return None;
    }
    let copy = all.copy_to_bytes(alloc, 2);
    let (call, left) = ("SegmentedSlice::copy_to_bytes", all.remaining());
    let rest = following_copy_or_refusal(rt, call, copy, 2, left, JOINED.as_bytes())?;
    Some(copies_rest_or_refusal(rt, alloc, "copy_out of SegmentedSlice", all, rest))
}

#[test]
fn segmented_copies_if_memory_is_refused(rt: HostRuntime) {
    if let Some(mut buf) = held_slices(rt.alloc(), FOUR) {
        assert_row(
            &rt,
            "held",
            copies_held_if_memory_allows(&rt, rt.alloc(), &mut buf),
        );
    }
    let mut bufs: [&[u8]; 3] = [b"Hello", b" ", b"World"];
    assert_row(
        &rt,
        "lent",
        copies_borrowed_if_memory_allows(&rt, rt.alloc(), &mut lend(&rt, &mut bufs)),
    );
}
