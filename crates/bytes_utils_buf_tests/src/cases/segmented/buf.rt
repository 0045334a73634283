//! A `SegmentedBuf` with nothing in it, what it hands back, and the debug texts and sizes of all
//! segmented types.
use crate::cases::fixtures::reading::assert_reads_nothing;
use crate::cases::fixtures::{FOUR, assert_that, debugs, held, lend};
use bytes::Bytes;
use bytes_utils_buf::segmented::{PackedBuf, SegmentedBuf, SegmentedSlice};
use std::collections::VecDeque;

#[test]
fn empty_segmented_buf(rt: HostRuntime) {
    let mut buf: SegmentedBuf<Bytes> = SegmentedBuf::new(rt.alloc());
    assert_that(&rt, buf.segments() == 0);
    assert_reads_nothing(&rt, &mut buf);
}

#[test]
fn segmented_buf_becomes_a_deque(rt: HostRuntime) {
    let segments: VecDeque<Bytes> = held(&rt, FOUR).into();
    assert_that(&rt, segments.len() == 3);
}

#[test]
fn segmented_buf_and_others_have_debug_texts(rt: HostRuntime) {
    let buf: SegmentedBuf<Bytes> = SegmentedBuf::new(rt.alloc());
    assert_that(&rt, debugs(rt.alloc(), &buf, "SegmentedBuf"));
    let packed = PackedBuf::new(rt.alloc(), 4);
    assert_that(&rt, debugs(rt.alloc(), &packed, "PackedBuf"));
    let mut bufs = [b"a".as_slice()];
    let holds = debugs(rt.alloc(), &lend(&rt, &mut bufs), "SegmentedSlice");
    assert_that(&rt, holds);
}

// The tally and ghost fields have no bytes: there are only the deque and the sum, or the borrow, the
// place and the sum.
#[test]
fn segmented_buf_ghosts_have_no_bytes(rt: HostRuntime) {
    let (buf, sum) = (size_of::<SegmentedBuf<Bytes>>(), size_of::<usize>());
    let slice = size_of::<SegmentedSlice<'static, Bytes>>();
    assert_that(&rt, buf == size_of::<VecDeque<Bytes>>() + sum);
    assert_that(&rt, slice == size_of::<&'static mut [Bytes]>() + 2 * sum);
}
