//! Places of buffers of any type.
use super::packed::packed_hello;
use crate::cases::fixtures::{FOUR, assert_that, held, held_slices};
use bytes_utils_buf::contiguous::ContiguousBuf;
use bytes_utils_buf::segmented::SegmentedBuf;
use std::process::Abort;

/// Whether places of `FOUR` are found: in each half, at the borders of its segments, and past its end.
fn peek_finds_places<B: ContiguousBuf + Drop>(buf: &SegmentedBuf<B>) -> bool {
    buf.segment_of(3) == Some((0, 3))
        && buf.segment_of(8) == Some((2, 2))
        && buf.segment_of(5) == Some((1, 0))
        && buf.segment_of(6) == Some((2, 0))
        && buf.segment_of(11).is_none()
}

#[test]
fn places_of_segments_by_peek(rt: HostRuntime) {
    assert_that(&rt, peek_finds_places(&held(&rt, FOUR)));
    let slices = held_slices(rt.alloc(), FOUR).expect(&rt, "memory");
    assert_that(&rt, peek_finds_places(&slices));
    let packed = packed_hello(rt.alloc()).expect(&rt, "memory");
    assert_that(&rt, peek_finds_places(packed.as_segmented()));
}
