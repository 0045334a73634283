//! Segmented buffers in segmented buffers.
use crate::cases::fixtures::reading::assert_reads;
use crate::cases::fixtures::{FOUR, assert_that, held, hold, lend, put};
use bytes::Buf;
use bytes_utils_buf::segmented::SegmentedBuf;
use std::alloc::Global;
use std::process::Abort;

/// Holds a buffer and another.
fn nested_pair<B: Buf + Drop>(
    rt: &(impl Abort + Alloc<A = Global>),
    first: B,
    second: B,
) -> SegmentedBuf<B> {
    let mut both = hold(rt, first);
    assert_that(rt, put(&mut both, second));
    both
}

// The upper buffer of the middle level is of two, of which the second is empty, and the lower one of
// a third. The outer buffer holds `ab`, `c` and `de`, the last in a segment of its own.
#[test]
fn nested_segments_of_three_levels(rt: HostRuntime) {
    let upper = nested_pair(&rt, held(&rt, "ab||c"), SegmentedBuf::new(rt.alloc()));
    let lower = nested_pair(&rt, held(&rt, "de"), SegmentedBuf::new(rt.alloc()));
    let mut outer = nested_pair(&rt, upper, lower);
    assert_that(&rt, outer.segments() == 2);
    assert_reads(
        &rt,
        &mut outer,
        "left 5 ab, slices ab|c|de, pass abc, left 2 de",
    );
    assert_that(&rt, outer.segments() == 1);
    assert_reads(&rt, &mut outer, "copy de, left 0 ");
    assert_that(&rt, outer.segments() == 0);
}

// Tables that nested buffers fill with slices.
#[test]
fn nested_segments_fill_tables(rt: HostRuntime) {
    let mut both = [held(&rt, FOUR), held(&rt, FOUR)];
    let row = "slices Hello| |World|Hello| |World, left 22 Hello, pass He, left 20 llo, slice llo";
    assert_reads(&rt, &mut lend(&rt, &mut both), row);
}
