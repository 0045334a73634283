//! Buffers that a `SegmentedBuf` accepts, and those that it refuses.
use super::rows::assert_segmented_rows;
use crate::cases::fixtures::odd::OddZeros;
use crate::cases::fixtures::reading::assert_reads;
use crate::cases::fixtures::{assert_that, hold};
use bytes::{Buf, Bytes};
use bytes_utils_buf::segmented::SegmentedBuf;
use bytes_utils_buf::{Reason, Refused};
use std::alloc::Global;
use std::collections::VecDeque;
use std::process::Abort;

// Empty buffers are not held.
const EMPTY: &str = "\
from_vec - -
from_vec | -
from_iter | -
push - -, extend | -";

#[test]
fn inserting_empty_bufs(rt: HostRuntime) {
    assert_segmented_rows(&rt, EMPTY);
}

// `x`, ten thousand empty buffers, and `y`.
fn mostly_empty_to_insert(rt: &(impl Abort + Alloc<A = Global>)) -> Vec<Bytes> {
    let mut bufs = Vec::with_capacity(rt.alloc(), 10_002).expect(rt, "memory");
    for place in 0..10_002 {
        let buf = Bytes::from_static(match place {
            0 => b"x",
            10_001 => b"y",
            _ => b"",
        });
        assert!(rt; bufs.push(buf).is_ok());
    }
    bufs
}

#[test]
fn inserting_many_empty_bufs(rt: HostRuntime) {
    let buf = SegmentedBuf::from_vec(rt.alloc(), mostly_empty_to_insert(&rt));
    let mut buf = buf.ok().expect(&rt, "memory");
    assert_that(&rt, buf.segments() == 2);
    assert_reads(&rt, &mut buf, "left 2 x, pass x, left 1 y");
    assert_that(&rt, buf.segments() == 1);
}

fn zeros_to_insert(rt: &(impl Abort + Alloc<A = Global>), counts: &[usize]) -> Vec<OddZeros> {
    let mut bufs = Vec::with_capacity(rt.alloc(), counts.len()).expect(rt, "memory");
    for &left in counts {
        assert!(rt; bufs.push(OddZeros { left }).is_ok());
    }
    bufs
}

/// Whether a buffer of one byte came back, since it was too long.
fn is_too_long_to_insert<T: Drop>(answer: Result<T, Refused<OddZeros>>) -> bool {
    match answer {
        Ok(_) => false,
        Err(refused) => refused.reason == Reason::TooLong && refused.back.left == 1,
    }
}

// A buffer of the greatest length accepts no bytes, and refuses one byte. A deque of both is refused.
#[test]
fn inserting_too_long_a_buf(rt: HostRuntime) {
    let mut buf = hold(&rt, OddZeros { left: usize::MAX });
    assert_that(&rt, buf.fits(0) && !buf.fits(1));
    let answer = buf.extend(zeros_to_insert(&rt, &[0, 1]).into_iter());
    assert_that(&rt, is_too_long_to_insert(answer));
    assert_that(&rt, buf.segments() == 1 && buf.remaining() == usize::MAX);
    let both = VecDeque::from_vec(zeros_to_insert(&rt, &[usize::MAX, 1]));
    let refused = SegmentedBuf::from_deque(both)
        .err()
        .expect(&rt, "a refusal");
    assert_that(
        &rt,
        refused.reason == Reason::TooLong && refused.back.len() == 2,
    );
}

// The third item doesn't fit after the second, and the fourth stays with the iterator.
#[test]
fn inserting_stops_at_a_refused_item(rt: HostRuntime) {
    let counts = [0, usize::MAX, 1, 2];
    let mut items = zeros_to_insert(&rt, &counts).into_iter();
    assert_that(
        &rt,
        is_too_long_to_insert(SegmentedBuf::new(rt.alloc()).extend(items.by_ref())),
    );
    assert_that(&rt, matches!(&items.next(), Some(next) if next.left == 2));
    let mut items = zeros_to_insert(&rt, &counts).into_iter();
    assert_that(
        &rt,
        is_too_long_to_insert(SegmentedBuf::from_iter(rt.alloc(), items.by_ref())),
    );
    assert_that(&rt, matches!(&items.next(), Some(next) if next.left == 2));
}
