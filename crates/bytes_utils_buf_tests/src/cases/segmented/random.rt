//! The same bytes read through buffers of different kinds.
use crate::cases::fixtures::reading::assert_reads;
use crate::cases::fixtures::{FIVE, JOINED, assert_that, lend, slices_of_texts};
use bytes::Bytes;
use bytes_utils_buf::segmented::SegmentedBuf;
use std::process::Abort;

/// The bytes of `JOINED` in pieces, and how many bytes are left after each.
const PIECES: &str =
    "copy , left 11, copy Hel, left 8, copy lo Wo, left 3, copy r, left 2, copy ld, left 0";

#[test]
fn random_reads_of_segments(rt: HostRuntime) {
    let bufs = slices_of_texts(rt.alloc(), FIVE).expect(&rt, "memory");
    let held = SegmentedBuf::from_iter(rt.alloc(), bufs.into_iter());
    let mut held = held.ok().expect(&rt, "memory");
    let mut clone = held.try_clone().ok().expect(&rt, "memory");
    assert_that(&rt, held.segments() <= 5);
    assert_reads(&rt, &mut held, PIECES);
    assert_reads(&rt, &mut clone, "copy Hello World");
    let mut bufs = slices_of_texts(rt.alloc(), FIVE).expect(&rt, "memory");
    assert_reads(&rt, &mut lend(&rt, &mut bufs), PIECES);
    assert_reads(&rt, &mut Bytes::from_static(JOINED.as_bytes()), PIECES);
}
