//! Refused memory: a held buffer that reads nothing.
use crate::cases::fixtures::{assert_that, put, skip};
use bytes::{Buf, Bytes};
use bytes_utils_buf::segmented::SegmentedBuf;

// These calls allocate nothing, so they are never refused.
#[test]
fn empty_segmented_buf_needs_no_memory(rt: HostRuntime) {
    let mut buf: SegmentedBuf<Bytes> = SegmentedBuf::new(rt.alloc());
    assert_that(
        &rt,
        buf.fits(usize::MAX) && put(&mut buf, Bytes::new()) && skip(&mut buf, 0),
    );
    assert_that(
        &rt,
        buf.segments() == 0 && buf.remaining() == 0 && buf.chunk().is_empty(),
    );
    assert_that(&rt, buf.into_inner().capacity() == 0);
}
