//! Reading a `SegmentedSlice`.
use crate::cases::fixtures::odd::OddZeros;
use crate::cases::fixtures::reading::{assert_reads, assert_reads_nothing};
use crate::cases::fixtures::{FIVE, assert_that, bytes_of_texts, is_next, lend};
use bytes::{Buf, Bytes};
use bytes_utils_buf::contiguous::ContiguousBuf;
use bytes_utils_buf::segmented::SegmentedSlice;
use std::alloc::Global;
use std::io::Read;
use std::process::Abort;

/// Whether the buffers hold these texts.
fn slice_holds_texts<B: ContiguousBuf>(bufs: &[B], texts: &str) -> bool {
    let mut wanted = texts.split('|');
    for buf in bufs {
        if !is_next(&mut wanted, buf.as_contiguous()) {
            return false;
        }
    }
    wanted.next().is_none()
}

/// Fails the test unless reads of `FIVE` are right, and the buffers hold these texts after the borrow.
fn assert_slice_leaves(rt: &(impl Abort + Alloc<A = Global>), row: &str, texts: &str) {
    let mut bufs = bytes_of_texts(rt.alloc(), FIVE).expect(rt, "memory");
    assert_reads(rt, &mut lend(rt, &mut bufs), row);
    assert_that(rt, slice_holds_texts(&bufs, texts));
}

#[test]
fn segmented_slice_advance(rt: HostRuntime) {
    assert_slice_leaves(&rt, "pass , left 11 Hello", FIVE);
    assert_slice_leaves(&rt, "pass Hel, left 8 lo", "lo|| ||World");
    assert_slice_leaves(&rt, "pass Hello , left 5 World", "||||World");
}

#[test]
fn empty_segmented_slice(rt: HostRuntime) {
    let mut none: [&[u8]; 0] = [];
    assert_reads_nothing(&rt, &mut lend(&rt, &mut none));
}

// All of the bytes are read by std's reader.
#[test]
fn segmented_slice_of_hello(rt: HostRuntime) {
    let mut bufs: [&[u8]; 5] = [b"Hello", b"", b" ", b"", b"World"];
    let mut all = lend(&rt, &mut bufs);
    assert_reads(&rt, &mut all, "left 11 Hello");
    let mut bytes = Vec::new(rt.alloc());
    assert_that(&rt, all.reader().read_to_end(&mut bytes).is_ok());
    assert_that(&rt, bytes.as_slice() == b"Hello World".as_slice());
}

#[test]
fn segmented_slice_totals(rt: HostRuntime) {
    let mut bufs = [OddZeros { left: usize::MAX }, OddZeros { left: 0 }];
    assert_that(&rt, SegmentedSlice::total(&bufs) == Some(usize::MAX));
    bufs[1].left = 1;
    assert_that(&rt, SegmentedSlice::total(&bufs).is_none());
}
