//! `BufParts` of buffers that are not segmented.
mod memory;

use crate::cases::fixtures::odd::OddZeros;
use crate::cases::fixtures::reading::assert_reads;
use crate::cases::fixtures::{assert_that, long};
use bytes::Buf;
use bytes_utils_buf::parts::copy_out_of;
use std::alloc::Global;
use std::process::Abort;

// No copy of many bytes is refused while there is memory.
#[test]
fn buf_parts_of_long_slices(rt: HostRuntime) {
    assert_reads(&rt, &mut long(), "count 100000");
    let mut slice = long();
    let len = slice.len();
    let copy = copy_out_of(&mut slice, rt.alloc(), len);
    assert_that(&rt, matches!(&copy, Ok(copy) if copy.len() == 100_000));
}

/// Whether a copy of all bytes of a buffer is refused, and takes none of them.
fn refused_copy_takes_nothing<B: Buf>(alloc: Global, buf: &mut B) -> bool {
    let len = buf.remaining();
    let copy = copy_out_of(buf, alloc, len);
    matches!(&copy, Err(refused) if refused.taken == 0) && buf.remaining() == len
}

// No memory has `usize::MAX` bytes.
#[test]
fn buf_parts_refused_at_once_take_nothing(rt: HostRuntime) {
    let mut zeros = OddZeros { left: usize::MAX };
    assert_that(&rt, refused_copy_takes_nothing(rt.alloc(), &mut zeros));
}
