//! What no clause says: that long parts are not refused, and what is left after memory is refused.
mod memory;

use crate::cases::fixtures::{assert_that, long};
use bytes_utils_buf::contiguous::ContiguousBuf;
use std::alloc::Global;
use std::process::Abort;

/// Whether all of the bytes are returned, and all but the first.
fn contiguous_gives_long<B: ContiguousBuf>(alloc: Global, buf: &B) -> bool {
    buf.remaining() == 100_000
        && matches!(&buf.prefix(alloc, 100_000), Ok(all) if all.len() == 100_000)
        && matches!(&buf.part(alloc, 1..100_000), Ok(part) if part.len() == 99_999)
}

// No copy of many bytes is refused while there is memory.
#[test]
fn contiguous_prefix_and_part_of_long_slices(rt: HostRuntime) {
    assert_that(&rt, contiguous_gives_long(rt.alloc(), &long()));
}
