//! `BytesQueue`: a queue of shared chunks.
ghost use Rattle.std.specs.Prelude.{◌≡◌, ◌≤◌, length, take, drop, IsOk, IfOk, IfErr};
ghost use Rattle.bytes_utils_buf.specs.Copies.{taken_by_copy};
ghost use Rattle.bytes_utils_buf.specs.Slices.{FillsSlices};

use crate::parts::{BufParts, CopyRefused};
use bytes::{Bytes, BytesQueue};
use std::alloc::Global;

/// `copy_out` shares the bytes if the first chunk has them all. If it fails, the bytes that the
/// queue's own `split_to` took are lost.
impl BufParts for BytesQueue {
    fn copy_out(&mut self, alloc: Global, len: usize) -> Result<Bytes, CopyRefused> {
        if len == 0 {
            return Ok(Bytes::new());
        }
        match self.split_to(alloc, len) {
            Ok(copy) => Ok(copy),
            Err(refused) => Err(CopyRefused {
                taken: refused.value.len(),
            }),
        }
    }

    fn chunks_into<'s>(&'s self, dst: &mut [&'s [u8]]) -> usize {
        self.chunks_vectored(dst)
    }
}
