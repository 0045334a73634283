//! `Chain`: one buffer, and then another.
ghost use Rattle.std.specs.Prelude.{◌≡◌, ◌+◌, ◌-◌, ◌≤◌, ◌++◌, length, min, take, drop, IsOk, IfOk, IfErr};
ghost use Rattle.bytes.specs.Adapters.{chain_first, chain_last, chain_limit};
ghost use Rattle.bytes_utils_buf.specs.Copies.{taken_by_copy};
ghost use Rattle.bytes_utils_buf.specs.Slices.{FillsSlices};

use super::pair::{first_of_pair, first_pair_slices_into};
use crate::contiguous::ContiguousBuf;
use crate::parts::{BufParts, CopyRefused};
use bytes::buf::Chain;
use bytes::{Buf, Bytes};
use std::alloc::Global;

/// `copy_out` shares the bytes if one of the two buffers has them all, and its `prefix` shares them,
/// which that of a `BytesMut` doesn't. If it fails, it has taken none.
impl<T: ContiguousBuf, U: ContiguousBuf> BufParts for Chain<T, U> {
    ghost loses = { λ _ _ taken. taken ≡ 0 };

    fn copy_out(&mut self, alloc: Global, len: usize) -> Result<Bytes, CopyRefused> {
        let Ok(copy) = first_of_pair(self.first_ref(), self.last_ref(), alloc, len) else {
            return Err(CopyRefused { taken: 0 });
        };
        self.advance(len);
        Ok(copy)
    }

    fn chunks_into<'s>(&'s self, dst: &mut [&'s [u8]]) -> usize {
        first_pair_slices_into(
            self.first_ref().as_contiguous(),
            self.last_ref().as_contiguous(),
            self.remaining(),
            dst,
        )
    }
}
