//! Deques of bytes, which are two slices if they wrap around.
ghost use Rattle.std.specs.Prelude.{◌≡◌, ◌≤◌, length, take, drop, IsOk, IfOk, IfErr};
ghost use Rattle.bytes_utils_buf.specs.Copies.{taken_by_copy};
ghost use Rattle.bytes_utils_buf.specs.Slices.{FillsSlices};

use super::pair::{first_of_pair, pair_slices_into};
use crate::parts::{BufParts, CopyRefused};
use bytes::{Buf, Bytes};
use std::alloc::{Allocator, Global};
use std::collections::VecDeque;

/// `copy_out` copies the bytes. If it fails, it has taken none.
impl<A: Allocator> BufParts for VecDeque<u8, A> {
    ghost loses = { λ _ _ taken. taken ≡ 0 };

    fn copy_out(&mut self, alloc: Global, len: usize) -> Result<Bytes, CopyRefused> {
        let (front, back) = self.as_slices();
        let Ok(copy) = first_of_pair(&front, &back, alloc, len) else {
            return Err(CopyRefused { taken: 0 });
        };
        self.advance(len);
        Ok(copy)
    }

    fn chunks_into<'s>(&'s self, dst: &mut [&'s [u8]]) -> usize {
        let (front, back) = self.as_slices();
        pair_slices_into(front, back, dst)
    }
}
