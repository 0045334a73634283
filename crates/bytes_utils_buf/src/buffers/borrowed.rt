//! Borrowed buffers: each call goes to the buffer that the `&mut` borrows.
ghost use Rattle.std.specs.Prelude.{◌≡◌, ◌≤◌, length, take, drop, slice_range, IsOk, IfOk, IfErr};
ghost use Rattle.bytes_utils_buf.specs.Copies.{taken_by_copy};
ghost use Rattle.bytes_utils_buf.specs.Slices.{FillsSlices};

use crate::Reason;
use crate::contiguous::ContiguousBuf;
use crate::parts::{BufParts, CopyRefused};
use bytes::Bytes;
use std::alloc::Global;
use std::ops::Range;

impl<T: BufParts> BufParts for &mut T {
    ghost loses = { T.loses };

    fn copy_out(&mut self, alloc: Global, len: usize) -> Result<Bytes, CopyRefused> {
        T::copy_out(&mut **self, alloc, len)
    }

    fn chunks_into<'s>(&'s self, dst: &mut [&'s [u8]]) -> usize {
        T::chunks_into(&**self, dst)
    }
}

impl<T: ContiguousBuf> ContiguousBuf for &mut T {
    fn as_contiguous(&self) -> &[u8] {
        T::as_contiguous(&**self)
    }

    fn prefix(&self, alloc: Global, len: usize) -> Result<Bytes, Reason> {
        T::prefix(&**self, alloc, len)
    }

    fn part(&self, alloc: Global, range: Range<usize>) -> Result<Bytes, Reason> {
        T::part(&**self, alloc, range)
    }
}
