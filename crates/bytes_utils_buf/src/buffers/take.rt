//! `Take`: a buffer up to a limit.
ghost use Rattle.std.specs.Prelude.{◌≡◌, ◌≤◌, length, take, drop, slice_range, IsOk, IfOk, IfErr};
ghost use Rattle.bytes.specs.Adapters.{take_inner, take_limit, take_kept};
ghost use Rattle.bytes_utils_buf.specs.Copies.{taken_by_copy};
ghost use Rattle.bytes_utils_buf.specs.Slices.{FillsSlices};

use crate::Reason;
use crate::contiguous::{ContiguousBuf, take_prefix};
use crate::parts::{BufParts, CopyRefused, slice_into};
use bytes::Bytes;
use bytes::buf::Take;
use std::alloc::Global;
use std::ops::Range;

/// `copy_out` shares the bytes if the inner `prefix` does. If it fails, it has taken none.
impl<T: ContiguousBuf> BufParts for Take<T> {
    ghost loses = { λ _ _ taken. taken ≡ 0 };

    fn copy_out(&mut self, alloc: Global, len: usize) -> Result<Bytes, CopyRefused> {
        take_prefix(self, alloc, len)
    }

    fn chunks_into<'s>(&'s self, dst: &mut [&'s [u8]]) -> usize {
        slice_into(self.as_contiguous(), dst)
    }
}

/// `prefix` and `part` share the bytes if the inner buffer does.
impl<T: ContiguousBuf> ContiguousBuf for Take<T> {
    fn as_contiguous(&self) -> &[u8] {
        let whole = self.get_ref().as_contiguous();
        &whole[..whole.len().min(self.limit())]
    }

    fn prefix(&self, alloc: Global, len: usize) -> Result<Bytes, Reason> {
        self.get_ref().prefix(alloc, len)
    }

    fn part(&self, alloc: Global, range: Range<usize>) -> Result<Bytes, Reason> {
        self.get_ref().part(alloc, range)
    }
}
