//! `BytesMut`: bytes that are taken out of it are shared.
ghost use Rattle.std.specs.Prelude.{◌≡◌, ◌<◌, ◌≤◌, length, take, drop, IsOk, IfOk, IfErr, OnErr};
ghost use Rattle.bytes.specs.Adapters.{kept_spare};
ghost use Rattle.bytes_utils_buf.specs.Copies.{taken_by_copy};
ghost use Rattle.bytes_utils_buf.specs.Slices.{joined_slices, FillsSlices};

use crate::contiguous::ContiguousBuf;
use crate::parts::{BufParts, CopyRefused, slice_into};
use bytes::{Bytes, BytesMut};
use std::alloc::Global;

/// `copy_out` shares the bytes. If it fails, it has taken none.
impl BufParts for BytesMut {
    ghost loses = { λ _ _ taken. taken ≡ 0 };

    fn copy_out(&mut self, _alloc: Global, len: usize) -> Result<Bytes, CopyRefused>
        requires { len ≤ length self.old.items }
        ensures value { IfOk result (λ copy. copy ≡ take len self.old.items) }
        ensures taken { taken_by_copy len result ≤ len }
        ensures rest { self.new.items ≡ drop (taken_by_copy len result) self.old.items }
        ensures kept { kept_spare self.new.spare ≡ kept_spare self.old.spare }
        ensures refused { IfErr result (λ e. e.taken ≡ 0) }
        ensures same { OnErr result (self.new ≡ self.old) }
        ensures none { len ≡ 0 → IsOk result }
    {
        match self.freeze_to(len) {
            Ok(copy) => Ok(copy),
            Err(_) => Err(CopyRefused { taken: 0 }),
        }
    }

    fn chunks_into<'s>(&'s self, dst: &mut [&'s [u8]]) -> usize
        ensures fills { FillsSlices result dst.old dst.new self.now.items }
        ensures one { result ≤ 1 }
        ensures all { 0 < length dst.old → joined_slices (take result dst.new) ≡ self.now.items }
    {
        slice_into(self.as_slice(), dst)
    }
}

/// `prefix` and `part` copy the bytes: only a call that takes them out can share them.
impl ContiguousBuf for BytesMut {
    fn as_contiguous(&self) -> &[u8] {
        self.as_slice()
    }
}
