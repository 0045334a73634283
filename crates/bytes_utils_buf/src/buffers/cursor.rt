//! Cursors: the bytes after the position are unread.
ghost use Rattle.std.specs.Prelude.{◌≡◌, ◌≤◌, length, take, drop, IsOk, IfOk, IfErr};
ghost use Rattle.std.specs.Io.Cursor.{cursor_position, cursor_inner};
ghost use Rattle.bytes.specs.Adapters.{cursor_kept};
ghost use Rattle.bytes_utils_buf.specs.Copies.{taken_by_copy};
ghost use Rattle.bytes_utils_buf.specs.Slices.{FillsSlices};

use crate::contiguous::{ContiguousBuf, take_prefix};
use crate::parts::{BufParts, CopyRefused, slice_into};
use bytes::{Buf, Bytes};
use std::alloc::Global;
use std::convert::AsSlice;
use std::io::Cursor;

/// `copy_out` copies the bytes. If it fails, it has taken none.
impl<T: AsSlice<u8>> BufParts for Cursor<T> {
    ghost loses = { λ _ _ taken. taken ≡ 0 };

    fn copy_out(&mut self, alloc: Global, len: usize) -> Result<Bytes, CopyRefused> {
        take_prefix(self, alloc, len)
    }

    fn chunks_into<'s>(&'s self, dst: &mut [&'s [u8]]) -> usize {
        slice_into(self.as_contiguous(), dst)
    }
}

impl<T: AsSlice<u8>> ContiguousBuf for Cursor<T> {
    fn as_contiguous(&self) -> &[u8] {
        self.chunk()
    }
}
