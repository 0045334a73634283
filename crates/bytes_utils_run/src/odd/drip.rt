//! A buffer that shows one byte at a time.
ghost use Rattle.std.specs.Prelude.{◌≡◌, ◌<◌, ◌≤◌, length, take, drop, All, IsOk, IfOk, IfErr, OnErr};
ghost use Rattle.bytes.specs.Unread.{IsChunkOf};
ghost use Rattle.bytes_utils_buf.specs.Copies.{taken_by_copy};
ghost use Rattle.bytes_utils_buf.specs.Slices.{FillsSlices};

use bytes::{Buf, Bytes};
use bytes_utils::parts::{BufParts, CopyRefused};
use std::alloc::Global;
use std::marker::Model;

/// Bytes that are shown one at a time: each chunk and each slice is one byte.
#[derive(Debug, Drop)]
pub struct Drip {
    bytes: Bytes,
}

impl Model for Drip {
    ghost use Rattle.std.specs.Prelude.{ℕ, List};

    ghost Value = { List ℕ };

    ghost view = { λ d. d.bytes };
}

impl Drip {
    /// Makes a buffer of these bytes.
    pub fn new(bytes: Bytes) -> Drip
        ensures { result ≡ bytes }
    {
        Drip { bytes }
    }
}

impl Buf for Drip {
    ghost unread = { λ d. d };

    fn remaining(&self) -> usize {
        self.bytes.len()
    }

    fn chunk(&self) -> &[u8]
        ensures chunk { IsChunkOf result.now self.now }
        ensures one { result.now ≡ take 1 self.now }
    {
        &self.bytes.as_slice()[..self.bytes.len().min(1)]
    }

    fn advance(&mut self, cnt: usize) {
        self.bytes.advance(cnt);
    }
}

/// `copy_out` is that of `Bytes`.
impl BufParts for Drip {
    ghost loses = { λ held len taken. (taken ≡ 0) × (len < held) };

    fn copy_out(&mut self, alloc: Global, len: usize) -> Result<Bytes, CopyRefused> {
        self.bytes.copy_out(alloc, len)
    }

    fn chunks_into<'s>(&'s self, dst: &mut [&'s [u8]]) -> usize
        ensures fills { FillsSlices result dst.old dst.new self.now }
        ensures one { All (λ s. length s.now ≡ 1) (take result dst.new) }
    {
        let bytes = self.bytes.as_slice();
        let count = bytes.len().min(dst.len());
        for i in 0..count {
            dst[i] = &bytes[i..i + 1];
        }
        count
    }
}
