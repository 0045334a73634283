//! A buffer of any number of zero bytes.
ghost use Rattle.std.specs.Prelude.{◌≡◌, ◌≤◌, length, map, take, drop, replicate, IsOk, IfOk, IfErr, OnErr};
ghost use Rattle.bytes.specs.Unread.{IsChunkOf};
ghost use Rattle.bytes_utils_buf.specs.Copies.{taken_by_copy};
ghost use Rattle.bytes_utils_buf.specs.Slices.{FillsSlices};
ghost use Rattle.bytes_utils_run.specs.Odd.{odd_pieces};

use bytes::{Buf, Bytes};
use bytes_utils::parts::{BufParts, CopyRefused};
use std::alloc::{AllocError, Global};
use std::marker::Model;

/// The bytes whose beginning each chunk shows.
static EIGHT: [u8; 8] = [0; 8];

/// A number of zero bytes, shown eight at a time. It holds none of them, so there may be as many as
/// `usize::MAX`.
#[derive(Debug, Drop)]
pub struct Zeros {
    left: usize,
}

impl Model for Zeros {
    ghost use Rattle.std.specs.Prelude.{ℕ, List, replicate};

    ghost Value = { List ℕ };

    ghost view = { λ z. replicate z.left 0 };
}

impl Zeros {
    /// Makes a buffer of `left` zero bytes.
    pub fn new(left: usize) -> Zeros
        ensures { result ≡ replicate left 0 }
    {
        Zeros { left }
    }
}

fn zero_bytes(alloc: Global, count: usize) -> Result<Bytes, AllocError>
    ensures value { IfOk result (λ bytes. bytes ≡ replicate count 0) }
    ensures none { count ≡ 0 → IsOk result }
{
    if count == 0 {
        return Ok(Bytes::new());
    }
    Ok(Bytes::from_vec(vec![in alloc; 0; count]?)?)
}

impl Buf for Zeros {
    ghost unread = { λ z. z };

    fn remaining(&self) -> usize {
        self.left
    }

    fn chunk(&self) -> &[u8]
        ensures chunk { IsChunkOf result.now self.now }
        ensures eight { result.now ≡ take 8 self.now }
    {
        &EIGHT[..self.left.min(8)]
    }

    fn advance(&mut self, cnt: usize) {
        self.left -= cnt;
    }
}

/// `copy_out` allocates new bytes.
impl BufParts for Zeros {
    ghost loses = { λ _ _ taken. taken ≡ 0 };

    fn copy_out(&mut self, alloc: Global, len: usize) -> Result<Bytes, CopyRefused> {
        let Ok(copy) = zero_bytes(alloc, len) else {
            return Err(CopyRefused { taken: 0 });
        };
        self.left -= len;
        Ok(copy)
    }

    #[tactic(auto, using(crate::proofs::OddLemmas::FillsSlices_all_zeros, crate::proofs::OddLemmas::FillsSlices_none))]
    fn chunks_into<'s>(&'s self, dst: &mut [&'s [u8]]) -> usize
        ensures fills { FillsSlices result dst.old dst.new self.now }
        ensures eight { map (λ s. s.now) (take result dst.new) ≡ odd_pieces 8 result self.now }
    {
        let mut shown = 0;
        let mut filled = 0;
        while shown < self.left && filled < dst.len() {
            let size = (self.left - shown).min(8);
            dst[filled] = &EIGHT[..size];
            shown += size;
            filled += 1;
        }
        filled
    }
}
