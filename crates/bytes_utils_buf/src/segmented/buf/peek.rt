//! Peeking at the bytes.
ghost use Rattle.std.specs.Prelude.{◌≡◌, ◌^◌, ◌<◌, ◌≤◌, ◌++◌, length, min, take, drop, IsTrue, ◌↔◌, IfSome, IfNone, IsOk, IfOk, IfErr};
ghost use Rattle.std.specs.List.{concat, slice_get};
ghost use Rattle.std.specs.Option.{option_map};
ghost use Rattle.bytes_utils_buf.specs.Segments.{IsPlace, newly_held, take_from_segments};

use super::SegmentedBuf;
use super::front::front_holds;
use crate::Reason;
use crate::contiguous::ContiguousBuf;
use crate::segmented::pieces::{copy_pieces, copy_pieces_into, pieces_start_with, share_pieces};
use crate::segmented::place::{FRONT, find_place};
use bytes::Bytes;
use std::alloc::Global;

impl<B: ContiguousBuf + Drop> SegmentedBuf<B> {
    /// Returns the bytes of the segment at index `place`, from 0 at the front, if there is one.
    #[inline]
    pub fn segment(&self, place: usize) -> Option<&[u8]>
        ensures { option_map (λ bytes. bytes.now) result ≡ slice_get self.now.segments place }
    {
        Some(self.segments.get(place)?.as_contiguous())
    }

    /// Returns where the byte at index `place` is, if there is one: the index of its segment, and its
    /// index in that. Of `Hello` and ` World`, byte 6 is at `(1, 1)`. It is looked for from the
    /// nearer end.
    pub fn segment_of(&self, place: usize) -> Option<(usize, usize)>
        ensures some { IfSome result
            (λ at. IsPlace place at.0 at.1 self.now.segments × (at.0 < length self.now.segments)) }
        ensures none { IfNone result (length (concat self.now.segments) ≤ place) }
        ensures fits { length (concat self.now.segments) < 2 ^ 64 }
    {
        if place >= self.remaining {
            return None;
        }
        let found = find_place(&self.segments, self.remaining, place);
        Some((found.passed, found.offset))
    }

    /// Copies the first bytes into `dst`, as many as fit, and returns how many. They stay here too.
    pub fn peek(&self, dst: &mut [u8]) -> usize
        ensures count { result ≡ min (length dst.old) (length (concat self.now.segments)) }
        ensures bytes { dst.new ≡ take result (concat self.now.segments) ++ drop result dst.old }
    {
        let count = dst.len().min(self.remaining);
        copy_pieces_into(&self.segments, &mut dst[..count]);
        count
    }

    /// Returns the first `len` bytes as segments of their own, shared if a segment shares its own.
    /// They stay here too. Requires that `len` is at most `remaining()` (test: `remaining`). Fails
    /// with `OutOfMemory` if memory is refused. With `len` 0 it never fails.
    pub fn prefix(&self, alloc: Global, len: usize) -> Result<SegmentedBuf<Bytes>, Reason>
        requires { len ≤ length (concat self.now.segments) }
        ensures ok { IfOk result (λ first. first ≡ newly_held (take_from_segments len self.now.segments)) }
        ensures bytes { IfOk result
            (λ first. concat first.segments ≡ take len (concat self.now.segments)) }
        ensures reason { IfErr result (λ reason. reason ≡ Reason.OutOfMemory) }
        ensures none { len ≡ 0 → IsOk result }
    {
        let pieces = share_pieces(&self.segments, FRONT, alloc, len)?;
        Ok(SegmentedBuf::newly_held(pieces, len))
    }

    /// Returns the first `len` bytes in one `Bytes`. They stay here too. If the first segment has
    /// them all, its own `prefix` returns them: a `Bytes` shares them. Otherwise they are copied
    /// into one block. Requires that `len` is at most `remaining()` (test: `remaining`). Fails with
    /// `OutOfMemory` if memory is refused. With `len` 0 it never fails.
    #[inline]
    pub fn peek_bytes(&self, alloc: Global, len: usize) -> Result<Bytes, Reason>
        requires { len ≤ length (concat self.now.segments) }
        ensures value { IfOk result (λ copy. copy ≡ take len (concat self.now.segments)) }
        ensures reason { IfErr result (λ reason. reason ≡ Reason.OutOfMemory) }
        ensures none { len ≡ 0 → IsOk result }
    {
        if front_holds(&self.segments, len) {
            return self.segments[0].prefix(alloc, len);
        }
        let mut copy = Vec::with_capacity(alloc, len)?;
        copy_pieces(&self.segments, FRONT, &mut copy, len);
        Ok(Bytes::from_vec(copy)?)
    }

    /// Returns whether the unread bytes start with `prefix`.
    pub fn starts_with(&self, prefix: &[u8]) -> bool
        ensures { IsTrue result
            ↔ (take (length prefix.now) (concat self.now.segments) ≡ prefix.now) }
    {
        prefix.len() <= self.remaining && pieces_start_with(&self.segments, FRONT, prefix)
    }

    /// Returns whether the unread bytes are `bytes`.
    pub fn eq_bytes(&self, bytes: &[u8]) -> bool
        ensures { IsTrue result ↔ (concat self.now.segments ≡ bytes.now) }
    {
        self.remaining == bytes.len() && self.starts_with(bytes)
    }
}
