//! Single bytes and ranges, read or shared and not taken.
ghost use Rattle.std.specs.Prelude.{◌≡◌, ◌+◌, ◌-◌, ◌≤◌, List, ℕ, length, slice_range, IsTrue, ◌↔◌, IsOk, IfOk, IfErr};
ghost use Rattle.std.specs.List.{concat, slice_get};
ghost use Rattle.std.specs.Cow.{cow_slice_items};
ghost use Rattle.bytes_utils_buf.specs.Segments.{front_segment, IsInOneSegment, newly_held, SkipsSegments, take_from_segments};

use super::SegmentedBuf;
use crate::Reason;
use crate::contiguous::ContiguousBuf;
use crate::segmented::pieces::{
    copy_pieces, part_of_piece, pieces_start_with, rest_of_piece, share_pieces,
};
use crate::segmented::place::find_place;
use bytes::Bytes;
use std::alloc::Global;
use std::borrow::CowSlice;
use std::ops::Range;

impl<B: ContiguousBuf + Drop> SegmentedBuf<B> {
    /// Returns the byte at index `place`, if there is one: of `Hello` and ` World`, byte 6 is `W`.
    pub fn byte_at(&self, place: usize) -> Option<u8>
        ensures { result ≡ slice_get (concat self.now.segments) place }
    {
        if place >= self.remaining {
            return None;
        }
        let from = find_place(&self.segments, self.remaining, place);
        Some(rest_of_piece(&self.segments, from)[0])
    }

    /// Returns whether the unread bytes from index `place` on start with `bytes`: those of `Hello`
    /// and ` World` from 3 on start with `lo W`.
    pub fn holds_at(&self, place: usize, bytes: &[u8]) -> bool
        ensures { IsTrue result
            ↔ ((place + length bytes.now ≤ length (concat self.now.segments))
            × (slice_range (concat self.now.segments) place (place + length bytes.now) ≡ bytes.now)) }
    {
        if place > self.remaining || bytes.len() > self.remaining - place {
            return false;
        }
        let from = find_place(&self.segments, self.remaining, place);
        pieces_start_with(&self.segments, from, bytes)
    }

    /// Returns the bytes of a range as segments of their own, shared if a segment shares its own.
    /// They stay here too. Of `Hello` and ` World` the range `3..8` is `lo` and ` Wo`. Requires
    /// that `range.start <= range.end` and `range.end <= remaining()` (test: `remaining`). Fails
    /// with `OutOfMemory` if memory is refused. An empty range never fails.
    pub fn slice(&self, alloc: Global, range: Range<usize>) -> Result<SegmentedBuf<Bytes>, Reason>
        requires ordered { range.start ≤ range.end }
        requires within { range.end ≤ length (concat self.now.segments) }

        // They are the first bytes after a skip to the start of the range.
        ensures ok { IfOk result (λ part. (rest : List (List ℕ))
            × SkipsSegments range.start self.now.segments rest
            × (part ≡ newly_held (take_from_segments (range.end - range.start) rest))) }
        ensures bytes { IfOk result (λ part. concat part.segments
            ≡ slice_range (concat self.now.segments) range.start range.end) }
        ensures reason { IfErr result (λ reason. reason ≡ Reason.OutOfMemory) }
        ensures none { range.start ≡ range.end → IsOk result }
    {
        let len = range.end - range.start;
        let from = find_place(&self.segments, self.remaining, range.start);
        let pieces = share_pieces(&self.segments, from, alloc, len)?;
        Ok(SegmentedBuf::newly_held(pieces, len))
    }

    /// Returns the bytes of a range in one `Bytes`. They stay here too. If one segment has them
    /// all, its own `part` returns them: a `Bytes` shares them. Otherwise they are copied into one
    /// block. Requires that `range.start <= range.end` and `range.end <= remaining()` (test:
    /// `remaining`). Fails with `OutOfMemory` if memory is refused. An empty range never fails.
    pub fn copy_range(&self, alloc: Global, range: Range<usize>) -> Result<Bytes, Reason>
        requires ordered { range.start ≤ range.end }
        requires within { range.end ≤ length (concat self.now.segments) }
        ensures value { IfOk result (λ copy. copy
            ≡ slice_range (concat self.now.segments) range.start range.end) }
        ensures reason { IfErr result (λ reason. reason ≡ Reason.OutOfMemory) }
        ensures none { range.start ≡ range.end → IsOk result }
    {
        let len = range.end - range.start;
        if len == 0 {
            return Ok(Bytes::new());
        }
        let from = find_place(&self.segments, self.remaining, range.start);
        if len <= rest_of_piece(&self.segments, from).len() {
            return part_of_piece(&self.segments, from, alloc, len);
        }
        let mut copy = Vec::with_capacity(alloc, len)?;
        copy_pieces(&self.segments, from, &mut copy, len);
        Ok(Bytes::from_vec(copy)?)
    }

    /// As `copy_range`, for bytes that are only read: they are borrowed if one segment has them all,
    /// and else copied into one `Vec`. Nothing is shared. A range within one segment never fails.
    pub fn read_range(&self, alloc: Global, range: Range<usize>) -> Result<CowSlice<'_, u8>, Reason>
        requires ordered { range.start ≤ range.end }
        requires within { range.end ≤ length (concat self.now.segments) }
        ensures value { IfOk result (λ bytes. cow_slice_items bytes
            ≡ slice_range (concat self.now.segments) range.start range.end) }
        ensures reason { IfErr result (λ reason. reason ≡ Reason.OutOfMemory) }
        ensures none { range.start ≡ range.end → IsOk result }
        ensures one { IsInOneSegment range.start range.end self.now.segments → IsOk result }
        ensures first { range.end ≤ length (front_segment self.now.segments) → IsOk result }
    {
        let len = range.end - range.start;
        if len == 0 {
            return Ok(CowSlice::Borrowed(&[]));
        }
        let from = find_place(&self.segments, self.remaining, range.start);
        let rest = rest_of_piece(&self.segments, from);
        if len <= rest.len() {
            return Ok(CowSlice::Borrowed(&rest[..len]));
        }
        let mut bytes = Vec::with_capacity(alloc, len)?;
        copy_pieces(&self.segments, from, &mut bytes, len);
        Ok(CowSlice::Owned(bytes))
    }
}
