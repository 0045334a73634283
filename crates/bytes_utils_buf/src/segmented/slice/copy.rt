//! Copies of the bytes of borrowed buffers.
ghost use Rattle.std.specs.Prelude.{◌≡◌, ◌+◌, ◌<◌, ◌≤◌, [], length, map, take, drop, replicate, IsTrue, ◌↔◌, IsOk, IfOk, IfErr, ◌⊎◌};
ghost use Rattle.std.specs.List.{concat};
ghost use Rattle.bytes_utils_buf.specs.Copies.{CountsCopy, LosesAcross, taken_by_copy};
ghost use Rattle.bytes_utils_buf.specs.Lent.{held_of, SkipsLent};
ghost use Rattle.bytes_utils_buf.specs.Segments.{CountsPass, front_segment, IsPaid, SkipsSegments};

use super::SegmentedSlice;
use crate::parts::{BufParts, CopyRefused};
use crate::segmented::copy::{SegmentedCopy, bytes_copied};
use crate::segmented::skip::skip_empty_lent;
use crate::segmented::tally::Tally;
use bytes::{Buf, Bytes};
use std::alloc::Global;

impl<B: BufParts> SegmentedSlice<'_, B> {
    /// Takes the first `len` bytes out. If the first buffer has them all, its own `copy_out`
    /// returns them: a `Bytes` shares them, and never fails for all that it has. Otherwise they are
    /// copied. Requires that `len` is at most `remaining()` (test: `remaining`). Fails with
    /// `CopyRefused` if memory is refused, never for no bytes; then `taken` bytes are lost: none or
    /// all across buffers, or as many as that `copy_out` took.
    pub fn copy_to_bytes(&mut self, alloc: Global, len: usize) -> Result<Bytes, CopyRefused>
        requires { len ≤ length (concat self.old.segments) }
        ensures value { IfOk result (λ copy. copy ≡ take len (concat self.old.segments)) }
        ensures taken { taken_by_copy len result ≤ len }
        ensures skips { SkipsLent (taken_by_copy len result) self.old self.new }
        ensures bytes { concat self.new.segments
            ≡ drop (taken_by_copy len result) (concat self.old.segments) }

        // If the first buffer alone is asked, a refusal took what that buffer's own took. Across
        // buffers it took nothing or all.
        ensures lost { len ≤ length (front_segment self.old.segments) → 0 < length self.old.segments
            → IfErr result (λ e. B.loses (length (front_segment self.old.segments)) len e.taken) }
        ensures refused { length (front_segment self.old.segments) < len
            → IfErr result (λ e. (e.taken ≡ 0) ⊎ (e.taken ≡ len)) }
        ensures none { len ≡ 0 → IsOk result }
        ensures counts { CountsCopy len (taken_by_copy len result)
            (held_of self.old) (held_of self.new) }
        ensures paid { IsPaid (held_of self.old) (held_of self.new) }
    {
        self.tally.call();
        if self.can_copy_front(len) {
            self.copy_front(alloc, len)
        } else {
            self.collect(alloc, len)
        }
    }

    fn can_copy_front(&self, len: usize) -> bool
        ensures { IsTrue result
            ↔ ((0 < length self.now.segments) × (len ≤ length (front_segment self.now.segments))) }
    {
        let bufs = &*self.bufs;
        self.place < bufs.len() && len <= bufs[self.place].remaining()
    }

    fn copy_front(&mut self, alloc: Global, len: usize) -> Result<Bytes, CopyRefused>
        requires some { 0 < length self.old.segments }
        requires holds { len ≤ length (front_segment self.old.segments) }
        ensures value { IfOk result (λ copy. copy ≡ take len (concat self.old.segments)) }
        ensures taken { taken_by_copy len result ≤ len }
        ensures lost { IfErr result (λ e. B.loses (length (front_segment self.old.segments)) len e.taken) }
        ensures none { len ≡ 0 → IsOk result }
        ensures skips { SkipsLent (taken_by_copy len result) self.old self.new }
        ensures counts { CountsPass 0 (held_of self.old) (held_of self.new) }
    {
        let place = self.place;
        let bufs = &mut *self.bufs;
        let (passed, copy) = copy_from_first_of_slice(
            &mut bufs[place..],
            &mut self.tally,
            alloc,
            len,
        );
        self.place += passed;
        self.remaining -= bytes_copied(&copy, len);
        copy
    }
}

/// Takes `len` bytes out of the first of these buffers alone, by its `copy_out`, and then counts the
/// empty ones at the front.
fn copy_from_first_of_slice<B: BufParts>(
    bufs: &mut [B],
    tally: &mut Tally,
    alloc: Global,
    len: usize,
) -> (usize, Result<Bytes, CopyRefused>)
    requires some { 0 < length bufs.old }
    requires holds { len ≤ length (front_segment (map B.unread bufs.old)) }
    ensures value { IfOk result.1 (λ copy. copy ≡ take len (concat (map B.unread bufs.old))) }
    ensures taken { taken_by_copy len result.1 ≤ len }
    ensures lost { IfErr result.1
        (λ e. B.loses (length (front_segment (map B.unread bufs.old))) len e.taken) }
    ensures none { len ≡ 0 → IsOk result.1 }
    ensures passed { result.0 ≤ length bufs.old }
    ensures read_out { take result.0 (map B.unread bufs.new) ≡ replicate result.0 [] }
    ensures skips { SkipsSegments (taken_by_copy len result.1) (map B.unread bufs.old)
        (drop result.0 (map B.unread bufs.new)) }
    ensures turns { tally.new ≡ record tally.old { turns = tally.old.turns + result.0 } }
{
    let copy = bufs[0].copy_out(alloc, len);
    let empty = skip_empty_lent(bufs, tally);
    (empty, copy)
}

/// By `copy_to_bytes` and `chunks_vectored`.
impl<B: BufParts> BufParts for SegmentedSlice<'_, B> {
    // As the first buffer's own refusal, or nothing or all: `front` and `refused` say which.
    ghost loses = { LosesAcross B.loses };

    fn copy_out(&mut self, alloc: Global, len: usize) -> Result<Bytes, CopyRefused>
        requires { len ≤ length (concat self.old.segments) }
        ensures value { IfOk result (λ copy. copy ≡ take len (concat self.old.segments)) }
        ensures taken { taken_by_copy len result ≤ len }
        ensures skips { SkipsLent (taken_by_copy len result) self.old self.new }
        ensures rest { concat self.new.segments
            ≡ drop (taken_by_copy len result) (concat self.old.segments) }
        ensures lost { IfErr result
            (λ e. LosesAcross B.loses (length (concat self.old.segments)) len e.taken) }
        ensures front { len ≤ length (front_segment self.old.segments) → 0 < length self.old.segments
            → IfErr result (λ e. B.loses (length (front_segment self.old.segments)) len e.taken) }
        ensures refused { length (front_segment self.old.segments) < len
            → IfErr result (λ e. (e.taken ≡ 0) ⊎ (e.taken ≡ len)) }
        ensures none { len ≡ 0 → IsOk result }
        ensures counts { CountsCopy len (taken_by_copy len result)
            (held_of self.old) (held_of self.new) }
    {
        self.copy_to_bytes(alloc, len)
    }

    fn chunks_into<'s>(&'s self, dst: &mut [&'s [u8]]) -> usize {
        self.chunks_vectored(dst)
    }
}
