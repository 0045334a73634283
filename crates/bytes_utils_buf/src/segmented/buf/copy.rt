//! Copies of the bytes.
ghost use Rattle.std.specs.Prelude.{◌≡◌, ◌+◌, ◌<◌, ◌≤◌, length, map, take, drop, IsOk, IfOk, IfErr, ◌⊎◌};
ghost use Rattle.std.specs.List.{concat};
ghost use Rattle.bytes_utils_buf.specs.Copies.{CountsCopy, LosesAcross, taken_by_copy};
ghost use Rattle.bytes_utils_buf.specs.Segments.{CountsPass, front_segment, IsPaid, SkipsSegments};

use super::SegmentedBuf;
use super::front::{front_holds, take_from_front};
use crate::parts::{BufParts, CopyRefused};
use crate::segmented::copy::{SegmentedCopy, bytes_copied};
use crate::segmented::skip::skip_held;
use bytes::Bytes;
use std::alloc::Global;

impl<B: BufParts + Drop> SegmentedBuf<B> {
    /// Takes the first `len` bytes out. If the first segment has them all, its own `copy_out`
    /// returns them: a `Bytes` shares them, and never fails for all that it has. Otherwise they are
    /// copied. Requires that `len` is at most `remaining()` (test: `remaining`). Fails with
    /// `CopyRefused` if memory is refused, never for no bytes; then `taken` bytes are lost: none or
    /// all across segments, or as many as that `copy_out` took. To lose none of a `ContiguousBuf`,
    /// call `peek_bytes` and then `advance`.
    pub fn copy_to_bytes(&mut self, alloc: Global, len: usize) -> Result<Bytes, CopyRefused>
        requires { len ≤ length (concat self.old.segments) }
        ensures value { IfOk result (λ copy. copy ≡ take len (concat self.old.segments)) }
        ensures taken { taken_by_copy len result ≤ len }
        ensures skips { SkipsSegments (taken_by_copy len result) self.old.segments self.new.segments }
        ensures bytes { concat self.new.segments
            ≡ drop (taken_by_copy len result) (concat self.old.segments) }

        // If the first segment alone is asked, a refusal took what that segment's own took. Across
        // segments it took nothing or all.
        ensures lost { len ≤ length (front_segment self.old.segments) → 0 < length self.old.segments
            → IfErr result (λ e. B.loses (length (front_segment self.old.segments)) len e.taken) }
        ensures refused { length (front_segment self.old.segments) < len
            → IfErr result (λ e. (e.taken ≡ 0) ⊎ (e.taken ≡ len)) }
        ensures none { len ≡ 0 → IsOk result }
        ensures counts { CountsCopy len (taken_by_copy len result) self.old self.new }
        ensures paid { IsPaid self.old self.new }
    {
        self.tally.call();
        if front_holds(&self.segments, len) {
            self.copy_front(alloc, len)
        } else {
            self.collect(alloc, len)
        }
    }

    fn copy_front(&mut self, alloc: Global, len: usize) -> Result<Bytes, CopyRefused>
        requires some { 0 < length self.old.segments }
        requires holds { len ≤ length (front_segment self.old.segments) }
        ensures value { IfOk result (λ copy. copy ≡ take len (concat self.old.segments)) }
        ensures taken { taken_by_copy len result ≤ len }
        ensures lost { IfErr result (λ e. B.loses (length (front_segment self.old.segments)) len e.taken) }
        ensures none { len ≡ 0 → IsOk result }
        ensures skips { SkipsSegments (taken_by_copy len result) self.old.segments self.new.segments }
        ensures counts { CountsPass 0 self.old self.new }
    {
        let copy = take_from_front(&mut self.segments, alloc, len);
        skip_held(&mut self.segments, &mut self.tally, 0);
        self.remaining -= bytes_copied(&copy, len);
        copy
    }
}

impl<B: BufParts + Drop> BufParts for SegmentedBuf<B> {
    // As the first segment's own refusal, or nothing or all: `front` and `refused` say which.
    ghost loses = { LosesAcross B.loses };

    fn copy_out(&mut self, alloc: Global, len: usize) -> Result<Bytes, CopyRefused>
        requires { len ≤ length (concat self.old.segments) }
        ensures value { IfOk result (λ copy. copy ≡ take len (concat self.old.segments)) }
        ensures taken { taken_by_copy len result ≤ len }
        ensures skips { SkipsSegments (taken_by_copy len result) self.old.segments self.new.segments }
        ensures rest { concat self.new.segments
            ≡ drop (taken_by_copy len result) (concat self.old.segments) }
        ensures lost { IfErr result
            (λ e. LosesAcross B.loses (length (concat self.old.segments)) len e.taken) }
        ensures front { len ≤ length (front_segment self.old.segments) → 0 < length self.old.segments
            → IfErr result (λ e. B.loses (length (front_segment self.old.segments)) len e.taken) }
        ensures refused { length (front_segment self.old.segments) < len
            → IfErr result (λ e. (e.taken ≡ 0) ⊎ (e.taken ≡ len)) }
        ensures none { len ≡ 0 → IsOk result }
        ensures counts { CountsCopy len (taken_by_copy len result) self.old self.new }
    {
        self.copy_to_bytes(alloc, len)
    }

    fn chunks_into<'s>(&'s self, dst: &mut [&'s [u8]]) -> usize {
        self.chunks_vectored(dst)
    }
}
