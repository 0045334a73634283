//! Bytes that are split off, shared if they can be.
ghost use Rattle.std.specs.Prelude.{◌≡◌, ◌+◌, ◌≤◌, [], length, take, drop, IsOk, IfOk, IfErr, OnOk, OnErr};
ghost use Rattle.std.specs.List.{concat};
ghost use Rattle.bytes_utils_buf.specs.Segments.{CountsPass, IsPaid, SkipsSegments, newly_held, take_from_segments};

use super::SegmentedBuf;
use crate::Reason;
use crate::contiguous::ContiguousBuf;
use bytes::Bytes;
use std::alloc::Global;
use std::collections::VecDeque;
use std::mem::replace;

impl<B: ContiguousBuf + Drop> SegmentedBuf<B> {
    /// Takes the first `len` bytes out, as segments of their own, shared if a segment shares its
    /// own. Requires that `len` is at most `remaining()` (test: `remaining`). Fails with
    /// `OutOfMemory` if memory is refused; then nothing has changed. With `len` 0 it never fails.
    pub fn split_to(&mut self, alloc: Global, len: usize) -> Result<SegmentedBuf<Bytes>, Reason>
        requires { len ≤ length (concat self.old.segments) }
        ensures ok { IfOk result (λ first. first ≡ newly_held (take_from_segments len self.old.segments)) }
        ensures front { IfOk result
            (λ first. concat first.segments ≡ take len (concat self.old.segments)) }
        ensures bytes { OnOk result (concat self.new.segments ≡ drop len (concat self.old.segments)) }
        ensures skips { OnOk result (SkipsSegments len self.old.segments self.new.segments) }
        ensures err { OnErr result (self.new ≡ self.old) }
        ensures reason { IfErr result (λ reason. reason ≡ Reason.OutOfMemory) }
        ensures none { len ≡ 0 → IsOk result }

        // Each passed segment counts one turn, on this value's own tally.
        ensures counts { OnOk result (CountsPass 1 self.old self.new) }
        ensures paid { IsPaid self.old self.new }
    {
        let first = self.prefix(alloc, len)?;
        self.advance(len);
        Ok(first)
    }
}

impl SegmentedBuf<Bytes> {
    /// Keeps the first `at` bytes, and returns those after them. A segment that is cut is shared by
    /// both. Requires that `at` is at most `remaining()` (test: `remaining`). Fails with
    /// `OutOfMemory` if memory is refused; then nothing has changed. With `at` 0, or equal to
    /// `remaining()`, it never fails.
    pub fn split_off(&mut self, alloc: Global, at: usize) -> Result<SegmentedBuf<Bytes>, Reason>
        requires { at ≤ length (concat self.old.segments) }

        // The kept part has a tally of its own.
        ensures kept { OnOk result (self.new ≡ newly_held (take_from_segments at self.old.segments)) }
        ensures front { OnOk result (concat self.new.segments ≡ take at (concat self.old.segments)) }
        ensures skips { IfOk result (λ rest. SkipsSegments at self.old.segments rest.segments) }
        ensures bytes { IfOk result
            (λ rest. concat rest.segments ≡ drop at (concat self.old.segments)) }
        ensures err { OnErr result (self.new ≡ self.old) }
        ensures reason { IfErr result (λ reason. reason ≡ Reason.OutOfMemory) }
        ensures none { at ≡ 0 → IsOk result }
        ensures all { at ≡ length (concat self.old.segments) → IsOk result }

        // The returned part has the tally from before. Each passed segment counts one turn on it.
        ensures counts { IfOk result (λ rest. CountsPass 1 self.old rest) }
    {
        if at == self.remaining {
            return Ok(self.keep_all(alloc));
        }
        let front = self.split_to(alloc, at)?;
        Ok(replace(self, front))
    }

    /// Keeps all segments, and returns a value that holds none of them, with the tally from before.
    fn keep_all(&mut self, alloc: Global) -> SegmentedBuf<Bytes>
        ensures kept { self.new ≡ newly_held self.old.segments }
        ensures rest { result.segments ≡ [] }
        ensures counts { CountsPass 1 self.old result }
    {
        let segments = replace(&mut self.segments, VecDeque::new(alloc));
        self.tally.call();
        self.tally.turns(segments.len());
        let len = replace(&mut self.remaining, 0);
        replace(self, SegmentedBuf::newly_held(segments, len))
    }
}
