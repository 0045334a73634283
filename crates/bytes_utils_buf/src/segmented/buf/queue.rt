//! Segments moved from and to a `BytesQueue`.
ghost use Rattle.std.specs.Prelude.{◌≡◌, ℕ, ◌+◌, ◌^◌, ◌<◌, List, [], ◌∷◌, ◌++◌, length, IsOk, OnOk, OnErr, IfErr};
ghost use Rattle.std.specs.List.{concat};
ghost use Rattle.bytes_utils_buf.specs.Segments.{CountsPass, IsPaid};

use super::SegmentedBuf;
use crate::Reason;
use bytes::{Bytes, BytesQueue};
use std::alloc::AllocFailed;

impl SegmentedBuf<Bytes> {
    /// Moves the chunks of `queue` to the end of the held segments, and copies no byte. Requires
    /// that `remaining() + queue.len()` fits `usize` (test: `fits`). Fails with `OutOfMemory` if
    /// memory is refused, never for an empty queue; then the chunks moved so far are held, the
    /// others, at least one, are in `queue`, and the call can be repeated.
    pub fn append_queue(&mut self, queue: &mut BytesQueue) -> Result<(), Reason>
        requires { length (concat self.old.segments) + length queue.old < 2 ^ 64 }

        // Chunks that were moved are held as they were in the queue. The others are left there.
        ensures moved { (moved : List (List ℕ)) × (concat moved ++ queue.new ≡ queue.old)
            × (self.new ≡ record {
              segments = self.old.segments ++ moved;
              tally = record self.old.tally {
                given = self.old.tally.given + length moved;
                calls = self.old.tally.calls + 1;
              };
            }) }
        ensures bytes { concat self.new.segments ++ queue.new
            ≡ concat self.old.segments ++ queue.old }
        ensures ok { OnOk result (queue.new ≡ []) }
        ensures err { OnErr result (0 < length queue.new) }
        ensures reason { IfErr result (λ reason. reason ≡ Reason.OutOfMemory) }
        ensures empty { queue.old ≡ [] → IsOk result }
        ensures paid { IsPaid self.old self.new }
    {
        self.tally.call();
        while !queue.is_empty() {
            self.accept_first(queue)?;
        }
        Ok(())
    }

    /// Moves the first chunk of `queue` to the end, after reserving its place. It counts no call.
    fn accept_first(&mut self, queue: &mut BytesQueue) -> Result<(), Reason>
        requires some { 0 < length queue.old }
        requires sum { length (concat self.old.segments) + length queue.old < 2 ^ 64 }
        ensures ok { OnOk result ((chunk : List ℕ) × (0 < length chunk)
            × (queue.old ≡ chunk ++ queue.new)
            × (self.new ≡ record {
              segments = self.old.segments ++ (chunk ∷ []);
              tally = record self.old.tally { given = self.old.tally.given + 1 };
            })) }
        ensures err { OnErr result (self.new ≡ self.old) }
        ensures left { OnErr result (queue.new ≡ queue.old) }
        ensures reason { IfErr result (λ reason. reason ≡ Reason.OutOfMemory) }
    {
        self.segments.reserve(1)?;
        let Some(chunk) = queue.pop() else {
            unreachable!()
        };
        self.remaining += chunk.len();
        self.segments.push_back_reserved(chunk);
        self.tally.give(1, 0);
        Ok(())
    }

    /// Moves the held segments to the end of `queue`, and copies no byte. Requires that
    /// `remaining() + queue.len()` fits `usize` (test: `fits`). Fails with `OutOfMemory` if memory
    /// is refused, never if no segment is held; then the segments moved so far are in `queue`, the
    /// others, at least one, are held, and the call can be repeated.
    pub fn drain_into_queue(&mut self, queue: &mut BytesQueue) -> Result<(), Reason>
        requires { length (concat self.old.segments) + length queue.old < 2 ^ 64 }

        // The queue has the bytes of the segments that were moved. The others are left here.
        ensures moved { (moved : List (List ℕ)) × (self.old.segments ≡ moved ++ self.new.segments)
            × (queue.new ≡ queue.old ++ concat moved) }
        ensures bytes { queue.new ++ concat self.new.segments
            ≡ queue.old ++ concat self.old.segments }
        ensures ok { OnOk result (self.new.segments ≡ []) }
        ensures err { OnErr result (0 < length self.new.segments) }
        ensures reason { IfErr result (λ reason. reason ≡ Reason.OutOfMemory) }
        ensures empty { self.old.segments ≡ [] → IsOk result }

        // Each segment that is moved counts as passed, by one turn.
        ensures counts { CountsPass 1 self.old self.new }
        ensures paid { IsPaid self.old self.new }
    {
        self.tally.call();
        while !self.segments.is_empty() {
            self.give_first(queue)?;
        }
        Ok(())
    }

    /// Moves the first segment to the end of `queue`. If memory is refused, it goes back to its
    /// place, which needs no memory. It counts no call.
    fn give_first(&mut self, queue: &mut BytesQueue) -> Result<(), Reason>
        requires { 0 < length self.old.segments }
        ensures ok { OnOk result ((chunk : List ℕ) × (self.old.segments ≡ chunk ∷ self.new.segments)
            × (queue.new ≡ queue.old ++ chunk)
            × (self.new.tally ≡ record self.old.tally { turns = self.old.tally.turns + 1 })) }
        ensures err { OnErr result (self.new ≡ self.old) }
        ensures left { OnErr result (queue.new ≡ queue.old) }
        ensures reason { IfErr result (λ reason. reason ≡ Reason.OutOfMemory) }
    {
        let Some(chunk) = self.segments.pop_front() else {
            unreachable!()
        };
        let size = chunk.len();
        if let Err(AllocFailed { value }) = queue.push(chunk) {
            self.segments.push_front_reserved(value);
            return Err(Reason::OutOfMemory);
        }
        self.tally.turn();
        self.remaining -= size;
        Ok(())
    }
}
