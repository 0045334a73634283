//! Buffers that are inserted at an end: one, many, and those of another value.
ghost use Rattle.std.specs.Prelude.{◌≡◌, ◌+◌, ◌-◌, ◌^◌, ◌<◌, ◌≤◌, List, [], ◌∷◌, ◌++◌, length, map, ◌↔◌, Some, IsOk, OnOk, OnErr, IfErr};
ghost use Rattle.std.specs.Iterator.{IsFinite, Drains, YieldsThen};
ghost use Rattle.std.specs.List.{concat};
ghost use Rattle.bytes_utils_buf.specs.Segments.{after_accepting, count_unread_segments, IsPaid, unread_segments};

use super::SegmentedBuf;
use crate::segmented::tally::Tally;
use crate::{Reason, Refused};
use bytes::Buf;
use std::collections::VecDeque;

impl<B: Buf + Drop> SegmentedBuf<B> {
    /// Appends `buf`. An empty buffer is dropped, and never refused. Requires that
    /// `remaining() + buf.remaining()` fits `usize` (test: `fits`). Fails with `OutOfMemory` if
    /// memory is refused; then nothing has changed and `buf` comes back.
    #[inline(always)]
    pub fn push(&mut self, buf: B) -> Result<(), Refused<B>>
        requires { length (concat self.old.segments) + length (B.unread buf) < 2 ^ 64 }
        ensures ok { OnOk result (self.new ≡ after_accepting self.old (B.unread buf ∷ [])) }
        ensures bytes { OnOk result
            (concat self.new.segments ≡ concat self.old.segments ++ B.unread buf) }
        ensures err { OnErr result (self.new ≡ self.old) }
        ensures back { IfErr result (λ e. e.back ≡ buf) }
        ensures reason { IfErr result (λ e. e.reason ≡ Reason.OutOfMemory) }
        ensures empty { B.unread buf ≡ [] → IsOk result }
        ensures paid { IsPaid self.old self.new }
    {
        let size = buf.remaining();
        insert_at_end(&mut self.segments, &mut self.tally, buf, size)?;
        self.remaining += size;
        self.tally.call();
        Ok(())
    }

    /// Appends `buf` as `push` does, and tests `fits` itself. An empty buffer is dropped, and never
    /// refused. Fails with `TooLong` if the sum of the lengths exceeds `usize::MAX`, or with
    /// `OutOfMemory` if memory is refused; then nothing has changed, and `buf` comes back.
    #[inline(always)]
    pub fn try_push(&mut self, buf: B) -> Result<(), Refused<B>>
        ensures ok { OnOk result (self.new ≡ after_accepting self.old (B.unread buf ∷ [])) }
        ensures bytes { OnOk result
            (concat self.new.segments ≡ concat self.old.segments ++ B.unread buf) }
        ensures err { OnErr result (self.new ≡ self.old) }
        ensures back { IfErr result (λ e. e.back ≡ buf) }

        // An accepted buffer fits. A refusal is for the length exactly if the sum passes `usize`, and
        // for memory exactly if it doesn't.
        ensures fits { OnOk result
            (length (concat self.old.segments) + length (B.unread buf) < 2 ^ 64) }
        ensures too_long { IfErr result (λ e. (e.reason ≡ Reason.TooLong)
            ↔ (2 ^ 64 ≤ length (concat self.old.segments) + length (B.unread buf))) }
        ensures memory { IfErr result (λ e. (e.reason ≡ Reason.OutOfMemory)
            ↔ (length (concat self.old.segments) + length (B.unread buf) < 2 ^ 64)) }
        ensures empty { B.unread buf ≡ [] → IsOk result }
        ensures paid { IsPaid self.old self.new }
    {
        if !self.fits(buf.remaining()) {
            return Err(Refused {
                reason: Reason::TooLong,
                back: buf,
            });
        }
        self.push(buf)
    }

    /// Appends the items of `iter`, and drops empty ones, which are never refused. Requires that
    /// `iter` ends, and that its `next` may be called. Fails at the first item with which the sum
    /// exceeds `usize::MAX` (`TooLong`) or for which memory is refused (`OutOfMemory`); then that
    /// item comes back, and those before it are held. Those after it are dropped with `iter`, or
    /// stay in it if it was passed as `&mut iter`.
    pub fn extend<I: Iterator<Item = B> + Drop>(&mut self, iter: I) -> Result<(), Refused<B>>
        requires can { I.can_next iter }
        requires ends { IsFinite (I.remaining iter) }

        // All items were appended, or those before the one that comes back.
        ensures ok { OnOk result ((items : List B) × Drains I.next_gives iter items
            × (self.new ≡ after_accepting self.old (map B.unread items))) }
        ensures err { IfErr result (λ e. (items : List B) × (rest : I)
            × YieldsThen I.next_gives iter items (Some e.back) rest
            × (self.new ≡ after_accepting self.old (map B.unread items))) }

        // The unread bytes are followed by those of the items.
        ensures bytes { OnOk result ((items : List B) × Drains I.next_gives iter items
            × (concat self.new.segments ≡ concat self.old.segments ++ concat (map B.unread items))) }
        ensures bytes_before { IfErr result (λ e. (items : List B) × (rest : I)
            × YieldsThen I.next_gives iter items (Some e.back) rest
            × (concat self.new.segments ≡ concat self.old.segments ++ concat (map B.unread items))) }

        // Which error it is, and that an empty item causes none.
        ensures too_long { IfErr result (λ e. (e.reason ≡ Reason.TooLong)
            ↔ (2 ^ 64 ≤ length (concat self.new.segments) + length (B.unread e.back))) }
        ensures empty { IfErr result (λ e. 0 < length (B.unread e.back)) }
        ensures paid { IsPaid self.old self.new }
    {
        self.tally.call();
        for buf in iter {
            self.insert_one(buf)?;
        }
        Ok(())
    }

    /// Appends one item. It counts no call.
    #[inline(always)]
    fn insert_one(&mut self, buf: B) -> Result<(), Refused<B>>
        ensures ok { OnOk result (self.new ≡ record {
          segments = self.old.segments ++ unread_segments (B.unread buf ∷ []);
          tally = record self.old.tally {
            given = self.old.tally.given + 1;
            dropped = self.old.tally.dropped + (1 - count_unread_segments (B.unread buf ∷ []));
          };
        }) }
        ensures err { OnErr result (self.new ≡ self.old) }
        ensures back { IfErr result (λ e. e.back ≡ buf) }
        ensures too_long { IfErr result (λ e. (e.reason ≡ Reason.TooLong)
            ↔ (2 ^ 64 ≤ length (concat self.old.segments) + length (B.unread e.back))) }
        ensures empty { IfErr result (λ e. 0 < length (B.unread e.back)) }
    {
        let size = buf.remaining();
        let Some(remaining) = self.remaining.checked_add(size) else {
            return Err(Refused {
                reason: Reason::TooLong,
                back: buf,
            });
        };
        insert_at_end(&mut self.segments, &mut self.tally, buf, size)?;
        self.remaining = remaining;
        Ok(())
    }

    /// Puts `buf` before the held segments. An empty buffer is dropped, and never refused. Requires
    /// that `remaining() + buf.remaining()` fits `usize` (test: `fits`). Fails with `OutOfMemory`
    /// if memory is refused; then nothing has changed and `buf` comes back.
    pub fn prepend(&mut self, buf: B) -> Result<(), Refused<B>>
        requires { length (concat self.old.segments) + length (B.unread buf) < 2 ^ 64 }
        ensures ok { OnOk result (self.new.segments
            ≡ unread_segments (B.unread buf ∷ []) ++ self.old.segments) }
        ensures bytes { OnOk result
            (concat self.new.segments ≡ B.unread buf ++ concat self.old.segments) }

        // It counts like a `push`.
        ensures tally { OnOk result
            (self.new.tally ≡ (after_accepting self.old (B.unread buf ∷ [])).tally) }
        ensures err { OnErr result (self.new ≡ self.old) }
        ensures back { IfErr result (λ e. e.back ≡ buf) }
        ensures reason { IfErr result (λ e. e.reason ≡ Reason.OutOfMemory) }
        ensures empty { B.unread buf ≡ [] → IsOk result }
        ensures paid { IsPaid self.old self.new }
    {
        let len = buf.remaining();
        if len == 0 {
            return self.push(buf);
        }
        if self.segments.reserve(1).is_err() {
            return Err(Refused {
                reason: Reason::OutOfMemory,
                back: buf,
            });
        }
        self.segments.push_front_reserved(buf);
        self.remaining += len;
        self.tally.give(1, 0);
        self.tally.call();
        Ok(())
    }

    /// Moves the segments of `other` to the end of the held ones. Requires that
    /// `remaining() + other.remaining()` fits `usize` (test: `fits`). Fails with `OutOfMemory` if
    /// memory is refused, never if `other` has no segment; then nothing has changed and `other`
    /// comes back.
    pub fn append(&mut self, mut other: SegmentedBuf<B>) -> Result<(), Refused<SegmentedBuf<B>>>
        requires { length (concat self.old.segments) + length (concat other.segments) < 2 ^ 64 }
        ensures ok { OnOk result (self.new ≡ record {
          segments = self.old.segments ++ other.segments;
          tally = record self.old.tally {
            given = self.old.tally.given + length other.segments;
            calls = self.old.tally.calls + 1;
          };
        }) }
        ensures bytes { OnOk result
            (concat self.new.segments ≡ concat self.old.segments ++ concat other.segments) }
        ensures err { OnErr result (self.new ≡ self.old) }
        ensures back { IfErr result (λ e. e.back ≡ other) }
        ensures reason { IfErr result (λ e. e.reason ≡ Reason.OutOfMemory) }
        ensures empty { other.segments ≡ [] → IsOk result }
        ensures paid { IsPaid self.old self.new }
    {
        let count = other.segments.len();
        let Ok(()) = self.segments.append(&mut other.segments) else {
            return Err(Refused {
                reason: Reason::OutOfMemory,
                back: other,
            });
        };
        self.remaining += other.remaining;
        self.tally.give(count, 0);
        self.tally.call();
        Ok(())
    }
}

/// Appends `buf`, of `size` bytes, or drops it if empty. Either way it counts as given.
#[inline(always)]
fn insert_at_end<B: Buf + Drop>(
    segments: &mut VecDeque<B>,
    tally: &mut Tally,
    buf: B,
    size: usize,
) -> Result<(), Refused<B>>
    requires { size ≡ length (B.unread buf) }
    ensures ok { OnOk result (map B.unread segments.new.items
        ≡ map B.unread segments.old.items ++ unread_segments (B.unread buf ∷ [])) }
    ensures tally { OnOk result (tally.new ≡ record tally.old {
      given = tally.old.given + 1;
      dropped = tally.old.dropped + (1 - count_unread_segments (B.unread buf ∷ []));
    }) }
    ensures err { OnErr result (segments.new.items ≡ segments.old.items) }
    ensures same { OnErr result (tally.new ≡ tally.old) }
    ensures back { IfErr result (λ e. e.back ≡ buf) }
    ensures reason { IfErr result (λ e. e.reason ≡ Reason.OutOfMemory) }
    ensures empty { size ≡ 0 → IsOk result }
{
    if size == 0 {
        tally.give(1, 1);
        return Ok(());
    }
    if segments.reserve(1).is_err() {
        return Err(Refused {
            reason: Reason::OutOfMemory,
            back: buf,
        });
    }
    segments.push_back_reserved(buf);
    tally.give(1, 0);
    Ok(())
}
