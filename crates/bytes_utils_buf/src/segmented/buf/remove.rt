//! Segments that are taken out whole.
ghost use Rattle.std.specs.Prelude.{◌≡◌, ◌+◌, [], ◌∷◌, map, IfSome, IfNone};
ghost use Rattle.std.specs.Iterator.Runs.{EveryRun, ItemsAre};
ghost use Rattle.std.specs.Vec.Iter.{into_iter_items, into_iter_steps};
ghost use Rattle.std.specs.declared.alloc.Global.{Global};
ghost use Rattle.bytes_utils_buf.specs.Segments.{CountsPass, IsPaid};

use super::SegmentedBuf;
use bytes::Buf;
use std::alloc::Global;
use std::vec::IntoIter;

impl<B: Buf + Drop> SegmentedBuf<B> {
    /// Removes the first segment and returns it, with what is left of it. Returns `None` if no
    /// segment is held. It copies nothing, and never fails.
    #[inline]
    pub fn pop(&mut self) -> Option<B>
        ensures front { IfSome result
            (λ front. self.old.segments ≡ B.unread front ∷ self.new.segments) }
        ensures none { IfNone result
            ((self.old.segments ≡ []) × (self.new.segments ≡ self.old.segments)) }

        // The segment counts as passed, by one turn.
        ensures counts { CountsPass 1 self.old self.new }
        ensures paid { IsPaid self.old self.new }
    {
        self.tally.call();
        let front = self.segments.pop_front()?;
        self.tally.turn();
        self.remaining -= front.remaining();
        Some(front)
    }
}

/// Yields the held segments, front first.
impl<B: Buf + Drop> IntoIterator for SegmentedBuf<B> {
    type Item = B;

    type IntoIter = IntoIter<B, Global>;

    ghost into_iter_gives = { λ all iter. (map B.unread (into_iter_items iter) ≡ all.segments)
        × EveryRun (into_iter_steps {X = B} {Z = Global}) (λ run. ItemsAre run (into_iter_items run.from)) };

    fn into_iter(self) -> IntoIter<B, Global> {
        self.into_inner().into_iter()
    }
}
