//! Held buffers that read as one.
ghost use Rattle.std.specs.Prelude.{◌≡◌, ◌+◌, ◌^◌, ◌<◌, ◌≤◌, List, [], ◌∷◌, length, map, drop, Some, IsTrue, ◌↔◌, IsOk, IsErr, IfOk, IfErr};
ghost use Rattle.std.specs.Iterator.{IsFinite, Drains, YieldsThen};
ghost use Rattle.std.specs.List.{concat};
ghost use Rattle.bytes_utils_buf.specs.Lent.{as_lent};
ghost use Rattle.bytes_utils_buf.specs.Segments.{CountsPass, IsPaid, NoSegmentEmpty, after_accepting, newly_held, nothing_held, SkipsSegments};
ghost use Rattle.bytes_utils_buf.specs.Tally.{IsBalanced, IsCovered};

mod chunks;
mod copy;
mod front;
mod insert;
mod last;
mod peek;
mod queue;
mod range;
mod read_from;
mod remove;
mod share;
mod split;

use super::copy::SegmentedCopy;
use super::skip::skip_held;
use super::sum::sum_of_held;
use super::tally::Tally;
use crate::{Reason, Refused};
use bytes::Buf;
pub use chunks::Chunks;
use std::alloc::Global;
use std::collections::VecDeque;
use std::marker::Model;

/// Held buffers that read as one buffer.
///
/// For bodies that arrive in pieces and are read as one, without copying the pieces together:
///
/// ```text
/// let mut body = SegmentedBuf::new(alloc);
/// body.push(head)?;                // a `Bytes` of `Hello`, if `body.fits(head.len())`
/// body.push(tail)?;                // and one of ` World`
/// body.advance(3);                 // if `body.remaining()` is at least 3
/// body.copy_to_bytes(alloc, 6)?    // `lo Wor`; 2 bytes are left in 1 segment
/// ```
///
/// [`push`](SegmentedBuf::push) appends a piece. No empty buffer is held: an empty piece is
/// dropped, and so is a piece once it is read. It is a `Buf` itself, so it nests.
#[derive(Debug, Drop)]
pub struct SegmentedBuf<B: Buf + Drop> {
    segments: VecDeque<B>,
    remaining: usize,
    tally: Tally,
}

impl<B: Buf + Drop> Model for SegmentedBuf<B> {
    ghost use Rattle.std.specs.Prelude.{◌≡◌, length, map};
    ghost use Rattle.std.specs.List.{concat};
    ghost use Rattle.bytes_utils_buf.specs.Segments.{HeldSegments, NoSegmentEmpty};
    ghost use Rattle.bytes_utils_buf.specs.Tally.{IsBalanced};

    ghost Value = { HeldSegments };

    ghost view = { λ q. record { segments = map B.unread q.segments.items; tally = q.tally } };

    ghost invariant = { λ q. (q.remaining ≡ length (concat (map B.unread q.segments.items)))
        × NoSegmentEmpty (map B.unread q.segments.items)
        × IsBalanced (map B.unread q.segments.items) q.tally };
}

impl<B: Buf + Drop> SegmentedBuf<B> {
    /// Returns an empty value. It allocates nothing.
    pub fn new(alloc: Global) -> SegmentedBuf<B>
        ensures { result ≡ nothing_held }
    {
        SegmentedBuf {
            segments: VecDeque::new(alloc),
            remaining: 0,
            tally: Tally::new(),
        }
    }

    /// Holds the buffers of a vector, in its memory, and drops empty ones. It allocates nothing,
    /// and ignores `_alloc`. Fails with `TooLong` if the sum of their unread bytes exceeds
    /// `usize::MAX`; then `bufs` comes back.
    pub fn from_vec(_alloc: Global, bufs: Vec<B>) -> Result<SegmentedBuf<B>, Refused<Vec<B>>>
        ensures too_long { IsErr result ↔ (2 ^ 64 ≤ length (concat (map B.unread bufs.items))) }
        ensures ok { IfOk result (λ all. all ≡ after_accepting nothing_held (map B.unread bufs.items)) }
        ensures bytes { IfOk result (λ all. concat all.segments ≡ concat (map B.unread bufs.items)) }
        ensures back { IfErr result (λ e. e.back.items ≡ bufs.items) }
        ensures reason { IfErr result (λ e. e.reason ≡ Reason.TooLong) }
    {
        SegmentedBuf::from_deque(VecDeque::from_vec(bufs)).map_err(|refused| Refused {
            reason: refused.reason,
            back: refused.back.into_vec(),
        })
    }

    /// Holds the buffers of a deque, in its memory, and drops empty ones. Fails with `TooLong` if
    /// the sum of their unread bytes exceeds `usize::MAX`; then `bufs` comes back.
    pub fn from_deque(mut bufs: VecDeque<B>) -> Result<SegmentedBuf<B>, Refused<VecDeque<B>>>
        ensures too_long { IsErr result ↔ (2 ^ 64 ≤ length (concat (map B.unread bufs.items))) }
        ensures ok { IfOk result (λ all. all ≡ after_accepting nothing_held (map B.unread bufs.items)) }
        ensures bytes { IfOk result (λ all. concat all.segments ≡ concat (map B.unread bufs.items)) }
        ensures back { IfErr result (λ e. e.back.items ≡ bufs.items) }
        ensures reason { IfErr result (λ e. e.reason ≡ Reason.TooLong) }
    {
        let Some(remaining) = sum_of_held(&bufs) else {
            return Err(Refused {
                reason: Reason::TooLong,
                back: bufs,
            });
        };
        let mut tally = Tally::new();
        let given = bufs.len();
        bufs.retain(|buf| buf.remaining() > 0);
        tally.give(given, given - bufs.len());
        tally.call();
        Ok(SegmentedBuf {
            segments: bufs,
            remaining,
            tally,
        })
    }

    /// Holds the items of `iter`, and drops empty ones, which are never refused. Requires that
    /// `iter` ends, and that its `next` may be called. Fails at the first item with which the sum
    /// exceeds `usize::MAX` (`TooLong`) or for which memory is refused (`OutOfMemory`); then that
    /// item comes back, and those before it are dropped. Those after it are dropped too, or stay in
    /// `iter` if it was passed as `&mut iter`.
    pub fn from_iter<I: Iterator<Item = B> + Drop>(
        alloc: Global,
        iter: I,
    ) -> Result<SegmentedBuf<B>, Refused<B>>
        requires can { I.can_next iter }
        requires ends { IsFinite (I.remaining iter) }
        ensures ok { IfOk result (λ all. (items : List B) × Drains I.next_gives iter items
            × (all ≡ after_accepting nothing_held (map B.unread items))) }
        ensures bytes { IfOk result (λ all. (items : List B) × Drains I.next_gives iter items
            × (concat all.segments ≡ concat (map B.unread items))) }

        // The item that comes back is the first with which the sum exceeds `usize::MAX`, or one for
        // which memory was refused before that.
        ensures err { IfErr result (λ e. (items : List B) × (rest : I)
            × YieldsThen I.next_gives iter items (Some e.back) rest
            × (length (concat (map B.unread items)) < 2 ^ 64)
            × ((e.reason ≡ Reason.TooLong)
            ↔ (2 ^ 64 ≤ length (concat (map B.unread items)) + length (B.unread e.back)))) }
        ensures empty { IfErr result (λ e. 0 < length (B.unread e.back)) }
    {
        let mut all = SegmentedBuf::new(alloc);
        all.extend(iter)?;
        Ok(all)
    }

    /// Returns how many segments are held.
    pub fn segments(&self) -> usize
        ensures count { result ≡ length self.now.segments }
        ensures none { (result ≡ 0) ↔ (concat self.now.segments ≡ []) }

        // True of every value, whatever was called before.
        ensures none_empty { NoSegmentEmpty self.now.segments }
        ensures balanced { IsBalanced self.now.segments self.now.tally }
        ensures covered { IsCovered self.now.segments self.now.tally }
    {
        self.segments.len()
    }

    /// Returns whether `remaining() + n` fits `usize`. It is the test for `push`, `prepend`,
    /// `append`, `append_queue` and `drain_into_queue`.
    pub fn fits(&self, n: usize) -> bool
        ensures test { IsTrue result ↔ (length (concat self.now.segments) + n < 2 ^ 64) }
        ensures always { length (concat self.now.segments) < 2 ^ 64 }
    {
        n <= usize::MAX - self.remaining
    }

    /// Returns the held segments, front first.
    pub fn into_inner(self) -> VecDeque<B>
        ensures { map B.unread result.items ≡ self.segments }
    {
        let SegmentedBuf {
            segments,
            remaining: _,
            tally: _,
        } = self;
        segments
    }

    /// Removes the first `cnt` bytes. A passed segment is dropped without being advanced. Requires
    /// that `cnt` is at most `remaining()` (test: `remaining`).
    #[inline]
    pub fn advance(&mut self, cnt: usize)
        requires { cnt ≤ length (concat self.old.segments) }
        ensures skips { SkipsSegments cnt self.old.segments self.new.segments }
        ensures bytes { concat self.new.segments ≡ drop cnt (concat self.old.segments) }

        // Each passed segment counts one turn, on this value's own tally.
        ensures counts { CountsPass 1 self.old self.new }
        ensures paid { IsPaid self.old self.new }
    {
        self.tally.call();
        skip_held(&mut self.segments, &mut self.tally, cnt);
        self.remaining -= cnt;
    }

    /// Holds these buffers, none of which is empty, with a tally of their own.
    fn newly_held(segments: VecDeque<B>, remaining: usize) -> SegmentedBuf<B>
        requires sum { remaining ≡ length (concat (map B.unread segments.items)) }
        requires none_empty { NoSegmentEmpty (map B.unread segments.items) }
        ensures { result ≡ newly_held (map B.unread segments.items) }
    {
        let mut tally = Tally::new();
        tally.give(segments.len(), 0);
        SegmentedBuf {
            segments,
            remaining,
            tally,
        }
    }
}

impl<B: Buf + Clone> SegmentedBuf<B> {
    /// Clones the held segments, with a tally of their own. Requires that a clone has the same
    /// unread bytes. Fails with `OutOfMemory` if memory is refused, never for no segments.
    pub fn try_clone(&self) -> Result<SegmentedBuf<B>, Reason>
        requires { (x y : B) → B.is_clone x y → B.unread y ≡ B.unread x }
        ensures ok { IfOk result (λ all. all ≡ newly_held self.now.segments) }
        ensures err { IfErr result (λ reason. reason ≡ Reason.OutOfMemory) }
        ensures empty { self.now.segments ≡ [] → IsOk result }
    {
        if self.segments.is_empty() {
            return Ok(SegmentedBuf::new(*self.segments.allocator()));
        }
        let Ok(segments) = self.segments.clone() else {
            return Err(Reason::OutOfMemory);
        };
        Ok(SegmentedBuf::newly_held(segments, self.remaining))
    }
}

impl<B: Buf + Drop> From<SegmentedBuf<B>> for VecDeque<B> {
    ghost from_gives = { λ all segments. map B.unread segments.items ≡ all.segments };

    fn from(all: SegmentedBuf<B>) -> VecDeque<B> {
        all.into_inner()
    }
}

impl<B: Buf + Drop> SegmentedCopy for SegmentedBuf<B> {
    ghost lent = { as_lent };

    #[inline]
    fn front_chunk(&self) -> &[u8] {
        match self.segments.front() {
            Some(front) => front.chunk(),
            None => &[],
        }
    }

    #[inline]
    fn skip(&mut self, cnt: usize) {
        self.advance(cnt)
    }
}

impl<B: Buf + Drop> Buf for SegmentedBuf<B> {
    ghost unread = { λ q. concat q.segments };

    // What no read changes: the number of segments given, and of those that were dropped at once.
    ghost kept = { λ q. ([], q.tally.given) ∷ ([], q.tally.dropped) ∷ [] };

    #[inline]
    fn remaining(&self) -> usize {
        self.remaining
    }

    #[inline]
    fn chunk(&self) -> &[u8] {
        self.front_chunk()
    }

    #[inline]
    fn advance(&mut self, cnt: usize)
        requires { cnt ≤ length (concat self.old.segments) }
        ensures skips { SkipsSegments cnt self.old.segments self.new.segments }
        ensures value { concat self.new.segments ≡ drop cnt (concat self.old.segments) }
        ensures counts { CountsPass 1 self.old self.new }
    {
        SegmentedBuf::advance(self, cnt)
    }
}
