//! Borrowed buffers that read as one.
ghost use Rattle.std.specs.Prelude.{◌≡◌, ◌+◌, ◌^◌, ◌<◌, ◌≤◌, [], ◌∷◌, length, map, drop};
ghost use Rattle.std.specs.List.{concat};
ghost use Rattle.std.specs.Option.{SomeIff};
ghost use Rattle.bytes_utils_buf.specs.Lent.{held_of, lists_of, IsPassedOnce, IsLentReading, SkipsLent};
ghost use Rattle.bytes_utils_buf.specs.Segments.{CountsPass, IsPaid, SkipsSegments};
ghost use Rattle.bytes_utils_buf.specs.Tally.{IsBalanced, IsCovered};

mod chunks;
mod copy;

use super::copy::SegmentedCopy;
use super::skip::{skip_empty_lent, skip_lent};
use super::sum::sum_of;
use super::tally::Tally;
use bytes::Buf;
use std::marker::Model;
use std::snapshot::Snapshot;

/// Borrowed buffers that read as one buffer.
///
/// Reads the parts of a slice as one buffer, while their owner keeps them:
///
/// ```text
/// let mut parts = [b"Hello".as_slice(), b"", b" ", b"World"];
/// let mut all = SegmentedSlice::new(&mut parts); // if `total(&parts)` isn't `None`
/// all.advance(7);                                // if `all.remaining()` is at least 7
/// // `all.chunk()` is `orld`; of `parts` the first three are empty, and the last is `orld`
/// ```
///
/// Reading removes the bytes from the borrowed buffers themselves. A buffer that is passed becomes
/// empty, and empty ones are left in place. The owner gets the rest back by
/// [`into_lent`](SegmentedSlice::into_lent), or when the borrow ends. It is a `Buf` itself, so it
/// nests.
#[derive(Drop)]
#[derive_where(Debug; B)]
pub struct SegmentedSlice<'a, B: Buf> {
    bufs: &'a mut [B],
    place: usize,
    remaining: usize,
    tally: Tally,
    #[derive_where(skip)]
    handed_in: Snapshot<Loan<'a, B>>,
}

/// The borrowed buffers before they are read. A snapshot of it has no bytes at run time.
#[derive(Drop)]
struct Loan<'a, B> {
    bufs: &'a mut [B],
}

impl<'a, B: Buf> Model for SegmentedSlice<'a, B> {
    ghost use Rattle.std.specs.Prelude.{map};
    ghost use Rattle.bytes_utils_buf.specs.Lent.{Lent, lent_at, IsLent};

    ghost Value = { Lent };

    ghost view = { λ q. lent_at q.place (map B.unread q.handed_in.value.bufs.now)
        (map B.unread q.bufs.now) q.tally q.bufs.ghost_name };

    ghost invariant = { λ q. IsLent (map B.unread q.bufs.now) q.remaining
        (lent_at q.place (map B.unread q.handed_in.value.bufs.now)
        (map B.unread q.bufs.now) q.tally q.bufs.ghost_name) };
}

impl<'a, B: Buf> SegmentedSlice<'a, B> {
    /// Returns how many unread bytes these buffers have together, or `None` if the sum exceeds
    /// `usize::MAX`. It is the test for `new`.
    pub fn total(bufs: &[B]) -> Option<usize>
        ensures { SomeIff result (length (concat (map B.unread bufs.now)) < 2 ^ 64)
            (length (concat (map B.unread bufs.now))) }
    {
        sum_of(bufs)
    }

    /// Reads these buffers as one, from the first that isn't empty. Requires that the sum of their
    /// unread bytes fits `usize` (test: `total` isn't `None`).
    pub fn new(bufs: &'a mut [B]) -> SegmentedSlice<'a, B>
        requires { length (concat (map B.unread bufs.old)) < 2 ^ 64 }
        ensures handed_in { result.handed_in ≡ map B.unread bufs.old }
        ensures name { result.name ≡ bufs.entry.ghost_name }
        ensures skips { SkipsSegments 0 (map B.unread bufs.old) result.segments }
        ensures bytes { concat result.segments ≡ concat (map B.unread bufs.old) }
        ensures place { result.place + length result.segments ≡ length bufs.old }

        // It counts as one call, which is given all buffers, the empty ones too.
        ensures given { result.tally.given ≡ length bufs.old }
        ensures calls { result.tally.calls ≡ 1 }
        ensures passed { IsPassedOnce result }
        ensures covered { IsCovered result.segments result.tally }
    {
        let mut tally = Tally::new();
        tally.give(bufs.len(), 0);
        tally.call();
        let Some(remaining) = sum_of(bufs) else {
            unreachable!()
        };
        let place = skip_empty_lent(bufs, &mut tally);
        let loan = Loan { bufs };
        let handed_in = Snapshot::of(&loan);
        let Loan { bufs } = loan;
        SegmentedSlice {
            bufs,
            place,
            remaining,
            tally,
            handed_in,
        }
    }

    /// Returns the borrowed buffers. The passed ones are empty, the one that is being read has what
    /// is left of it, and the others are unchanged.
    #[tactic(auto, using(crate::proofs::LentLemmas::concat_read_out))]
    pub fn into_lent(self) -> &'a mut [B]
        ensures lists { map B.unread result.now ≡ lists_of self.entry }
        ensures bytes { concat (map B.unread result.now) ≡ concat self.entry.segments }
        ensures reading { IsLentReading self.entry }
        ensures name { result.ghost_name ≡ self.entry.name }
    {
        let SegmentedSlice {
            bufs,
            place: _,
            remaining: _,
            tally: _,
            handed_in: _,
        } = self;
        bufs
    }

    /// Removes the first `cnt` bytes. Each buffer that is passed becomes empty, by one `advance`.
    /// Requires that `cnt` is at most `remaining()` (test: `remaining`).
    pub fn advance(&mut self, cnt: usize)
        requires { cnt ≤ length (concat self.old.segments) }
        ensures skips { SkipsLent cnt self.old self.new }
        ensures bytes { concat self.new.segments ≡ drop cnt (concat self.old.segments) }

        // Each passed buffer counts one turn, on this value's own tally.
        ensures counts { CountsPass 1 (held_of self.old) (held_of self.new) }
        ensures paid { IsPaid (held_of self.old) (held_of self.new) }
    {
        self.tally.call();
        let place = self.place;
        let bufs = &mut *self.bufs;
        let passed = skip_lent(&mut bufs[place..], &mut self.tally, cnt);
        self.place += passed;
        self.remaining -= cnt;
    }
}

impl<B: Buf> SegmentedCopy for SegmentedSlice<'_, B> {
    ghost lent = { λ q. q };

    fn front_chunk(&self) -> &[u8] {
        let bufs = &*self.bufs;
        if self.place < bufs.len() {
            bufs[self.place].chunk()
        } else {
            &[]
        }
    }

    #[inline]
    fn skip(&mut self, cnt: usize) {
        self.advance(cnt)
    }
}

impl<B: Buf> Buf for SegmentedSlice<'_, B> {
    ghost unread = { λ q. concat q.segments };

    // What no read changes, packed into lists of bytes with a number each: the name of the borrow,
    // and the unread list of each buffer before any read.
    ghost kept = { λ q. ([], q.name) ∷ map (λ s. (s, 0)) q.handed_in };

    fn remaining(&self) -> usize
        ensures value { result ≡ length (concat self.now.segments) }
        ensures reading { IsLentReading self.now }

        // True of every value, whatever was called before.
        ensures passed { IsPassedOnce self.now }
        ensures balanced { IsBalanced self.now.segments self.now.tally }
        ensures covered { IsCovered self.now.segments self.now.tally }
    {
        self.remaining
    }

    fn chunk(&self) -> &[u8] {
        self.front_chunk()
    }

    fn advance(&mut self, cnt: usize)
        requires { cnt ≤ length (concat self.old.segments) }
        ensures skips { SkipsLent cnt self.old self.new }
        ensures value { concat self.new.segments ≡ drop cnt (concat self.old.segments) }
        ensures counts { CountsPass 1 (held_of self.old) (held_of self.new) }
    {
        SegmentedSlice::advance(self, cnt)
    }
}
