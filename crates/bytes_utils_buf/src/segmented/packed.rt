//! Pieces of which small ones are copied together.
ghost use Rattle.std.specs.Prelude.{◌≡◌, ◌+◌, ◌*◌, ◌^◌, ◌<◌, ◌≤◌, ◌↔◌, [], ◌∷◌, ◌++◌, length, take, drop, IsOk, IfOk, IfErr, OnOk, OnErr, ◌⊎◌};
ghost use Rattle.std.specs.List.{concat};
ghost use Rattle.bytes_utils_buf.specs.Copies.{CountsCopy, taken_by_copy};
ghost use Rattle.bytes_utils_buf.specs.Packing.{IsPacked, Packs, last_packed};
ghost use Rattle.bytes_utils_buf.specs.Segments.{CountsPass, IsPaid, SkipsSegments, after_accepting, front_segment, newly_held, nothing_held, take_from_segments};

mod read_from;

use super::{BLOCK, SegmentedBuf};
use crate::parts::{BufParts, CopyRefused};
use crate::{EitherBuf, Reason, Refused};
use bytes::{Buf, Bytes, BytesMut};
use std::alloc::{AllocError, Global};
use std::marker::Model;
use std::mem::replace;

/// How many bytes a new block after a longer piece has, if it need not have more. Less room than
/// this isn't kept.
const SMALL_BLOCK: usize = 64;

/// How many bytes a read has room for, at least, until the caller sets another number.
const LEAST_READ: usize = 512;

/// The most bytes of room that are kept while no byte is held.
const MOST_EMPTIED: usize = 4 * BLOCK;

/// Pieces that read as one buffer, of which small ones are copied together.
///
/// For pieces that a peer cuts: one that sends single bytes makes a [`SegmentedBuf`] hold a segment
/// for each of them, and each keeps its own block alive. Here a piece of at most `threshold` bytes
/// is copied into a block after the one before it, and a longer one is held as it is.
///
/// ```text
/// let mut body = PackedBuf::new(alloc, 512);
/// body.push(alloc, first)?;        // a `Bytes` of 3 bytes
/// body.push(alloc, second)?;       // one of 5: 8 bytes in one segment
/// body.push(alloc, third)?;        // one of 4,096: a second segment, without a copy
/// body.advance(4);                 // it reads as any `Buf`
/// ```
///
/// So any two neighbouring segments after the first one hold more than `threshold` bytes together.
/// The first one may be what reading left of a longer one. A block has 4,096 bytes, or twice those
/// that are copied into it when it is made. After a longer piece it begins with 64 bytes, and
/// doubles as it fills. The room that is left of a block that was read to its end takes the next
/// small piece, so that messages which come one by one share their blocks.
///
/// What `SegmentedBuf` can do without changing its bytes is there by
/// [`as_segmented`](PackedBuf::as_segmented).
#[derive(Debug, Drop)]
pub struct PackedBuf {
    held: SegmentedBuf<EitherBuf<Bytes, BytesMut>>,
    emptied: BytesMut,
    threshold: usize,
    read_room: usize,
}

impl Model for PackedBuf {
    ghost use Rattle.bytes_utils_buf.specs.Packing.{IsPacked, Packing};

    ghost Value = { Packing };

    ghost view = { λ b. record { held = b.held; threshold = b.threshold } };

    ghost invariant = { λ b. IsPacked b.threshold b.held.segments };
}

impl PackedBuf {
    /// Returns an empty value. Pieces of at most `threshold` bytes will be copied. It allocates
    /// nothing.
    pub fn new(alloc: Global, threshold: usize) -> PackedBuf
        ensures { result ≡ record { held = nothing_held; threshold = threshold } }
    {
        PackedBuf {
            held: SegmentedBuf::new(alloc),
            emptied: BytesMut::new(alloc),
            threshold,
            read_room: LEAST_READ,
        }
    }

    /// Sets how many bytes `read_from` has room for, at least: `room`, or 1 for 0. Before, it is 512.
    /// No clause sees it.
    pub fn set_read_room(&mut self, room: usize)
        ensures { self.new ≡ self.old }
    {
        self.read_room = room;
    }

    /// Returns how many segments are held.
    #[tactic(auto, using(crate::proofs::PackingLemmas::packed_few))]
    pub fn segments(&self) -> usize
        ensures count { result ≡ length self.now.held.segments }

        // True of every value, whatever was called before.
        ensures packed { IsPacked self.now.threshold self.now.held.segments }
        ensures few { self.now.threshold * length self.now.held.segments
            ≤ 2 * length (concat self.now.held.segments) + 2 * self.now.threshold }
    {
        self.held.segments()
    }

    /// Returns the bytes of the last segment, or none if there is no segment.
    pub fn last_segment(&self) -> &[u8]
        ensures { result.now ≡ last_packed self.now.held.segments }
    {
        self.held.last_segment()
    }

    /// Returns the held segments, for the calls of `SegmentedBuf` that change nothing.
    pub fn as_segmented(&self) -> &SegmentedBuf<EitherBuf<Bytes, BytesMut>>
        ensures { result.now ≡ self.now.held }
    {
        &self.held
    }

    /// Returns the held segments.
    pub fn into_segmented(self) -> SegmentedBuf<EitherBuf<Bytes, BytesMut>>
        ensures { result ≡ self.held }
    {
        self.held
    }

    /// Returns the held segments, each as a `Bytes` that shares its block, with a tally of their
    /// own. Fails with `OutOfMemory` if memory is refused, never for no segments; then the value
    /// comes back, with the same bytes, but blocks may be frozen.
    pub fn into_shared(self, alloc: Global) -> Result<SegmentedBuf<Bytes>, Refused<PackedBuf>>
        ensures ok { IfOk result (λ all. all ≡ newly_held self.held.segments) }
        ensures bytes { IfOk result (λ all. concat all.segments ≡ concat self.held.segments) }
        ensures back { IfErr result (λ e. e.back ≡ self) }
        ensures reason { IfErr result (λ e. e.reason ≡ Reason.OutOfMemory) }
        ensures empty { self.held.segments ≡ [] → IsOk result }
    {
        match self.held.into_shared(alloc) {
            Ok(all) => Ok(all),
            Err(Refused { reason, back: held }) => Err(Refused {
                reason,
                back: PackedBuf {
                    held,
                    emptied: BytesMut::new(alloc),
                    threshold: self.threshold,
                    read_room: self.read_room,
                },
            }),
        }
    }

    /// Appends `piece`: as a segment without a copy if it has more than `threshold` bytes, and else
    /// by a copy, as `push_slice` does. An empty piece is dropped, and never refused. Fails with
    /// `TooLong` if the sum of the lengths exceeds `usize::MAX`, or with `OutOfMemory` if memory is
    /// refused; then nothing has changed, and `piece` comes back.
    pub fn push(&mut self, alloc: Global, piece: Bytes) -> Result<(), Refused<Bytes>>
        ensures packs { OnOk result (Packs piece self.old.held self.new.held) }
        ensures large { OnOk result (self.old.threshold < length piece
            → self.new.held ≡ after_accepting self.old.held (piece ∷ [])) }
        ensures bytes { OnOk result
            (concat self.new.held.segments ≡ concat self.old.held.segments ++ piece) }
        ensures threshold { self.new.threshold ≡ self.old.threshold }
        ensures err { OnErr result (self.new ≡ self.old) }
        ensures back { IfErr result (λ e. e.back ≡ piece) }
        ensures fits { OnOk result
            (length (concat self.old.held.segments) + length piece < 2 ^ 64) }
        ensures too_long { IfErr result (λ e. (e.reason ≡ Reason.TooLong)
            ↔ (2 ^ 64 ≤ length (concat self.old.held.segments) + length piece)) }
        ensures empty { piece ≡ [] → IsOk result }
        ensures paid { IsPaid self.old.held self.new.held }
    {
        if piece.len() > self.threshold {
            return self.push_whole(piece);
        }
        match self.push_slice(alloc, piece.as_slice()) {
            Ok(()) => Ok(()),
            Err(reason) => Err(Refused {
                reason,
                back: piece,
            }),
        }
    }

    /// Appends a copy of `bytes`: to the last segment, if that is a block that has room for them or
    /// is given it; with a copy of the last segment in a new block, if both have at most `threshold`
    /// bytes together; or else alone in a block. Fails as `push` does, never for no bytes; then
    /// nothing has changed.
    #[inline]
    pub fn push_slice(&mut self, alloc: Global, bytes: &[u8]) -> Result<(), Reason>
        ensures packs { OnOk result (Packs bytes.now self.old.held self.new.held) }
        ensures bytes { OnOk result
            (concat self.new.held.segments ≡ concat self.old.held.segments ++ bytes.now) }
        ensures threshold { self.new.threshold ≡ self.old.threshold }
        ensures err { OnErr result (self.new ≡ self.old) }
        ensures fits { OnOk result
            (length (concat self.old.held.segments) + length bytes.now < 2 ^ 64) }
        ensures too_long { IfErr result (λ reason. (reason ≡ Reason.TooLong)
            ↔ (2 ^ 64 ≤ length (concat self.old.held.segments) + length bytes.now)) }
        ensures empty { bytes.now ≡ [] → IsOk result }
        ensures paid { IsPaid self.old.held self.new.held }
    {
        if !self.held.fits(bytes.len()) {
            return Err(Reason::TooLong);
        }
        if bytes.is_empty() {
            return Ok(self.push_whole(Bytes::new())?);
        }
        if self.held.extend_last(bytes) {
            return Ok(());
        }
        self.push_grown(alloc, bytes)
    }

    /// As `push_slice`, where the last segment is no block with room for `bytes`.
    #[inline(never)]
    fn push_grown(&mut self, alloc: Global, bytes: &[u8]) -> Result<(), Reason>
        requires some { 0 < length bytes.now }
        requires fits { length (concat self.old.held.segments) + length bytes.now < 2 ^ 64 }
        ensures packs { OnOk result (Packs bytes.now self.old.held self.new.held) }
        ensures bytes { OnOk result
            (concat self.new.held.segments ≡ concat self.old.held.segments ++ bytes.now) }
        ensures threshold { self.new.threshold ≡ self.old.threshold }
        ensures err { OnErr result (self.new ≡ self.old) }
        ensures reason { IfErr result (λ reason. reason ≡ Reason.OutOfMemory) }
        ensures paid { IsPaid self.old.held self.new.held }
    {
        self.held.make_room_in_last(alloc, bytes.len())?;
        if self.held.extend_last(bytes) {
            return Ok(());
        }
        let size = self.held.last_segment().len() + bytes.len();
        if self.held.segments() > 0 && size <= self.threshold {
            self.held
                .replace_last(alloc, bytes, packed_block_len(size, BLOCK))?;
            return Ok(());
        }
        self.push_block(alloc, bytes)
    }

    /// Appends `piece` as a segment, or drops it if it is empty.
    fn push_whole(&mut self, piece: Bytes) -> Result<(), Refused<Bytes>>
        requires { 0 < length piece → self.old.threshold < length piece }
        ensures ok { OnOk result (self.new.held ≡ after_accepting self.old.held (piece ∷ [])) }
        ensures bytes { OnOk result
            (concat self.new.held.segments ≡ concat self.old.held.segments ++ piece) }
        ensures threshold { self.new.threshold ≡ self.old.threshold }
        ensures err { OnErr result (self.new ≡ self.old) }
        ensures back { IfErr result (λ e. e.back ≡ piece) }
        ensures fits { OnOk result
            (length (concat self.old.held.segments) + length piece < 2 ^ 64) }
        ensures too_long { IfErr result (λ e. (e.reason ≡ Reason.TooLong)
            ↔ (2 ^ 64 ≤ length (concat self.old.held.segments) + length piece)) }
        ensures empty { piece ≡ [] → IsOk result }
        ensures paid { IsPaid self.old.held self.new.held }
    {
        match self.held.try_push(EitherBuf::Left(piece)) {
            Ok(()) => Ok(()),
            Err(
                Refused {
                    reason,
                    back: EitherBuf::Left(piece),
                },
            ) => Err(Refused {
                reason,
                back: piece,
            }),
            Err(_) => unreachable!(),
        }
    }

    /// Appends a block with a copy of `bytes`.
    fn push_block(&mut self, alloc: Global, bytes: &[u8]) -> Result<(), Reason>
        requires some { 0 < length bytes.now }
        requires fits { length (concat self.old.held.segments) + length bytes.now < 2 ^ 64 }
        requires over { 0 < length self.old.held.segments
            → self.old.threshold < length (last_packed self.old.held.segments) + length bytes.now }
        ensures ok { OnOk result (self.new.held ≡ after_accepting self.old.held (bytes.now ∷ [])) }
        ensures bytes { OnOk result
            (concat self.new.held.segments ≡ concat self.old.held.segments ++ bytes.now) }
        ensures threshold { self.new.threshold ≡ self.old.threshold }
        ensures err { OnErr result (self.new ≡ self.old) }
        ensures reason { IfErr result (λ reason. reason ≡ Reason.OutOfMemory) }
        ensures paid { IsPaid self.old.held self.new.held }
    {
        let least = if self.held.segments() == 0 || self.held.last_is_block() {
            BLOCK
        } else {
            SMALL_BLOCK
        };
        let emptied = replace(&mut self.emptied, BytesMut::new(alloc));
        let mut block = packed_block(alloc, emptied, bytes.len(), least)?;
        block.extend_reserved(bytes);
        Ok(self.held.push(EitherBuf::Right(block))?)
    }

    /// Takes all bytes of the only segment out, and keeps its room.
    #[inline(never)]
    fn take_only_segment(&mut self, alloc: Global) -> Result<Bytes, Reason>
        requires { length self.old.held.segments ≡ 1 }
        ensures value { IfOk result (λ all. all ≡ concat self.old.held.segments) }
        ensures none { OnOk result (self.new.held.segments ≡ []) }
        ensures threshold { self.new.threshold ≡ self.old.threshold }
        ensures err { OnErr result (self.new ≡ self.old) }
        ensures reason { IfErr result (λ reason. reason ≡ Reason.OutOfMemory) }
        ensures paid { IsPaid self.old.held self.new.held }
    {
        let (all, last) = self.held.take_front_alone(alloc)?;
        self.keep_room(last);
        Ok(all)
    }

    /// Keeps the room of a segment that was read, if that is a block of 64 bytes to 16 KiB.
    fn keep_room(&mut self, last: EitherBuf<Bytes, BytesMut>)
        ensures { self.new ≡ self.old }
    {
        if let EitherBuf::Right(block) = last
            && block.capacity() >= SMALL_BLOCK
            && block.capacity() <= MOST_EMPTIED
        {
            self.emptied = block;
        }
    }

    /// Takes the first `len` bytes out. The first segment shares them if it has them all. Otherwise
    /// they are copied. Requires that `len` is at most `remaining()` (test: `remaining`). Fails
    /// with `OutOfMemory` if memory is refused; then no byte has been taken. With `len` 0 it never
    /// fails.
    #[tactic(auto, using(crate::proofs::PackingLemmas::packed_skips))]
    pub fn take_bytes(&mut self, alloc: Global, len: usize) -> Result<Bytes, Reason>
        requires { len ≤ length (concat self.old.held.segments) }
        ensures value { IfOk result (λ front. front ≡ take len (concat self.old.held.segments)) }
        ensures skips { OnOk result (SkipsSegments len self.old.held.segments self.new.held.segments) }
        ensures bytes { OnOk result
            (concat self.new.held.segments ≡ drop len (concat self.old.held.segments)) }
        ensures threshold { self.new.threshold ≡ self.old.threshold }
        ensures err { OnErr result (self.new.held.segments ≡ self.old.held.segments) }
        ensures reason { IfErr result (λ reason. reason ≡ Reason.OutOfMemory) }
        ensures none { len ≡ 0 → IsOk result }
        ensures paid { IsPaid self.old.held self.new.held }
    {
        if self.held.segments() == 1 && len == self.held.remaining() {
            return self.take_only_segment(alloc);
        }
        if self.held.segments() > 0 && len > 0 && len <= self.first_len() {
            return Ok(self.held.copy_to_bytes(alloc, len)?);
        }
        let copy = self.held.peek_bytes(alloc, len)?;
        self.held.advance(len);
        Ok(copy)
    }

    /// Returns how many bytes the first segment has, or 0 if there is none.
    fn first_len(&self) -> usize
        ensures { result ≡ length (front_segment self.now.held.segments) }
    {
        match self.held.segment(0) {
            Some(first) => first.len(),
            None => 0,
        }
    }

    /// Takes the first `len` bytes out, as segments of their own: shared from a piece that was held
    /// as it came, and copied from a block. Requires that `len` is at most `remaining()` (test:
    /// `remaining`). Fails with `OutOfMemory` if memory is refused; then nothing has changed. With
    /// `len` 0 it never fails.
    #[tactic(auto, using(crate::proofs::PackingLemmas::packed_skips))]
    pub fn split_to(&mut self, alloc: Global, len: usize) -> Result<SegmentedBuf<Bytes>, Reason>
        requires { len ≤ length (concat self.old.held.segments) }
        ensures ok { IfOk result
            (λ first. first ≡ newly_held (take_from_segments len self.old.held.segments)) }
        ensures front { IfOk result
            (λ first. concat first.segments ≡ take len (concat self.old.held.segments)) }
        ensures bytes { OnOk result
            (concat self.new.held.segments ≡ drop len (concat self.old.held.segments)) }
        ensures skips { OnOk result (SkipsSegments len self.old.held.segments self.new.held.segments) }
        ensures threshold { self.new.threshold ≡ self.old.threshold }
        ensures err { OnErr result (self.new ≡ self.old) }
        ensures reason { IfErr result (λ reason. reason ≡ Reason.OutOfMemory) }
        ensures none { len ≡ 0 → IsOk result }
        ensures counts { OnOk result (CountsPass 1 self.old.held self.new.held) }
        ensures paid { IsPaid self.old.held self.new.held }
    {
        let front = self.held.split_to(alloc, len)?;
        Ok(front)
    }

    /// Removes the first `cnt` bytes. A passed segment is dropped without being advanced. Requires
    /// that `cnt` is at most `remaining()` (test: `remaining`).
    pub fn advance(&mut self, cnt: usize)
        requires { cnt ≤ length (concat self.old.held.segments) }
        ensures skips { SkipsSegments cnt self.old.held.segments self.new.held.segments }
        ensures bytes { concat self.new.held.segments ≡ drop cnt (concat self.old.held.segments) }
        ensures threshold { self.new.threshold ≡ self.old.threshold }
        ensures counts { CountsPass 1 self.old.held self.new.held }
        ensures paid { IsPaid self.old.held self.new.held }
    {
        if self.held.segments() == 1 && cnt == self.held.remaining() {
            self.pass_only_segment();
        } else {
            self.held.advance(cnt);
        }
    }

    /// Passes the only segment, and keeps its room.
    #[inline(never)]
    fn pass_only_segment(&mut self)
        requires { length self.old.held.segments ≡ 1 }
        ensures none { self.new.held.segments ≡ [] }
        ensures threshold { self.new.threshold ≡ self.old.threshold }
        ensures counts { CountsPass 1 self.old.held self.new.held }
        ensures paid { IsPaid self.old.held self.new.held }
    {
        if let Some(last) = self.held.pop() {
            self.keep_room(last);
        }
    }
}

/// Returns an empty block with room for `len` bytes: `block`, if it has room for them or can have it
/// without memory, or else a new one of at least `least` bytes.
fn packed_block(
    alloc: Global,
    mut block: BytesMut,
    len: usize,
    least: usize,
) -> Result<BytesMut, AllocError>
    ensures empty { IfOk result (λ block. block.items ≡ []) }
    ensures room { IfOk result (λ block. len ≤ block.spare) }
{
    block.clear();
    let size = packed_block_len(len, least);
    if len <= block.capacity() || block.try_reclaim(size) {
        return Ok(block);
    }
    BytesMut::with_capacity(alloc, size)
}

/// How many bytes a new block has that begins with `size` bytes: twice these, and at least `least`.
fn packed_block_len(size: usize, least: usize) -> usize
    ensures room { size ≤ result }
    ensures within { (result ≤ least) ⊎ (result ≤ 2 * size) }
{
    size.saturating_mul(2).max(least)
}

impl Buf for PackedBuf {
    ghost unread = { λ b. concat b.held.segments };

    // What no read changes: the number of segments given, of those that were dropped at once, and
    // the threshold.
    ghost kept = { λ b. ([], b.held.tally.given) ∷ ([], b.held.tally.dropped) ∷ ([], b.threshold) ∷ [] };

    fn remaining(&self) -> usize {
        self.held.remaining()
    }

    fn chunk(&self) -> &[u8] {
        self.held.chunk()
    }

    fn advance(&mut self, cnt: usize)
        requires { cnt ≤ length (concat self.old.held.segments) }
        ensures skips { SkipsSegments cnt self.old.held.segments self.new.held.segments }
        ensures value { concat self.new.held.segments ≡ drop cnt (concat self.old.held.segments) }
        ensures threshold { self.new.threshold ≡ self.old.threshold }
        ensures counts { CountsPass 1 self.old.held self.new.held }
    {
        PackedBuf::advance(self, cnt)
    }
}

impl BufParts for PackedBuf {
    // Nothing or all.
    ghost loses = { λ _ len taken. (taken ≡ 0) ⊎ (taken ≡ len) };

    fn copy_out(&mut self, alloc: Global, len: usize) -> Result<Bytes, CopyRefused>
        requires { len ≤ length (concat self.old.held.segments) }
        ensures value { IfOk result (λ copy. copy ≡ take len (concat self.old.held.segments)) }
        ensures taken { taken_by_copy len result ≤ len }
        ensures skips { SkipsSegments (taken_by_copy len result) self.old.held.segments self.new.held.segments }
        ensures rest { concat self.new.held.segments
            ≡ drop (taken_by_copy len result) (concat self.old.held.segments) }
        ensures threshold { self.new.threshold ≡ self.old.threshold }
        ensures lost { IfErr result (λ e. (e.taken ≡ 0) ⊎ (e.taken ≡ len)) }
        ensures none { len ≡ 0 → IsOk result }
        ensures counts { CountsCopy len (taken_by_copy len result) self.old.held self.new.held }
    {
        self.held.copy_out(alloc, len)
    }

    fn chunks_into<'s>(&'s self, dst: &mut [&'s [u8]]) -> usize {
        self.held.chunks_vectored(dst)
    }
}
