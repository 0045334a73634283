//! The last held segment, if it is a block that can grow.
ghost use Rattle.std.specs.Prelude.{◌≡◌, ◌+◌, ◌^◌, ◌<◌, ◌≤◌, [], ◌++◌, length, map, IfErr, OnOk, OnErr};
ghost use Rattle.std.specs.List.{concat};
ghost use Rattle.std.specs.Bool.{OnFalse, OnTrue};
ghost use Rattle.bytes_utils_buf.specs.Packing.{after_packing, pack_into_last, last_packed, packed_bytes};

use super::SegmentedBuf;
use crate::contiguous::ContiguousBuf;
use crate::segmented::BLOCK;
use crate::{EitherBuf, Reason};
use bytes::{Buf, Bytes, BytesMut};
use std::alloc::{AllocError, Global};
use std::collections::VecDeque;

/// The most bytes that are moved to make room in the only segment.
const MOST_MOVED: usize = 512;

impl SegmentedBuf<EitherBuf<Bytes, BytesMut>> {
    /// Copies `bytes` to the end of the last segment, if that is a block with room for them, and
    /// returns whether it did.
    #[inline]
    pub(crate) fn extend_last(&mut self, bytes: &[u8]) -> bool
        requires { length (concat self.old.segments) + length bytes.now < 2 ^ 64 }
        ensures some { OnTrue result (0 < length self.old.segments) }
        ensures packed { OnTrue result (self.new ≡ after_packing self.old bytes.now) }
        ensures same { OnFalse result (self.new ≡ self.old) }
    {
        if !extend_last_block(&mut self.segments, bytes) {
            return false;
        }
        self.remaining += bytes.len();
        self.tally.give(1, 1);
        self.tally.call();
        true
    }

    /// Makes room for `len` more bytes at the end of the last segment, if that is a block which is
    /// smaller than a new one, or short and the only segment. A block is given room for at least as
    /// many bytes as it has, so that the bytes moved are at most twice those pushed.
    pub(crate) fn make_room_in_last(&mut self, alloc: Global, len: usize) -> Result<(), Reason>
        ensures same { self.new ≡ self.old }
        ensures reason { IfErr result (λ reason. reason ≡ Reason.OutOfMemory) }
    {
        let is_only = self.segments.len() == 1;
        Ok(grow_last_block(&mut self.segments, alloc, len, is_only)?)
    }

    /// Returns whether the last segment is a block.
    pub(crate) fn last_is_block(&self) -> bool {
        matches!(self.segments.back(), Some(EitherBuf::Right(_)))
    }

    /// Returns the bytes of the last segment, or none if there is no segment.
    pub(crate) fn last_segment(&self) -> &[u8]
        ensures bytes { result.now ≡ last_packed self.now.segments }
        ensures within { length result.now ≤ length (concat self.now.segments) }
    {
        match self.segments.back() {
            Some(last) => last.as_contiguous(),
            None => &[],
        }
    }

    /// Copies the last segment and `bytes` into a new block of `capacity` bytes, which takes the
    /// place of that segment.
    pub(crate) fn replace_last(
        &mut self,
        alloc: Global,
        bytes: &[u8],
        capacity: usize,
    ) -> Result<(), Reason>
        requires some { 0 < length self.old.segments }
        requires room { length (last_packed self.old.segments) + length bytes.now ≤ capacity }
        requires fits { length (concat self.old.segments) + length bytes.now < 2 ^ 64 }
        ensures ok { OnOk result (self.new ≡ after_packing self.old bytes.now) }
        ensures err { OnErr result (self.new ≡ self.old) }
        ensures reason { IfErr result (λ reason. reason ≡ Reason.OutOfMemory) }
    {
        let block = BytesMut::with_capacity(alloc, capacity)?;
        join_last_block(&mut self.segments, block, bytes);
        self.remaining += bytes.len();
        self.tally.give(1, 1);
        self.tally.call();
        Ok(())
    }
}

/// Makes room for `len` more bytes at the end of the last segment, as `grow_last_piece` does.
fn grow_last_block(
    segments: &mut VecDeque<EitherBuf<Bytes, BytesMut>>,
    alloc: Global,
    len: usize,
    is_only: bool,
) -> Result<(), AllocError>
    ensures { map packed_bytes segments.new.items ≡ map packed_bytes segments.old.items }
{
    match segments.back_mut() {
        Some(last) => grow_last_piece(last, alloc, len, is_only),
        None => Ok(()),
    }
}

/// Makes room for `len` more bytes at the end of a piece, if it is a block which is smaller than a new
/// one, or short and the only piece.
fn grow_last_piece(
    piece: &mut EitherBuf<Bytes, BytesMut>,
    alloc: Global,
    len: usize,
    is_only: bool,
) -> Result<(), AllocError>
    ensures { packed_bytes piece.new ≡ packed_bytes piece.old }
{
    match piece {
        EitherBuf::Right(block) if is_only && block.len() <= MOST_MOVED => {
            move_last_block(block, alloc, len)
        }
        EitherBuf::Right(block) if block.capacity() < BLOCK => block.reserve(len.max(block.len())),
        _ => Ok(()),
    }
}

/// Moves the bytes of a block to its front, if that makes room for `len` more. Otherwise, as where
/// bytes that were taken out still share the block, they are copied into a new one.
fn move_last_block(block: &mut BytesMut, alloc: Global, len: usize) -> Result<(), AllocError>
    ensures { block.new.items ≡ block.old.items }
{
    if block.try_reclaim(len.max(MOST_MOVED)) {
        return Ok(());
    }
    let size = len.saturating_add(block.len().max(MOST_MOVED)).max(BLOCK);
    let mut moved = BytesMut::with_capacity(alloc, size)?;
    moved.extend_reserved(block.as_slice());
    *block = moved;
    Ok(())
}

/// Copies `bytes` to the end of the last segment, if that is a block with room for them.
#[inline]
fn extend_last_block(segments: &mut VecDeque<EitherBuf<Bytes, BytesMut>>, bytes: &[u8]) -> bool
    ensures some { OnTrue result (0 < length segments.old.items) }
    ensures grown { OnTrue result (map packed_bytes segments.new.items
        ≡ pack_into_last bytes.now (map packed_bytes segments.old.items)) }
    ensures same { OnFalse result (segments.new.items ≡ segments.old.items) }
{
    match segments.back_mut() {
        Some(last) => extend_last_piece(last, bytes),
        None => false,
    }
}

/// Copies `bytes` to the end of a piece, if that is a block with room for them.
#[inline]
fn extend_last_piece(piece: &mut EitherBuf<Bytes, BytesMut>, bytes: &[u8]) -> bool
    ensures grown { OnTrue result (packed_bytes piece.new ≡ packed_bytes piece.old ++ bytes.now) }
    ensures same { OnFalse result (piece.new ≡ piece.old) }
{
    match piece {
        EitherBuf::Right(block) if bytes.len() <= block.capacity() - block.len() => {
            block.extend_reserved(bytes);
            true
        }
        _ => false,
    }
}

/// Copies the last segment and `bytes` to an empty block, which takes the place of that segment.
fn join_last_block(
    segments: &mut VecDeque<EitherBuf<Bytes, BytesMut>>,
    mut block: BytesMut,
    bytes: &[u8],
)
    requires some { 0 < length segments.old.items }
    requires empty { block.items ≡ [] }
    requires room { length (last_packed (map packed_bytes segments.old.items)) + length bytes.now
        ≤ block.spare }
    ensures { map packed_bytes segments.new.items
        ≡ pack_into_last bytes.now (map packed_bytes segments.old.items) }
{
    let Some(last) = segments.back_mut() else {
        unreachable!()
    };
    block.extend_reserved(last.as_contiguous());
    block.extend_reserved(bytes);
    *last = EitherBuf::Right(block);
}
