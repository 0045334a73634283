//! Reads into the last held segment, or into one more.
ghost use Rattle.std.specs.Prelude.{◌≡◌, ◌+◌, ◌^◌, ◌<◌, ◌≤◌, List, ℕ, [], ◌∷◌, ◌++◌, length, map, IfOk, IfSome, IfNone, OnErr, OnOk};
ghost use Rattle.std.specs.List.{concat};
ghost use Rattle.std.specs.Io.KnownBytes.{Keeps};
ghost use Rattle.std.specs.Bool.{OnTrue};
ghost use Rattle.bytes_utils_buf.specs.Packing.{after_packing, pack_into_last, last_packed, packed_bytes};
ghost use Rattle.bytes_utils_buf.specs.Reading.{ReadGave, Reads};
ghost use Rattle.bytes_utils_buf.specs.Segments.{after_accepting};

use super::SegmentedBuf;
use crate::{EitherBuf, Reason};
use bytes::{Buf, Bytes, BytesMut};
use std::alloc::Global;
use std::collections::VecDeque;
use std::io::{self, Read};
use std::mem::replace;

impl SegmentedBuf<EitherBuf<Bytes, BytesMut>> {
    /// Makes one read into the room of the last segment, and returns the number of bytes that came.
    /// Returns `None`, and reads nothing, if the last segment is no block with room for `least`
    /// bytes, or if its room is so large that the number of held bytes might pass `usize::MAX`.
    pub(crate) fn read_last<R: Read>(
        &mut self,
        input: &mut R,
        least: usize,
    ) -> io::Result<Option<usize>>
        requires { 0 < least }
        ensures read { IfOk result (λ next. IfSome next (λ count.
            Reads (λ got old new. new ≡ after_packing old got)
            (R.remaining input.old) (R.remaining input.new) self.old self.new count)) }
        ensures some { IfOk result (λ next. IfSome next (λ _. 0 < length self.old.segments)) }
        ensures none { IfOk result
            (λ next. IfNone next ((self.new ≡ self.old) × (input.new ≡ input.old))) }
        ensures err { OnErr result (self.new ≡ self.old) }
        ensures unread { OnErr result (Keeps (R.remaining input.old) (R.remaining input.new)) }
    {
        let most = usize::MAX - self.remaining;
        let Some(count) = read_into_last_segment(&mut self.segments, input, least, most)? else {
            return Ok(None);
        };
        if count > 0 {
            self.remaining += count;
            self.tally.give(1, 1);
            self.tally.call();
        }
        Ok(Some(count))
    }

    /// Makes one read into the room of a block that begins with the bytes of the last segment, and
    /// then takes its place, if bytes came.
    pub(crate) fn read_instead_of_last<R: Read>(
        &mut self,
        input: &mut R,
        mut block: BytesMut,
    ) -> io::Result<usize>
        requires some { 0 < length self.old.segments }
        requires last { block.items ≡ last_packed self.old.segments }
        requires room { 0 < block.spare }
        ensures read { IfOk result (λ count.
            Reads (λ got old new. new ≡ after_packing old got)
            (R.remaining input.old) (R.remaining input.new) self.old self.new count) }
        ensures err { OnErr result (self.new ≡ self.old) }
        ensures unread { OnErr result (Keeps (R.remaining input.old) (R.remaining input.new)) }
    {
        if !self.fits(block.capacity()) {
            return Err(Reason::TooLong.into());
        }
        let count = block.read_from(input)?;
        if count > 0 {
            put_read_block(&mut self.segments, block);
            self.remaining += count;
            self.tally.give(1, 1);
            self.tally.call();
        }
        Ok(count)
    }

    /// Makes one read into an empty block, and appends it, if bytes came.
    pub(crate) fn read_block<R: Read>(
        &mut self,
        alloc: Global,
        input: &mut R,
        block: &mut BytesMut,
    ) -> io::Result<usize>
        requires empty { block.old.items ≡ [] }
        requires room { 0 < block.old.spare }
        ensures read { IfOk result (λ count.
            Reads (λ got old new. new ≡ after_accepting old (got ∷ []))
            (R.remaining input.old) (R.remaining input.new) self.old self.new count) }
        ensures err { OnErr result (self.new ≡ self.old) }
        ensures unread { OnErr result (Keeps (R.remaining input.old) (R.remaining input.new)) }
    {
        if !self.fits(block.capacity()) {
            return Err(Reason::TooLong.into());
        }
        self.segments.reserve(1)?;
        let count = block.read_from(input)?;
        if count > 0 {
            let full = replace(block, BytesMut::new(alloc));
            self.segments.push_back_reserved(EitherBuf::Right(full));
            self.remaining += count;
            self.tally.give(1, 0);
            self.tally.call();
        }
        Ok(count)
    }
}

/// Makes one read into the room of the last piece, as `read_into_segment` does.
fn read_into_last_segment<R: Read>(
    segments: &mut VecDeque<EitherBuf<Bytes, BytesMut>>,
    input: &mut R,
    least: usize,
    most: usize,
) -> io::Result<Option<usize>>
    requires { 0 < least }
    ensures read { IfOk result (λ next. IfSome next (λ count. (got : List ℕ)
        × ReadGave (R.remaining input.old) (R.remaining input.new) count got
        × (map packed_bytes segments.new.items
        ≡ pack_into_last got (map packed_bytes segments.old.items)))) }
    ensures some { IfOk result (λ next. IfSome next (λ count.
        (count ≤ most) × (0 < length segments.old.items))) }
    ensures none { IfOk result (λ next. IfNone next
        ((segments.new.items ≡ segments.old.items) × (input.new ≡ input.old))) }
    ensures err { OnErr result (map packed_bytes segments.new.items
        ≡ map packed_bytes segments.old.items) }
    ensures unread { OnErr result (Keeps (R.remaining input.old) (R.remaining input.new)) }
{
    match segments.back_mut() {
        Some(last) => read_into_segment(last, input, least, most),
        None => Ok(None),
    }
}

/// Makes one read into the room of a piece, if that is a block with room for at least `least` and at
/// most `most` bytes.
fn read_into_segment<R: Read>(
    piece: &mut EitherBuf<Bytes, BytesMut>,
    input: &mut R,
    least: usize,
    most: usize,
) -> io::Result<Option<usize>>
    requires { 0 < least }
    ensures read { IfOk result (λ next. IfSome next (λ count. (got : List ℕ)
        × ReadGave (R.remaining input.old) (R.remaining input.new) count got
        × (packed_bytes piece.new ≡ packed_bytes piece.old ++ got))) }
    ensures within { IfOk result (λ next. IfSome next (λ count. count ≤ most)) }
    ensures none { IfOk result
        (λ next. IfNone next ((piece.new ≡ piece.old) × (input.new ≡ input.old))) }
    ensures err { OnErr result (piece.new ≡ piece.old) }
    ensures unread { OnErr result (Keeps (R.remaining input.old) (R.remaining input.new)) }
{
    match piece {
        EitherBuf::Right(block) if has_room_to_read(block, least, most) => {
            Ok(Some(block.read_from(input)?))
        }
        _ => Ok(None),
    }
}

/// Whether a block has room for at least `least` bytes and for at most `most`.
fn has_room_to_read(block: &BytesMut, least: usize, most: usize) -> bool
    ensures least { OnTrue result (least ≤ block.now.spare) }
    ensures most { OnTrue result (block.now.spare ≤ most) }
{
    let room = block.capacity() - block.len();
    least <= room && room <= most
}

/// Puts a block in the place of the last piece.
fn put_read_block(segments: &mut VecDeque<EitherBuf<Bytes, BytesMut>>, block: BytesMut)
    requires { 0 < length segments.old.items }
    ensures { (got : List ℕ) → block.items ≡ last_packed (map packed_bytes segments.old.items) ++ got
        → map packed_bytes segments.new.items
        ≡ pack_into_last got (map packed_bytes segments.old.items) }
{
    let Some(last) = segments.back_mut() else {
        unreachable!()
    };
    *last = EitherBuf::Right(block);
}
