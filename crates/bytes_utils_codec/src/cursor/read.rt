//! Bytes at a cursor that are only read: borrowed from the buffer where they are in one segment.
ghost use Rattle.std.specs.Prelude.{◌≡◌, ℕ, ◌+◌, ◌<◌, ◌≤◌, length, take, IsOk, IfOk, IfErr, IfSome, IfNone, OnErr};
ghost use Rattle.std.specs.Cow.{cow_slice_items};
ghost use Rattle.bytes_utils_codec.specs.Cursor.{AreInOneSegment, CursorHasNoFrameWithin, CursorReadsPart, CursorTakesFirst, passed_on, unread};
ghost use Rattle.bytes_utils_codec.specs.Frames.{HasFrame, HasFrameWithin, TakesFrame};
ghost use Rattle.bytes_utils.specs.Occurrence.{Occurs, OccursFirstAt};

use super::Cursor;
use bytes_utils_buf::Reason;
use bytes_utils_buf::contiguous::ContiguousBuf;
use std::borrow::CowSlice;

impl<'a, B: ContiguousBuf + Drop> Cursor<'a, B> {
    /// As `take`, for bytes that are only read, as those of a length. They are borrowed from the
    /// buffer if one segment has them all, and else copied into one `Vec`. Only a copy can fail.
    pub fn read(&mut self, len: usize) -> Result<Option<CowSlice<'a, u8>>, Reason>
        ensures gives { CursorReadsPart (λ part old new. CursorTakesFirst len old (cow_slice_items part) new)
            (λ bytes. length bytes < len) self.old self.new result }
        ensures reason { IfErr result (λ reason. reason ≡ Reason.OutOfMemory) }
        ensures none { len ≡ 0 → IsOk result }
        ensures one { AreInOneSegment len self.old → IsOk result }
        ensures due { OnErr result (len ≤ length (unread self.old)) }
    {
        if self.remaining() < len {
            return Ok(None);
        }
        Ok(Some(self.read_bytes(len)?))
    }

    /// As `take_until`, for bytes that are only read, as those of a line with a number. They are
    /// borrowed as those of `read`.
    pub fn read_until(&mut self, needle: &[u8]) -> Result<Option<CowSlice<'a, u8>>, Reason>
        requires { 0 < length needle.now }
        ensures gives { CursorReadsPart (λ part old new. TakesFrame needle.now old (cow_slice_items part) new)
            (λ bytes. ¬ Occurs needle.now bytes) self.old self.new result }
        ensures reason { IfErr result (λ reason. reason ≡ Reason.OutOfMemory) }
        ensures due { OnErr result (HasFrame needle.now (unread self.old)) }
        ensures one { (n : ℕ) → OccursFirstAt needle.now (unread self.old) n
            → AreInOneSegment n self.old → IsOk result }
    {
        let Some(len) = self.find(needle) else {
            return Ok(None);
        };
        Ok(Some(self.read_found(len, needle)?))
    }

    /// As `read_until`, with the limit of `take_until_within`.
    pub fn read_until_within(
        &mut self,
        needle: &[u8],
        most: usize,
    ) -> Result<Option<CowSlice<'a, u8>>, Reason>
        requires { 0 < length needle.now }
        ensures gives { CursorReadsPart (λ part old new. TakesFrame needle.now old (cow_slice_items part) new)
            (λ bytes. ¬ Occurs needle.now bytes) self.old self.new result }
        ensures within { IfOk result (λ next. IfSome next
            (λ part. length (cow_slice_items part) ≤ most)) }
        ensures few { IfOk result (λ next. IfNone next
            (length (unread self.old) < most + length needle.now)) }
        ensures too_long { IfErr result (λ reason. reason ≡ Reason.TooLong
            → CursorHasNoFrameWithin most needle.now (unread self.old)) }
        ensures due { IfErr result (λ reason. reason ≡ Reason.OutOfMemory
            → HasFrameWithin most needle.now (unread self.old)) }
        ensures one { (n : ℕ) → OccursFirstAt needle.now (unread self.old) n → n ≤ most
            → AreInOneSegment n self.old → IsOk result }
    {
        let Some(len) = self.find_within(needle, most)? else {
            return Ok(None);
        };
        Ok(Some(self.read_found(len, needle)?))
    }

    /// Passes the next `len` bytes, which it returns, and the needle that was found after them.
    fn read_found(&mut self, len: usize, needle: &[u8]) -> Result<CowSlice<'a, u8>, Reason>
        requires within { len + length needle.now ≤ length (unread self.old) }
        requires found { OccursFirstAt needle.now (unread self.old) len }
        ensures bytes { IfOk result (λ front.
            TakesFrame needle.now (unread self.old) (cow_slice_items front) (unread self.new)) }
        ensures front { IfOk result (λ front. cow_slice_items front ≡ take len (unread self.old)) }
        ensures segments { self.new.segments ≡ self.old.segments }
        ensures err { OnErr result (self.new ≡ self.old) }
        ensures reason { IfErr result (λ reason. reason ≡ Reason.OutOfMemory) }
        ensures some { OnErr result (0 < len) }
        ensures one { AreInOneSegment len self.old → IsOk result }
    {
        let front = self.read_bytes(len)?;
        self.advance(needle.len());
        Ok(front)
    }

    /// Passes the next `len` bytes and returns them.
    fn read_bytes(&mut self, len: usize) -> Result<CowSlice<'a, u8>, Reason>
        requires { len ≤ length (unread self.old) }
        ensures bytes { IfOk result (λ bytes.
            cow_slice_items bytes ≡ take len (unread self.old)) }
        ensures passed { IfOk result (λ _. self.new ≡ passed_on len self.old) }
        ensures err { OnErr result (self.new ≡ self.old) }
        ensures reason { IfErr result (λ reason. reason ≡ Reason.OutOfMemory) }
        ensures none { len ≡ 0 → IsOk result }
        ensures one { AreInOneSegment len self.old → IsOk result }
    {
        let bytes = self.buf.read_range(self.alloc, self.at..self.at + len)?;
        self.at += len;
        Ok(bytes)
    }
}
