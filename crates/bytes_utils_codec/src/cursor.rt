//! Reading on in a buffer that is only borrowed.
ghost use Rattle.std.specs.Prelude.{◌≡◌, ◌≢◌, ℕ, ◌+◌, ◌-◌, ◌<◌, ◌≤◌, ◌↔◌, List, ◌++◌, [], ◌∷◌, length, take, drop, false, IsTrue, IsOk, IfOk, IfErr, IfSome, IfNone, OnErr};
ghost use Rattle.std.specs.List.{concat, slice_get};
ghost use Rattle.bytes_utils_codec.specs.Cursor.{AreNextSegments, IsBegunAtCursor, NeverBeginsAtCursor, CursorHasNoFrameWithin, OneCursorReplyLaw, CursorReadsPart, SameCursorLaw, CursorStaysLaw, CursorStaysWrongLaw, CursorTakesFirst, CursorTakesUpTo, passed_on, unread};
ghost use Rattle.bytes_utils_codec.specs.Frames.{HasFrame, HasFrameWithin, TakesFrame};
ghost use Rattle.bytes_utils.specs.Lines.{IsWithoutReturn, line_feed};
ghost use Rattle.bytes_utils.specs.Occurrence.{Occurs, OccursFirstAt};
ghost use Rattle.bytes_utils_codec.specs.LineReading.{IsTextLineItem};
ghost use Rattle.bytes_utils_codec.specs.StreamLines.{HasStreamLine, TakesStreamLine};

pub mod integers;
pub mod read;

use crate::decode::LineFault;
use crate::decode::lines::text_of_line;
use crate::find::find_from;
use bytes::{Buf, Bytes};
use bytes_utils::string::Str;
use bytes_utils_buf::Reason;
use bytes_utils_buf::contiguous::ContiguousBuf;
use bytes_utils_buf::segmented::SegmentedBuf;
use std::alloc::Global;
use std::error::Error;
use std::fmt;
use std::marker::Model;

/// The unread bytes don't begin with the expected ones, whatever comes after them.
#[derive(Clone, Copy, Debug, Eq, PartialEq)]
pub struct Mismatch;

/// Writes `not the expected bytes`.
impl fmt::Display for Mismatch {
    ghost use Rattle.std.specs.Prelude.{Some, codes};

    ghost output = { λ _. Some (codes "not the expected bytes") };

    fn fmt<W: fmt::Write>(&self, f: &mut fmt::Formatter<W>) -> fmt::Result {
        write!(f, "not the expected bytes")
    }
}

impl Error for Mismatch {}

/// A place in a borrowed buffer, from which bytes are read. The buffer stays as it is.
///
/// It is for a reader of a protocol whose messages have parts: it reads part after part, and takes
/// nothing off the buffer until the whole message is there.
///
/// ```text
/// let mut cursor = Cursor::new(alloc, &came);          // of `PUT 5\r\nHel` and `lo`
/// cursor.tag(b"PUT ")?                                 // `Some(())`; `Err` for another byte
/// cursor.take_until(b"\r\n")?                          // `5`
/// cursor.take(5)?                                      // `Hello`; `None` if less of it has come
/// let passed = cursor.at();
/// came.advance(passed);
/// ```
///
/// Where what is wanted has not come yet, a call returns `None`. Then, and with each error, the
/// cursor stays where it is.
///
/// The buffer is a [`SegmentedBuf`], or what a `PackedBuf` holds (`as_segmented`), as that of
/// [`Framed::pieces`](crate::decode::Framed::pieces). Each call steps over the segments between the
/// cursor and the nearer end. A `PackedBuf` bounds their number.
#[derive(Drop)]
pub struct Cursor<'a, B: ContiguousBuf + Drop> {
    alloc: Global,
    buf: &'a SegmentedBuf<B>,
    len: usize,
    at: usize,
}

impl<'a, B: ContiguousBuf + Drop> Model for Cursor<'a, B> {
    ghost use Rattle.std.specs.Prelude.{◌≡◌, ◌≤◌, length};
    ghost use Rattle.std.specs.List.{concat};
    ghost use Rattle.bytes_utils_codec.specs.Cursor.{CursorReading};

    ghost Value = { CursorReading };

    ghost view = { λ c. record { segments = c.buf.now.segments; at = c.at } };

    ghost invariant = { λ c. (c.len ≡ length (concat c.buf.now.segments)) × (c.at ≤ c.len) };
}

impl<'a, B: ContiguousBuf + Drop> Cursor<'a, B> {
    /// Makes a cursor at the first byte of `buf`. Requests for memory are made from `alloc`.
    pub fn new(alloc: Global, buf: &'a SegmentedBuf<B>) -> Cursor<'a, B>
        ensures { result ≡ record { segments = buf.now.segments; at = 0 } }
    {
        Cursor {
            alloc,
            buf,
            len: buf.remaining(),
            at: 0,
        }
    }

    /// Returns the number of bytes that were passed. `advance` of the buffer by this number drops
    /// them.
    pub fn at(&self) -> usize
        ensures value { result ≡ self.now.at }
        ensures within { result ≤ length (concat self.now.segments) }
    {
        self.at
    }

    /// Returns the number of unread bytes.
    pub fn remaining(&self) -> usize
        ensures { result ≡ length (unread self.now) }
    {
        self.len - self.at
    }

    /// Returns the next byte, or `None` if there is none.
    pub fn peek(&self) -> Option<u8>
        ensures { result ≡ slice_get (unread self.now) 0 }
    {
        self.buf.byte_at(self.at)
    }

    /// Returns whether the unread bytes start with `bytes`.
    pub fn starts_with(&self, bytes: &[u8]) -> bool
        ensures { IsTrue result ↔ (take (length bytes.now) (unread self.now) ≡ bytes.now) }
    {
        self.buf.holds_at(self.at, bytes)
    }

    /// Passes `n` bytes. Requires that `n` is at most the number of unread bytes (test:
    /// `remaining`).
    pub fn advance(&mut self, n: usize)
        requires { n ≤ length (unread self.old) }
        ensures { self.new ≡ passed_on n self.old }
    {
        self.at += n;
    }

    /// Returns all unread bytes in segments, shared as `SegmentedBuf::slice` shares them. The
    /// cursor stays. Fails with `OutOfMemory` if memory is refused, never if no byte is left.
    pub fn rest(&self) -> Result<SegmentedBuf<Bytes>, Reason>
        ensures bytes { IfOk result (λ rest. concat rest.segments ≡ unread self.now) }
        ensures pieces { IfOk result (AreNextSegments (length (unread self.now)) self.now) }
        ensures reason { IfErr result (λ reason. reason ≡ Reason.OutOfMemory) }
        ensures none { unread self.now ≡ [] → IsOk result }
    {
        self.buf.slice(self.alloc, self.at..self.len)
    }

    /// Returns how many bytes after the cursor `needle` occurs first, or `None` if it doesn't. The
    /// cursor stays.
    pub fn find(&self, needle: &[u8]) -> Option<usize>
        ensures found { IfSome result (λ n. OccursFirstAt needle.now (unread self.now) n) }
        ensures within { IfSome result
            (λ n. n + length needle.now ≤ length (unread self.now)) }
        ensures missed { IfNone result (¬ Occurs needle.now (unread self.now)) }
    {
        let place = find_from(self.buf, self.at, needle)?;
        Some(place - self.at)
    }

    /// Passes `len` bytes and returns them, or returns `None` if fewer are there. They are shared
    /// if one segment has them all and shares its own, and else copied into one block. Fails with
    /// `OutOfMemory` if memory for bytes that have all come is refused, never for none.
    pub fn take(&mut self, len: usize) -> Result<Option<Bytes>, Reason>
        ensures gives { CursorReadsPart (λ part old new. CursorTakesFirst len old part new)
            (λ bytes. length bytes < len) self.old self.new result }
        ensures reason { IfErr result (λ reason. reason ≡ Reason.OutOfMemory) }
        ensures none { len ≡ 0 → IsOk result }
        ensures due { OnErr result (len ≤ length (unread self.old)) }
    {
        if self.remaining() < len {
            return Ok(None);
        }
        Ok(Some(self.take_bytes(len)?))
    }

    /// As `take`, but in segments, each shared if its own segment shares its bytes: for a body that
    /// is to stay uncopied.
    pub fn take_segments(&mut self, len: usize) -> Result<Option<SegmentedBuf<Bytes>>, Reason>
        ensures gives { CursorReadsPart (λ part old new. CursorTakesFirst len old (concat part.segments) new)
            (λ bytes. length bytes < len) self.old self.new result }
        ensures pieces { IfOk result (λ next. IfSome next (AreNextSegments len self.old)) }
        ensures reason { IfErr result (λ reason. reason ≡ Reason.OutOfMemory) }
        ensures none { len ≡ 0 → IsOk result }
        ensures due { OnErr result (len ≤ length (unread self.old)) }
    {
        if self.remaining() < len {
            return Ok(None);
        }
        let part = self.buf.slice(self.alloc, self.at..self.at + len)?;
        self.at += len;
        Ok(Some(part))
    }

    /// Returns the bytes before the next `needle`, as `take` does, and passes them and the needle.
    /// Returns `None` if it has not come yet. Requires that `needle` is not empty (test:
    /// `is_empty`). Fails with `OutOfMemory` if memory for the bytes before the needle is refused,
    /// never if there are none.
    pub fn take_until(&mut self, needle: &[u8]) -> Result<Option<Bytes>, Reason>
        requires { 0 < length needle.now }
        ensures gives { CursorReadsPart (λ part old new. TakesFrame needle.now old part new)
            (λ bytes. ¬ Occurs needle.now bytes) self.old self.new result }
        ensures reason { IfErr result (λ reason. reason ≡ Reason.OutOfMemory) }
        ensures due { OnErr result (HasFrame needle.now (unread self.old)) }
    {
        let Some(len) = self.find(needle) else {
            return Ok(None);
        };
        Ok(Some(self.take_found(len, needle)?))
    }

    /// As `take_until`, if at most `most` bytes are before the needle. Fails with `TooLong` if there
    /// are more, as soon as the bytes that have come are enough for `most` and the needle, and the
    /// needle isn't among them. Fails with `OutOfMemory` if memory is refused for bytes within the
    /// limit that have come, never if none are before the needle.
    pub fn take_until_within(&mut self, needle: &[u8], most: usize) -> Result<Option<Bytes>, Reason>
        requires { 0 < length needle.now }
        ensures gives { CursorReadsPart (λ part old new. TakesFrame needle.now old part new)
            (λ bytes. ¬ Occurs needle.now bytes) self.old self.new result }
        ensures within { IfOk result (λ next. IfSome next (λ front. length front ≤ most)) }
        ensures few { IfOk result (λ next. IfNone next
            (length (unread self.old) < most + length needle.now)) }
        ensures too_long { IfErr result (λ reason. reason ≡ Reason.TooLong
            → CursorHasNoFrameWithin most needle.now (unread self.old)) }
        ensures due { IfErr result (λ reason. reason ≡ Reason.OutOfMemory
            → HasFrameWithin most needle.now (unread self.old)) }
    {
        let Some(len) = self.find_within(needle, most)? else {
            return Ok(None);
        };
        Ok(Some(self.take_found(len, needle)?))
    }

    /// As `find`, if at most `most` bytes are before the needle. Fails with `TooLong` if not.
    fn find_within(&self, needle: &[u8], most: usize) -> Result<Option<usize>, Reason>
        requires { 0 < length needle.now }
        ensures found { IfOk result (λ place. IfSome place (λ n.
            OccursFirstAt needle.now (unread self.now) n)) }
        ensures within { IfOk result (λ place. IfSome place (λ n.
            (n ≤ most) × (n + length needle.now ≤ length (unread self.now)))) }
        ensures missed { IfOk result (λ place. IfNone place
            (¬ Occurs needle.now (unread self.now))) }
        ensures few { IfOk result (λ place. IfNone place
            (length (unread self.now) < most + length needle.now)) }
        ensures too_long { IfErr result (λ reason. (reason ≡ Reason.TooLong)
            × CursorHasNoFrameWithin most needle.now (unread self.now)) }
    {
        match self.find(needle) {
            Some(place) if place <= most => Ok(Some(place)),
            None if !self.has_all_within(needle, most) => Ok(None),
            _ => Err(Reason::TooLong),
        }
    }

    /// Whether at least as many bytes have come as `most` and the needle have together.
    fn has_all_within(&self, needle: &[u8], most: usize) -> bool
        ensures { IsTrue result ↔ (most + length needle.now ≤ length (unread self.now)) }
    {
        needle.len() <= self.remaining() && most <= self.remaining() - needle.len()
    }

    /// As `take_until`, but the needle isn't passed: the cursor is at its first byte then.
    pub fn take_to(&mut self, needle: &[u8]) -> Result<Option<Bytes>, Reason>
        requires { 0 < length needle.now }
        ensures gives { CursorReadsPart (λ part old new. CursorTakesUpTo needle.now old part new)
            (λ bytes. ¬ Occurs needle.now bytes) self.old self.new result }
        ensures reason { IfErr result (λ reason. reason ≡ Reason.OutOfMemory) }
        ensures due { OnErr result (HasFrame needle.now (unread self.old)) }
    {
        let Some(place) = self.find(needle) else {
            return Ok(None);
        };
        Ok(Some(self.take_bytes(place)?))
    }

    /// Passes `bytes` if they are next. Returns `None` if only a beginning of them has come, or
    /// nothing yet. Fails with `Mismatch` at a wrong byte, as early as it has come.
    pub fn tag(&mut self, bytes: &[u8]) -> Result<Option<()>, Mismatch>
        ensures passed { IfOk result (λ next. IfSome next (λ _.
            unread self.old ≡ bytes.now ++ unread self.new)) }
        ensures waits { IfOk result (λ next. IfNone next
            ((self.new ≡ self.old) × IsBegunAtCursor bytes.now (unread self.old))) }
        ensures wrong { IfErr result (λ _. NeverBeginsAtCursor bytes.now (unread self.old)) }
        ensures segments { self.new.segments ≡ self.old.segments }
        ensures err { OnErr result (self.new ≡ self.old) }
    {
        let most = bytes.len().min(self.remaining());
        if !self.starts_with(&bytes[..most]) {
            return Err(Mismatch);
        }
        if most < bytes.len() {
            return Ok(None);
        }
        self.advance(most);
        Ok(Some(()))
    }

    /// Passes the next line with its end and returns it, as [`Lines`](crate::decode::Lines) does: if
    /// it is not UTF-8, a fault that has its bytes. Returns `None` if its line feed has not come yet.
    /// Fails with `OutOfMemory` if memory for a line that has come is refused, never for an empty one.
    pub fn line(&mut self) -> Result<Option<Result<Str, LineFault>>, Reason>
        ensures gives { CursorReadsPart
            (λ item old new. (line : List ℕ) × TakesStreamLine old line new × IsTextLineItem false item line)
            (λ bytes. ¬ Occurs (line_feed ∷ []) bytes) self.old self.new result }
        ensures reason { IfErr result (λ reason. reason ≡ Reason.OutOfMemory) }
        ensures due { OnErr result (HasStreamLine (unread self.old)) }
    {
        let Some(len) = self.find(b"\n") else {
            return Ok(None);
        };
        let line_len = line_len_between(self.buf, self.at, self.at + len);
        let line = self.take_bytes(line_len)?;
        self.advance(len - line_len + 1);
        Ok(Some(text_of_line(line)))
    }

    /// Passes the next `len` bytes, which it returns, and the needle that was found after them.
    fn take_found(&mut self, len: usize, needle: &[u8]) -> Result<Bytes, Reason>
        requires within { len + length needle.now ≤ length (unread self.old) }
        requires found { OccursFirstAt needle.now (unread self.old) len }
        ensures bytes { IfOk result (λ front.
            TakesFrame needle.now (unread self.old) front (unread self.new)) }
        ensures front { IfOk result (λ front. front ≡ take len (unread self.old)) }
        ensures segments { self.new.segments ≡ self.old.segments }
        ensures err { OnErr result (self.new ≡ self.old) }
        ensures reason { IfErr result (λ reason. reason ≡ Reason.OutOfMemory) }
        ensures some { OnErr result (0 < len) }
    {
        let front = self.take_bytes(len)?;
        self.advance(needle.len());
        Ok(front)
    }

    /// Passes the next `len` bytes and returns them.
    fn take_bytes(&mut self, len: usize) -> Result<Bytes, Reason>
        requires { len ≤ length (unread self.old) }
        ensures bytes { IfOk result (λ bytes. bytes ≡ take len (unread self.old)) }
        ensures passed { IfOk result (λ _. self.new ≡ passed_on len self.old) }
        ensures err { OnErr result (self.new ≡ self.old) }
        ensures reason { IfErr result (λ reason. reason ≡ Reason.OutOfMemory) }
        ensures none { len ≡ 0 → IsOk result }
    {
        let bytes = self.buf.copy_range(self.alloc, self.at..self.at + len)?;
        self.at += len;
        Ok(bytes)
    }
}

/// The number of the bytes from `start` to `end` without one carriage return at their end, if they
/// have one.
fn line_len_between<B: ContiguousBuf + Drop>(
    buf: &SegmentedBuf<B>,
    start: usize,
    end: usize,
) -> usize
    requires { (start ≤ end) × (end ≤ length (concat buf.now.segments)) }
    ensures line { IsWithoutReturn (take result (drop start (concat buf.now.segments)))
        (take (end - start) (drop start (concat buf.now.segments))) }
    ensures within { result ≤ end - start }
{
    if start < end && buf.byte_at(end - 1) == Some(b'\r') {
        end - 1 - start
    } else {
        end - start
    }
}

/// The laws of what a cursor reads. It depends on the joined bytes alone, not on where the segments
/// are cut. What was read is read again when more bytes have come, and what was a wrong byte stays
/// one.
pub fn cursor_laws()
    ensures same { SameCursorLaw }
    ensures stays { CursorStaysLaw }
    ensures wrong { CursorStaysWrongLaw }
    ensures one { OneCursorReplyLaw }
{}
