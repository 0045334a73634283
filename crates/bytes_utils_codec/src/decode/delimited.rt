//! Frames that a separator ends.
ghost use Rattle.std.specs.Prelude.{◌≡◌, ◌↔◌, ◌+◌, ◌<◌, ◌≤◌, length, take, drop, IfErr, IfOk, IfNone, IfSome, IsTrue, MatchBool, not, OnErr, OnOk, false};
ghost use Rattle.std.specs.List.{concat};
ghost use Rattle.bytes_utils_codec.specs.Decoding.{Decodes, decoding, passed};
ghost use Rattle.bytes_utils_codec.specs.Delimited.{AwaitsDelimitedFrame, AwaitsDelimitedSeparator, DelimitedFramesLaw, DelimitedHeldLaw, DelimitedWholeLaw, FindsNextDelimited, IsDelimitedOverLimit, PassesDelimited, SkipsMoreDelimited, SkipsDelimited, StopsDelimited, TakesDelimitedFrameFrom, all_delimited_searched, delimiting, fails_delimited, gives_delimited, keeps_delimited, delimited_left, ready_delimited, skipping_delimited_from};
ghost use Rattle.bytes_utils_codec.specs.DelimitedLaws.{delimited_same, delimited_single, delimited_stable, delimited_waits};

use super::{Decoder, FrameTooLong};
use crate::search::Search;
use bytes::{Buf, Bytes};
use bytes_utils_buf::Reason;
use bytes_utils_buf::segmented::PackedBuf;
use std::alloc::Global;
use std::marker::Model;

/// A frame, or that it is longer than the limit.
type Frame = Result<Bytes, FrameTooLong>;

/// A decoder of frames that a separator ends.
///
/// ```text
/// let mut frames = Framed::new(alloc, Delimited::with_limit(alloc, b"\r\n", 10)?);
/// frames.push_slice(b"GET / HTT")?;
/// frames.next_item()?         // `None`
/// frames.push_slice(b"P/1.1\r\nHost: a\r\n")?;
/// frames.next_item()?         // `Err(FrameTooLong)`, of `GET / HTTP/1.1`
/// frames.next_item()?         // `Ok(Host: a)`
/// ```
///
/// A frame over the limit is an item that says so: once, when it has ended, or as soon as it has as
/// many bytes as the limit and the separator together. It is skipped: its bytes are dropped as they
/// come. So, if items are asked for after each piece until there is none, fewer bytes are held than
/// the limit and the separator have together.
///
/// While it waits, bytes are not searched again, but for the last ones, in which the separator may
/// begin, and no memory is asked for. A frame that lies in one segment shares it: a piece of more
/// than 512 bytes, or a block of copied ones. Any other is copied into one block. `OutOfMemory`
/// comes only for a frame within the limit that has come and isn't empty. At the end of the stream,
/// bytes with no separator after them are left, but for those of a frame that is skipped.
#[derive(Debug, Drop)]
pub struct Delimited {
    search: Search,
    max_length: usize,
    skipping: bool,
}

impl Model for Delimited {
    ghost use Rattle.bytes_utils_codec.specs.Delimited.{Delimiting};

    ghost Value = { Delimiting };

    ghost view = { λ d. record {
      separator = d.search.needle;
      max_length = d.max_length;
      searched = d.search.searched;
      skipping = d.skipping;
    } };
}

impl Delimited {
    /// Makes a decoder of frames of any length, as `with_limit`. Requires that `separator` is not
    /// empty (test: `is_empty`). Fails with `OutOfMemory` if memory is refused.
    pub fn new(alloc: Global, separator: &[u8]) -> Result<Delimited, Reason>
        requires { 0 < length separator.now }
        ensures ok { IfOk result (λ d. d ≡ delimiting separator.now usize.MAX) }
        ensures reason { IfErr result (λ reason. reason ≡ Reason.OutOfMemory) }
    {
        Delimited::with_limit(alloc, separator, usize::MAX)
    }

    /// Makes a decoder of frames of at most `max_length` bytes, which don't count the separator. It
    /// prepares a [`Search`] for `separator`. Requires that `separator` is not empty (test:
    /// `is_empty`). Fails with `OutOfMemory` if memory is refused.
    pub fn with_limit(
        alloc: Global,
        separator: &[u8],
        max_length: usize,
    ) -> Result<Delimited, Reason>
        requires { 0 < length separator.now }
        ensures ok { IfOk result (λ d. d ≡ delimiting separator.now max_length) }
        ensures reason { IfErr result (λ reason. reason ≡ Reason.OutOfMemory) }
    {
        Ok(Delimited {
            search: Search::new(alloc, separator)?,
            max_length,
            skipping: false,
        })
    }

    /// Returns the separator.
    pub fn separator(&self) -> &[u8]
        ensures { result.now ≡ self.now.separator }
    {
        self.search.needle()
    }

    /// Returns the greatest length of a frame, in bytes.
    pub fn max_length(&self) -> usize
        ensures { result ≡ self.now.max_length }
    {
        self.max_length
    }

    /// Returns whether a frame is skipped whose end has not come.
    pub(super) fn is_skipping(&self) -> bool
        ensures { result ≡ self.now.skipping }
    {
        self.skipping
    }

    /// Finds the next frame, and returns its length, or reports that it is longer than the limit.
    /// No byte of the frame is taken.
    pub(super) fn next_frame(&mut self, held: &mut PackedBuf) -> Option<Result<usize, FrameTooLong>>
        ensures finds { FindsNextDelimited (decoding self.old held.old) result (decoding self.new held.new) }
    {
        if !self.pass_skipped(held) {
            return None;
        }
        self.next_len(held)
    }

    /// Drops the frame that is skipped, if there is one, or those of its bytes that have come. Returns
    /// whether the held bytes begin with the next frame now.
    fn pass_skipped(&mut self, held: &mut PackedBuf) -> bool
        ensures skipped { MatchBool result
            (PassesDelimited (decoding self.old held.old) (decoding self.new held.new))
            (SkipsDelimited (decoding self.old held.old)
            × SkipsMoreDelimited (decoding self.old held.old) (decoding self.new held.new)) }
        ensures skipping { self.new.skipping ≡ not result }
    {
        if !self.skipping {
            return true;
        }
        if let Some(len) = self.search.find(held.as_segmented()) {
            held.advance(len);
            self.pass_separator(held);
            return true;
        }
        let begun = self.search.searched();
        if begun <= held.remaining() {
            held.advance(begun);
            self.search.restart();
        }
        false
    }

    /// Returns the length of the next frame, or reports that it is longer than the limit.
    fn next_len(&mut self, held: &PackedBuf) -> Option<Result<usize, FrameTooLong>>
        ensures frame { IfSome result (λ next. IfOk next (λ len. TakesDelimitedFrameFrom self.old.separator
            self.old.searched (concat held.now.held.segments)
            (take len (concat held.now.held.segments))
            (drop (len + length self.old.separator) (concat held.now.held.segments)))) }
        ensures within { IfSome result (λ next. IfOk next (λ len. (len ≤ self.old.max_length)
            × (len + length self.old.separator ≤ length (concat held.now.held.segments)))) }
        ensures same { IfSome result (λ next. OnOk next (self.new ≡ self.old)) }
        ensures over { IfSome result
            (λ next. OnErr next (IsDelimitedOverLimit (decoding self.old held.now))) }
        ensures skips { IfSome result (λ next. OnErr next (self.new ≡ skipping_delimited_from self.old)) }
        ensures waits { IfNone result (AwaitsDelimitedSeparator (decoding self.old held.now)) }
        ensures searched { IfNone result
            (decoding self.new held.now ≡ all_delimited_searched (decoding self.old held.now)) }
    {
        match self.search.find(held.as_segmented()) {
            Some(len) if len <= self.max_length => Some(Ok(len)),
            None if !self.is_overlong(held.remaining()) => None,
            _ => {
                self.skip();
                Some(Err(FrameTooLong))
            }
        }
    }

    /// Drops the separator, with which the held bytes begin. The next frame is after it.
    fn pass_separator(&mut self, held: &mut PackedBuf)
        requires { length self.old.separator ≤ length (concat held.old.held.segments) }
        ensures { decoding self.new held.new
            ≡ passed ready_delimited (length self.old.separator) (decoding self.old held.old) }
    {
        held.advance(self.separator().len());
        self.ready();
    }

    /// Drops all bytes if they are those of a skipped frame, whose end does not come. Begins at the
    /// front of a frame.
    pub(super) fn pass_end(&mut self, held: &mut PackedBuf)
        ensures { decoding self.new held.new ≡ record (decoding self.old held.old) {
          decoder = ready_delimited self.old;
          held = delimited_left self.old.skipping (concat held.old.held.segments);
        } }
    {
        if self.skipping {
            let len = held.remaining();
            held.advance(len);
        }
        self.ready();
    }

    /// Whether `len` bytes are enough for a frame of the greatest length and its separator.
    fn is_overlong(&self, len: usize) -> bool
        ensures { IsTrue result ↔ (self.now.max_length + length self.now.separator ≤ len) }
    {
        let size = self.separator().len();
        size <= len && self.max_length <= len - size
    }

    /// Skips the next frame.
    fn skip(&mut self)
        requires { self.old.max_length < usize.MAX }
        ensures { self.new ≡ skipping_delimited_from self.old }
    {
        self.search.search_from(self.max_length + 1);
        self.skipping = true;
    }

    /// Begins at the front of a frame.
    pub(super) fn ready(&mut self)
        ensures { self.new ≡ ready_delimited self.old }
    {
        self.search.restart();
        self.skipping = false;
    }
}

impl Decoder for Delimited {
    type Item = Result<Bytes, FrameTooLong>;

    type Error = Reason;

    ghost gives = { gives_delimited };

    ghost waits = { AwaitsDelimitedFrame };

    ghost fails = { fails_delimited };

    ghost keeps = { keeps_delimited };

    ghost restarted = { ready_delimited };

    fn decode(&mut self, alloc: Global, held: &mut PackedBuf) -> Result<Option<Frame>, Reason>
        ensures step { Decodes gives_delimited AwaitsDelimitedFrame fails_delimited keeps_delimited
            (decoding self.old held.old) result (decoding self.new held.new) }
        ensures stops { IfOk result (λ next. IfNone next
            (StopsDelimited (decoding self.old held.old) (decoding self.new held.new))) }

        // All waiting bytes were searched, but for the last ones, in which a separator may begin.
        ensures searched { self.old.skipping ≡ false → IfOk result (λ next. IfNone next
            (decoding self.new held.new ≡ all_delimited_searched (decoding self.old held.old))) }
    {
        match self.next_frame(held) {
            None => Ok(None),
            Some(Err(over)) => Ok(Some(Err(over))),
            Some(Ok(len)) => {
                let frame = held.take_bytes(alloc, len)?;
                self.pass_separator(held);
                Ok(Some(Ok(frame)))
            }
        }
    }

    fn decode_eof(&mut self, alloc: Global, held: &mut PackedBuf) -> Result<Option<Frame>, Reason> {
        let frame = self.decode(alloc, held)?;
        if frame.is_none() {
            self.pass_end(held);
        }
        Ok(frame)
    }

    fn restart(&mut self) {
        self.ready();
    }

    ghost stable = { delimited_stable };

    ghost single = { delimited_single };

    ghost awaits = { delimited_waits };

    ghost same = { delimited_same };
}

/// The laws of a decoder that is new. Its items are the frames of the bytes, each or that it is
/// longer than the limit; with those of the end of the stream, all frames. With `decoder_laws`, so
/// are those of every run. After a call that returned `None` fewer bytes are held than the limit
/// and the separator have together.
pub fn delimited_laws()
    ensures items { DelimitedFramesLaw }
    ensures whole { DelimitedWholeLaw }
    ensures held { DelimitedHeldLaw }
{}
