//! Lines as texts, each ended by a line feed, a carriage return, or both.
ghost use Rattle.std.specs.Prelude.{◌≡◌, ◌<◌, true, IfOk, IfNone, IfSome, MatchBool, OnErr, OnOk, length, take, drop, slice_index};
ghost use Rattle.std.specs.List.{concat};
ghost use Rattle.bytes_utils_codec.specs.Decoding.{Decodes, decoding};
ghost use Rattle.bytes_utils_codec.specs.UniversalReading.{AwaitsUniversal, UniversalReadingFinds, IsUniversalComing, PassesLongUniversal, SkipsUniversal, StopsUniversal, TakesUniversal, UniversalReadingLaw, WholeUniversalReadingLaw, after_universal_end, after_universal_feed, dropped_universal, fails_universal, fails_universal_at_end, gives_universal, keeps_universal, ready_universal, skipping_universal, universal_reading};
ghost use Rattle.bytes_utils_codec.specs.UniversalReadingLaws.{universal_same, universal_single, universal_stable, universal_waits};
ghost use Rattle.bytes_utils_codec.specs.UniversalLines.{AllUniversalLinesLaw, SameUniversalLinesLaw, TextUniversalLinesLaw};

use super::lines::{Line, LineFault, take_last_line, take_line};
use super::{Decoder, FrameTooLong};
use crate::find_end::find_end;
use bytes::Buf;
use bytes_utils::string::Str;
use bytes_utils_buf::Reason;
use bytes_utils_buf::segmented::PackedBuf;
use std::alloc::Global;
use std::marker::Model;

/// Where the held bytes begin.
#[derive(Clone, Copy, Debug)]
enum Place {
    /// In a line, most often with its first byte.
    Line,
    /// After a carriage return that ended a line: a line feed there belongs to that end.
    AfterReturn,
    /// In a line over the limit, which is skipped.
    LongLine,
}

/// A decoder of lines as texts, each ended by a line feed, by a carriage return, or by a carriage
/// return and a line feed.
///
/// ```text
/// let mut lines = Framed::new(alloc, UniversalLines::with_limit(8));
/// lines.push_slice(b"a\n\rb\r")?;
/// lines.next_item()?          // `Ok(a)`, and then an empty line, and then `Ok(b)`
/// lines.push_slice(b"\nAccept: */*\rc")?;
/// lines.next_item()?          // `Err(TooLong)`: the line feed belongs to the end of `b`
/// lines.next_item()?          // `None`; `c` is left
/// lines.last_item()?          // `Ok(c)`
/// ```
///
/// These ends are known as universal newlines; the event streams of the HTML standard (section
/// 9.2.5) have them. A line is returned as soon as its carriage return has come, also if a line feed
/// may still follow, so that no line of a live stream waits for the next one. For lines that only a
/// line feed ends take [`Lines`](super::Lines).
///
/// A line over the limit is an item that says so, once; its bytes are dropped as they come. A line
/// that is not UTF-8 is an item that has its bytes. The next item is the line after it. At the end
/// of the stream the bytes that are left are the last line, if there are any. Those of a line over
/// the limit are dropped, and no line comes.
///
/// While it waits, no byte is searched twice, and no memory is asked for. A line that lies in one
/// segment shares it: a piece of more than 512 bytes, or a block of copied ones. Any other is copied
/// into one block. `OutOfMemory` comes only for a line within the limit that has come and isn't
/// empty, or at the end of the stream for the last one.
#[derive(Debug, Drop)]
pub struct UniversalLines {
    max_length: usize,
    searched: usize,
    place: Place,
    lossy: bool,
}

impl Model for UniversalLines {
    ghost use Rattle.bytes_utils_codec.specs.UniversalReading.{UniversalReading};

    ghost Value = { UniversalReading };

    ghost view = { λ l. record {
      max_length = l.max_length;
      searched = l.searched;
      place = l.place;
      lossy = l.lossy;
    } };
}

impl UniversalLines {
    /// Makes a decoder of lines of any length.
    pub fn new() -> UniversalLines
        ensures { result ≡ universal_reading usize.MAX }
    {
        UniversalLines::with_limit(usize::MAX)
    }

    /// Makes a decoder of lines of at most `max_length` bytes, which don't count the end.
    pub fn with_limit(max_length: usize) -> UniversalLines
        ensures { result ≡ universal_reading max_length }
    {
        UniversalLines {
            max_length,
            searched: 0,
            place: Place::Line,
            lossy: false,
        }
    }

    /// Makes it lossy: bytes that are no character become U+FFFD, as with
    /// `String::from_utf8_lossy`. Then no line is `NotUtf8`.
    pub fn lossy(self) -> UniversalLines
        ensures { result ≡ record self { lossy = true } }
    {
        UniversalLines {
            max_length: self.max_length,
            searched: self.searched,
            place: self.place,
            lossy: true,
        }
    }

    /// Returns the greatest length of a line, in bytes.
    pub fn max_length(&self) -> usize
        ensures { result ≡ self.now.max_length }
    {
        self.max_length
    }

    /// Takes the next line, if its end has come.
    fn take_line(&mut self, alloc: Global, held: &mut PackedBuf) -> Result<Option<Line>, Reason>
        ensures { TakesUniversal (decoding self.old held.old) result
            (decoding self.new held.new) }
    {
        match self.next_len(held) {
            None => Ok(None),
            Some(Err(_)) => Ok(Some(Err(LineFault::TooLong))),
            Some(Ok(len)) => {
                let line = take_line(alloc, held, len, self.lossy)?;
                self.pass_end(held);
                Ok(Some(line))
            }
        }
    }

    /// Finds the next line, and returns its length, or reports that it is longer than the limit. No
    /// byte of the line is taken.
    fn next_len(&mut self, held: &mut PackedBuf) -> Option<Result<usize, FrameTooLong>>
        ensures { UniversalReadingFinds (decoding self.old held.old) result
            (decoding self.new held.new) }
    {
        self.pass_feed(held);
        if !self.pass_long(held) {
            return None;
        }
        self.find_len(held)
    }

    /// Drops a line feed that belongs to the end of the line before. If no byte is held, it may
    /// still come.
    fn pass_feed(&mut self, held: &mut PackedBuf)
        ensures { decoding self.new held.new ≡ after_universal_feed (decoding self.old held.old) }
    {
        let Place::AfterReturn = self.place else {
            return;
        };
        if held.remaining() == 0 {
            return;
        }
        if held.as_segmented().starts_with(b"\n") {
            held.advance(1);
        }
        self.place = Place::Line;
    }

    /// Drops the line that is skipped, if there is one, or those of its bytes that have come. Returns
    /// whether the held bytes begin with the next line now.
    fn pass_long(&mut self, held: &mut PackedBuf) -> bool
        ensures { MatchBool result
            (PassesLongUniversal (decoding self.old held.old) (decoding self.new held.new))
            (SkipsUniversal (decoding self.old held.old)
            × (decoding self.new held.new ≡ dropped_universal (decoding self.old held.old))) }
    {
        let Place::LongLine = self.place else {
            return true;
        };
        match find_end(held.as_segmented(), self.searched) {
            Some(len) => {
                held.advance(len);
                self.pass_end(held);
                self.pass_feed(held);
                true
            }
            None => {
                let len = held.remaining();
                held.advance(len);
                self.searched = self.searched.saturating_sub(len);
                false
            }
        }
    }

    /// Returns the length of the next line, or reports that it is longer than the limit.
    fn find_len(&mut self, held: &PackedBuf) -> Option<Result<usize, FrameTooLong>>
        ensures { IsUniversalComing (decoding self.old held.now) result (decoding self.new held.now) }
    {
        match find_end(held.as_segmented(), self.searched) {
            Some(len) if len <= self.max_length => Some(Ok(len)),
            None if held.remaining() <= self.max_length => {
                self.searched = self.searched.max(held.remaining());
                None
            }
            _ => {
                self.skip();
                Some(Err(FrameTooLong))
            }
        }
    }

    /// Skips the next line.
    fn skip(&mut self)
        requires { self.old.max_length < usize.MAX }
        ensures { self.new ≡ skipping_universal self.old }
    {
        self.searched = self.max_length + 1;
        self.place = Place::LongLine;
    }

    /// Drops the byte that ends a line, with which the held bytes begin.
    fn pass_end(&mut self, held: &mut PackedBuf)
        requires { 0 < length (concat held.old.held.segments) }
        ensures { decoding self.new held.new ≡ after_universal_end 0 (decoding self.old held.old) }
    {
        self.place = if held.as_segmented().starts_with(b"\r") {
            Place::AfterReturn
        } else {
            Place::Line
        };
        self.searched = 0;
        held.advance(1);
    }

    /// Begins at the front of a line.
    fn ready(&mut self)
        ensures { self.new ≡ ready_universal self.old }
    {
        self.searched = 0;
        self.place = Place::Line;
    }
}

impl Decoder for UniversalLines {
    type Item = Result<Str, LineFault>;

    type Error = Reason;

    ghost gives = { gives_universal };

    ghost waits = { AwaitsUniversal };

    ghost fails = { fails_universal };

    ghost fails_at_end = { fails_universal_at_end };

    ghost keeps = { keeps_universal };

    ghost restarted = { ready_universal };

    fn decode(&mut self, alloc: Global, held: &mut PackedBuf) -> Result<Option<Line>, Reason>
        ensures step { Decodes gives_universal AwaitsUniversal fails_universal keeps_universal
            (decoding self.old held.old) result (decoding self.new held.new) }

        // Of bytes that wait each was searched.
        ensures stops { IfOk result (λ next. IfNone next
            (StopsUniversal (decoding self.old held.old) (decoding self.new held.new))) }
    {
        self.take_line(alloc, held)
    }

    fn decode_eof(&mut self, alloc: Global, held: &mut PackedBuf) -> Result<Option<Line>, Reason> {
        if let Some(line) = self.take_line(alloc, held)? {
            return Ok(Some(line));
        }
        let line = take_last_line(alloc, held, self.lossy)?;
        self.ready();
        Ok(line)
    }

    fn restart(&mut self) {
        self.ready();
    }

    ghost stable = { universal_stable };

    ghost single = { universal_single };

    ghost awaits = { universal_waits };

    ghost same = { universal_same };
}

/// The laws of a decoder that is new. Its items are those for the first lines of the bytes, each its
/// text, or why there is none; with the last one, those for all lines. With `decoder_laws`, so are
/// those of every run, whatever the pieces are, also if a carriage return is in one and its line
/// feed in the next. Over the bytes of a text each line is a text.
pub fn universal_line_laws()
    ensures items { UniversalReadingLaw }
    ensures whole { WholeUniversalReadingLaw }
    ensures lines { AllUniversalLinesLaw }
    ensures text { TextUniversalLinesLaw }
    ensures same { SameUniversalLinesLaw }
{}
