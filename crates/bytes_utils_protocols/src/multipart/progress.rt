//! How far the parts of a stream were given.
ghost use Rattle.std.specs.Prelude.{◌≡◌, ◌≢◌, ◌+◌, ◌<◌, ◌≤◌, length, take, drop, IfOk, IfErr, OnOk, OnErr};
ghost use Rattle.bytes_utils_protocols.specs.Multipart.{multipart_dashes, multipart_head_end};
ghost use Rattle.bytes_utils_protocols.specs.MultipartStream.{AfterPreamble, FindsPartHead, IsHeadSearchWithin, IsPartStreamReturn, IsPartStreamStep, PassesPartRoom, part_streaming};
ghost use Rattle.bytes_utils_protocols.specs.MultipartWaiting.{IsAheadOfNeedle};

use super::event::PartEvent;
use super::head::{HEAD_END, PartHead, found_head, parse_head};
use super::limits::{Limits, PartError};
use super::waiting::{Ahead, DASHES, Waiting};
use bytes_utils_codec::search::Search;
use std::alloc::Global;

/// Where in a stream the bytes that wait begin.
#[derive(Clone, Copy, Debug, Eq, PartialEq)]
pub(super) enum Place {
    /// Before the first delimiter.
    Preamble,
    /// After a delimiter.
    AtHead,
    /// In the body of a part.
    InBody,
    /// After the close delimiter.
    Ended,
}

/// What is to come of the parts of a stream.
#[derive(Debug, Drop)]
pub(super) struct Progress {
    pub(super) waiting: Waiting,
    /// The search for the end of a head, which begins after each delimiter.
    pub(super) head_end: Search,
    pub(super) place: Place,
    /// How many more bytes the limits allow, of the preamble or of the body.
    pub(super) room: usize,
    pub(super) limits: Limits,
}

impl Progress {
    /// Gives the next event, as `PartStream` does.
    pub(super) fn next_event(&mut self, alloc: Global) -> Result<Option<PartEvent>, PartError>
        requires { IsHeadSearchWithin self.old }
        ensures head_end { IsHeadSearchWithin self.new }
        ensures call { IsPartStreamReturn (part_streaming self.old) result (part_streaming self.new) }
    {
        self.pass_preamble()?;
        self.next_after_preamble(alloc)
    }

    /// Drops what has come of the preamble, and the first delimiter.
    fn pass_preamble(&mut self) -> Result<(), PartError>
        ensures head_end { IsHeadSearchWithin self.old → IsHeadSearchWithin self.new }
        ensures ok { OnOk result (AfterPreamble (part_streaming self.old) (part_streaming self.new)) }
        ensures awaits { OnOk result (self.new.place ≡ Place.Preamble
            → length self.new.waiting.held < length self.new.waiting.delimiter) }
        ensures err { OnErr result (self.new ≡ self.old) }
        ensures over { IfErr result (λ e. (e ≡ PartError.TooLarge)
            × (self.old.place ≡ Place.Preamble) × PassesPartRoom (part_streaming self.old)) }
        ensures many { OnErr result
            (length self.old.waiting.delimiter ≤ length self.old.waiting.held) }
    {
        let Place::Preamble = self.place else {
            return Ok(());
        };
        let ahead = self.look_ahead()?;
        if ahead.has_come {
            self.waiting.pass_delimiter(ahead.len);
            self.head_end.restart();
            self.place = Place::AtHead;
            return Ok(());
        }
        self.waiting.advance(ahead.len);
        self.room -= ahead.len;
        Ok(())
    }

    /// Looks for the next delimiter, before which there may be as many bytes as there is room.
    fn look_ahead(&mut self) -> Result<Ahead, PartError>
        ensures same { self.new ≡ self.old }
        ensures ahead { IfOk result (λ ahead. IsAheadOfNeedle
            self.old.waiting.delimiter self.old.waiting.held ahead) }
        ensures within { IfOk result (λ ahead. ahead.len ≤ self.old.room) }
        ensures over { IfErr result (λ e. (e ≡ PartError.TooLarge)
            × PassesPartRoom (part_streaming self.old)) }
        ensures many { OnErr result
            (length self.old.waiting.delimiter ≤ length self.old.waiting.held) }
    {
        let ahead = self.waiting.search();
        if ahead.len > self.room {
            return Err(PartError::TooLarge);
        }
        Ok(ahead)
    }

    /// Gives the next event, if the preamble has come.
    fn next_after_preamble(&mut self, alloc: Global) -> Result<Option<PartEvent>, PartError>
        requires head_end { IsHeadSearchWithin self.old }
        requires awaits { self.old.place ≡ Place.Preamble
            → length self.old.waiting.held < length self.old.waiting.delimiter }
        ensures head_end { IsHeadSearchWithin self.new }
        ensures step { IsPartStreamStep (part_streaming self.old) result (part_streaming self.new) }
    {
        match self.place {
            Place::AtHead => self.next_head(alloc),
            Place::InBody => self.next_in_body(alloc),
            _ => Ok(None),
        }
    }

    /// Gives the head after a delimiter, or ends, if two dashes follow that.
    fn next_head(&mut self, alloc: Global) -> Result<Option<PartEvent>, PartError>
        requires head_end { IsHeadSearchWithin self.old }
        requires place { self.old.place ≡ Place.AtHead }
        ensures head_end { IsHeadSearchWithin self.new }
        ensures step { IsPartStreamStep (part_streaming self.old) result (part_streaming self.new) }
    {
        if self.waiting.strip_prefix(DASHES) {
            self.waiting.clear(alloc);
            self.place = Place::Ended;
            return Ok(None);
        }
        self.take_head(alloc)
    }

    /// Gives the head at the front. Requires that no two dashes are there.
    fn take_head(&mut self, alloc: Global) -> Result<Option<PartEvent>, PartError>
        requires head_end { IsHeadSearchWithin self.old }
        requires place { self.old.place ≡ Place.AtHead }
        requires goes_on { take (length multipart_dashes) self.old.waiting.held ≢ multipart_dashes }
        ensures head_end { IsHeadSearchWithin self.new }
        ensures step { IsPartStreamStep (part_streaming self.old) result (part_streaming self.new) }
    {
        let Some(len) = self.head_len()? else {
            return Ok(None);
        };
        if self.waiting.begins_with_padding(len) {
            return Ok(Some(self.pass_head(len, PartHead::empty())));
        }
        let head = parse_head(alloc, self.waiting.peek(alloc, len)?)?;
        Ok(Some(self.pass_head(len, head)))
    }

    /// Gives a head, and drops the `len` bytes before its end, and that end. Requires that these have
    /// come.
    fn pass_head(&mut self, len: usize, head: PartHead) -> PartEvent
        requires { len + length multipart_head_end ≤ length self.old.waiting.held }
        ensures head_end { IsHeadSearchWithin self.old → IsHeadSearchWithin self.new }
        ensures event { result ≡ PartEvent.Head head }
        ensures passed { self.new ≡ record self.old {
          waiting = record self.old.waiting {
            held = drop (len + length multipart_head_end) self.old.waiting.held;
          };
          place = Place.InBody;
          room = self.old.limits.body;
        } }
    {
        self.waiting.advance(len);
        self.waiting.advance(HEAD_END.len());
        self.place = Place::InBody;
        self.room = self.limits.body;
        PartEvent::Head(head)
    }

    /// Returns how many bytes are before the end of a head at the front, or `None` while that end, or
    /// enough after it to see that no delimiter begins before it, is to come.
    fn head_len(&mut self) -> Result<Option<usize>, PartError>
        requires head_end { IsHeadSearchWithin self.old }
        requires place { self.old.place ≡ Place.AtHead }
        ensures head_end { IsHeadSearchWithin self.new }
        ensures same { self.new ≡ record self.old { head_end = self.new.head_end } }
        ensures found { FindsPartHead
            self.old.waiting.delimiter self.old.limits self.old.waiting.held result }
    {
        let next = self.waiting.search();
        let end = self.waiting.search_for(&mut self.head_end);
        found_head(next, end, self.waiting.len(), self.limits)
    }

    /// Gives a piece of a body, or its end.
    fn next_in_body(&mut self, alloc: Global) -> Result<Option<PartEvent>, PartError>
        requires { self.old.place ≡ Place.InBody }
        ensures head_end { IsHeadSearchWithin self.old → IsHeadSearchWithin self.new }
        ensures step { IsPartStreamStep (part_streaming self.old) result (part_streaming self.new) }
    {
        let ahead = self.look_ahead()?;
        if ahead.len > 0 {
            let piece = self.waiting.take(alloc, ahead.len)?;
            self.room -= piece.len();
            return Ok(Some(PartEvent::Body(piece)));
        }
        if !ahead.has_come {
            return Ok(None);
        }
        self.waiting.pass_delimiter(ahead.len);
        self.head_end.restart();
        self.place = Place::AtHead;
        Ok(Some(PartEvent::End))
    }
}
