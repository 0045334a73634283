//! Server-sent events, of a stream that comes in pieces.
ghost use Rattle.std.specs.Prelude.{◌≡◌, ◌≢◌, ◌+◌, ◌^◌, ◌<◌, ◌≤◌, ◌⊎◌, ◌↔◌, [], length, IfOk, IfErr, IfSome, IfNone, IsOk, IsSomeAnd, IsUtf8, None, OnOk, OnErr, Some};
ghost use Rattle.bytes_utils_codec.specs.Pushing.{IsPush};
ghost use Rattle.bytes_utils_codec.specs.UniversalReading.{AwaitsUniversal, fails_universal};
ghost use Rattle.bytes_utils_protocols.specs.Events.{AsksForEventData, AsksForEventEnd, AsksForEventField, AsksForEventLine, DoesEventLine, EndsEvent, EventRunLaw, GivesEvent, IsEndOfEventLine, IsEventTooLarge, KeepsEvents, LargeEventLaw, LosesNoEvent, NoEventLaw, PassesEventFault, RefusesEventLine, SameEventLaw, TakesEventFault, TakesNextEventLine, WaitsForEventLine, WaitsWithEventTooLarge, after_event_field, event_field_name, event_field_value, event_text_len, events_left_to_read, no_event_bytes_held, pushed_to_events, with_event_line};

mod data;
mod line;

use bytes::Bytes;
use bytes_utils::{Reason, Refused, Str};
use bytes_utils_codec::decode::{Framed, LineFault, UniversalLines};
use data::{Data, add_line, has_room_in_event, take_event_data};
use line::{end_of_event_line, event_content, event_field_of, event_name_of, set_event_retry};
use std::alloc::Global;
use std::error::Error;
use std::fmt;
use std::marker::Model;

/// An event.
#[derive(Debug, Drop)]
pub struct Event {
    /// The name, or `None` if the stream gave none, or an empty one. Browsers call such an event
    /// `message`.
    pub name: Option<Str>,
    /// The lines of data, joined with line feeds.
    pub data: Str,
    /// The last identifier that the stream gave, with this event or before it.
    pub id: Option<Str>,
}

/// What a peer may send.
#[derive(Clone, Copy, Debug)]
pub struct Limits {
    /// The most bytes of a line, without its end.
    pub line: usize,
    /// The most bytes of the data of an event.
    pub data: usize,
}

/// Why there is no event.
#[derive(Clone, Copy, Debug, Eq, PartialEq)]
pub enum EventError {
    /// A call was refused for this reason, which is `OutOfMemory`.
    Refused(Reason),
    /// A line within its limit isn't UTF-8.
    NotUtf8,
    /// A line, or the data with it, passes its limit.
    TooLarge,
}

impl From<LineFault> for EventError {
    ghost use Rattle.bytes_utils_protocols.specs.Events.{event_error_of};

    ghost from_gives = { λ fault error. error ≡ event_error_of fault };

    fn from(fault: LineFault) -> EventError {
        match fault {
            LineFault::TooLong => EventError::TooLarge,
            LineFault::NotUtf8(_) => EventError::NotUtf8,
        }
    }
}

impl From<Reason> for EventError {
    ghost use Rattle.bytes_utils_protocols.specs.declared.events.EventError.TheVariants.{Refused};

    ghost from_gives = { λ reason error. error ≡ Refused reason };

    fn from(reason: Reason) -> EventError {
        EventError::Refused(reason)
    }
}

/// Writes its reason, `the line is not UTF-8` or `the line or the data is too large`.
impl fmt::Display for EventError {
    ghost use Rattle.std.specs.Prelude.{Some};
    ghost use Rattle.bytes_utils_protocols.specs.Events.{event_error_text};

    ghost output = { λ error. Some (event_error_text error) };

    ghost styled_output = { λ error _. Some (event_error_text error) };

    fn fmt<W: fmt::Write>(&self, f: &mut fmt::Formatter<W>) -> fmt::Result {
        match self {
            EventError::Refused(reason) => fmt::Display::fmt(reason, f),
            EventError::NotUtf8 => f.write_str("the line is not UTF-8"),
            EventError::TooLarge => f.write_str("the line or the data is too large"),
        }
    }
}

impl Error for EventError {}

/// A stream that comes in pieces, and the events in it.
///
/// ```text
/// let limits = Limits { data: 1 << 20, line: 64 << 10 };
/// let mut events = EventReader::new(alloc, limits);
/// events.push(first)?;             // a `Bytes` of `event: add\ndata: 73\r\nda`
/// events.next_event()?             // `None`
/// events.push(second)?;            // one of `ta: 9\n\n`
/// events.next_event()?             // the event `add` with the data `73\n9`
/// ```
///
/// The format is that of the HTML standard, sections 9.2.5 and 9.2.6. Comments, and fields that the
/// standard doesn't name, are passed over. An event that no empty line ends is never given.
///
/// A line is read when its end has come, and its bytes are let go then. Names, identifiers and data
/// of one line share the bytes of their lines, and several lines of data are copied into one text.
#[derive(Drop)]
pub struct EventReader {
    alloc: Global,
    lines: Framed<UniversalLines>,
    waiting: Option<Str>,
    at_start: bool,
    name: Option<Str>,
    text: Option<Data>,
    id: Option<Str>,
    retry: Option<u64>,
    max_data: usize,
}

impl Model for EventReader {
    ghost use Rattle.std.specs.Prelude.{◌≤◌};
    ghost use Rattle.bytes_utils_protocols.specs.EventData.{event_data_if_any};
    ghost use Rattle.bytes_utils_protocols.specs.Events.{Eventing, event_text_len};

    ghost Value = { Eventing };

    ghost view = { λ r. record {
      lines = r.lines;
      waiting = r.waiting;
      at_start = r.at_start;
      buffers = record { name = r.name; text = event_data_if_any r.text; id = r.id; retry = r.retry };
      max_data = r.max_data;
    } };

    ghost invariant = { λ r. event_text_len (event_data_if_any r.text) ≤ r.max_data };
}

impl EventReader {
    /// Makes a reader that holds no bytes.
    pub fn new(alloc: Global, limits: Limits) -> EventReader
        ensures { result ≡ no_event_bytes_held limits }
    {
        EventReader {
            alloc,
            lines: Framed::new(alloc, UniversalLines::with_limit(limits.line)),
            waiting: None,
            at_start: true,
            name: None,
            text: None,
            id: None,
            retry: None,
            max_data: limits.data,
        }
    }

    /// Appends a piece. If it has at most 512 bytes, it is copied; if not, it is shared. Fails with
    /// `TooLong` if the number of held bytes would pass `usize::MAX`, and with `OutOfMemory` if
    /// memory is refused; then nothing has changed and `piece` comes back. An empty piece is never
    /// refused.
    pub fn push(&mut self, piece: Bytes) -> Result<(), Refused<Bytes>>
        ensures pushed { IsPush self.old.lines.held piece result
            (self.new ≡ pushed_to_events self.old piece) (self.new ≡ self.old) }
    {
        self.lines.push(piece)
    }

    /// Appends a copy of `piece`, in a block that it shares with other small pieces: for a caller
    /// that reads into a buffer of its own. Fails as `push` does; then nothing has changed.
    pub fn push_slice(&mut self, piece: &[u8]) -> Result<(), Reason>
        ensures ok { OnOk result (self.new ≡ pushed_to_events self.old piece.now) }
        ensures err { OnErr result (self.new ≡ self.old) }
        ensures too_long { IfErr result (λ reason. (reason ≡ Reason.TooLong)
            ↔ (2 ^ 64 ≤ length self.old.lines.held + length piece.now)) }
        ensures empty { piece.now ≡ [] → IsOk result }
    {
        self.lines.push_slice(piece)
    }

    /// Returns the next event, or `None` if the empty line that ends it has not come yet.
    ///
    /// Fails with `NotUtf8` if a line within its limit is not UTF-8, and with `TooLarge` if a line
    /// passes its limit, whether it is UTF-8 or not; then that line is passed over, and the next call
    /// continues after it. (A browser puts U+FFFD for the bytes that are no character, and reads the
    /// line.) Each comes once, in its place, wherever the stream was cut. Fails with `TooLarge` also
    /// if the data with the next line passes its limit; then nothing is lost, but that line can't be
    /// read, whatever comes next.
    ///
    /// Fails with `Refused` if memory is refused; then nothing is lost, and the same call can be made
    /// again. Memory is asked for only to take a line that isn't empty and whose end has come, and to
    /// read data within its limit but for an empty first line of it, a name that isn't empty, an
    /// identifier that isn't empty and has no NUL, and the empty line that ends an event. That line
    /// asks for it only if there is an identifier that isn't empty, or if the data has a line feed.
    pub fn next_event(&mut self) -> Result<Option<Event>, EventError>
        ensures event { IfOk result
            (λ next. IfSome next (λ event. GivesEvent self.old event self.new)) }
        ensures less { IfOk result
            (λ next. IfSome next (λ _. events_left_to_read self.new < events_left_to_read self.old)) }
        ensures waits { IfOk result (λ next. IfNone next (WaitsForEventLine self.old self.new)) }

        // Then no more bytes are held than a line may have.
        ensures short { IfOk result (λ next. IfNone next
            (length self.new.lines.held ≤ self.new.lines.decoder.max_length)) }
        ensures refused { IfErr result (λ e. (reason : _) → e ≡ EventError.Refused reason
            → LosesNoEvent self.old self.new) }
        ensures due { IfErr result (λ e. (reason : _) → e ≡ EventError.Refused reason
            → RefusesEventLine self.old self.new) }
        ensures reason { IfErr result (λ e. (reason : _) → e ≡ EventError.Refused reason
            → reason ≡ Reason.OutOfMemory) }
        ensures not_utf8 { IfErr result (λ e. e ≡ EventError.NotUtf8
            → PassesEventFault self.old EventError.NotUtf8 self.new) }
        ensures less_by_fault { IfErr result (λ e. e ≡ EventError.NotUtf8
            → events_left_to_read self.new < events_left_to_read self.old) }
        ensures too_large { IfErr result (λ e. e ≡ EventError.TooLarge
            → PassesEventFault self.old EventError.TooLarge self.new
            ⊎ (LosesNoEvent self.old self.new × WaitsWithEventTooLarge self.new)) }
    {
        while let Some(line) = self.next_line()? {
            match self.read(&line) {
                Ok(None) => {}
                Ok(Some(event)) => return Ok(Some(event)),
                Err(error) => {
                    self.waiting = Some(line);
                    return Err(error);
                }
            }
        }
        Ok(None)
    }

    /// Returns how many milliseconds a client is to wait before it connects again, if the lines that
    /// were read gave such a number below 2^64.
    pub fn retry(&self) -> Option<u64>
        ensures { result ≡ self.now.buffers.retry }
    {
        self.retry
    }

    /// Returns the number of held bytes: those of lines that were not taken.
    pub fn remaining(&self) -> usize
        ensures value { result ≡ length self.now.lines.held }

        // True of every value, after any calls.
        ensures small { event_text_len self.now.buffers.text ≤ self.now.max_data }
    {
        self.lines.remaining()
    }

    /// Takes the next line: the one that waits, or the next of the stream. A line for which there is
    /// an error is passed over.
    fn next_line(&mut self) -> Result<Option<Str>, EventError>
        ensures line { IfOk result
            (λ next. IfSome next (λ line. TakesNextEventLine self.old line self.new)) }
        ensures utf8 { IfOk result (λ next. IfSome next IsUtf8) }
        ensures waits { IfOk result
            (λ next. IfNone next (AwaitsUniversal self.old.lines × KeepsEvents self.old self.new)) }
        ensures short { IfOk result (λ next. IfNone next
            (length self.new.lines.held ≤ self.new.lines.decoder.max_length)) }
        ensures refused { IfErr result
            (λ e. (reason : _) → e ≡ EventError.Refused reason → KeepsEvents self.old self.new) }
        ensures due { IfErr result (λ e. (reason : _) → e ≡ EventError.Refused reason
            → fails_universal self.old.lines Reason.OutOfMemory) }
        ensures reason { IfErr result (λ e. (reason : _) → e ≡ EventError.Refused reason
            → reason ≡ Reason.OutOfMemory) }
        ensures not_utf8 { IfErr result (λ e. e ≡ EventError.NotUtf8
            → TakesEventFault self.old EventError.NotUtf8 self.new) }
        ensures too_large { IfErr result (λ e. e ≡ EventError.TooLarge
            → TakesEventFault self.old EventError.TooLarge self.new) }
    {
        if let Some(line) = self.waiting.take() {
            return Ok(Some(line));
        }
        match self.lines.next_item()? {
            None => Ok(None),
            Some(Ok(line)) => Ok(Some(line)),
            Some(Err(fault)) => {
                self.at_start = false;
                Err(fault.into())
            }
        }
    }

    /// Does what a line says. If it ends an event, that is returned.
    fn read(&mut self, line: &Str) -> Result<Option<Event>, EventError>
        ensures none { IfOk result (λ event. IfNone event (DoesEventLine self.old line.now self.new)) }
        ensures some { IfOk result
            (λ event. IfSome event (λ event. EndsEvent self.old line.now event self.new)) }
        ensures err { OnErr result (self.new ≡ self.old) }
        ensures too_large { IfErr result (λ e. e ≡ EventError.TooLarge
            → IsEventTooLarge self.old line.now) }
        ensures asks { OnErr result (AsksForEventLine self.old line.now) }
        ensures small { IfErr result (λ e. (reason : _) → e ≡ EventError.Refused reason
            → ¬ IsEventTooLarge self.old line.now) }
        ensures utf8 { IfErr result (λ e. e ≢ EventError.NotUtf8) }
        ensures reason { IfErr result (λ e. (reason : _) → e ≡ EventError.Refused reason
            → reason ≡ Reason.OutOfMemory) }
    {
        let text = event_content(self.at_start, line.as_str());
        let event = if text.is_empty() {
            self.end_event()?
        } else {
            self.read_field(line, text)?;
            None
        };
        self.at_start = false;
        Ok(event)
    }

    /// Ends the event, if there is data. If there is none, there is no event, and no name.
    fn end_event(&mut self) -> Result<Option<Event>, Reason>
        ensures none { IfOk result (λ event. IfNone event ((self.old.buffers.text ≡ None)
            × (self.new ≡ record self.old { buffers = record self.old.buffers { name = None } }))) }
        ensures text { IfOk result (λ event. IfSome event (λ event.
            self.old.buffers.text ≡ Some event.data)) }
        ensures name { IfOk result (λ event. IfSome event (λ event.
            event.name ≡ self.old.buffers.name)) }
        ensures id { IfOk result (λ event. IfSome event (λ event. event.id ≡ self.old.buffers.id)) }
        ensures after { IfOk result (λ event. IfSome event (λ event.
            self.new ≡ record self.old { buffers = record self.old.buffers { name = None; text = None } })) }
        ensures err { OnErr result (self.new ≡ self.old) }
        ensures asks { OnErr result (IsSomeAnd self.old.buffers.text
            (λ text. AsksForEventEnd text self.old.buffers.id)) }
        ensures reason { IfErr result (λ reason. reason ≡ Reason.OutOfMemory) }
    {
        let Some(data) = take_event_data(self.alloc, &mut self.text)? else {
            self.name = None;
            return Ok(None);
        };
        match same_event_id(&self.id) {
            Ok(id) => {
                let name = self.name.take();
                Ok(Some(Event { name, data, id }))
            }
            Err(reason) => {
                self.text = Some(Data::One(data));
                Err(reason)
            }
        }
    }

    /// Does what the field says that is at the end of the line.
    fn read_field(&mut self, line: &Str, text: &str) -> Result<(), EventError>
        requires { IsEndOfEventLine line.now text.now }
        ensures ok { OnOk result (self.new ≡ record self.old {
          buffers = after_event_field self.old.buffers
              (event_field_name text.now) (event_field_value text.now);
        }) }
        ensures err { OnErr result (self.new ≡ self.old) }
        ensures too_large { IfErr result (λ e. e ≡ EventError.TooLarge → self.old.max_data
            < event_text_len (after_event_field self.old.buffers (event_field_name text.now) (event_field_value text.now)).text) }
        ensures asks { OnErr result (AsksForEventField self.old.buffers
            (event_field_name text.now) (event_field_value text.now)) }
        ensures small { IfErr result (λ e. (reason : _) → e ≡ EventError.Refused reason
            → event_text_len (after_event_field self.old.buffers (event_field_name text.now) (event_field_value text.now)).text
            ≤ self.old.max_data) }
        ensures utf8 { IfErr result (λ e. e ≢ EventError.NotUtf8) }
        ensures reason { IfErr result (λ e. (reason : _) → e ≡ EventError.Refused reason
            → reason ≡ Reason.OutOfMemory) }
    {
        let (name, value) = event_field_of(text);
        if name == "data" {
            self.add_line(line, value)?;
        } else if name == "event" {
            self.name = event_name_of(line, value)?;
        } else if name == "id" && !value.as_bytes().contains(&0) {
            self.id = Some(end_of_event_line(line, value)?);
        } else if name == "retry" {
            set_event_retry(&mut self.retry, value);
        }
        Ok(())
    }

    /// Adds `value` to the data, as one more line: it is the end of `line`. Fails with `TooLarge` if the
    /// data would pass its limit.
    fn add_line(&mut self, line: &Str, value: &str) -> Result<(), EventError>
        requires { IsEndOfEventLine line.now value.now }
        ensures ok { OnOk result (self.new ≡ record self.old {
          buffers = record self.old.buffers {
            text = Some (with_event_line self.old.buffers.text value.now);
          };
        }) }
        ensures err { OnErr result (self.new ≡ self.old) }
        ensures too_large { IfErr result (λ e. e ≡ EventError.TooLarge
            → self.old.max_data < length (with_event_line self.old.buffers.text value.now)) }
        ensures asks { OnErr result (AsksForEventData self.old.buffers.text value.now) }
        ensures small { IfErr result (λ e. (reason : _) → e ≡ EventError.Refused reason
            → length (with_event_line self.old.buffers.text value.now) ≤ self.old.max_data) }
        ensures utf8 { IfErr result (λ e. e ≢ EventError.NotUtf8) }
        ensures reason { IfErr result (λ e. (reason : _) → e ≡ EventError.Refused reason
            → reason ≡ Reason.OutOfMemory) }
    {
        if !has_room_in_event(&self.text, value, self.max_data) {
            return Err(EventError::TooLarge);
        }
        add_line(self.alloc, &mut self.text, line, value)?;
        Ok(())
    }
}

/// The laws of a run of calls. It gives the first events of the joined pieces, and the errors of lines
/// that are passed over, each in its place, wherever the pieces are cut, whenever events are asked
/// for, and whichever calls are refused memory. These are the same for every run over the same bytes.
/// If a call gave none, and was not refused, none was there; nor is one there if the data would pass
/// its limit.
#[tactic(auto, using(crate::proofs::EventRunsLemmas::event_laws))]
pub fn event_laws()
    ensures run { EventRunLaw }
    ensures same { SameEventLaw }
    ensures none { NoEventLaw }
    ensures large { LargeEventLaw }
{}

/// The same text once more, if there is one.
fn same_event_id(text: &Option<Str>) -> Result<Option<Str>, Reason>
    ensures ok { IfOk result (λ copy. copy ≡ text.now) }
    ensures some { OnErr result (IsSomeAnd text.now (λ id. 0 < length id)) }
    ensures reason { IfErr result (λ reason. reason ≡ Reason.OutOfMemory) }
{
    match text {
        Some(text) => Ok(Some(text.try_clone()?)),
        None => Ok(None),
    }
}
