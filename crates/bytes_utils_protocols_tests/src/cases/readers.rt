//! The readers of all protocols as one type: it is made within limits, takes pieces, and is asked for
//! the next message.
use super::joined::JoinedParts;
use bytes::{Buf, Bytes};
use bytes_utils::{Reason, Refused, SegmentedBuf, Str};
use bytes_utils_codec::decode::{FrameTooLong, Framed};
use bytes_utils_protocols::events::{self, Event, EventError, EventReader};
use bytes_utils_protocols::multipart::{self, Part, PartError, PartReader};
use bytes_utils_protocols::netstrings::{NetstringError, Netstrings};
use bytes_utils_protocols::records::{RecordFault, Records};
use bytes_utils_protocols::redis::{self, Item, ReplyError, ReplyReader};
use bytes_utils_protocols::requests::{Requests, body_len};
use std::alloc::Global;
use std::fmt::Debug;

/// A protocol, with the limits of its reader.
#[derive(Clone, Copy)]
pub(super) enum Protocol {
    Redis(redis::Limits),
    Events(events::Limits),
    /// With the boundary.
    Multipart(&'static [u8], multipart::Limits),
    /// With the boundary. The parts are put together from events.
    PartStream(&'static [u8], multipart::Limits),
    /// The most bytes of a record.
    Records(usize),
    /// The most bytes of a head.
    Requests(usize),
    /// The most bytes of a text.
    Netstrings(usize),
}

impl Protocol {
    /// The name of the reader.
    pub(super) fn name(self) -> &'static str {
        match self {
            Protocol::Redis(_) => "ReplyReader",
            Protocol::Events(_) => "EventReader",
            Protocol::Multipart(_, _) => "PartReader",
            Protocol::PartStream(_, _) => "PartStream",
            Protocol::Records(_) => "Records",
            Protocol::Requests(_) => "Requests",
            Protocol::Netstrings(_) => "Framed",
        }
    }
}

/// A reader.
#[derive(Drop)]
pub(super) enum Reader {
    Redis(ReplyReader),
    Events(EventReader),
    Multipart(PartReader),
    PartStream(JoinedParts),
    Records(Records),
    Requests(RequestsReader),
    Netstrings(Framed<Netstrings>),
}

/// A reader of requests, which after a head with a length gives the body.
#[derive(Drop)]
pub(super) struct RequestsReader {
    requests: Requests,
    /// The number of bytes of the body that comes next, if one does.
    body: Option<usize>,
}

/// What a reader returned when it was asked for the next message.
#[derive(Drop)]
pub(super) enum ReturnedByReader {
    Reply(Result<Option<Vec<Item>>, ReplyError>),
    Event(Result<Option<Event>, EventError>),
    Part(Result<Option<Part>, PartError>),
    Record(Result<Option<Result<Str, RecordFault>>, Reason>),
    Head(Result<Option<Result<Bytes, FrameTooLong>>, Reason>),
    Body(Result<Option<SegmentedBuf<Bytes>>, Reason>),
    Text(Result<Option<Bytes>, NetstringError>),
}

impl Reader {
    pub(super) fn new(alloc: Global, protocol: Protocol) -> Result<Reader, Reason> {
        Ok(match protocol {
            Protocol::Redis(limits) => Reader::Redis(ReplyReader::new(alloc, limits)),
            Protocol::Events(limits) => Reader::Events(EventReader::new(alloc, limits)),
            Protocol::Multipart(boundary, limits) => {
                Reader::Multipart(PartReader::new(alloc, boundary, limits)?)
            }
            Protocol::PartStream(boundary, limits) => {
                Reader::PartStream(JoinedParts::new(alloc, boundary, limits)?)
            }
            Protocol::Records(most) => Reader::Records(Records::new(alloc, most)?),
            Protocol::Requests(most) => Reader::Requests(RequestsReader {
                requests: Requests::new(alloc, most)?,
                body: None,
            }),
            Protocol::Netstrings(max_length) => {
                Reader::Netstrings(Framed::new(alloc, Netstrings { max_length }))
            }
        })
    }

    pub(super) fn push(&mut self, piece: Bytes) -> Result<(), Refused<Bytes>> {
        match self {
            Reader::Redis(replies) => replies.push(piece),
            Reader::Events(events) => events.push(piece),
            Reader::Multipart(parts) => parts.push(piece),
            Reader::PartStream(joined) => joined.parts.push(piece),
            Reader::Records(records) => records.push(piece),
            Reader::Requests(whole) => whole.requests.push(piece),
            Reader::Netstrings(texts) => texts.push(piece),
        }
    }

    /// Pushes a copy: by `push_slice`, if the reader has it.
    pub(super) fn push_slice(&mut self, alloc: Global, piece: &[u8]) -> Result<(), Reason> {
        match self {
            Reader::Redis(replies) => replies.push_slice(piece),
            Reader::Events(events) => events.push_slice(piece),
            Reader::Multipart(parts) => parts.push_slice(piece),
            Reader::PartStream(joined) => joined.parts.push_slice(piece),
            Reader::Netstrings(texts) => texts.push_slice(piece),
            _ => Ok(self.push(Bytes::copy_from_slice(alloc, piece)?)?),
        }
    }

    /// Asks for the next message. Returns the name of the call, and what it returned.
    pub(super) fn next(&mut self) -> (&'static str, ReturnedByReader) {
        match self {
            Reader::Redis(replies) => ("next_reply", ReturnedByReader::Reply(replies.next_reply())),
            Reader::Events(events) => ("next_event", ReturnedByReader::Event(events.next_event())),
            Reader::Multipart(parts) => ("next_part", ReturnedByReader::Part(parts.next_part())),
            Reader::PartStream(joined) => {
                ("next_event", ReturnedByReader::Part(joined.next_part()))
            }
            Reader::Records(records) => {
                (
                    "next_record",
                    ReturnedByReader::Record(records.next_record()),
                )
            }
            Reader::Requests(whole) => whole.next(),
            Reader::Netstrings(texts) => ("next_item", ReturnedByReader::Text(texts.next_item())),
        }
    }

    /// What the reader says of itself: how many bytes it holds and the time to wait, or whether the
    /// parts have ended, or nothing.
    pub(super) fn state(&self, alloc: Global) -> Option<String> {
        let (held, retry) = match self {
            Reader::Events(events) => (events.remaining(), events.retry()),
            Reader::Records(records) => (records.remaining(), None),
            Reader::Netstrings(texts) => (texts.remaining(), None),
            Reader::Multipart(parts) => return ended_text(alloc, parts.has_ended()),
            Reader::PartStream(joined) => return ended_text(alloc, joined.parts.has_ended()),
            _ => return Some(String::new(alloc)),
        };
        match retry {
            Some(time) => format!(in alloc; "{held} held, {time} to wait").ok(),
            None => format!(in alloc; "{held} held").ok(),
        }
    }
}

impl RequestsReader {
    /// Asks for the body that comes next, or else for a head.
    fn next(&mut self) -> (&'static str, ReturnedByReader) {
        if let Some(len) = self.body {
            let returned = self.requests.next_body(len);
            if matches!(&returned, Ok(Some(_))) {
                self.body = None;
            }
            return ("next_body", ReturnedByReader::Body(returned));
        }
        let returned = self.requests.next_head();
        if let Ok(Some(Ok(head))) = &returned {
            self.body = match body_len(head.as_slice()) {
                Ok(len) if len > 0 => Some(len),
                _ => None,
            };
        }
        ("next_head", ReturnedByReader::Head(returned))
    }
}

impl ReturnedByReader {
    /// The message or the error as a text, or `nothing`. Returns `None` if memory is refused.
    pub(super) fn text(&self, alloc: Global) -> Option<String> {
        match self {
            ReturnedByReader::Reply(reply) => text_from_reader(alloc, reply),
            ReturnedByReader::Event(event) => text_from_reader(alloc, event),
            ReturnedByReader::Part(Ok(Some(part))) => part_text_from_reader(alloc, part),
            ReturnedByReader::Part(other) => text_from_reader(alloc, other),
            ReturnedByReader::Record(record) => text_from_reader(alloc, record),
            ReturnedByReader::Head(head) => text_from_reader(alloc, head),
            ReturnedByReader::Body(Ok(Some(body))) => body_text_from_reader(alloc, body),
            ReturnedByReader::Body(other) => text_from_reader(alloc, other),
            ReturnedByReader::Text(text) => text_from_reader(alloc, text),
        }
    }
}

fn ended_text(alloc: Global, has_ended: bool) -> Option<String> {
    String::from_str(alloc, if has_ended { "ended" } else { "not ended" }).ok()
}

fn text_from_reader<T: Debug, E: Debug>(
    alloc: Global,
    returned: &Result<Option<T>, E>,
) -> Option<String> {
    match returned {
        Ok(Some(message)) => format!(in alloc; "{message:?}").ok(),
        Ok(None) => String::from_str(alloc, "nothing").ok(),
        Err(error) => format!(in alloc; "{error:?}").ok(),
    }
}

/// The head, the two names and the body.
fn part_text_from_reader(alloc: Global, part: &Part) -> Option<String> {
    let body = body_text_from_reader(alloc, &part.body)?;
    format!(in alloc;
        "{:?} {:?} {:?} {body}",
        part.head, part.name, part.file_name
    )
    .ok()
}

/// The bytes of a body, without its pieces.
fn body_text_from_reader(alloc: Global, body: &SegmentedBuf<Bytes>) -> Option<String> {
    let bytes = body.peek_bytes(alloc, body.remaining()).ok()?;
    format!(in alloc; "{bytes:?}").ok()
}
