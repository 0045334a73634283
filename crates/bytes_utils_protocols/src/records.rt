//! Records of a stream, each followed by an empty line, with a limit of length.
ghost use Rattle.std.specs.Prelude.{◌≡◌, [], length, IfErr, IfNone, IfOk, IfSome};
ghost use Rattle.bytes_utils_codec.specs.Decoding.{fed, starting};
ghost use Rattle.bytes_utils_codec.specs.Delimited.{AwaitsDelimitedFrame, delimiting, fails_delimited, keeps_delimited};
ghost use Rattle.bytes_utils_codec.specs.Pushing.{IsPush};
ghost use Rattle.bytes_utils_protocols.specs.Records.{GivesRecord, IsRecordOf, record_end};

use bytes::Bytes;
use bytes_utils::{Reason, Refused, Str};
use bytes_utils_codec::decode::{Delimited, FrameTooLong, Framed};
use std::alloc::Global;
use std::error::Error;
use std::fmt;
use std::marker::Model;

/// Why there is no text of a record. The next one is that after it.
#[derive(Debug, Drop)]
pub enum RecordFault {
    /// The record is longer than the limit.
    TooLong,
    /// The record is not UTF-8. These are its bytes.
    NotUtf8(Bytes),
}

/// Writes `the record is too long` or `the record is not UTF-8`.
impl fmt::Display for RecordFault {
    ghost use Rattle.std.specs.Prelude.{Some};
    ghost use Rattle.bytes_utils_protocols.specs.Records.{record_fault_text};

    ghost output = { λ fault. Some (record_fault_text fault) };

    ghost styled_output = { λ fault _. Some (record_fault_text fault) };

    fn fmt<W: fmt::Write>(&self, f: &mut fmt::Formatter<W>) -> fmt::Result {
        match self {
            RecordFault::TooLong => f.write_str("the record is too long"),
            RecordFault::NotUtf8(_) => f.write_str("the record is not UTF-8"),
        }
    }
}

impl Error for RecordFault {}

/// A record, or why there is no text of it.
type Record = Result<Str, RecordFault>;

/// A stream that arrives in pieces, and the records in it. Each record ends with `\r\n\r\n`.
#[derive(Drop)]
pub struct Records {
    frames: Framed<Delimited>,
}

impl Model for Records {
    ghost use Rattle.std.specs.Prelude.{◌≡◌};
    ghost use Rattle.bytes_utils_codec.specs.Decoding.{Decoding};
    ghost use Rattle.bytes_utils_codec.specs.Delimited.{Delimiting};
    ghost use Rattle.bytes_utils_protocols.specs.Records.{record_end};

    ghost Value = { Decoding Delimiting };

    ghost view = { λ r. r.frames };

    ghost invariant = { λ r. r.frames.decoder.separator ≡ record_end };
}

impl Records {
    /// Makes a reader for records of at most `max_length` bytes. Fails with `OutOfMemory` if
    /// memory is refused.
    pub fn new(alloc: Global, max_length: usize) -> Result<Records, Reason>
        ensures ok { IfOk result (λ r. r ≡ starting (delimiting record_end max_length) 512) }
        ensures reason { IfErr result (λ reason. reason ≡ Reason.OutOfMemory) }
    {
        let decoder = Delimited::with_limit(alloc, b"\r\n\r\n", max_length)?;
        Ok(Records {
            frames: Framed::new(alloc, decoder),
        })
    }

    /// Appends `piece`. If it has at most 512 bytes, it is copied; if not, it is shared. Fails with
    /// `TooLong` if more than `usize::MAX` bytes would be held, and with `OutOfMemory` if memory is
    /// refused; then nothing has changed and `piece` comes back. An empty piece is never refused.
    pub fn push(&mut self, piece: Bytes) -> Result<(), Refused<Bytes>>
        ensures pushed { IsPush self.old.held piece result
            (self.new ≡ fed self.old piece) (self.new ≡ self.old) }
    {
        self.frames.push(piece)
    }

    /// Takes out the next record, or returns `None` until its end has arrived. One that is longer
    /// than the limit, or not UTF-8, is reported once, in its place. Fails with `OutOfMemory` if
    /// memory is refused, which is asked for only if a record within the limit that isn't empty has
    /// come; then the call can be repeated.
    pub fn next_record(&mut self) -> Result<Option<Record>, Reason>
        ensures given { IfOk result (λ next. IfSome next
            (λ given. GivesRecord self.old given self.new)) }
        ensures waits { IfOk result (λ next. IfNone next (AwaitsDelimitedFrame self.old)) }
        ensures kept { IfOk result (λ next. IfNone next (keeps_delimited self.old self.new)) }
        ensures fails { IfErr result (fails_delimited self.old) }
        ensures kept_at_error { IfErr result (λ _. keeps_delimited self.old self.new) }
    {
        match self.frames.next_item()? {
            None => Ok(None),
            Some(frame) => Ok(Some(record_of(frame))),
        }
    }

    /// Returns the number of bytes that arrived and weren't taken out or dropped.
    pub fn remaining(&self) -> usize
        ensures value { result ≡ length self.now.held }

        // True of every value, after any calls.
        ensures separator { self.now.decoder.separator ≡ record_end }
    {
        self.frames.remaining()
    }
}

/// The text of a frame.
fn record_of(frame: Result<Bytes, FrameTooLong>) -> Record
    ensures { IsRecordOf frame result }
{
    let Ok(bytes) = frame else {
        return Err(RecordFault::TooLong);
    };
    match Str::from_inner(bytes) {
        Ok(text) => Ok(text),
        Err(error) => Err(RecordFault::NotUtf8(error.into_inner())),
    }
}
