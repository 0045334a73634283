//! The parts of a body that are given as they come.
ghost use Rattle.std.specs.Prelude.{◌≡◌, ◌↔◌, ◌+◌, ◌^◌, ◌<◌, ◌≤◌, [], length, true, IsOk, IfOk, IfErr, IfSome, IfNone, OnOk, OnErr};
ghost use Rattle.bytes_utils_codec.specs.Pushing.{IsPush};
ghost use Rattle.bytes_utils_protocols.specs.Multipart.{multipart_delimiter};
ghost use Rattle.bytes_utils_protocols.specs.MultipartStream.{AfterPreamble, IsPartAwaited, IsPartStreamCall, IsPartStreamFault, PartStreamLaw, has_part_stream_ended, part_stream_appended, part_stream_started, part_streaming};

use super::delimiter::delimiter_of;
use super::event::PartEvent;
use super::head::HEAD_END;
use super::limits::{Limits, PartError, most_multipart_bytes};
use super::progress::{Place, Progress};
use super::waiting::Waiting;
use bytes::Bytes;
use bytes_utils::{Reason, Refused};
use bytes_utils_codec::search::Search;
use std::alloc::Global;
use std::marker::Model;

/// A stream that comes in pieces, and the parts in it, whose bodies are given as they come.
///
/// ```text
/// let mut parts = PartStream::new(alloc, b"AaB", limits)?;
/// parts.push(first)?;          // a `Bytes` of `--AaB\r\nContent-Disposition: form-data; na`
/// parts.next_event()?          // `None`
/// parts.push(second)?;         // one of `me="a"\r\n\r\nHello, wor`
/// parts.next_event()?          // `Head`, with the name `a`
/// parts.next_event()?          // `Body`, with `Hell`: the other bytes may begin a delimiter
/// parts.push(third)?;          // one of `ld\r\n--AaB--`
/// parts.next_event()?          // `Body`, with `o, world`
/// parts.next_event()?          // `End`
/// parts.next_event()?          // `None`: `has_ended` is true now
/// ```
///
/// The parts are those of a `PartReader`, which gives each when it is whole. Here no byte of a body
/// is held but the last ones, fewer than a delimiter has, in which one may begin. So the memory for an
/// upload of any size is bounded by the limit on heads and the delimiter, if the pieces that came are
/// taken before others are pushed. Of a piece that came with more than 512 bytes the events share the
/// bytes.
///
/// What is before the first delimiter is dropped as it comes, and so is all that comes after the close
/// delimiter. Bytes that wait are not searched again, but for the last ones, in which a delimiter may
/// begin.
#[derive(Debug, Drop)]
pub struct PartStream {
    alloc: Global,
    progress: Progress,
}

impl Model for PartStream {
    ghost use Rattle.bytes_utils_protocols.specs.MultipartStream.{IsHeadSearchWithin, PartStreaming, part_streaming};

    ghost Value = { PartStreaming };

    ghost view = { λ s. part_streaming s.progress };

    ghost invariant = { λ s. IsHeadSearchWithin s.progress };
}

impl PartStream {
    /// Makes a stream of which nothing has come. `boundary` is the parameter of the content type,
    /// without quotes. Fails with `OutOfMemory` if memory is refused.
    pub fn new(alloc: Global, boundary: &[u8], limits: Limits) -> Result<PartStream, Reason>
        ensures ok { IfOk result
            (λ s. s ≡ part_stream_started (multipart_delimiter boundary.now) limits) }
        ensures reason { IfErr result (λ reason. reason ≡ Reason.OutOfMemory) }
    {
        let mut waiting = Waiting::new(alloc, &delimiter_of(alloc, boundary)?)?;
        let head_end = Search::new(alloc, HEAD_END)?;
        waiting.push_slice(alloc, b"\r\n")?;
        Ok(PartStream {
            alloc,
            progress: Progress {
                waiting,
                head_end,
                place: Place::Preamble,
                room: most_multipart_bytes(limits),
                limits,
            },
        })
    }

    /// Appends a piece, or drops it if the close delimiter was read. A piece of at most 512 bytes
    /// is copied; a longer one is shared. Fails with `TooLong` if the number of bytes that wait
    /// would pass `usize::MAX`, and with `OutOfMemory` if memory is refused; then nothing has
    /// changed and `piece` comes back. An empty piece is never refused.
    pub fn push(&mut self, piece: Bytes) -> Result<(), Refused<Bytes>>
        ensures pushed { IsPush self.old.held piece result
            (self.new ≡ part_stream_appended self.old piece) (self.new ≡ self.old) }
        ensures drops { has_part_stream_ended self.old.place ≡ true → IsOk result }
    {
        if self.has_ended() {
            return Ok(());
        }
        self.progress.waiting.push(self.alloc, piece)
    }

    /// Appends a copy of `piece`, in a block that it shares with other small pieces, or drops it if
    /// the close delimiter was read: for a caller that reads into a buffer of its own. Fails as
    /// `push` does; then nothing has changed.
    pub fn push_slice(&mut self, piece: &[u8]) -> Result<(), Reason>
        ensures ok { OnOk result (self.new ≡ part_stream_appended self.old piece.now) }
        ensures err { OnErr result (self.new ≡ self.old) }
        ensures too_long { IfErr result (λ reason. (reason ≡ Reason.TooLong)
            ↔ (2 ^ 64 ≤ length self.old.held + length piece.now)) }
        ensures empty { piece.now ≡ [] → IsOk result }
        ensures drops { has_part_stream_ended self.old.place ≡ true → IsOk result }
    {
        if !self.has_ended() {
            self.progress.waiting.push_slice(self.alloc, piece)?;
        }
        Ok(())
    }

    /// Returns whether the close delimiter was read: then nothing comes any more.
    pub fn has_ended(&self) -> bool
        ensures { result ≡ has_part_stream_ended self.now.place }
    {
        self.progress.place == Place::Ended
    }

    /// Returns how many bytes wait. After a `next_event` that returned `None` they are fewer than a
    /// delimiter has, or, where a head is awaited, no more than the limit on it and a delimiter have.
    pub fn remaining(&self) -> usize
        ensures { result ≡ length self.now.held }
    {
        self.progress.waiting.len()
    }

    /// Returns the head of the next part, the next piece of its body, or its end, or `None` while
    /// bytes of it are to come, and after the close delimiter. A piece is the bytes that wait, as far
    /// as no delimiter may begin in them and as they lie in one segment.
    ///
    /// Fails with `TooLarge` if a head, a body or what is before the first delimiter is certainly over
    /// its limit, with `Malformed` if the next head isn't header fields or has no end before the next
    /// delimiter, with `NotUtf8` if it isn't UTF-8, and with `Refused` if memory is refused, which is
    /// asked for only if a piece of a body, or the end of a head that isn't empty, has certainly come.
    /// Then nothing has changed, except that what has come up to the first delimiter, and that one,
    /// may have been dropped.
    pub fn next_event(&mut self) -> Result<Option<PartEvent>, PartError>
        ensures call { IfOk result (λ next. IsPartStreamCall self.old next self.new) }
        ensures waits { IfOk result (λ next. IfNone next (IsPartAwaited self.new.place self.new)) }
        ensures fewer { IfOk result (λ next. IfSome next
            (λ _. length self.new.held < length self.old.held)) }
        ensures err { OnErr result (AfterPreamble self.old self.new) }
        ensures fault { IfErr result (λ e. IsPartStreamFault e self.new) }
    {
        self.progress.next_event(self.alloc)
    }
}

/// The law of a run of calls: the heads, and the joined pieces of the bodies, are those of the parts
/// of the joined bytes, wherever these are cut and whenever events are asked for.
#[tactic(auto, using(crate::proofs::MultipartStreamLaws::part_stream_law))]
pub fn part_stream_laws()
    ensures run { PartStreamLaw }
{}
