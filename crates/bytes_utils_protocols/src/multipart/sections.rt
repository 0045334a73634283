//! What is between the delimiters of a stream.
ghost use Rattle.std.specs.Prelude.{◌≡◌, ◌≢◌, ◌↔◌, ◌+◌, ◌^◌, ◌<◌, ◌≤◌, [], length, take, drop, IsTrue, OnOk, OnErr, IfOk, IfErr, IfSome, IfNone};
ghost use Rattle.std.specs.List.{concat};
ghost use Rattle.bytes_utils.specs.Occurrence.{Occurs};
ghost use Rattle.bytes_utils_codec.specs.Frames.{TakesFrame};
ghost use Rattle.bytes_utils_protocols.specs.Multipart.{AfterMultipartSearch, HasMultipartHeadAt, IsMultipartDivided, IsMultipartFault, IsMultipartRawFault, IsMultipartWithin, SameMultipartSections, held_by_multipart};

use super::head::head_len;
use super::limits::{Limits, PartError, most_multipart_bytes};
use super::preamble::Preamble;
use super::waiting::{DASHES, Waiting};
use bytes::Bytes;
use bytes_utils::{Reason, SegmentedBuf};
use std::alloc::Global;
use std::mem::replace;

/// What has been found of the next part.
#[derive(Clone, Copy, Debug, Eq, PartialEq)]
pub(super) enum Stage {
    /// Nothing: the first delimiter may be to come.
    Preamble,
    /// The delimiter before it.
    Waiting,
    /// The delimiters before and after it.
    Found,
    /// The close delimiter, in its place.
    Ended,
}

/// The bytes of a stream, cut at its delimiters as these are found. What was found after the first
/// one stays until a part is taken.
#[derive(Debug, Drop)]
pub(super) struct Sections {
    pub(super) waiting: Waiting,
    pub(super) stage: Stage,
    pub(super) preamble: Preamble,
    pub(super) found: SegmentedBuf<Bytes>,
    /// How many bytes of what was found are before the end of its head.
    pub(super) head_len: usize,
}

impl Sections {
    /// Nothing has come. Requires that `delimiter` is not empty.
    pub(super) fn new(alloc: Global, delimiter: &[u8]) -> Result<Sections, Reason>
        requires { 0 < length delimiter.now }
        ensures waiting { IfOk result
            (λ s. s.waiting ≡ record { delimiter = delimiter.now; held = [] }) }
        ensures stage { IfOk result (λ s. s.stage ≡ Stage.Preamble) }
        ensures divided { IfOk result IsMultipartDivided }
        ensures reason { IfErr result (λ reason. reason ≡ Reason.OutOfMemory) }
    {
        let waiting = Waiting::new(alloc, delimiter)?;
        let preamble = Preamble::none_of(&waiting);
        Ok(Sections {
            waiting,
            stage: Stage::Preamble,
            preamble,
            found: SegmentedBuf::new(alloc),
            head_len: 0,
        })
    }

    /// Searches for the delimiters before and after the next part, or for the close delimiter. Fails
    /// if what is before the first one is over the limits, or if what is between them has no end of a
    /// head or is over its limits.
    pub(super) fn search(&mut self, alloc: Global, limits: Limits) -> Result<(), PartError>
        requires divided { IsMultipartDivided self.old }
        requires within { IsMultipartWithin limits self.old }
        ensures divided { IsMultipartDivided self.new }
        ensures within { IsMultipartWithin limits self.new }
        ensures ok { OnOk result (AfterMultipartSearch self.new.stage self.old self.new) }
        ensures few { OnOk result (length self.new.preamble ≤ limits.head + limits.body) }
        ensures err { OnErr result (SameMultipartSections self.old self.new) }
        ensures delimiter { self.new.waiting.delimiter ≡ self.old.waiting.delimiter }
        ensures fault { IfErr result (λ e. IsMultipartFault e
            self.old.waiting.delimiter limits (held_by_multipart self.old)) }
    {
        self.pass_preamble();
        if self.preamble.len() > most_multipart_bytes(limits) {
            return Err(PartError::TooLarge);
        }
        if self.stage == Stage::Waiting {
            self.find_next(alloc, limits)?;
        }
        Ok(())
    }

    /// Finds the delimiter before the next part, if it has come, and lets go of what is before it.
    fn pass_preamble(&mut self)
        requires { IsMultipartDivided self.old }
        ensures divided { IsMultipartDivided self.new }
        ensures same { SameMultipartSections self.old self.new }
        ensures waits { self.new.stage ≡ Stage.Preamble
            → ¬ Occurs self.old.waiting.delimiter self.new.waiting.held }
        ensures ended { self.new.stage ≡ Stage.Ended → self.old.stage ≡ Stage.Ended }
        ensures found { self.new.stage ≡ Stage.Found → self.new ≡ self.old }
    {
        if self.stage == Stage::Preamble
            && let Some(preamble) = self.next_preamble()
        {
            self.preamble = preamble;
            self.stage = Stage::Waiting;
        }
    }

    /// Drops the bytes before the next delimiter, and that, or returns `None` if it has not come.
    fn next_preamble(&mut self) -> Option<Preamble>
        ensures preamble { IfSome result (λ preamble. TakesFrame self.old.waiting.delimiter
            self.old.waiting.held preamble self.new.waiting.held) }
        ensures some { IfSome result (λ _. self.new ≡ record self.old {
          waiting = record self.old.waiting { held = self.new.waiting.held };
        }) }
        ensures lacks { IfNone result (¬ Occurs self.old.waiting.delimiter self.old.waiting.held) }
        ensures none { IfNone result (self.new ≡ self.old) }
    {
        let ahead = self.waiting.search();
        if !ahead.has_come {
            return None;
        }
        let preamble = Preamble::front_of(&self.waiting, ahead.len);
        self.waiting.pass_delimiter(ahead.len);
        Some(preamble)
    }

    /// Finds the delimiter after the next part, if it has come, or ends, if two dashes follow the
    /// one before it.
    fn find_next(&mut self, alloc: Global, limits: Limits) -> Result<(), PartError>
        requires divided { IsMultipartDivided self.old }
        requires waiting { self.old.stage ≡ Stage.Waiting }
        requires few { length self.old.preamble ≤ limits.head + limits.body }
        ensures divided { IsMultipartDivided self.new }
        ensures within { IsMultipartWithin limits self.new }
        ensures ok { OnOk result (AfterMultipartSearch self.new.stage self.old self.new) }
        ensures shorter { OnOk result (length self.new.preamble ≤ length self.old.preamble) }
        ensures err { OnErr result (SameMultipartSections self.old self.new) }
        ensures delimiter { self.new.waiting.delimiter ≡ self.old.waiting.delimiter }
        ensures fault { IfErr result (λ e. IsMultipartFault e
            self.old.waiting.delimiter limits (held_by_multipart self.old)) }
    {
        if self.waiting.strip_prefix(DASHES) {
            self.end(alloc);
            return Ok(());
        }
        let ahead = self.waiting.search();
        if ahead.has_come {
            self.take_section(alloc, limits, ahead.len)?;
        }
        Ok(())
    }

    /// Takes the first `len` bytes that wait, and drops the delimiter after them. Requires that these
    /// have come.
    fn take_section(&mut self, alloc: Global, limits: Limits, len: usize) -> Result<(), PartError>
        requires { len + length self.old.waiting.delimiter ≤ length self.old.waiting.held }
        ensures stage { OnOk result (self.new.stage ≡ Stage.Found) }
        ensures found { OnOk result
            (concat self.new.found.segments ≡ take len self.old.waiting.held) }
        ensures head { OnOk result
            (HasMultipartHeadAt limits (take len self.old.waiting.held) self.new.head_len) }
        ensures preamble { self.new.preamble ≡ self.old.preamble }
        ensures waiting { OnOk result (self.new.waiting ≡ record self.old.waiting {
          held = drop (len + length self.old.waiting.delimiter) self.old.waiting.held;
        }) }
        ensures err { OnErr result (self.new ≡ self.old) }
        ensures fault { IfErr result
            (λ e. IsMultipartRawFault e limits (take len self.old.waiting.held)) }
    {
        let head_len = head_len(&self.waiting, len, limits)?;
        self.found = self.waiting.split_at_delimiter(alloc, len)?;
        self.head_len = head_len;
        self.stage = Stage::Found;
        Ok(())
    }

    /// Ends, and lets go of all that is held.
    fn end(&mut self, alloc: Global)
        ensures divided { IsMultipartDivided self.new }
        ensures stage { self.new.stage ≡ Stage.Ended }
        ensures preamble { self.new.preamble ≡ [] }
        ensures delimiter { self.new.waiting.delimiter ≡ self.old.waiting.delimiter }
    {
        self.waiting.clear(alloc);
        self.preamble = Preamble::none_of(&self.waiting);
        self.stage = Stage::Ended;
    }

    /// Whether more than `most` bytes wait, beyond the length of a delimiter.
    pub(super) fn is_over(&self, most: usize) -> bool
        ensures over { IsTrue result ↔ ((self.now.stage ≢ Stage.Found)
            × (most + length self.now.waiting.delimiter < length self.now.waiting.held)) }
        ensures fits { length self.now.waiting.held < 2 ^ 64 }
    {
        let waiting = self
            .waiting
            .len()
            .saturating_sub(self.waiting.delimiter_len());
        self.stage != Stage::Found && waiting > most
    }

    /// Removes what was found, up to the delimiter after it, and returns it.
    pub(super) fn take(&mut self, alloc: Global) -> SegmentedBuf<Bytes>
        ensures found { result ≡ self.old.found }
        ensures waiting { self.new.waiting ≡ self.old.waiting }
        ensures stage { self.new.stage ≡ Stage.Waiting }
        ensures preamble { self.new.preamble ≡ [] }
    {
        self.stage = Stage::Waiting;
        self.preamble = Preamble::none_of(&self.waiting);
        replace(&mut self.found, SegmentedBuf::new(alloc))
    }
}
