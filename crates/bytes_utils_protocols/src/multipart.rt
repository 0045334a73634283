//! The parts of a body of `multipart/form-data`, or of another multipart type, that comes in pieces
//! (RFC 2046, section 5.1.1; RFC 7578).
ghost use Rattle.std.specs.Prelude.{◌≡◌, ◌≢◌, ◌+◌, ◌-◌, ◌^◌, ◌<◌, ◌≤◌, ◌↔◌, ℕ, List, [], ◌++◌, length, false, true, IsUtf8, IsOk, IsTrue, IfOk, IfErr, IfSome, IfNone, OnOk, OnErr};
ghost use Rattle.bytes_utils_codec.specs.Pushing.{IsPush};
ghost use Rattle.bytes_utils_protocols.specs.Disposition.{SameDispositionParameterLaw};
ghost use Rattle.bytes_utils_protocols.specs.Multipart.{AreMultipartFields, AsksForMultipart, FewWaitInMultipart, HasMultipartParameter, IsMultipartDivided, IsMultipartDue, IsMultipartFault, IsMultipartIdle, IsMultipartOverLimit, IsMultipartWithin, NoMultipart, NoMultipartWithFields, MultipartBytes, MultipartLaw, SameMultipartLaw, TakesMultipart, WaitsInMultipart, multipart_appended, bytes_of_multipart, multipart_delimiter, multipart_file_name, held_by_multipart, multipart_line_end, multipart_name};

mod delimiter;
mod disposition;
mod event;
mod fields;
mod head;
mod limits;
mod preamble;
mod progress;
mod sections;
mod streamed;
mod waiting;

use bytes::{Buf, Bytes};
use bytes_utils::{Reason, Refused, SegmentedBuf, Str};
use delimiter::delimiter_of;
pub use event::PartEvent;
pub use head::PartHead;
use head::{HEAD_END, parse_head};
use limits::most_multipart_bytes;
pub use limits::{Limits, PartError};
use sections::{Sections, Stage};
use std::alloc::Global;
use std::marker::Model;
pub use streamed::{PartStream, part_stream_laws};

/// A part.
#[derive(Debug, Drop)]
pub struct Part {
    /// The header fields as they came, without the line end after the last one.
    pub head: Str,
    /// The parameter `name` of the first `Content-Disposition` field, whose folded lines are joined
    /// (RFC 7578, section 4.2; RFC 5322, section 2.2.3). In quotes, a backslash before a quote or a
    /// backslash is left out, as Go writes them, and curl with `--form-escape`; another one stays, and
    /// so does a `%22`. Browsers and curl write no escapes: a name of theirs that ends in a backslash
    /// is a string without an end. `None` if there is no such field, if its value isn't a type and
    /// parameters (`IsDisposition`), or if it has no parameter of this name or more than one.
    pub name: Option<Str>,
    /// The parameter `filename` there, in the same way. `filename*` is another parameter, which
    /// RFC 7578 forbids: it is in the head alone.
    pub file_name: Option<Str>,
    /// The bytes between the head and the next delimiter.
    pub body: SegmentedBuf<Bytes>,
}

/// A stream that comes in pieces, and the parts in it.
///
/// ```text
/// let mut parts = PartReader::new(alloc, b"AaB", limits)?;
/// parts.push(first)?;          // a `Bytes` of `--AaB\r\nContent-Disposition: form-data; na`
/// parts.next_part()?           // `None`
/// parts.push(second)?;         // one of `me="a"\r\n\r\nHello\r\n--AaB--`
/// parts.next_part()?           // a part with the name `a` and the body `Hello`
/// parts.next_part()?           // `None`: `has_ended` is true now
/// ```
///
/// A delimiter is a line end, two dashes and the boundary. The first one needs no line end before
/// it. After it come spaces and tabs, if any, and a line end; the header lines, if any; an empty
/// line; and the body up to the next delimiter. What is before the first delimiter is dropped, and
/// so is all that comes after the close delimiter, which two dashes follow.
///
/// The pieces of a body that came with more than 512 bytes are shared. Bytes that wait for a
/// delimiter are not searched again, but for the last ones, in which it may begin.
#[derive(Debug, Drop)]
pub struct PartReader {
    alloc: Global,
    sections: Sections,
    limits: Limits,
}

impl Model for PartReader {
    ghost use Rattle.bytes_utils_protocols.specs.Multipart.{IsMultipartDivided, IsMultipartWithin, MultipartReading, multipart_sections_have_ended, held_by_multipart};

    ghost Value = { MultipartReading };

    ghost view = { λ r. record {
      delimiter = r.sections.waiting.delimiter;
      limits = r.limits;
      ended = multipart_sections_have_ended r.sections.stage;
      held = held_by_multipart r.sections;
    } };

    ghost invariant = { λ r. IsMultipartDivided r.sections × IsMultipartWithin r.limits r.sections };
}

impl PartReader {
    /// Makes a reader that has read nothing. `boundary` is the parameter of the content type,
    /// without quotes. Fails with `OutOfMemory` if memory is refused.
    pub fn new(alloc: Global, boundary: &[u8], limits: Limits) -> Result<PartReader, Reason>
        ensures ok { IfOk result (λ r. r ≡ record {
          delimiter = multipart_delimiter boundary.now;
          limits = limits;
          ended = false;
          held = multipart_line_end;
        }) }
        ensures reason { IfErr result (λ reason. reason ≡ Reason.OutOfMemory) }
    {
        let mut sections = Sections::new(alloc, &delimiter_of(alloc, boundary)?)?;
        sections.waiting.push_slice(alloc, b"\r\n")?;
        Ok(PartReader {
            alloc,
            sections,
            limits,
        })
    }

    /// Appends a piece, or drops it if the close delimiter was read. A piece of at most 512 bytes
    /// is copied; a longer one is shared. Fails with `TooLong` if the number of bytes that wait for
    /// a delimiter would pass `usize::MAX`, and with `OutOfMemory` if memory is refused; then
    /// nothing has changed and `piece` comes back. An empty piece is never refused.
    pub fn push(&mut self, piece: Bytes) -> Result<(), Refused<Bytes>>
        ensures pushed { (waiting : List ℕ)
            × WaitsInMultipart self.old.delimiter self.old.held waiting
            × IsPush waiting piece result
            (self.new ≡ multipart_appended self.old piece) (self.new ≡ self.old) }
        ensures drops { self.old.ended ≡ true → IsOk result }
    {
        if self.has_ended() {
            return Ok(());
        }
        self.sections.waiting.push(self.alloc, piece)
    }

    /// Appends a copy of `piece`, in a block that it shares with other small pieces, or drops it if
    /// the close delimiter was read: for a caller that reads into a buffer of its own. Fails as
    /// `push` does; then nothing has changed.
    pub fn push_slice(&mut self, piece: &[u8]) -> Result<(), Reason>
        ensures ok { OnOk result (self.new ≡ multipart_appended self.old piece.now) }
        ensures err { OnErr result (self.new ≡ self.old) }
        ensures too_long { (waiting : List ℕ)
            × WaitsInMultipart self.old.delimiter self.old.held waiting
            × IfErr result (λ reason. (reason ≡ Reason.TooLong)
            ↔ (2 ^ 64 ≤ length waiting + length piece.now)) }
        ensures empty { piece.now ≡ [] → IsOk result }
        ensures drops { self.old.ended ≡ true → IsOk result }
    {
        if !self.has_ended() {
            self.sections.waiting.push_slice(self.alloc, piece)?;
        }
        Ok(())
    }

    /// Returns whether the close delimiter was read: then no part comes any more.
    pub fn has_ended(&self) -> bool
        ensures value { result ≡ self.now.ended }
        ensures none { IsTrue result → self.now.held ≡ [] }
    {
        self.sections.stage == Stage::Ended
    }

    /// Returns the next part, or `None` while some of it or of the delimiter after it is to come,
    /// and after the close delimiter. At `None` no more bytes wait than the limits and a delimiter
    /// have. Fails with `Malformed` only if the held bytes begin with no part whose head is header
    /// fields, whatever comes after them, with `TooLarge` only if a limit is passed, so that they begin
    /// with none within the limits, with `NotUtf8` if the head isn't UTF-8, and with `Refused` if memory
    /// is refused; then nothing has changed. Each but `TooLarge` comes only after the delimiter at the
    /// end of the part, and only if what is before the first delimiter is within the limits. Memory is
    /// asked for only then, and only if the head has an end, and head and body are within the limits.
    pub fn next_part(&mut self) -> Result<Option<Part>, PartError>
        ensures part { IfOk result (λ next. IfSome next (λ part. TakesMultipart self.old.delimiter
            self.old.limits self.old.held (bytes_of_multipart part) self.new.held)) }
        ensures fewer { IfOk result (λ next. IfSome next
            (λ _. length self.new.held < length self.old.held)) }
        ensures fields { IfOk result (λ next. IfSome next (λ part. AreMultipartFields part.head)) }
        ensures name { IfOk result (λ next. IfSome next
            (λ part. HasMultipartParameter multipart_name part.head part.name)) }
        ensures file_name { IfOk result (λ next. IfSome next
            (λ part. HasMultipartParameter multipart_file_name part.head part.file_name)) }
        ensures goes_on { IfOk result (λ next. IfSome next
            (λ _. (self.old.ended ≡ false)
            × (self.new ≡ record self.old { held = self.new.held }))) }
        ensures waits { IfOk result (λ next. IfNone next
            (NoMultipart self.old.delimiter self.old.limits self.old.held)) }
        ensures idle { IfOk result (λ next. IfNone next (IsMultipartIdle self.old self.new)) }
        ensures few { IfOk result (λ next. IfNone next
            (FewWaitInMultipart self.new.delimiter self.new.limits self.new.held)) }
        ensures err { OnErr result (self.new ≡ self.old) }
        ensures malformed { IfErr result (λ e. e ≡ PartError.Malformed
            → (limits : Limits) (more : List ℕ)
            → NoMultipartWithFields self.old.delimiter limits (self.old.held ++ more)) }
        ensures due { IfErr result (λ e. e ≢ PartError.TooLarge
            → IsMultipartDue self.old.delimiter self.old.limits self.old.held) }
        ensures too_large { IfErr result (λ e. e ≡ PartError.TooLarge → (more : List ℕ)
            → NoMultipart self.old.delimiter self.old.limits (self.old.held ++ more)) }
        ensures over { IfErr result (λ e. e ≡ PartError.TooLarge
            → IsMultipartOverLimit self.old.delimiter self.old.limits self.old.held) }
        ensures not_utf8 { IfErr result (λ e. e ≡ PartError.NotUtf8
            → (part : MultipartBytes) × (rest : List ℕ)
            × TakesMultipart self.old.delimiter self.old.limits self.old.held part rest
            × (¬ IsUtf8 part.head)) }
        ensures reason { IfErr result (λ e. (reason : _) → e ≡ PartError.Refused reason
            → reason ≡ Reason.OutOfMemory) }
        ensures asks { IfErr result (λ e. (reason : _) → e ≡ PartError.Refused reason
            → AsksForMultipart self.old.delimiter self.old.limits self.old.held) }
    {
        self.sections.search(self.alloc, self.limits)?;
        if self.sections.is_over(most_multipart_bytes(self.limits)) {
            return Err(PartError::TooLarge);
        }
        match self.sections.stage {
            Stage::Found => Ok(Some(take_part(&mut self.sections, self.alloc, self.limits)?)),
            _ => Ok(None),
        }
    }
}

/// The laws of a run of calls: the parts, and what is left, depend on the joined pieces alone, not on
/// where these are cut or when parts are asked for. And the law of a disposition: it has at most one
/// value of a name.
#[tactic(auto, using(crate::proofs::MultipartLaws::part_laws))]
pub fn part_laws()
    ensures run { MultipartLaw }
    ensures same { SameMultipartLaw }
    ensures parameter { SameDispositionParameterLaw }
{}

/// Takes the part that was found.
fn take_part(sections: &mut Sections, alloc: Global, limits: Limits) -> Result<Part, PartError>
    requires divided { IsMultipartDivided sections.old }
    requires within { IsMultipartWithin limits sections.old }
    requires found { sections.old.stage ≡ Stage.Found }
    requires few { length sections.old.preamble ≤ limits.head + limits.body }
    ensures divided { IsMultipartDivided sections.new }
    ensures part { IfOk result (λ part. TakesMultipart sections.old.waiting.delimiter limits
        (held_by_multipart sections.old) (bytes_of_multipart part) (held_by_multipart sections.new)) }
    ensures fields { IfOk result (λ part. AreMultipartFields part.head) }
    ensures name { IfOk result (λ part. HasMultipartParameter multipart_name part.head part.name) }
    ensures file_name { IfOk result (λ part. HasMultipartParameter multipart_file_name part.head part.file_name) }
    ensures goes_on { OnOk result (sections.new.stage ≡ Stage.Waiting) }
    ensures delimiter { sections.new.waiting.delimiter ≡ sections.old.waiting.delimiter }
    ensures err { OnErr result (sections.new ≡ sections.old) }
    ensures fault { IfErr result (λ e. IsMultipartFault e
        sections.old.waiting.delimiter limits (held_by_multipart sections.old)) }
{
    let front = sections.found.peek_bytes(alloc, sections.head_len)?;
    let PartHead {
        text,
        name,
        file_name,
    } = parse_head(alloc, front)?;
    let start = sections.head_len + HEAD_END.len();
    let mut body = sections.take(alloc);
    body.advance(start);
    Ok(Part {
        head: text,
        name,
        file_name,
        body,
    })
}
