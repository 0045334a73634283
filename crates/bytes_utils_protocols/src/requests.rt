//! Requests of a stream: lines before an empty one, and a body as long as these lines report.
//!
//! This finds where heads and bodies end, and is no HTTP parser: a server takes `hyper`.
ghost use Rattle.std.specs.Prelude.{◌≡◌, ◌≢◌, ℕ, ◌<◌, ◌≤◌, ◌↔◌, List, [], length, take, IfOk, IfErr, IfSome, IfNone, OnErr, IsSomeAnd};
ghost use Rattle.std.specs.List.{concat, prefix_len, suffix_len};
ghost use Rattle.std.specs.Option.{option_or};
ghost use Rattle.bytes_utils_codec.specs.Decoding.{Decodes, fed, passed, starting};
ghost use Rattle.bytes_utils_codec.specs.Delimited.{AwaitsDelimitedFrame, delimiting, fails_delimited, gives_delimited, keeps_delimited, ready_delimited};
ghost use Rattle.bytes_utils_codec.specs.Pushing.{IsPush};
ghost use Rattle.bytes_utils_protocols.specs.Digits.{WriteNumber};
ghost use Rattle.bytes_utils_protocols.specs.Requests.{ReportRequestError, ReportRequestLength, RequestLineReports, request_head_end, request_header_lines, is_request_blank, trimmed_request_value};

use crate::header::header_of;
use crate::number::number;
use bytes::Bytes;
use bytes_utils::{Reason, Refused, SegmentedBuf};
use bytes_utils_codec::decode::{Delimited, FrameTooLong, Framed};
use std::alloc::Global;
use std::error::Error;
use std::fmt;
use std::marker::Model;

/// Why the length of a body isn't known.
#[derive(Clone, Copy, Debug, Eq, PartialEq)]
pub enum LengthError {
    /// A line isn't a header: it has no colon, or its name is empty or has a byte that isn't
    /// visible ASCII, such as a space or a tab. A folded line is one of these.
    NotAHeader,
    /// A `Content-Length` isn't a number, or the number isn't a `usize`.
    NotANumber,
    /// Two `Content-Length` differ.
    Unequal,
    /// A `Transfer-Encoding` frames the body, in a way that isn't known here.
    UnknownFraming,
}

/// Writes `a line is no header`, `a length is no number`, `two lengths differ` or
/// `the framing is unknown`.
impl fmt::Display for LengthError {
    ghost use Rattle.std.specs.Prelude.{Some};
    ghost use Rattle.bytes_utils_protocols.specs.Requests.{length_error_text};

    ghost output = { λ error. Some (length_error_text error) };

    ghost styled_output = { λ error _. Some (length_error_text error) };

    fn fmt<W: fmt::Write>(&self, f: &mut fmt::Formatter<W>) -> fmt::Result {
        match self {
            LengthError::NotAHeader => f.write_str("a line is no header"),
            LengthError::NotANumber => f.write_str("a length is no number"),
            LengthError::Unequal => f.write_str("two lengths differ"),
            LengthError::UnknownFraming => f.write_str("the framing is unknown"),
        }
    }
}

impl Error for LengthError {}

/// A head, or that it is too long.
type Head = Result<Bytes, FrameTooLong>;

/// A stream that comes in pieces, and the requests in it: a head, an empty line, and a body.
///
/// ```text
/// let mut requests = Requests::new(alloc, 8192)?;
/// requests.push(piece)?;                     // `PUT / ..`, `Content-Length: 5`, and some of the body
/// let Some(head) = requests.next_head()? else { .. };
/// let len = body_len(&head?)?;               // 5
/// requests.next_body(len)?                   // `None`, until all five bytes have come
/// ```
#[derive(Drop)]
pub struct Requests {
    heads: Framed<Delimited>,
}

impl Model for Requests {
    ghost use Rattle.std.specs.Prelude.{◌≡◌};
    ghost use Rattle.bytes_utils_codec.specs.Decoding.{Decoding};
    ghost use Rattle.bytes_utils_codec.specs.Delimited.{Delimiting};
    ghost use Rattle.bytes_utils_protocols.specs.Requests.{request_head_end};

    ghost Value = { Decoding Delimiting };

    ghost view = { λ r. r.heads };

    ghost invariant = { λ r. r.heads.decoder.separator ≡ request_head_end };
}

impl Requests {
    /// Makes a reader of heads of at most `max_head` bytes. Fails with `OutOfMemory` if memory is
    /// refused.
    pub fn new(alloc: Global, max_head: usize) -> Result<Requests, Reason>
        ensures ok { IfOk result (λ r. r ≡ starting (delimiting request_head_end max_head) 512) }
        ensures reason { IfErr result (λ reason. reason ≡ Reason.OutOfMemory) }
    {
        let decoder = Delimited::with_limit(alloc, b"\r\n\r\n", max_head)?;
        Ok(Requests {
            heads: Framed::new(alloc, decoder),
        })
    }

    /// Appends a piece, as `Framed` does. Fails as `Framed` does; then nothing has changed and
    /// `piece` comes back.
    pub fn push(&mut self, piece: Bytes) -> Result<(), Refused<Bytes>>
        ensures pushed { IsPush self.old.held piece result
            (self.new ≡ fed self.old piece) (self.new ≡ self.old) }
    {
        self.heads.push(piece)
    }

    /// Returns the head before the next empty line, or `None` while that line is to come. A head
    /// over the limit is reported once, in its place, when a `Delimited` does so, and is skipped.
    /// Fails with `OutOfMemory` if memory is refused, which is asked for only if a head within the
    /// limit that isn't empty has come; then the call can be made again.
    pub fn next_head(&mut self) -> Result<Option<Head>, Reason>
        ensures step { Decodes gives_delimited AwaitsDelimitedFrame fails_delimited keeps_delimited
            self.old result self.new }
    {
        self.heads.next_item()
    }

    /// Returns a body of `len` bytes, in pieces as `Framed` returns them, or `None` while some of it
    /// is to come. Fails with `OutOfMemory` if memory is refused, which is asked for only if all of
    /// a body of some bytes has come; then nothing has changed.
    pub fn next_body(&mut self, len: usize) -> Result<Option<SegmentedBuf<Bytes>>, Reason>
        ensures body { IfOk result (λ next. IfSome next
            (λ body. concat body.segments ≡ take len self.old.held)) }
        ensures passed { IfOk result (λ next. IfSome next
            (λ _. (len ≤ length self.old.held) × (self.new ≡ passed ready_delimited len self.old))) }
        ensures waits { IfOk result
            (λ next. IfNone next ((self.new ≡ self.old) × (length self.old.held < len))) }
        ensures err { OnErr result (self.new ≡ self.old) }
        ensures due { OnErr result ((0 < len) × (len ≤ length self.old.held)) }
        ensures reason { IfErr result (λ reason. reason ≡ Reason.OutOfMemory) }
    {
        if self.heads.remaining() < len {
            return Ok(None);
        }
        Ok(Some(self.heads.split_to(len)?))
    }

    /// Returns the number of bytes that came and weren't taken or dropped.
    pub fn remaining(&self) -> usize
        ensures value { result ≡ length self.now.held }

        // True of every value, after any calls.
        ensures separator { self.now.decoder.separator ≡ request_head_end }
    {
        self.heads.remaining()
    }
}

/// Returns the number of bytes of the body after a head: the number that each `Content-Length`
/// reports, or 0 if there is none (RFC 9112, section 6). The first line of the head is passed over.
/// Fails with the `LengthError` of the first line at fault.
pub fn body_len(head: &[u8]) -> Result<usize, LengthError>
    ensures ok { (len : ℕ)
        → (result ≡ Ok len) ↔ ReportRequestLength (request_header_lines head.now) len }
    ensures err { (error : LengthError)
        → (result ≡ Err error) ↔ ReportRequestError (request_header_lines head.now) error }
{
    let mut known = None;
    for line in head.split(|byte| *byte == b'\n').skip(1) {
        known = agreed_request_len(known, reported_request_len(line)?)?;
    }
    Ok(known.unwrap_or(0))
}

/// The length that is known or reported, if any, or an error if the two differ.
fn agreed_request_len(
    known: Option<usize>,
    reported: Option<usize>,
) -> Result<Option<usize>, LengthError>
    ensures ok { IfOk result (λ agreed. (agreed ≡ option_or known reported)
        × IfSome known (λ one. IfSome reported (λ other. one ≡ other))) }
    ensures err { IfErr result (λ error. (error ≡ LengthError.Unequal)
        × IsSomeAnd known (λ one. IsSomeAnd reported (λ other. one ≢ other))) }
{
    match (known, reported) {
        (Some(one), Some(other)) if one != other => Err(LengthError::Unequal),
        _ => Ok(known.or(reported)),
    }
}

/// The length that a line reports, if any.
fn reported_request_len(line: &[u8]) -> Result<Option<usize>, LengthError>
    ensures { RequestLineReports line.now result }
{
    let (name, value) = header_of(line).ok_or(LengthError::NotAHeader)?;
    if name.eq_ignore_ascii_case(b"Transfer-Encoding") {
        return Err(LengthError::UnknownFraming);
    }
    if !name.eq_ignore_ascii_case(b"Content-Length") {
        return Ok(None);
    }
    let len = number(trimmed_request_value(value)).ok_or(LengthError::NotANumber)?;
    Ok(Some(len))
}

/// Whether the byte is a space, a tab or a carriage return.
fn is_request_blank(byte: u8) -> bool
    ensures { result ≡ is_request_blank byte }
{
    matches!(byte, b' ' | b'\t' | b'\r')
}

/// A value without the blanks at both ends.
fn trimmed_request_value(value: &[u8]) -> &[u8]
    ensures { result.now ≡ trimmed_request_value value.now }
{
    let value = &value[leading_request_blanks(value)..];
    &value[..value.len() - trailing_request_blanks(value)]
}

/// The number of blanks at the beginning.
fn leading_request_blanks(value: &[u8]) -> usize
    ensures bound { result ≤ length value.now }
    ensures count { result ≡ prefix_len is_request_blank value.now }
{
    value
        .iter()
        .take_while(|byte| is_request_blank(**byte))
        .count()
}

/// The number of blanks at the end.
fn trailing_request_blanks(value: &[u8]) -> usize
    ensures bound { result ≤ length value.now }
    ensures count { result ≡ suffix_len is_request_blank value.now }
{
    value
        .iter()
        .rev()
        .take_while(|byte| is_request_blank(**byte))
        .count()
}
