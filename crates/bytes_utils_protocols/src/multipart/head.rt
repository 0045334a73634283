//! The head of a part.
ghost use Rattle.std.specs.Prelude.{◌≡◌, ◌≢◌, ◌≤◌, ℕ, List, [], length, take, None, IsUtf8, IfOk, IfErr, IfSome, IfNone};
ghost use Rattle.bytes_utils.specs.Occurrence.{Occurs};
ghost use Rattle.bytes_utils_protocols.specs.Multipart.{AreMultipartFields, HasMultipartHeadAt, HasMultipartParameter, IsMultipartHead, IsMultipartRawFault, multipart_file_name, multipart_head_end, multipart_name};
ghost use Rattle.bytes_utils_protocols.specs.MultipartStream.{FindsPartHead};
ghost use Rattle.bytes_utils_protocols.specs.MultipartWaiting.{IsAheadOfNeedle};

use super::disposition::read_parameter;
use super::fields::{disposition_of_head, has_fields};
use super::limits::{Limits, PartError};
use super::waiting::{Ahead, DASHES, Waiting};
use crate::header::header_blanks_len;
use bytes::{Buf, Bytes};
use bytes_utils::{Reason, Str};
use std::alloc::Global;

/// What ends each line.
const LINE_END: &[u8] = b"\r\n";

/// What ends a head.
pub(super) const HEAD_END: &[u8] = b"\r\n\r\n";

/// The head of a part.
#[derive(Debug, Drop)]
pub struct PartHead {
    /// The header fields as they came, without the line end after the last one.
    pub text: Str,
    /// The name, as that of a `Part`.
    pub name: Option<Str>,
    /// The file name, as that of a `Part`.
    pub file_name: Option<Str>,
}

impl PartHead {
    /// The head of a part that has no header fields.
    pub(super) fn empty() -> PartHead
        ensures { result ≡ record { text = []; name = None; file_name = None } }
    {
        PartHead {
            text: Str::empty(),
            name: None,
            file_name: None,
        }
    }
}

/// How many bytes are before the end of the head, in the first `len` bytes that wait. These are all
/// before the next delimiter. Requires that they have come.
pub(super) fn head_len(waiting: &Waiting, len: usize, limits: Limits) -> Result<usize, PartError>
    requires { len ≤ length waiting.now.held }
    ensures at { IfOk result (HasMultipartHeadAt limits (take len waiting.now.held)) }
    ensures fault { IfErr result (λ e. IsMultipartRawFault e limits (take len waiting.now.held)) }
{
    let Some(front) = waiting.find_before(HEAD_END, len) else {
        return Err(PartError::Malformed);
    };
    let start = front + HEAD_END.len();
    if start > limits.head || len - start > limits.body {
        return Err(PartError::TooLarge);
    }
    Ok(front)
}

/// The head in the bytes before its end, which begin after a delimiter.
pub(super) fn parse_head(alloc: Global, front: Bytes) -> Result<PartHead, PartError>
    ensures head { IfOk result (λ head. IsMultipartHead front head.text) }
    ensures fields { IfOk result (λ head. AreMultipartFields head.text) }
    ensures name { IfOk result (λ head. HasMultipartParameter multipart_name head.text head.name) }
    ensures file_name { IfOk result
        (λ head. HasMultipartParameter multipart_file_name head.text head.file_name) }
    ensures malformed { IfErr result (λ e. e ≡ PartError.Malformed
        → (head : List ℕ) → IsMultipartHead front head → ¬ AreMultipartFields head) }
    ensures too_large { IfErr result (λ e. e ≢ PartError.TooLarge) }
    ensures not_utf8 { IfErr result (λ e. e ≡ PartError.NotUtf8
        → (head : List ℕ) × IsMultipartHead front head × (¬ IsUtf8 head)) }
    ensures reason { IfErr result (λ e. (reason : _) → e ≡ PartError.Refused reason
        → reason ≡ Reason.OutOfMemory) }
{
    let Some(head) = head_in(front) else {
        return Err(PartError::Malformed);
    };
    let Ok(text) = Str::from_inner(head) else {
        return Err(PartError::NotUtf8);
    };
    if !has_fields(text.as_str()) {
        return Err(PartError::Malformed);
    }
    let disposition = disposition_of_head(alloc, text.as_str())?;
    let name = read_parameter(alloc, &disposition, "name")?;
    let file_name = read_parameter(alloc, &disposition, "filename")?;
    Ok(PartHead {
        text,
        name,
        file_name,
    })
}

/// The head in the bytes before an empty line, which begin after a delimiter.
fn head_in(mut front: Bytes) -> Option<Bytes>
    ensures some { IfSome result (λ head. IsMultipartHead front head) }
    ensures none { IfNone result ((head : List ℕ) → ¬ IsMultipartHead front head) }
{
    let blanks = header_blanks_len(front.as_slice());
    front.advance(blanks);
    if front.is_empty() {
        return Some(front);
    }
    if !front.as_slice().starts_with(LINE_END) {
        return None;
    }
    front.advance(LINE_END.len());
    Some(front)
}

/// How many bytes are before the end of a head, by what is ahead of the next delimiter and of that
/// end in `all` bytes.
pub(super) fn found_head(
    next: Ahead,
    end: Ahead,
    all: usize,
    limits: Limits,
) -> Result<Option<usize>, PartError>
    ensures { (delimiter held : List ℕ) → length held ≡ all → IsAheadOfNeedle delimiter held next
        → IsAheadOfNeedle multipart_head_end held end → FindsPartHead delimiter limits held result }
{
    if !end.has_come {
        return awaited_head(next, all, limits);
    }
    let whole = end.len.saturating_add(HEAD_END.len());
    if next.has_come && next.len < whole {
        return Err(PartError::Malformed);
    }
    if whole > limits.head {
        return Err(PartError::TooLarge);
    }
    if whole <= next.len {
        return Ok(Some(end.len));
    }
    Ok(None)
}

/// The same while the end of a head is to come.
fn awaited_head(next: Ahead, all: usize, limits: Limits) -> Result<Option<usize>, PartError>
    ensures { (delimiter held : List ℕ) → length held ≡ all → IsAheadOfNeedle delimiter held next
        → (¬ Occurs multipart_head_end held) → FindsPartHead delimiter limits held result }
{
    if next.has_come {
        return Err(PartError::Malformed);
    }
    if all >= limits.head.max(DASHES.len()) {
        return Err(PartError::TooLarge);
    }
    Ok(None)
}
