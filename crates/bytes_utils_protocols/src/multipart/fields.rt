//! The header fields in the head of a part, of which one is its `Content-Disposition`.
ghost use Rattle.std.specs.Prelude.{◌≡◌, ◌↔◌, ◌++◌, IsTrue, IfOk, IfErr, IfSome, IfNone, option_map, string_bytes};
ghost use Rattle.std.specs.Str.Lines.{lines};
ghost use Rattle.bytes_utils_protocols.specs.Multipart.{AreMultipartFields, HasMultipartDisposition, IsMultipartDisposition, IsMultipartFieldLine, IsMultipartFolded, NoMultipartDisposition};

use crate::header::{header_blanks_len, header_of};
use bytes_utils::Reason;
use memchr::memchr2;
use std::alloc::Global;

/// Whether the lines of a head are header fields: each line begins one or is folded, which means that
/// it goes on with the line before it.
pub(super) fn has_fields(head: &str) -> bool
    ensures { IsTrue result ↔ AreMultipartFields head.now }
{
    for line in head.lines() {
        if !is_field_line(line) {
            return false;
        }
    }
    !is_folded(head)
}

/// Whether a line begins a header field, or goes on with one.
fn is_field_line(line: &str) -> bool
    ensures { IsTrue result ↔ IsMultipartFieldLine line.now }
{
    let bytes = line.as_bytes();
    memchr2(b'\r', b'\0', bytes).is_none() && (is_folded(line) || header_of(bytes).is_some())
}

/// Whether a line begins with a space or a tab.
fn is_folded(line: &str) -> bool
    ensures { IsTrue result ↔ IsMultipartFolded line.now }
{
    header_blanks_len(line.as_bytes()) > 0
}

/// The unfolded value of the first `Content-Disposition` field of a head.
pub(super) fn disposition_of_head(alloc: Global, head: &str) -> Result<Option<String>, Reason>
    ensures ok { IfOk result (λ value. HasMultipartDisposition (lines head.now)
        (option_map string_bytes value)) }
    ensures reason { IfErr result (λ reason. reason ≡ Reason.OutOfMemory) }
{
    let mut found = None;
    for line in head.lines() {
        match found {
            Some(_) if !is_folded(line) => return Ok(found),
            Some(value) => found = Some(with_line(value, line)?),
            None => found = begun_disposition(alloc, line)?,
        }
    }
    Ok(found)
}

/// A value with one more line.
fn with_line(mut value: String, line: &str) -> Result<String, Reason>
    ensures ok { IfOk result (λ whole. string_bytes whole ≡ string_bytes value ++ line.now) }
    ensures reason { IfErr result (λ reason. reason ≡ Reason.OutOfMemory) }
{
    value.push_str(line)?;
    Ok(value)
}

/// A copy of the value in a line, if that is a `Content-Disposition` header.
fn begun_disposition(alloc: Global, line: &str) -> Result<Option<String>, Reason>
    ensures some { IfOk result (λ found. IfSome found
        (λ value. IsMultipartDisposition line.now (string_bytes value))) }
    ensures none { IfOk result (λ found. IfNone found (NoMultipartDisposition line.now)) }
    ensures reason { IfErr result (λ reason. reason ≡ Reason.OutOfMemory) }
{
    match disposition_in_line(line) {
        Some(value) => Ok(Some(String::from_str(alloc, value)?)),
        None => Ok(None),
    }
}

/// The value in a line, if that is a `Content-Disposition` header.
fn disposition_in_line(line: &str) -> Option<&str>
    ensures some { IfSome result (λ value. IsMultipartDisposition line.now value.now) }
    ensures none { IfNone result (NoMultipartDisposition line.now) }
{
    let (name, value) = line.split_once(':')?;
    if !name.eq_ignore_ascii_case("content-disposition") {
        return None;
    }
    Some(value)
}
