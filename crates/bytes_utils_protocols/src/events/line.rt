//! The parts of a line.
ghost use Rattle.std.specs.Prelude.{◌≡◌, ◌<◌, length, IfOk, IfErr, OnErr};
ghost use Rattle.std.specs.Option.{option_or};
ghost use Rattle.bytes_utils_protocols.specs.Events.{IsEndOfEventLine, event_content, event_field_name, event_field_value, event_name_of, event_number_of, event_value_of};

use crate::number::number;
use bytes_utils::{Reason, Str};

/// What may be at the start of a stream, and is no part of its first line.
const BYTE_ORDER_MARK: &str = "\u{feff}";

/// A line without a byte order mark at its start, if it is the first one.
pub(super) fn event_content(at_start: bool, line: &str) -> &str
    ensures { result.now ≡ event_content at_start line.now }
{
    if !at_start {
        return line;
    }
    line.strip_prefix(BYTE_ORDER_MARK).unwrap_or(line)
}

/// The name and the value of a field.
pub(super) fn event_field_of(text: &str) -> (&str, &str)
    ensures name { result.0.now ≡ event_field_name text.now }
    ensures value { result.1.now ≡ event_field_value text.now }
{
    let (name, value) = text.split_once(':').unwrap_or((text, ""));
    (name, event_value_of(value))
}

/// A text without one space at its start.
fn event_value_of(text: &str) -> &str
    ensures { result.now ≡ event_value_of text.now }
{
    text.strip_prefix(' ').unwrap_or(text)
}

/// The end of a line as a name, which is none if it is empty.
pub(super) fn event_name_of(line: &Str, end: &str) -> Result<Option<Str>, Reason>
    requires { IsEndOfEventLine line.now end.now }
    ensures ok { IfOk result (λ name. name ≡ event_name_of end.now) }
    ensures some { OnErr result (0 < length end.now) }
    ensures reason { IfErr result (λ reason. reason ≡ Reason.OutOfMemory) }
{
    if end.is_empty() {
        return Ok(None);
    }
    Ok(Some(end_of_event_line(line, end)?))
}

/// The end of a line as a text that shares its bytes.
pub(super) fn end_of_event_line(line: &Str, end: &str) -> Result<Str, Reason>
    requires { IsEndOfEventLine line.now end.now }
    ensures ok { IfOk result (λ text. text ≡ end.now) }
    ensures some { OnErr result (0 < length end.now) }
    ensures reason { IfErr result (λ reason. reason ≡ Reason.OutOfMemory) }
{
    line.slice_from(line.len() - end.len())
}

/// Sets the number to the one that the text writes, if it writes one.
pub(super) fn set_event_retry(number_so_far: &mut Option<u64>, text: &str)
    ensures { number_so_far.new ≡ option_or (event_number_of text.now) number_so_far.old }
{
    if let Some(n) = number(text.as_bytes()) {
        *number_so_far = Some(n as u64);
    }
}
