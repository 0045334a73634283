//! Lines of data, joined.
ghost use Rattle.std.specs.Prelude.{◌≡◌, ◌≤◌, ◌↔◌, ◌++◌, ◌∷◌, length, string_bytes, IfOk, IfErr, IsSomeAnd, IsTrue, None, OnOk, OnErr, Some};
ghost use Rattle.std.specs.List.{Contains};
ghost use Rattle.bytes_utils.specs.Lines.{line_feed};
ghost use Rattle.bytes_utils_protocols.specs.EventData.{event_data_if_any};
ghost use Rattle.bytes_utils_protocols.specs.Events.{AsksForEventData, IsEndOfEventLine, with_event_line};

use super::line::end_of_event_line;
use bytes_utils::{Reason, Refused, Str};
use std::alloc::Global;
use std::marker::Model;

/// Lines of data, joined.
#[derive(Drop)]
pub(super) enum Data {
    /// One line, which shares its bytes; or the joined text of more lines, put back after a refusal.
    One(Str),
    More(JoinedLines),
}

/// Two lines of data or more, joined with line feeds.
#[derive(Drop)]
pub(super) struct JoinedLines {
    text: String,
}

impl Model for JoinedLines {
    ghost use Rattle.std.specs.Prelude.{ℕ, List, string_bytes};
    ghost use Rattle.std.specs.List.{Contains};
    ghost use Rattle.bytes_utils.specs.Lines.{line_feed};

    ghost Value = { List ℕ };

    ghost view = { λ lines. string_bytes lines.text };

    ghost invariant = { λ lines. Contains (string_bytes lines.text) line_feed };
}

impl JoinedLines {
    /// Joins two lines.
    fn new(alloc: Global, first: &str, second: &str) -> Result<JoinedLines, Reason>
        ensures ok { IfOk result (λ lines. lines ≡ first.now ++ line_feed ∷ second.now) }
        ensures reason { IfErr result (λ reason. reason ≡ Reason.OutOfMemory) }
    {
        let mut text = String::from_str(alloc, first)?;
        push_event_line(&mut text, second)?;
        Ok(JoinedLines { text })
    }

    /// Adds a line. Fails with `OutOfMemory`; then nothing has changed.
    fn push(&mut self, line: &str) -> Result<(), Reason>
        ensures ok { OnOk result (self.new ≡ self.old ++ line_feed ∷ line.now) }
        ensures err { OnErr result (self.new ≡ self.old) }
        ensures reason { IfErr result (λ reason. reason ≡ Reason.OutOfMemory) }
    {
        push_event_line(&mut self.text, line)
    }

    /// Returns the number of bytes.
    fn len(&self) -> usize
        ensures { result ≡ length self.now }
    {
        self.text.len()
    }
}

/// Whether the data may have one more line.
pub(super) fn has_room_in_event(so_far: &Option<Data>, line: &str, limit: usize) -> bool
    ensures { IsTrue result ↔ (length (with_event_line (event_data_if_any so_far.now) line.now) ≤ limit) }
{
    let len = match so_far {
        Some(Data::One(text)) => text.len(),
        Some(Data::More(lines)) => lines.len(),
        None => return line.len() <= limit,
    };
    len < limit && line.len() < limit - len
}

/// Adds `value` to the data, as one more line: it is the end of `line`.
pub(super) fn add_line(
    alloc: Global,
    so_far: &mut Option<Data>,
    line: &Str,
    value: &str,
) -> Result<(), Reason>
    requires { IsEndOfEventLine line.now value.now }
    ensures ok { OnOk result
        (event_data_if_any so_far.new ≡ Some (with_event_line (event_data_if_any so_far.old) value.now)) }
    ensures err { OnErr result (event_data_if_any so_far.new ≡ event_data_if_any so_far.old) }
    ensures asks { OnErr result (AsksForEventData (event_data_if_any so_far.old) value.now) }
    ensures reason { IfErr result (λ reason. reason ≡ Reason.OutOfMemory) }
{
    let more = match so_far {
        Some(Data::More(lines)) => return lines.push(value),
        Some(Data::One(first)) => Data::More(JoinedLines::new(alloc, first.as_str(), value)?),
        None => Data::One(end_of_event_line(line, value)?),
    };
    *so_far = Some(more);
    Ok(())
}

/// Takes the data as one text, if there is any. If memory is refused, it stays.
pub(super) fn take_event_data(
    alloc: Global,
    so_far: &mut Option<Data>,
) -> Result<Option<Str>, Reason>
    ensures ok { IfOk result (λ text. text ≡ event_data_if_any so_far.old) }
    ensures after { OnOk result (so_far.new ≡ None) }
    ensures err { OnErr result (event_data_if_any so_far.new ≡ event_data_if_any so_far.old) }
    ensures asks { OnErr result
        (IsSomeAnd (event_data_if_any so_far.old) (λ text. Contains text line_feed)) }
    ensures reason { IfErr result (λ reason. reason ≡ Reason.OutOfMemory) }
{
    match so_far.take() {
        Some(Data::More(lines)) => match Str::from_string(alloc, lines.text) {
            Ok(text) => Ok(Some(text)),
            Err(Refused { reason, back }) => {
                *so_far = Some(Data::More(JoinedLines { text: back }));
                Err(reason)
            }
        },
        Some(Data::One(text)) => Ok(Some(text)),
        None => Ok(None),
    }
}

/// Appends a line feed and a line. Fails with `OutOfMemory`; then nothing has changed.
fn push_event_line(text: &mut String, line: &str) -> Result<(), Reason>
    ensures ok { OnOk result
        (string_bytes text.new ≡ string_bytes text.old ++ line_feed ∷ line.now) }
    ensures err { OnErr result (string_bytes text.new ≡ string_bytes text.old) }
    ensures reason { IfErr result (λ reason. reason ≡ Reason.OutOfMemory) }
{
    text.push('\n')?;
    if let Err(refused) = text.push_str(line) {
        text.pop();
        return Err(refused.into());
    }
    Ok(())
}
