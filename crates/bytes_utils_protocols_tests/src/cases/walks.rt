//! Readers that are given the streams of rows, cut in all ways, and asked for what is due.
use super::readers::{Protocol, Reader};
use super::rows::Row;
use bytes::Bytes;
use bytes_utils::Reason;
use std::alloc::Global;
use std::io::Print;
use std::process::Abort;

/// How a stream is cut and pushed.
#[derive(Clone, Copy)]
pub(super) struct Way {
    /// The number of bytes of the first piece, of the third one, and so on.
    pub(super) first: usize,
    /// The number of bytes of the others.
    pub(super) second: usize,
    /// Whether pieces are pushed by `push_slice`.
    pub(super) by_slice: bool,
    /// Whether the reader is asked after the last piece alone, and not after each.
    pub(super) is_late: bool,
}

/// A reader on its way along a row. It makes each refused call again.
#[derive(Drop)]
struct Walk {
    alloc: Global,
    reader: Reader,
    /// The name of the call that was refused, or nothing.
    refused: &'static str,
}

impl Walk {
    fn new(alloc: Global, protocol: Protocol) -> Option<Walk> {
        let (reader, refused) = match Reader::new(alloc, protocol) {
            Ok(reader) => (reader, ""),
            Err(_) => (Reader::new(alloc, protocol).ok()?, "new"),
        };
        Some(Walk {
            alloc,
            reader,
            refused,
        })
    }

    /// Pushes a piece, and returns whether it is taken. If it is refused, out of memory, what
    /// came back is pushed again. Returns `None` if memory is refused for the piece itself.
    fn takes(&mut self, piece: &[u8]) -> Option<bool> {
        let piece = Bytes::copy_from_slice(self.alloc, piece).ok()?;
        Some(match self.reader.push(piece) {
            Ok(()) => true,
            Err(refused) if refused.reason == Reason::OutOfMemory => {
                self.refused = "push";
                self.reader.push(refused.back).is_ok()
            }
            Err(_) => false,
        })
    }

    /// Pushes a slice in the same way.
    fn takes_slice(&mut self, piece: &[u8]) -> bool {
        match self.reader.push_slice(self.alloc, piece) {
            Ok(()) => true,
            Err(Reason::OutOfMemory) => {
                self.refused = "push_slice";
                self.reader.push_slice(self.alloc, piece).is_ok()
            }
            Err(Reason::TooLong) => false,
        }
    }

    /// Whether this comes next, or the name of the call if that is refused. Returns `None` if memory
    /// is refused for the text.
    fn sees(&mut self, wanted: &[u8]) -> Option<Result<bool, &'static str>> {
        let (call, returned) = self.reader.next();
        let text = returned.text(self.alloc)?;
        Some(match text.as_str() {
            "OutOfMemory" | "Refused(OutOfMemory)" => Err(call),
            text => Ok(text.as_bytes() == wanted),
        })
    }

    /// Whether this comes next. If the call is refused, it is made again.
    fn gives(&mut self, wanted: &[u8]) -> Option<bool> {
        match self.sees(wanted)? {
            Ok(is_right) => Some(is_right),
            Err(call) => {
                self.refused = call;
                self.sees(wanted)?.ok()
            }
        }
    }

    /// Whether all comes that is due with the bytes from `from` up to `to`, and then nothing, or the
    /// error that comes at each call.
    fn gives_due(&mut self, row: &Row, from: usize, to: usize) -> Option<bool> {
        let mut then = b"nothing".as_slice();
        for due in row.dues.iter() {
            if due.end > to {
                break;
            }
            if due.stays {
                then = &due.text;
            } else if from < due.end && !self.gives(&due.text)? {
                return Some(false);
            }
        }
        Some(self.gives(then)? && self.gives(then)?)
    }

    /// Whether the reader says this of itself.
    fn says(&self, wanted: &str) -> Option<bool> {
        let said = self.reader.state(self.alloc)?;
        Some(wanted.is_empty() || said.as_str() == wanted)
    }

    /// Pushes the bytes from `from` up to `to`, and asks for what is due with them. A late reader is
    /// asked after the last piece, for all that is due. Returns whether all is right.
    fn passes(&mut self, row: &Row, way: Way, (from, to): (usize, usize)) -> Option<bool> {
        let bytes = row.stream.get(from..to)?;
        let is_taken = if way.by_slice {
            self.takes_slice(bytes)
        } else {
            self.takes(bytes)?
        };
        if way.is_late && to < row.stream.len() {
            return Some(is_taken);
        }
        let first = if way.is_late { 0 } else { from };
        Some(is_taken && self.gives_due(row, first, to)?)
    }

    /// Whether a row is right.
    fn is_right(&mut self, row: &Row, way: Way) -> Option<bool> {
        let len = row.stream.len();
        let (mut from, mut size, mut other) = (0_usize, way.first, way.second);
        for _ in 0..len.saturating_mul(2).saturating_add(2) {
            let to = from.saturating_add(size).min(len);
            if !self.passes(row, way, (from, to))? {
                return Some(false);
            }
            if to == len {
                return self.says(row.end);
            }
            from = to;
            (size, other) = (other, size);
        }
        Some(false)
    }
}

/// Whether a row is right in this way, and the name of the call that was refused, or nothing. It is
/// not known whether the row is right if memory is refused for the row itself.
fn outcome_of_walk(
    alloc: Global,
    protocol: Protocol,
    row: &Row,
    way: Way,
) -> (Option<bool>, &'static str) {
    match Walk::new(alloc, protocol) {
        Some(mut walk) => {
            let outcome = (walk.is_right(row, way), walk.refused);
            drop(walk);
            outcome
        }
        None => (Some(false), ""),
    }
}

/// Whether a row is right in two pieces of which the first has `len` bytes, and in slices of `len`
/// bytes each. If that is 0, there is an empty slice before each byte.
fn is_walk_right_by(alloc: Global, protocol: Protocol, row: &Row, len: usize) -> bool {
    let two = Way {
        first: len,
        second: usize::MAX,
        by_slice: false,
        is_late: false,
    };
    let many = Way {
        second: len.max(1),
        by_slice: true,
        ..two
    };
    let late = Way {
        is_late: true,
        ..many
    };
    for way in [two, many, late] {
        if outcome_of_walk(alloc, protocol, row, way) != (Some(true), "") {
            return false;
        }
    }
    true
}

/// Whether that is so of each number of bytes, from those of the first line on.
fn is_walk_always_right(alloc: Global, protocol: Protocol, row: &Row) -> bool {
    for len in row.first..row.stream.len().saturating_add(1) {
        if !is_walk_right_by(alloc, protocol, row, len) {
            return false;
        }
    }
    true
}

/// Whether the row of a line and more lines is.
fn are_walks_right(alloc: Global, protocol: Protocol, first: &str, lines: &str) -> bool {
    match Row::of(alloc, first, lines) {
        Some(row) => {
            let is_right = is_walk_always_right(alloc, protocol, &row);
            drop(row);
            is_right
        }
        None => false,
    }
}

/// Asserts that each row is right, with a line before its own ones, wherever its stream is cut after
/// that line. An empty line is between two rows.
pub(super) fn assert_walks_of_rows<R: Abort>(
    rt: &R,
    alloc: Global,
    protocol: Protocol,
    first: &str,
    rows: &str,
) {
    for row in rows.split("\n\n") {
        assert!(rt; are_walks_right(alloc, protocol, first, row), "{row}");
    }
}

/// The outcome of the row of these lines.
fn outcome_of_walked_lines(
    alloc: Global,
    protocol: Protocol,
    lines: &str,
    way: Way,
) -> (Option<bool>, &'static str) {
    match Row::of(alloc, "", lines) {
        Some(row) => {
            let outcome = outcome_of_walk(alloc, protocol, &row, way);
            drop(row);
            outcome
        }
        None => (None, ""),
    }
}

/// Asserts that a row is right in this way. If a call is refused, that is reported, and the call is
/// made again. If memory is refused for the row itself, all is done again.
pub(super) fn assert_walk_of_row<R: Abort + Print>(
    rt: &R,
    alloc: Global,
    protocol: Protocol,
    lines: &str,
    way: Way,
) {
    let (mut holds, call) = outcome_of_walked_lines(alloc, protocol, lines, way);
    if !call.is_empty() {
        let name = protocol.name();
        assert!(rt; println!(rt; "refused {name}::{call}").is_ok());
    }
    if holds.is_none() {
        (holds, _) = outcome_of_walked_lines(alloc, protocol, lines, way);
    }
    assert!(rt; holds == Some(true), "{lines}");
}
