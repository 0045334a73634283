//! Rows of calls of a reader. They begin with its limit and its kind: `4 text: +ab<., ab, -`.
//!
//! | call | |
//! |---|---|
//! | `+ab` | pushes a copy of these bytes, `+` of none |
//! | `own ab` | pushes them as a piece of their own |
//! | `&` | pushes a share of the piece that comes with the row |
//! | `copy` | pushes a copy of it |
//! | `ab` | the next item has these bytes |
//! | `-`, `empty`, `long` | there is no next item; it has no bytes; it is over the limit |
//! | `$ab`, `$-` | the last item, in any of these ways |
//! | `=ab`, `/2` | these bytes, or two segments, are held |
//! | `take_bytes 2 ab`, `split_to 2 ab in 1` | the first two bytes are taken off, and are these |
//! | `advance 2` | they are dropped |
//! | `read_item ab` | reads the next item of the input that comes with the row |
//! | `read_item fails`, `read_item gives up` | fails with the error of that input, or after too many reads |
//! | `read_from 2`, `read_from fails` | makes one read, of two bytes, or fails so |
//! | `input ab` | these bytes are left of the input |
//! | `room 4096 2` | sets the room of a read to 4,096 bytes, and makes one read, of two bytes |
//! | `reads 2` | it was read from twice |
//! | `rooms 512 4096` | of the buffers for a read, the shortest and the longest have such lengths |
use super::made::{Made, made_reader};
use crate::cases::fixtures::assert_row;
use crate::cases::fixtures::readers::SlowReader;
use crate::cases::fixtures::rows::{CalledByRow, Refusal, is_row_right, named_row_call};
use crate::cases::fixtures::signs::{
    are_bytes_of_signs, are_parts_of_signs, are_segments_of_signs, is_block_of_signs,
    is_number_of_signs, meant_by_signs,
};
use bytes::Bytes;
use bytes_utils::{Reason, SegmentedBuf};
use bytes_utils_codec::decode::{Framed, ReadItemError};
use std::alloc::{AllocError, Global};
use std::io::{self, ErrorKind, Print};
use std::process::Abort;

/// A reader on which calls are made, with what they push and read.
#[derive(Drop)]
struct DecodeRun<'r, 'p, 'i, D: Made> {
    alloc: Global,
    reader: &'r mut Framed<D>,
    name: &'static str,
    piece: &'p Bytes,
    input: SlowReader<'i>,
}

/// Whether the bytes of an item are as wanted.
fn are_bytes_of_decode_row(bytes: &Bytes, want: &str) -> bool {
    match want {
        "empty" => bytes.is_empty(),
        _ => is_block_of_signs(bytes, want),
    }
}

/// Whether an item is as wanted.
fn is_item_of_decode_row<D: Made>(item: Option<D::Item>, want: &str) -> bool {
    match item {
        Some(item) => are_bytes_of_decode_row(&D::into_bytes(item), want),
        None => want == "-",
    }
}

/// Whether an item is as wanted. Fails with its name if it was refused.
fn is_named_item_of_decode_row<D: Made>(
    (name, at): (&'static str, &'static str),
    item: Result<Option<D::Item>, Reason>,
    want: &str,
) -> Result<bool, Refusal> {
    match item {
        Ok(item) => Ok(is_item_of_decode_row::<D>(item, want)),
        Err(reason) => named_row_call(name, at, Err(reason)),
    }
}

/// Whether the first bytes are as wanted, in one block.
fn is_front_of_decode_row(front: &Result<Bytes, Reason>, want: &str) -> Result<bool, Refusal> {
    match front {
        Ok(front) => Ok(is_block_of_signs(front, want)),
        Err(reason) => named_row_call("Framed::", "take_bytes", Err(*reason)),
    }
}

/// Whether the first bytes are as wanted, in segments.
fn are_parts_of_decode_row(
    front: Result<SegmentedBuf<Bytes>, Reason>,
    want: &str,
) -> Result<bool, Refusal> {
    match front {
        Ok(front) => Ok(are_parts_of_signs(front, want)),
        Err(reason) => named_row_call("Framed::", "split_to", Err(reason)),
    }
}

impl<D: Made> DecodeRun<'_, '_, '_, D> {
    /// These bytes in a block of their own, or else a share of the piece.
    fn new_piece(&self, bytes: Option<&str>) -> Result<Bytes, AllocError> {
        match bytes {
            Some(bytes) => Bytes::copy_from_slice(self.alloc, meant_by_signs(bytes).as_slice()),
            None => self.piece.clone(),
        }
    }

    /// Pushes these bytes as a piece of their own, or else a share of the piece.
    fn push(&mut self, bytes: Option<&str>) -> Result<bool, Reason> {
        let piece = self.new_piece(bytes)?;
        self.reader.push(piece)?;
        Ok(true)
    }

    /// Pushes a copy of these bytes.
    fn push_copy(&mut self, bytes: &[u8]) -> Result<bool, Refusal> {
        named_row_call("Framed::", "push_slice", self.reader.push_slice(bytes))?;
        Ok(true)
    }

    /// Takes bytes off the front, or drops them.
    fn take(&mut self, name: &str, rest: &str) -> Result<bool, Refusal> {
        let (len, want) = rest.split_once(' ').unwrap_or((rest, ""));
        let len = len.parse().unwrap_or(usize::MAX);
        if len > self.reader.remaining() {
            return Ok(false);
        }
        match name {
            "take_bytes" => is_front_of_decode_row(&self.reader.take_bytes(len), want),
            "split_to" => are_parts_of_decode_row(self.reader.split_to(len), want),
            "advance" => {
                self.reader.advance(len);
                Ok(true)
            }
            _ => Ok(false),
        }
    }

    /// Reads an item. A refused call is named by where it was refused.
    fn read_item(&mut self, want: &str) -> Result<bool, Refusal> {
        match self.reader.read_item(&mut self.input) {
            Ok(item) => Ok(is_item_of_decode_row::<D>(item, want)),
            Err(ReadItemError::TooManyReads) => Ok(want == "gives up"),
            Err(ReadItemError::Decoder(reason)) => named_row_call(
                "read_item",
                " at an item",
                Err(reason),
            ),
            Err(ReadItemError::Io(error)) => self.failed("read_item", &error, want),
        }
    }

    /// Makes one read.
    fn read_from(&mut self, want: &str) -> Result<bool, Refusal> {
        match self.reader.read_from(&mut self.input) {
            Ok(count) => Ok(is_number_of_signs(want, count)),
            Err(error) => self.failed("Framed::read_from", &error, want),
        }
    }

    /// Whether a failed read is as wanted. Fails if it was refused memory.
    fn failed(&self, name: &'static str, error: &io::Error, want: &str) -> Result<bool, Refusal> {
        match error.kind() {
            ErrorKind::OutOfMemory => named_row_call(name, "", Err(Reason::OutOfMemory)),
            kind => Ok(want == "fails" && kind == self.input.kind),
        }
    }

    /// Makes a call whose name is its first character.
    fn make_signed(&mut self, call: &str, rest: &str) -> Result<bool, Refusal> {
        match call.bytes().next() {
            Some(b'+') => self.push_copy(meant_by_signs(rest).as_slice()),
            Some(b'$') => {
                let name = (self.name, " at last_item");
                is_named_item_of_decode_row::<D>(name, self.reader.last_item(), rest)
            }
            Some(b'=') => {
                let held = self.reader.pieces().as_segmented();
                Ok(are_segments_of_signs(held, rest))
            }
            Some(b'/') => Ok(is_number_of_signs(rest, self.reader.pieces().segments())),
            _ => self.make_unsigned(call),
        }
    }

    /// Pushes the piece, or takes the next item.
    fn make_unsigned(&mut self, call: &str) -> Result<bool, Refusal> {
        match call {
            "&" => named_row_call("Framed::", "push", self.push(None)),
            "copy" => self.push_copy(self.piece.as_slice()),
            _ => {
                let name = (self.name, " at next_item");
                is_named_item_of_decode_row::<D>(name, self.reader.next_item(), call)
            }
        }
    }

    /// Makes a call whose name is a word.
    fn make_named(&mut self, name: &str, rest: &str) -> Result<bool, Refusal> {
        let (shortest, longest) = self.input.rooms;
        match (name, rest.split_once(' ')) {
            ("own", _) => named_row_call("Framed::", "push", self.push(Some(rest))),
            ("read_item", _) => self.read_item(rest),
            ("read_from", _) => self.read_from(rest),
            ("room", Some((room, want))) => {
                self.reader
                    .set_read_room(room.parse().unwrap_or(usize::MAX));
                self.read_from(want)
            }
            ("input", _) => Ok(are_bytes_of_signs(self.input.rest, rest)),
            ("reads", _) => Ok(is_number_of_signs(rest, self.input.calls)),
            ("rooms", Some((first, last))) => {
                Ok(is_number_of_signs(first, shortest) && is_number_of_signs(last, longest))
            }
            _ => self.take(name, rest),
        }
    }
}

impl<D: Made> CalledByRow for DecodeRun<'_, '_, '_, D> {
    fn make(&mut self, call: &str) -> Result<bool, Refusal> {
        match call.split_once(' ') {
            Some((name, rest)) => self.make_named(name, rest),
            None => self.make_signed(call, call.get(1..).unwrap_or("")),
        }
    }

    fn bytes(&self) -> usize {
        self.reader
            .remaining()
            .saturating_add(self.input.rest.len())
    }
}

/// Makes calls on a reader, with this piece and this input. Returns whether they are right.
fn are_calls_right<D: Made, R: Abort + Print + AllocGlobal>(
    rt: &R,
    reader: &mut Framed<D>,
    name: &'static str,
    piece: &Bytes,
    input: SlowReader<'_>,
    calls: &str,
) -> bool {
    let mut run = DecodeRun {
        alloc: rt.alloc(),
        reader,
        name,
        piece,
        input,
    };
    is_row_right(rt, &mut run, calls)
}

/// Makes the calls of a row on a new reader. Returns whether it is right.
fn is_decode_row_right<D: Made, R: Abort + Print + AllocGlobal>(
    rt: &R,
    piece: &Bytes,
    input: SlowReader<'_>,
    row: &str,
) -> bool {
    let Some((kind, calls)) = row.split_once(": ") else {
        return false;
    };
    match made_reader::<D, R>(rt, kind) {
        Some((mut reader, name)) => are_calls_right(rt, &mut reader, name, piece, input, calls),
        None => false,
    }
}

/// Makes calls on a reader. Returns whether they are right.
pub(super) fn are_decode_calls_right<D: Made, R: Abort + Print + AllocGlobal>(
    rt: &R,
    reader: &mut Framed<D>,
    calls: &str,
) -> bool {
    let input = SlowReader::new(b"", 1);
    are_calls_right(rt, reader, "a reader", &Bytes::new(), input, calls)
}

/// Asserts each of the rows, with this piece.
pub(super) fn assert_decode_rows<D: Made, R: Abort + Print + AllocGlobal>(
    rt: &R,
    piece: &'static [u8],
    rows: &str,
) {
    let piece = Bytes::from_static(piece);
    for row in rows.lines() {
        let holds = is_decode_row_right::<D, R>(rt, &piece, SlowReader::new(b"", 1), row);
        assert_row(rt, row, holds);
    }
}

/// Asserts a row, and that it lets go of its piece in the end.
pub(super) fn assert_decode_row_lets_go<D: Made, R: Abort + Print + AllocGlobal>(
    rt: &R,
    piece: &[u8],
    row: &str,
) {
    let piece = Bytes::copy_from_slice(rt.alloc(), piece).expect(rt, "no memory");
    let holds = is_decode_row_right::<D, R>(rt, &piece, SlowReader::new(b"", 1), row);
    assert_row(rt, row, holds && piece.is_unique());
}

/// Asserts a row, with this input.
pub(super) fn assert_decode_row_reads<D: Made, R: Abort + Print + AllocGlobal>(
    rt: &R,
    input: SlowReader<'_>,
    row: &str,
) {
    let holds = is_decode_row_right::<D, R>(rt, &Bytes::new(), input, row);
    assert_row(rt, row, holds);
}
