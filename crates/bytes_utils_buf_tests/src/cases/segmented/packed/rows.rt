//! Rows of calls on a `PackedBuf`, and what is held after each.
//!
//! A row is a threshold, `: `, and calls with `, ` between them. A call is its name, the bytes that
//! it adds or takes off, the number of segments that are held then, and what else is wanted. The
//! held bytes are compared after each call. A row may end with ` = ` and an end.
//!
//! A call whose memory is refused prints its name. It has to change nothing, and is made again.
//!
//! | name | |
//! |---|---|
//! | `push` | a piece is pushed |
//! | `copy` | `push_slice` |
//! | `read` | one call of `read_from`, which reads all of the bytes |
//! | `wide` | the same after `set_read_room` of 10,000 bytes |
//! | `reads` | calls of `read_from`, until one reads nothing since the reader has ended |
//! | `take`, `split` | `take_bytes`, `split_to` |
//! | `advance` | the bytes are passed |
//! | `push/3` | the call is made for each three of the bytes |
//!
//! | bytes | |
//! |---|---|
//! | `ab` | these |
//! | `-` | none |
//! | `x*300` | three hundred times this letter, `x` or `y` |
//!
//! | wanted | |
//! |---|---|
//! | `3 pieces` | the call took off three |
//! | another text | the name that is printed if the call is refused; without it the whole call is |
//!
//! | end | |
//! |---|---|
//! | `blocks 20 of 64, 1 of 64` | the segments are blocks of 20 bytes and one, each with room for at most 64 |
//! | `shared ab\|c` | `into_shared` returns these segments |
//! | `shared 20 of 64` | `into_shared` returns twenty segments, of 64 bytes in all |
//! | `segments ab\|c` | `into_shared` of the held segments returns these |
use crate::cases::fixtures::refusals::{prints_buffer_refusal, reports_buffer_refusal};
use crate::cases::fixtures::{assert_row, fills, long, skip};
use bytes::{Buf, Bytes, BytesMut};
use bytes_utils_buf::segmented::{PackedBuf, SegmentedBuf};
use bytes_utils_buf::{EitherBuf, Reason};
use std::alloc::Global;
use std::collections::VecDeque;
use std::io::ErrorKind;
use std::process::Abort;

/// Whether these bytes are unread, and no others.
pub(super) fn packed_row_holds(buf: &PackedBuf, bytes: &[u8]) -> bool {
    buf.remaining() == bytes.len() && buf.as_segmented().eq_bytes(bytes)
}

/// The bytes that a word of a row means.
pub(in crate::cases::segmented) fn packed_row_means(word: &'static str) -> Option<&'static [u8]> {
    let ys: &'static [u8] = &[b'y'; 1_000];
    match word.split_once('*') {
        Some(("x", count)) => long().get(..count.parse().ok()?),
        Some((_, count)) => ys.get(..count.parse().ok()?),
        None if word == "-" => Some(b""),
        None => Some(word.as_bytes()),
    }
}

/// Reads a text by one call. Returns whether all of it was read, or, as an error, whether only memory
/// was refused, and nothing was read.
fn read_by_packed_row(alloc: Global, buf: &mut PackedBuf, mut text: &[u8]) -> Result<bool, bool> {
    let len = text.len();
    match buf.read_from(alloc, &mut text) {
        Ok(count) => Ok(count == len && text.is_empty()),
        Err(error) => Err(error.kind() == ErrorKind::OutOfMemory && text.len() == len),
    }
}

/// Reads a text until a call reads nothing. Returns whether that was at its end, and each call returned
/// how many bytes it read.
fn reads_by_packed_row(alloc: Global, buf: &mut PackedBuf, mut text: &[u8]) -> bool {
    for _ in 0..=text.len() {
        let len = text.len();
        match buf.read_from(alloc, &mut text) {
            Ok(count) if text.len().checked_add(count) != Some(len) => return false,
            Ok(0) => return len == 0,
            Ok(_) => {}
            Err(_) => return false,
        }
    }
    false
}

/// A buffer, the bytes that it was given, and those that it gave.
#[derive(Drop)]
pub(super) struct PackedRow {
    pub buf: PackedBuf,
    given: Vec<u8>,
    /// How many of the given bytes were taken off.
    read: usize,
    /// How many pieces came.
    pieces: usize,
}

impl PackedRow {
    pub(super) fn new(alloc: Global, threshold: usize, given: Vec<u8>) -> PackedRow {
        PackedRow {
            buf: PackedBuf::new(alloc, threshold),
            given,
            read: 0,
            pieces: 0,
        }
    }

    /// Pushes a piece. The error is whether only memory was refused, and the piece came back.
    fn push(&mut self, alloc: Global, piece: Bytes, bytes: &[u8]) -> Result<bool, bool> {
        match self.buf.push(alloc, piece) {
            Ok(()) => Ok(true),
            Err(refused) => {
                let is_back = refused.back.as_slice() == bytes;
                Err(is_back & (refused.reason == Reason::OutOfMemory))
            }
        }
    }

    fn take(&mut self, alloc: Global, bytes: &[u8]) -> Result<bool, bool> {
        if bytes.len() > self.buf.remaining() {
            return Ok(false);
        }
        match self.buf.take_bytes(alloc, bytes.len()) {
            Ok(taken) => Ok(taken.as_slice() == bytes),
            Err(reason) => Err(reason == Reason::OutOfMemory),
        }
    }

    fn split(&mut self, alloc: Global, bytes: &[u8]) -> Result<bool, bool> {
        if bytes.len() > self.buf.remaining() {
            return Ok(false);
        }
        match self.buf.split_to(alloc, bytes.len()) {
            Ok(front) => {
                self.pieces = front.segments();
                Ok(front.eq_bytes(bytes))
            }
            Err(reason) => Err(reason == Reason::OutOfMemory),
        }
    }

    /// Makes a call. Returns whether it did what it should, or, as an error, whether only memory was
    /// refused.
    fn make(&mut self, alloc: Global, name: &str, bytes: &'static [u8]) -> Result<bool, bool> {
        match name {
            "push" => self.push(alloc, Bytes::from_static(bytes), bytes),
            "copy" => match self.buf.push_slice(alloc, bytes) {
                Ok(()) => Ok(true),
                Err(reason) => Err(reason == Reason::OutOfMemory),
            },
            "read" => read_by_packed_row(alloc, &mut self.buf, bytes),
            "wide" => {
                self.buf.set_read_room(10_000);
                read_by_packed_row(alloc, &mut self.buf, bytes)
            }
            "reads" => Ok(reads_by_packed_row(alloc, &mut self.buf, bytes)),
            "take" => self.take(alloc, bytes),
            "split" => self.split(alloc, bytes),
            _ => Ok(name == "advance" && skip(&mut self.buf, bytes.len())),
        }
    }

    fn is_flat(&self) -> bool {
        self.read <= self.given.len() && packed_row_holds(&self.buf, &self.given[self.read..])
    }

    /// Makes a call, and again if it is refused. Returns whether it was right.
    pub(super) fn call(
        &mut self,
        rt: &(impl Print + Alloc<A = Global>),
        (name, bytes): (&str, &'static [u8]),
        printed: &str,
    ) -> bool {
        let is_made = match self.make(rt.alloc(), name, bytes) {
            Ok(is_right) => is_right,
            Err(is_lawful) => {
                prints_buffer_refusal(rt, printed)
                    && is_lawful
                    && self.is_flat()
                    && self.make(rt.alloc(), name, bytes) == Ok(true)
            }
        };
        if let "take" | "split" | "advance" = name {
            self.read = self.read.saturating_add(bytes.len());
            return is_made;
        }
        is_made && self.given.extend_from_slice(bytes).is_ok()
    }

    /// The same for each `len` of the bytes.
    pub(super) fn calls(
        &mut self,
        rt: &(impl Print + Alloc<A = Global>),
        (name, bytes): (&str, &'static [u8]),
        printed: &str,
        len: usize,
    ) -> bool {
        if len == 0 {
            return false;
        }
        for part in bytes.chunks(len) {
            if !self.call(rt, (name, part), printed) {
                return false;
            }
        }
        true
    }

    /// Whether what is wanted of the pieces is so.
    fn is_so(&self, wanted: &str) -> bool {
        match wanted.strip_suffix(" pieces") {
            Some(count) => count.parse() == Ok(self.pieces),
            None => true,
        }
    }

    /// Makes a call of a row. Returns whether it was right, or `None` if it has too few words.
    fn is_right(
        &mut self,
        rt: &(impl Print + Alloc<A = Global>),
        call: &'static str,
    ) -> Option<bool> {
        let mut words = call.splitn(4, ' ');
        let (name, bytes) = (words.next()?, packed_row_means(words.next()?)?);
        let segments: usize = words.next()?.parse().ok()?;
        let wanted = words.next().unwrap_or(call);
        let is_made = match name.split_once('/') {
            Some((name, len)) => self.calls(rt, (name, bytes), wanted, len.parse().ok()?),
            None => self.call(rt, (name, bytes), wanted),
        };
        let is_left = self.buf.segments() == segments && self.is_flat();
        Some(is_made && is_left && self.is_so(wanted))
    }

    fn are_right(&mut self, rt: &(impl Print + Alloc<A = Global>), calls: &'static str) -> bool {
        for call in calls.split(", ") {
            if self.is_right(rt, call) != Some(true) {
                return false;
            }
        }
        true
    }

    /// Whether the buffer ends as this says.
    fn ends(self, rt: &(impl Print + Alloc<A = Global>), end: &str) -> bool {
        let (name, wanted) = end.split_once(' ').unwrap_or((end, ""));
        match name {
            "blocks" => {
                packed_row_has_blocks(&self.buf.into_segmented().into_inner(), wanted) == Some(true)
            }
            "shared" => is_packed_row_shared(&packed_row_shares(rt, self.buf, wanted), wanted),
            "segments" => is_packed_row_shared(
                &packed_row_shares_segments(rt, self.buf, wanted),
                wanted,
            ),
            _ => end.is_empty(),
        }
    }
}

/// Whether a segment is a block of this number of bytes, with room for at most that one.
fn packed_row_has_block(segment: &EitherBuf<Bytes, BytesMut>, block: &str) -> Option<bool> {
    let (len, most) = block.split_once(" of ")?;
    let (len, most): (usize, usize) = (len.parse().ok()?, most.parse().ok()?);
    Some(match segment {
        EitherBuf::Left(_) => false,
        EitherBuf::Right(block) => block.len() == len && block.capacity() <= most,
    })
}

fn packed_row_has_blocks(
    segments: &VecDeque<EitherBuf<Bytes, BytesMut>>,
    blocks: &str,
) -> Option<bool> {
    let mut wanted = blocks.split(", ");
    for segment in segments.iter() {
        if !packed_row_has_block(segment, wanted.next()?)? {
            return Some(false);
        }
    }
    Some(wanted.next().is_none())
}

/// The segments, each as shared bytes. If they are refused, the buffer has to come back with these
/// texts, and becomes shared then.
fn packed_row_shares(
    rt: &(impl Print + Alloc<A = Global>),
    buf: PackedBuf,
    texts: &str,
) -> Option<SegmentedBuf<Bytes>> {
    match buf.into_shared(rt.alloc()) {
        Ok(all) => Some(all),
        Err(refused) => {
            let is_lawful = reports_buffer_refusal(rt, "PackedBuf::into_shared", refused.reason)
                && fills(&refused.back, 10, texts);
            let all = refused.back.into_shared(rt.alloc()).ok();
            if is_lawful { all } else { None }
        }
    }
}

/// The same of the held segments alone.
fn packed_row_shares_segments(
    rt: &(impl Print + Alloc<A = Global>),
    buf: PackedBuf,
    texts: &str,
) -> Option<SegmentedBuf<Bytes>> {
    match buf.into_segmented().into_shared(rt.alloc()) {
        Ok(all) => Some(all),
        Err(refused) => {
            let is_lawful = reports_buffer_refusal(rt, "SegmentedBuf::into_shared", refused.reason)
                && fills(&refused.back, 10, texts);
            let all = refused.back.into_shared(rt.alloc()).ok();
            if is_lawful { all } else { None }
        }
    }
}

/// Whether these segments were returned, or this number of them, with this number of bytes.
fn is_packed_row_shared(all: &Option<SegmentedBuf<Bytes>>, wanted: &str) -> bool {
    let Some(all) = all else {
        return false;
    };
    match wanted.split_once(" of ") {
        Some((count, len)) => {
            count.parse() == Ok(all.segments()) && len.parse() == Ok(all.remaining())
        }
        None => fills(all, 10, wanted),
    }
}

/// Makes the calls of a row, and returns whether each was right. There is room for what is given.
fn is_packed_row(
    rt: &(impl Print + Alloc<A = Global>),
    given: Vec<u8>,
    row: &'static str,
) -> Option<bool> {
    let (threshold, calls) = row.split_once(": ")?;
    let (calls, end) = calls.split_once(" = ").unwrap_or((calls, ""));
    let mut packed = PackedRow::new(rt.alloc(), threshold.parse().ok()?, given);
    let is_right = packed.are_right(rt, calls);
    Some(packed.ends(rt, end) & is_right)
}

/// Fails the test unless each row is right. A row for whose bytes there is no memory is left out.
pub(crate) fn assert_packed_rows(
    rt: &(impl Abort + Print + Alloc<A = Global>),
    rows: &'static str,
) {
    for row in rows.lines() {
        if let Ok(given) = Vec::with_capacity(rt.alloc(), 101_000) {
            assert_row(rt, row, is_packed_row(rt, given, row));
        }
    }
}
