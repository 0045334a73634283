//! Rows of calls on a `SegmentedBuf` of `Bytes`, and what is held after each.
//!
//! A row is calls with `, ` between them. A call is its name, bytes, what is held then, and what else
//! is wanted. The last two may be left out. `push*20` is twenty such calls. The buffer is empty at
//! first, and at the end its segments are taken out one by one, and compared once more.
//!
//! A call whose memory is refused prints its name, and is made again. Nothing has changed before that;
//! only `extend` and the calls on a queue keep what they have moved.
//!
//! | name | bytes | |
//! |---|---|---|
//! | `from_vec`, `from_deque`, `from_iter` | `ab\|c` | a buffer of these pieces takes the place of the one before |
//! | `push`, `try_push`, `prepend` | `ab` | a piece is put in |
//! | `extend`, `append` | `ab\|c` | pieces are put in |
//! | `drain_into_queue`, `append_queue` | `abc` | all bytes, which are these, are moved to a queue, or back from it |
//! | `keep` | `abc` | nothing is done: these bytes are held |
//! | `copy_out` | `ab` | these bytes come out |
//! | `advance` | `ab` | they are passed |
//! | `split_to`, `split_off` | `ab\|c` | these segments come off |
//! | `rejoin` | `-` | the segments that came last are appended |
//! | `prefix`, `try_clone` | `ab\|c` | these segments come |
//! | `slice` | `3/ab\|c` | the same of those from place 3 on |
//! | `peek_bytes` | `ab` | these bytes come |
//! | `copy_range`, `read_range` | `3/ab` | the same of those from place 3 on |
//! | `peek` | `ab` | `peek` shows these bytes, and `starts_with` finds them |
//! | `holds_at`, `byte_at` | `3/ab` | these bytes, or the first of them, are at place 3 |
//! | `segment` | `2/ab` | the segment after two others has these bytes |
//!
//! Bytes are letters, `-` for none, or `x*300` for three hundred times that letter. An empty text
//! between two signs `|` is an empty piece.
//!
//! | held | |
//! |---|---|
//! | `ab\|c` | these segments |
//! | `-` | none |
//! | `#20` | twenty segments |
//! | `.`, or nothing | the same as before |
//!
//! | wanted | |
//! |---|---|
//! | `20 pieces` | twenty segments came |
//! | `few places` | one came, in a deque with room for fewer than a hundred |
//! | `borrowed`, `owned` | the range is borrowed, or a copy |
use super::packed::rows::packed_row_means;
use crate::cases::fixtures::{assert_row, bytes_of_texts, fills, is_next, put, skip, take_out};
use bytes::{Buf, Bytes, BytesQueue};
use bytes_utils_buf::Reason;
use bytes_utils_buf::segmented::SegmentedBuf;
use std::alloc::Global;
use std::borrow::CowSlice;
use std::collections::VecDeque;
use std::process::Abort;

/// The number of bytes that a word means.
fn segmented_row_len(word: &'static str) -> usize {
    let mut len = 0_usize;
    for text in word.split('|') {
        len = len.saturating_add(packed_row_means(text).unwrap_or(b"").len());
    }
    len
}

/// Prints which call was refused, and returns whether it was for memory.
fn segmented_row_refuses(rt: &impl Print, name: &str, reason: Reason) -> bool {
    println!(rt; "refused SegmentedBuf::{name}").is_ok() && reason == Reason::OutOfMemory
}

/// Whether the chunks of a buffer are these texts, or, if not `are_all`, only the first of them.
fn segmented_row_has_chunks(buf: &SegmentedBuf<Bytes>, texts: &str, are_all: bool) -> bool {
    if texts == "-" {
        return buf.segments() == 0 && buf.remaining() == 0 && buf.chunk().is_empty();
    }
    let mut wanted = texts.split('|');
    for chunk in buf.chunks() {
        if !is_next(&mut wanted, chunk) {
            return false;
        }
    }
    wanted.next().is_none() == are_all
}

/// Whether these texts are held, or as many segments.
fn segmented_row_is_held(buf: &SegmentedBuf<Bytes>, held: &str) -> bool {
    match held.strip_prefix('#') {
        Some(count) => count.parse() == Ok(buf.segments()),
        None => segmented_row_has_chunks(buf, held, true),
    }
}

/// Whether the segments are these texts as they are taken out. A number of segments isn't compared.
fn segmented_row_yields(buf: SegmentedBuf<Bytes>, held: &str) -> bool {
    if held.starts_with('#') || held == "-" {
        return held != "-" || buf.into_inner().is_empty();
    }
    let mut wanted = held.split('|');
    for segment in buf {
        if !is_next(&mut wanted, segment.as_slice()) {
            return false;
        }
    }
    wanted.next().is_none()
}

/// A buffer, what came of the last call, and what is left outside.
#[derive(Drop)]
struct SegmentedRow {
    buf: SegmentedBuf<Bytes>,
    /// What is held.
    held: &'static str,
    queue: BytesQueue,
    /// The segments that came.
    pieces: VecDeque<Bytes>,
    is_borrowed: bool,
}

/// Whether a call did what it should, or, as an error, whether it was refused as it should be.
type Made = Result<bool, bool>;

/// Compares the bytes that came of a call.
fn segmented_row_gives(
    rt: &impl Print,
    name: &str,
    answer: Result<Bytes, Reason>,
    word: &'static str,
) -> Made {
    match answer {
        Ok(piece) => Ok(packed_row_means(word) == Some(piece.as_slice())),
        Err(reason) => Err(segmented_row_refuses(rt, name, reason)),
    }
}

impl SegmentedRow {
    /// Puts a piece in, which comes back if it is refused.
    fn put(&mut self, rt: &impl Print, name: &str, bytes: &'static [u8]) -> Made {
        if !self.buf.fits(bytes.len()) {
            return Ok(false);
        }
        let piece = Bytes::from_static(bytes);
        let answer = match name {
            "push" => self.buf.push(piece),
            "prepend" => self.buf.prepend(piece),
            _ => self.buf.try_push(piece),
        };
        match answer {
            Ok(()) => Ok(true),
            Err(refused) => {
                let is_back = refused.back.as_slice() == bytes;
                Err(segmented_row_refuses(rt, name, refused.reason) & is_back)
            }
        }
    }

    /// Makes a buffer of pieces.
    fn collect(
        &mut self,
        rt: &(impl Print + Alloc<A = Global>),
        name: &str,
        bufs: Vec<Bytes>,
    ) -> Made {
        let made = match name {
            "from_vec" => SegmentedBuf::from_vec(rt.alloc(), bufs).ok(),
            "from_deque" => SegmentedBuf::from_deque(VecDeque::from_vec(bufs)).ok(),
            _ => match SegmentedBuf::from_iter(rt.alloc(), bufs.into_iter()) {
                Ok(buf) => Some(buf),
                Err(refused) => return Err(segmented_row_refuses(rt, name, refused.reason)),
            },
        };
        match made {
            Some(buf) => self.buf = buf,
            None => return Ok(false),
        }
        Ok(true)
    }

    /// Appends pieces to a buffer that holds none. Those before a refused one are held then, and that
    /// and the others can be appended.
    fn extend(&mut self, rt: &impl Print, bufs: Vec<Bytes>, word: &str) -> bool {
        let mut bufs = bufs.into_iter();
        match self.buf.extend(bufs.by_ref()) {
            Ok(()) => true,
            Err(refused) => {
                segmented_row_refuses(rt, "extend", refused.reason)
                    & segmented_row_has_chunks(&self.buf, word, false)
                    & put(&mut self.buf, refused.back)
                    & self.buf.extend(bufs).is_ok()
            }
        }
    }

    /// Appends segments, which come back if they are refused.
    fn append(&mut self, rt: &impl Print, other: SegmentedBuf<Bytes>, word: &str) -> Made {
        if !self.buf.fits(other.remaining()) {
            return Ok(false);
        }
        match self.buf.append(other) {
            Ok(()) => Ok(true),
            Err(refused) => {
                let is_back = fills(&refused.back, 10, word);
                Err(segmented_row_refuses(rt, "append", refused.reason) & is_back)
            }
        }
    }

    /// Makes a call that gathers pieces. If there is no memory for these, it is made again.
    fn gathers(
        &mut self,
        rt: &(impl Print + Alloc<A = Global>),
        name: &str,
        word: &'static str,
    ) -> Made {
        let Ok(bufs) = bytes_of_texts(rt.alloc(), word) else {
            return Err(true);
        };
        match name {
            "extend" => Ok(self.extend(rt, bufs, word)),
            "append" => match SegmentedBuf::from_vec(rt.alloc(), bufs) {
                Ok(other) => self.append(rt, other, word),
                Err(_) => Ok(false),
            },
            _ => self.collect(rt, name, bufs),
        }
    }

    fn rejoin(&mut self, rt: &(impl Print + Alloc<A = Global>)) -> Made {
        let pieces = std::mem::replace(&mut self.pieces, VecDeque::new(rt.alloc()));
        match SegmentedBuf::from_deque(pieces) {
            Ok(other) => self.append(rt, other, "-"),
            Err(_) => Ok(false),
        }
    }

    fn move_all(&mut self, is_drained: bool) -> Result<(), Reason> {
        if !self.buf.fits(self.queue.len()) {
            return Err(Reason::TooLong);
        }
        if is_drained {
            self.buf.drain_into_queue(&mut self.queue)
        } else {
            self.buf.append_queue(&mut self.queue)
        }
    }

    /// Whether the first of these bytes were moved to the queue or from it, and the others are left.
    /// If `are_all`, no others are, and else some are.
    fn are_moved(&self, is_drained: bool, bytes: &[u8], are_all: bool) -> bool {
        let queued = self.queue.len().min(bytes.len());
        let held = bytes.len() - queued;
        let (left, wanted) = if is_drained {
            (held, &bytes[queued..])
        } else {
            (queued, &bytes[..held])
        };
        self.queue.len() == queued && self.buf.eq_bytes(wanted) && (left == 0) == are_all
    }

    /// Moves all bytes to the queue or from it. Those before a refusal are moved then.
    fn moves(&mut self, rt: &impl Print, name: &str, bytes: &[u8]) -> bool {
        let is_drained = name == "drain_into_queue";
        if let Err(reason) = self.move_all(is_drained) {
            return segmented_row_refuses(rt, name, reason)
                && self.are_moved(is_drained, bytes, false)
                && self.move_all(is_drained).is_ok();
        }
        self.are_moved(is_drained, bytes, true)
    }

    /// Keeps the segments that came of a call, and compares them.
    fn pieces_come(
        &mut self,
        rt: &impl Print,
        name: &str,
        answer: Result<SegmentedBuf<Bytes>, Reason>,
        word: &'static str,
    ) -> Made {
        match answer {
            Ok(pieces) => {
                let is_right = if word.contains('*') {
                    pieces.eq_bytes(packed_row_means(word).unwrap_or(b"-"))
                } else {
                    segmented_row_has_chunks(&pieces, word, true)
                };
                self.pieces = pieces.into_inner();
                Ok(is_right)
            }
            Err(reason) => Err(segmented_row_refuses(rt, name, reason)),
        }
    }

    /// Makes a call that takes bytes off.
    fn takes(
        &mut self,
        rt: &(impl Print + Alloc<A = Global>),
        name: &str,
        word: &'static str,
    ) -> Made {
        let (alloc, len, all) = (rt.alloc(), segmented_row_len(word), self.buf.remaining());
        if len > all {
            return Ok(false);
        }
        let answer = match name {
            "advance" => return Ok(skip(&mut self.buf, len)),
            "split_to" => self.buf.split_to(alloc, len),
            "split_off" => self.buf.split_off(alloc, all - len),
            _ => {
                let piece = take_out(alloc, &mut self.buf, len).unwrap_or(Bytes::new());
                return Ok(packed_row_means(word) == Some(piece.as_slice()));
            }
        };
        self.pieces_come(rt, name, answer, word)
    }

    /// Makes a call that returns bytes which stay.
    fn shows(
        &mut self,
        rt: &(impl Print + Alloc<A = Global>),
        name: &str,
        (start, word): (usize, &'static str),
    ) -> Made {
        let (alloc, end) = (rt.alloc(), start.saturating_add(segmented_row_len(word)));
        if start > end || end > self.buf.remaining() {
            return Ok(false);
        }
        let answer = match name {
            "try_clone" => self.buf.try_clone(),
            "prefix" => self.buf.prefix(alloc, end),
            "slice" => self.buf.slice(alloc, start..end),
            "peek_bytes" => {
                let answer = self.buf.peek_bytes(alloc, end);
                return segmented_row_gives(rt, name, answer, word);
            }
            _ => {
                let answer = self.buf.copy_range(alloc, start..end);
                return segmented_row_gives(rt, name, answer, word);
            }
        };
        self.pieces_come(rt, name, answer, word)
    }

    fn read_range(
        &mut self,
        rt: &(impl Print + Alloc<A = Global>),
        start: usize,
        bytes: &[u8],
    ) -> Made {
        let end = start.saturating_add(bytes.len());
        if start > end || end > self.buf.remaining() {
            return Ok(false);
        }
        match self.buf.read_range(rt.alloc(), start..end) {
            Ok(range) => {
                let is_right = range.as_slice() == bytes;
                let is_borrowed = matches!(&range, CowSlice::Borrowed(_));
                drop(range);
                self.is_borrowed = is_borrowed;
                Ok(is_right)
            }
            Err(reason) => Err(segmented_row_refuses(rt, "read_range", reason)),
        }
    }

    /// Whether these bytes are seen where they are.
    fn sees(&self, name: &str, start: usize, bytes: &[u8]) -> bool {
        let mut table = [b'-'; 10];
        let len = bytes.len().min(10);
        match name {
            "peek" => {
                self.buf.peek(&mut table[..len]) == len
                    && bytes == &table[..len]
                    && self.buf.starts_with(bytes)
            }
            "segment" => self.buf.segment(start) == Some(bytes),
            "byte_at" => self.buf.byte_at(start) == bytes.first().copied(),
            "holds_at" => self.buf.holds_at(start, bytes),
            _ => name == "keep" && self.buf.eq_bytes(bytes) && self.buf.remaining() == bytes.len(),
        }
    }

    fn make(
        &mut self,
        rt: &(impl Print + Alloc<A = Global>),
        name: &str,
        (start, word): (usize, &'static str),
    ) -> Made {
        let bytes = packed_row_means(word).unwrap_or(b"");
        match name {
            "from_vec" | "from_deque" | "from_iter" | "extend" | "append" => {
                self.gathers(rt, name, word)
            }
            "push" | "try_push" | "prepend" => self.put(rt, name, bytes),
            "drain_into_queue" | "append_queue" => Ok(self.moves(rt, name, bytes)),
            "rejoin" => self.rejoin(rt),
            "copy_out" | "advance" | "split_to" | "split_off" => self.takes(rt, name, word),
            "prefix" | "try_clone" | "slice" | "peek_bytes" | "copy_range" => {
                self.shows(rt, name, (start, word))
            }
            "read_range" => self.read_range(rt, start, bytes),
            _ => Ok(self.sees(name, start, bytes)),
        }
    }

    /// Makes a call, and again if it is refused. Returns whether it was right.
    fn call(
        &mut self,
        rt: &(impl Print + Alloc<A = Global>),
        name: &str,
        word: &'static str,
    ) -> bool {
        let (start, word) = match word.split_once('/') {
            Some((start, word)) => (start.parse().unwrap_or(usize::MAX), word),
            None => (0, word),
        };
        if name != "rejoin" {
            self.pieces = VecDeque::new(rt.alloc());
        }
        match self.make(rt, name, (start, word)) {
            Ok(is_right) => is_right,
            Err(is_lawful) => {
                is_lawful
                    && segmented_row_is_held(&self.buf, self.held)
                    && self.make(rt, name, (start, word)) == Ok(true)
            }
        }
    }

    /// Whether what is wanted besides is so.
    fn is_so(&self, wanted: &str) -> bool {
        match wanted {
            "" => true,
            "few places" => self.pieces.len() == 1 && self.pieces.capacity() < 100,
            "borrowed" => self.is_borrowed,
            "owned" => !self.is_borrowed,
            _ => match wanted.strip_suffix(" pieces") {
                Some(count) => count.parse() == Ok(self.pieces.len()),
                None => false,
            },
        }
    }

    /// Makes a call of a row, and returns whether it was right.
    fn is_right(&mut self, rt: &(impl Print + Alloc<A = Global>), call: &'static str) -> bool {
        let mut words = call.splitn(4, ' ');
        let (Some(name), Some(word)) = (words.next(), words.next()) else {
            return false;
        };
        let (name, times) = name.split_once('*').unwrap_or((name, "1"));
        let mut is_made = times.parse::<u32>().is_ok();
        for _ in 0..times.parse().unwrap_or(0_u32) {
            is_made = is_made && self.call(rt, name, word);
        }
        self.held = match words.next().unwrap_or(".") {
            "." => self.held,
            held => held,
        };
        is_made
            && segmented_row_is_held(&self.buf, self.held)
            && self.is_so(words.next().unwrap_or(""))
    }

    fn are_right(&mut self, rt: &(impl Print + Alloc<A = Global>), calls: &'static str) -> bool {
        for call in calls.split(", ") {
            if !self.is_right(rt, call) {
                return false;
            }
        }
        true
    }
}

/// Whether a row is right.
fn is_segmented_row(rt: &(impl Print + Alloc<A = Global>), row: &'static str) -> bool {
    let mut held = SegmentedRow {
        buf: SegmentedBuf::new(rt.alloc()),
        held: "-",
        queue: BytesQueue::new(rt.alloc()),
        pieces: VecDeque::new(rt.alloc()),
        is_borrowed: false,
    };
    let is_right = held.are_right(rt, row);
    let SegmentedRow { buf, held, .. } = held;
    segmented_row_yields(buf, held) & is_right
}

/// Fails the test unless each row is right.
pub(crate) fn assert_segmented_rows(
    rt: &(impl Abort + Print + Alloc<A = Global>),
    rows: &'static str,
) {
    for row in rows.lines() {
        assert_row(rt, row, Some(is_segmented_row(rt, row)));
    }
}
