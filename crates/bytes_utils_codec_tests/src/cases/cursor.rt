//! Rows of calls of a cursor, on bytes in segments.
//!
//! | call | |
//! |---|---|
//! | `at 2`, `remaining 2` | two bytes were passed, or are unread |
//! | `peek a`, `peek none` | the next byte, or none |
//! | `starts_with ab`, `starts_with ab not` | the unread bytes start so, or don't |
//! | `advance 2` | passes two bytes |
//! | `tag ab passes`, `tag ab none`, `tag ab differs` | the next bytes are these, may become these, or are others |
//! | `line ab`, `line none` | the next line, or none |
//! | `rest ab in 2` | all unread bytes, in two segments |
//! | `find - 2`, `find - none` | the place of a hyphen |
//! | `take 2 ab`, `take 2 none` | the next two bytes, or not enough have come; `read` and `take_segments` alike |
//! | `take_until - ab`, `take_until - none` | what is before a hyphen; `take_to` and `read_until` alike |
//! | `take_until_within - 2 ab`, `take_until_within - 2 long` | the same, if it is at most two bytes |
//! | `take_u16 0102`, `take_u16 none` | the next integer, in hexadecimal; `take_array_3` and the others alike |
//!
//! Of bytes that are read, `&ab` are borrowed, and `*ab` are copied.
mod integers;
mod memory;

use crate::cases::fixtures::rows::{CalledByRow, Refusal, is_row_right, named_row_call};
use crate::cases::fixtures::signs::{
    are_bytes_of_signs, are_parts_of_signs, is_block_of_signs, is_number_of_signs,
    is_place_of_signs, meant_by_signs, sharing_of_signs,
};
use crate::cases::fixtures::{assert_row, in_blocks, in_segments};
use bytes::Bytes;
use bytes_utils::{Reason, SegmentedBuf, Str};
use bytes_utils_buf::contiguous::ContiguousBuf;
use bytes_utils_buf::segmented::PackedBuf;
use bytes_utils_codec::cursor::Cursor;
use bytes_utils_codec::decode::LineFault;
use std::borrow::CowSlice;
use std::io::Print;
use std::process::Abort;

/// A cursor on which calls are made.
#[derive(Drop)]
struct CursorRun<'a, B: ContiguousBuf + Drop> {
    cursor: Cursor<'a, B>,
}

/// What a call returned, or why not.
type Returned<T> = Result<Option<T>, Reason>;

/// Whether it is right that a call gave no bytes. Fails if it was refused.
fn is_not_given_by_cursor(
    name: &'static str,
    refused: Option<Reason>,
    want: &str,
) -> Result<bool, Refusal> {
    match refused {
        None => Ok(want == "none"),
        Some(Reason::TooLong) => Ok(want == "long"),
        Some(reason) => named_row_call("Cursor::", name, Err(reason)),
    }
}

/// Whether the bytes that a call took are as wanted.
fn is_taken_by_cursor(
    name: &'static str,
    taken: &Returned<Bytes>,
    want: &str,
) -> Result<bool, Refusal> {
    match taken {
        Ok(Some(bytes)) => Ok(is_block_of_signs(bytes, want)),
        Ok(None) => is_not_given_by_cursor(name, None, want),
        Err(reason) => is_not_given_by_cursor(name, Some(*reason), want),
    }
}

/// Whether these bytes were read as wanted.
fn are_read_bytes_of_signs(bytes: &CowSlice<'_, u8>, want: &str) -> bool {
    let (is_shared, want) = sharing_of_signs(want);
    let is_copied = !matches!(bytes, CowSlice::Borrowed(_));
    is_shared != Some(is_copied) && are_bytes_of_signs(bytes.as_slice(), want)
}

/// Whether the bytes that a call read are as wanted.
fn is_read_by_cursor(
    name: &'static str,
    read: &Returned<CowSlice<'_, u8>>,
    want: &str,
) -> Result<bool, Refusal> {
    match read {
        Ok(Some(bytes)) => Ok(are_read_bytes_of_signs(bytes, want)),
        Ok(None) => is_not_given_by_cursor(name, None, want),
        Err(reason) => is_not_given_by_cursor(name, Some(*reason), want),
    }
}

/// Whether the segments that were taken are as wanted.
fn are_segments_of_cursor(
    taken: Returned<SegmentedBuf<Bytes>>,
    want: &str,
) -> Result<bool, Refusal> {
    match taken {
        Ok(Some(parts)) => Ok(are_parts_of_signs(parts, want)),
        Ok(None) => is_not_given_by_cursor("take_segments", None, want),
        Err(reason) => is_not_given_by_cursor("take_segments", Some(reason), want),
    }
}

/// Whether all unread bytes are as wanted.
fn are_unread_of_cursor(
    unread: Result<SegmentedBuf<Bytes>, Reason>,
    want: &str,
) -> Result<bool, Refusal> {
    match unread {
        Ok(parts) => Ok(are_parts_of_signs(parts, want)),
        Err(reason) => named_row_call("Cursor::", "rest", Err(reason)),
    }
}

/// Whether the line that was taken is as wanted.
fn is_line_of_cursor(line: &Returned<Result<Str, LineFault>>, want: &str) -> Result<bool, Refusal> {
    match line {
        Ok(Some(Ok(text))) => Ok(are_bytes_of_signs(text.as_bytes(), want)),
        Ok(Some(Err(_))) => Ok(false),
        Ok(None) => is_not_given_by_cursor("line", None, want),
        Err(reason) => is_not_given_by_cursor("line", Some(*reason), want),
    }
}

/// The limit with which what is wanted may begin, and the rest of it.
fn limit_and_want(want: &str) -> (usize, &str) {
    let (most, within) = want.split_once(' ').unwrap_or(("", want));
    (most.parse().unwrap_or(0), within)
}

impl<B: ContiguousBuf + Drop> CursorRun<'_, B> {
    /// Takes or reads a number of bytes, or passes them.
    fn count(&mut self, name: &str, len: usize, want: &str) -> Result<bool, Refusal> {
        match name {
            "take" => is_taken_by_cursor("take", &self.cursor.take(len), want),
            "read" => is_read_by_cursor("read", &self.cursor.read(len), want),
            "take_segments" => are_segments_of_cursor(self.cursor.take_segments(len), want),
            _ if len > self.cursor.remaining() => Ok(false),
            _ => {
                self.cursor.advance(len);
                Ok(name == "advance")
            }
        }
    }

    /// Looks for a needle, and takes or reads what is before it.
    fn search(&mut self, name: &str, needle: &[u8], want: &str) -> Result<bool, Refusal> {
        match name {
            "find" => Ok(is_place_of_signs(self.cursor.find(needle), want)),
            "take_until" | "take_to" | "take_until_within" => self.take_before(name, needle, want),
            "read_until" | "read_until_within" => self.read_before(name, needle, want),
            _ => Ok(false),
        }
    }

    /// Takes what is before a needle.
    fn take_before(&mut self, name: &str, needle: &[u8], want: &str) -> Result<bool, Refusal> {
        let (most, within) = limit_and_want(want);
        if needle.is_empty() {
            return Ok(false);
        }
        let (name, taken, want) = match name {
            "take_until" => ("take_until", self.cursor.take_until(needle), want),
            "take_to" => ("take_to", self.cursor.take_to(needle), want),
            _ => {
                let taken = self.cursor.take_until_within(needle, most);
                ("take_until_within", taken, within)
            }
        };
        is_taken_by_cursor(name, &taken, want)
    }

    /// Reads what is before a needle.
    fn read_before(&mut self, name: &str, needle: &[u8], want: &str) -> Result<bool, Refusal> {
        let (most, within) = limit_and_want(want);
        if needle.is_empty() {
            return Ok(false);
        }
        let (name, read, want) = match name {
            "read_until" => ("read_until", self.cursor.read_until(needle), want),
            _ => {
                let read = self.cursor.read_until_within(needle, most);
                ("read_until_within", read, within)
            }
        };
        is_read_by_cursor(name, &read, want)
    }

    /// Takes or reads bytes, or passes them.
    fn take_part(&mut self, name: &str, rest: &str) -> Result<bool, Refusal> {
        let (argument, want) = rest.split_once(' ').unwrap_or((rest, ""));
        match name {
            "line" => self.line(rest),
            "rest" => self.rest(rest),
            "tag" => Ok(self.tag(argument, want)),
            "take" | "read" | "take_segments" | "advance" => {
                self.count(name, argument.parse().unwrap_or(usize::MAX), want)
            }
            _ => self.search(name, meant_by_signs(argument).as_slice(), want),
        }
    }

    /// Takes the next line.
    fn line(&mut self, want: &str) -> Result<bool, Refusal> {
        is_line_of_cursor(&self.cursor.line(), want)
    }

    /// Takes all unread bytes.
    fn rest(&mut self, want: &str) -> Result<bool, Refusal> {
        are_unread_of_cursor(self.cursor.rest(), want)
    }

    /// Passes these bytes.
    fn tag(&mut self, bytes: &str, want: &str) -> bool {
        match self.cursor.tag(meant_by_signs(bytes).as_slice()) {
            Ok(Some(())) => want == "passes",
            Ok(None) => want == "none",
            Err(_) => want == "differs",
        }
    }

    /// Makes a call that takes no memory, and has one argument or none. Returns `None` if it is another one.
    fn look(&mut self, name: &str, want: &str) -> Option<bool> {
        match name {
            "at" => Some(is_number_of_signs(want, self.cursor.at())),
            "remaining" => Some(is_number_of_signs(want, self.cursor.remaining())),
            "peek" => Some(match self.cursor.peek() {
                Some(byte) => are_bytes_of_signs(&[byte], want),
                None => want == "none",
            }),
            "starts_with" => Some(match want.strip_suffix(" not") {
                Some(bytes) => !self.cursor.starts_with(meant_by_signs(bytes).as_slice()),
                None => self.cursor.starts_with(meant_by_signs(want).as_slice()),
            }),
            _ => integers::is_next_integer(&mut self.cursor, name, want),
        }
    }
}

impl<B: ContiguousBuf + Drop> CalledByRow for CursorRun<'_, B> {
    fn make(&mut self, call: &str) -> Result<bool, Refusal> {
        let (name, rest) = call.split_once(' ').unwrap_or((call, ""));
        match self.look(name, rest) {
            Some(holds) => Ok(holds),
            None => self.take_part(name, rest),
        }
    }

    fn bytes(&self) -> usize {
        self.cursor.at()
    }
}

/// Whether a row is right of a new cursor.
fn is_cursor_row_right<B: ContiguousBuf + Drop, R: Abort + Print + AllocGlobal>(
    rt: &R,
    buf: &SegmentedBuf<B>,
    row: &str,
) -> bool {
    let mut run = CursorRun {
        cursor: Cursor::new(rt.alloc(), buf),
    };
    is_row_right(rt, &mut run, row)
}

/// A message of four parts: a word, the number of bytes of the body, the body, and a line.
const MESSAGE: &[u8] = b"PUT 7\r\nHe\r\nllothe end\r\n";

/// What comes of its first bytes, after the least and the greatest number of them. All of it is there once its last
/// byte is.
const FRONTS: [(usize, usize, &str); 5] = [
    (0, 3, "tag PUT_ none"),
    (4, 6, "tag PUT_ passes, take_until <. none"),
    (
        7,
        13,
        "tag PUT_ passes, take_until <. 7, take_segments 7 none",
    ),
    (
        14,
        22,
        "tag PUT_ passes, take_until <. 7, take_segments 7 He<.llo, line none",
    ),
    (
        23,
        23,
        "tag PUT_ passes, take_until <. 7, take_segments 7 He<.llo, line the_end, at 23",
    ),
];

/// Whether a row is right of these pieces, each in a segment of its own.
fn is_cursor_row_right_of_two<R: Abort + Print + AllocGlobal>(
    rt: &R,
    (front, back): (&'static [u8], &'static [u8]),
    row: &str,
) -> bool {
    match in_segments(rt.alloc(), &[front, back]) {
        Some(buf) => is_cursor_row_right(rt, &buf, row),
        None => false,
    }
}

/// Whether a row is right of these pieces in a buffer whose small pieces are copied together.
fn is_cursor_row_right_of_packed<R: Abort + Print + AllocGlobal>(
    rt: &R,
    (front, back): (&'static [u8], &'static [u8]),
    row: &str,
) -> bool {
    let mut buf = PackedBuf::new(rt.alloc(), 4);
    let is_pushed = buf.push_slice(rt.alloc(), front).is_ok()
        && buf.push_slice(rt.alloc(), back).is_ok();
    is_pushed && is_cursor_row_right(rt, buf.as_segmented(), row)
}

/// Each beginning of the message, cut at each place.
#[test]
fn cursor_on_a_message_cut_at_each_place(rt: HostRuntime) {
    for (least, most, row) in FRONTS {
        for len in least..=most {
            let came = MESSAGE.get(..len).unwrap_or(b"");
            for cut in 0..=came.len() {
                let pieces = came.split_at(cut);
                let holds = is_cursor_row_right_of_two(&rt, pieces, row)
                    && is_cursor_row_right_of_packed(&rt, pieces, row);
                assert_row(&rt, row, holds);
            }
        }
    }
}

/// A header in two blocks. Bytes in one of them are shared with it, and those in both are copied.
const HEADER: &[&[u8]] = &[b"Host: exa", b"mple/org"];

/// Rows of new cursors on the header. In the last but one row, a needle of 17 bytes would end a byte after those that
/// have come, and another one is at the cursor.
const ROWS: &str = "\
remaining 17, advance 6, peek e, remaining 11, starts_with examp, starts_with examp! not, find /org 7, at 6
advance 6, take_to / *example, rest &/org in 1, at 13, find : none, advance 4, peek none, tag ! none, starts_with ! not
take 4 &Host, tag ! differs, tag :_ passes, take_until / *example, take_to g &or, take 2 none, take_until ! none
read 4 &Host, read_until_within _ 0 long, at 4, read_until_within _ 1 &:, read_until / *example, read 4 none, at 14
advance 14, read_until_within ! 3 none, read_until_within ! 2 long, read_until ! none, at 14
take_until_within :_ 3 long, take_until_within :_ 4 &Host, take_until_within ! 11 none, \
    take_until_within ! 10 long, at 6
take_until_within ost:_example/org! 0 long, take_until_within ost:_example/org! 1 none, at 0, \
    take_until_within Host:_example/org 0 #0, at 17
take_segments 18 none, take_segments 17 &#17 in 2
";

/// A line in one block.
const LINE: &[&[u8]] = &[b"set \xff\xfe 12"];

/// The words of that line share its block.
const WORDS: &str = "take_until _ &set, take_until _ &~!, take 2 &12";

/// Asserts each of the rows, of a new cursor.
fn assert_cursor_rows<R: Abort + Print + AllocGlobal>(
    rt: &R,
    buf: &SegmentedBuf<Bytes>,
    rows: &str,
) {
    for row in rows.lines() {
        let holds = is_cursor_row_right(rt, buf, row);
        assert_row(rt, row, holds);
    }
}

#[test]
fn cursor_takes_parts_of_blocks(rt: HostRuntime) {
    for (pieces, rows) in [(HEADER, ROWS), (LINE, WORDS)] {
        let buf = in_blocks(rt.alloc(), pieces).expect(&rt, "no memory");
        assert_cursor_rows(&rt, &buf, rows);
    }
}
