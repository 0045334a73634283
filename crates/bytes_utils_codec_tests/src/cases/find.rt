//! Rows of calls that look for a needle in the bytes of segments, with which a row begins: `--: +a-, find none`.
//!
//! | call | |
//! |---|---|
//! | `+ab` | pushes a copy of these bytes as a segment of its own |
//! | `find 2`, `find none` | the place of the needle |
//! | `find_from 1 2` | its place from the first byte on |
//! | `take_until ab`, `take_until none` | what is before the needle is taken off |
//! | `=ab` | these bytes are left |
//! | `new` | a new search for the needle |
//! | `search 2`, `search none` | the place that the search finds |
//! | `search_from 2`, `restart` | it goes on from the second byte, or from the front |
//! | `searched 2` | it goes on there |
//! | `needle ab` | it is for this needle |
mod memory;

use crate::cases::fixtures::rows::{CalledByRow, Refusal, is_row_right, named_row_call};
use crate::cases::fixtures::signs::{
    are_bytes_of_signs, are_segments_of_signs, is_block_of_signs, is_number_of_signs,
    is_place_of_signs, meant_by_signs,
};
use crate::cases::fixtures::{assert_row, assert_that, in_segments};
use bytes::{Buf, Bytes};
use bytes_utils::{Reason, SegmentedBuf};
use bytes_utils_codec::find::{find, find_from, take_until};
use bytes_utils_codec::search::Search;
use std::alloc::Global;
use std::io::Print;
use std::process::Abort;

/// The bytes in which calls look for a needle.
#[derive(Drop)]
struct FindRun<'n, 'b> {
    alloc: Global,
    needle: &'n [u8],
    buf: &'b mut SegmentedBuf<Bytes>,
    search: Option<Search>,
}

/// Makes a call of a search. Returns whether it is right.
fn is_search_call_right(
    search: &mut Search,
    buf: &SegmentedBuf<Bytes>,
    name: &str,
    want: &str,
) -> bool {
    match name {
        "search" => is_place_of_signs(search.find(buf), want),
        "searched" => is_number_of_signs(want, search.searched()),
        "needle" => are_bytes_of_signs(search.needle(), want),
        "restart" => {
            search.restart();
            true
        }
        _ => {
            search.search_from(want.parse().unwrap_or(0));
            name == "search_from"
        }
    }
}

/// Whether what was before the needle is as wanted.
fn is_front_right(front: &Result<Option<Bytes>, Reason>, want: &str) -> Result<bool, Refusal> {
    match front {
        Ok(Some(front)) => Ok(is_block_of_signs(front, want)),
        Ok(None) => Ok(want == "none"),
        Err(reason) => named_row_call("take_until", "", Err(*reason)),
    }
}

impl FindRun<'_, '_> {
    /// Pushes a copy of these bytes.
    fn push(&mut self, bytes: &[u8]) -> Result<bool, Reason> {
        self.buf
            .try_push(Bytes::copy_from_slice(self.alloc, bytes)?)?;
        Ok(true)
    }

    /// Makes a call of the search.
    fn search(&mut self, name: &str, want: &str) -> bool {
        match &mut self.search {
            Some(search) => is_search_call_right(search, self.buf, name, want),
            None => false,
        }
    }

    /// Looks for the needle from a place on.
    fn find_from(&self, rest: &str) -> bool {
        let (start, want) = rest.split_once(' ').unwrap_or(("", rest));
        let start = start.parse().unwrap_or(0);
        is_place_of_signs(find_from(self.buf, start, self.needle), want)
    }

    /// Takes what is before the needle.
    fn take_until(&mut self, want: &str) -> Result<bool, Refusal> {
        if self.needle.is_empty() {
            return Ok(false);
        }
        is_front_right(&take_until(self.buf, self.alloc, self.needle), want)
    }

    /// Makes a new search.
    fn renew(&mut self) -> Result<bool, Refusal> {
        if self.needle.is_empty() {
            return Ok(false);
        }
        match Search::new(self.alloc, self.needle) {
            Ok(search) => {
                self.search = Some(search);
                Ok(true)
            }
            Err(reason) => named_row_call("Search::", "new", Err(reason)),
        }
    }
}

impl CalledByRow for FindRun<'_, '_> {
    fn make(&mut self, call: &str) -> Result<bool, Refusal> {
        if let Some(bytes) = call.strip_prefix("+") {
            return named_row_call("a copy", "", self.push(meant_by_signs(bytes).as_slice()));
        }
        if let Some(want) = call.strip_prefix("=") {
            return Ok(are_segments_of_signs(self.buf, want));
        }
        let (name, rest) = call.split_once(' ').unwrap_or((call, ""));
        match name {
            "find" => Ok(is_place_of_signs(find(self.buf, self.needle), rest)),
            "find_from" => Ok(self.find_from(rest)),
            "take_until" => self.take_until(rest),
            "new" => self.renew(),
            _ => Ok(self.search(name, rest)),
        }
    }

    fn bytes(&self) -> usize {
        self.buf.remaining()
    }
}

/// Whether calls for a needle are right of these bytes.
fn is_find_row_right<R: Abort + Print + AllocGlobal>(
    rt: &R,
    buf: &mut SegmentedBuf<Bytes>,
    needle: &[u8],
    calls: &str,
) -> bool {
    let mut run = FindRun {
        alloc: rt.alloc(),
        needle,
        buf,
        search: None,
    };
    is_row_right(rt, &mut run, calls)
}

/// Asserts each of the rows, of these bytes, unless memory for their segments is refused.
pub(super) fn assert_find_rows<R: Abort + Print + AllocGlobal>(
    rt: &R,
    pieces: &[&'static [u8]],
    rows: &str,
) {
    for row in rows.lines() {
        let (needle, calls) = row.split_once(": ").unwrap_or(("", row));
        if let Some(mut buf) = in_segments(rt.alloc(), pieces) {
            let holds = is_find_row_right(rt, &mut buf, meant_by_signs(needle).as_slice(), calls);
            assert_row(rt, row, holds);
        }
    }
}

/// 40,000 bytes and a needle of 65,536 bytes, in pieces of 1,000 bytes and a last one of 536.
fn body_to_find_in(alloc: Global, needle: &[u8]) -> Result<SegmentedBuf<Bytes>, Reason> {
    let mut body = SegmentedBuf::new(alloc);
    for _ in 0..40 {
        body.try_push(Bytes::from_static(&[b'x'; 1_000]))?;
    }
    for piece in needle.chunks(1_000) {
        body.try_push(Bytes::copy_from_slice(alloc, piece)?)?;
    }
    Ok(body)
}

/// The needle is found, and not again after its first byte.
#[test]
fn find_of_a_long_needle(rt: HostRuntime) {
    let mut needle = [b'x'; 65_536];
    needle[0] = b'y';
    let mut body = body_to_find_in(rt.alloc(), &needle).expect(&rt, "no memory");
    let holds = is_find_row_right(&rt, &mut body, &needle, "find 40000, find_from 40001 none");
    assert_that(&rt, holds);
}

/// Texts, the needle that each has, and what is before each needle, and what is left.
const FRONTS: [(&[u8], &str); 4] = [
    (
        b"a--bc----d-",
        "--: take_until a, take_until bc, take_until #0, take_until none, =d-",
    ),
    (
        b"GET /\r\nHost: a\r\n\r\r\n",
        "<.: take_until GET_/, take_until Host:_a, take_until <, take_until none, =",
    ),
    (b"aab", "ab: take_until a, take_until none, ="),
    (
        b"01230123456789abcdefgy0123456789abcdef",
        "0123456789abcdefg: take_until 0123, take_until none, =y0123456789abcdef",
    ),
];

#[test]
fn find_fronts_wherever_the_text_is_cut(rt: HostRuntime) {
    for (text, row) in FRONTS {
        for place in 0..text.len() {
            let (front, back) = text.split_at(place);
            assert_find_rows(&rt, &[front, back], row);
        }
    }
}
