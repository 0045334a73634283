//! How often buffers are advanced and looked at.
use crate::cases::fixtures::odd::OddCounter;
use crate::cases::fixtures::{assert_row, assert_that, hold, lend, put, put_first, take_out};
use bytes::Buf;
use bytes_utils_buf::contiguous::ContiguousBuf;
use bytes_utils_buf::parts::BufParts;
use bytes_utils_buf::segmented::{SegmentedBuf, SegmentedSlice};
use std::alloc::Global;
use std::process::Abort;

/// A thousand buffers of one byte each.
fn thousand_to_look_at(rt: &(impl Abort + Alloc<A = Global>)) -> Vec<OddCounter> {
    let mut bufs = Vec::with_capacity(rt.alloc(), 1000).expect(rt, "memory");
    for _ in 0..1000 {
        assert!(rt; bufs.push(OddCounter::of("x")).is_ok());
    }
    bufs
}

/// Whether each buffer was advanced or copied from at least `least` times and at most `most` times,
/// and looked at at most `looks` times.
fn have_few_looks(bufs: &[OddCounter], (least, most): (usize, usize), looks: usize) -> bool {
    for buf in bufs {
        if buf.advanced < least || buf.advanced > most || buf.looks.get() > looks {
            return false;
        }
    }
    true
}

/// Skips `cnt` bytes of borrowed buffers, `times` times, by the call of the type or by that of the
/// trait. Returns whether there are as many.
fn walks_borrowed_for_looks<B: Buf>(
    all: &mut SegmentedSlice<'_, B>,
    is_own: bool,
    times: usize,
    cnt: usize,
) -> bool {
    for _ in 0..times {
        if all.remaining() < cnt {
            return false;
        }
        if is_own {
            SegmentedSlice::advance(all, cnt);
        } else {
            Buf::advance(all, cnt);
        }
    }
    true
}

/// Fails the test unless each of a thousand buffers is advanced once by that.
fn assert_few_looks_of_walk(
    rt: &(impl Abort + Alloc<A = Global>),
    is_own: bool,
    times: usize,
    cnt: usize,
) {
    let mut bufs = thousand_to_look_at(rt);
    let mut all = lend(rt, &mut bufs);
    assert_that(rt, walks_borrowed_for_looks(&mut all, is_own, times, cnt));
    assert_that(rt, have_few_looks(all.into_lent(), (1, 1), 32));
}

/// Skips all held buffers but the last, and returns whether there are as many.
fn walks_held_for_looks<B: Buf + Drop>(buf: &mut SegmentedBuf<B>, is_own: bool) -> bool {
    for _ in 0..999 {
        if buf.remaining() == 0 {
            return false;
        }
        if is_own {
            SegmentedBuf::advance(buf, 1);
        } else {
            Buf::advance(buf, 1);
        }
    }
    true
}

/// Fails the test unless one buffer is left of a thousand, which was hardly looked at.
fn assert_few_looks_at_last(rt: &(impl Abort + Alloc<A = Global>), is_own: bool) {
    let buf = SegmentedBuf::from_vec(rt.alloc(), thousand_to_look_at(rt));
    let mut buf = buf.ok().expect(rt, "memory");
    assert_that(rt, walks_held_for_looks(&mut buf, is_own));
    let left = buf.into_inner().into_vec();
    assert_that(rt, left.len() == 1 && have_few_looks(&left, (0, 2), 32));
}

#[test]
fn advances_and_looks_of_one_walk(rt: HostRuntime) {
    assert_few_looks_of_walk(&rt, true, 1000, 1);
    assert_few_looks_of_walk(&rt, false, 1000, 1);
    assert_few_looks_of_walk(&rt, true, 1, 1000);
    assert_few_looks_at_last(&rt, true);
    assert_few_looks_at_last(&rt, false);
}

/// Shows a chunk, and a table of two slices.
fn looks_at_two<B: BufParts>(buf: &B) -> bool {
    let mut table: [&[u8]; 2] = [b"-"; 2];
    for _ in 0..10 {
        if buf.chunk().is_empty() || buf.remaining() < 2 || buf.chunks_into(&mut table) != 2 {
            return false;
        }
    }
    true
}

/// Does the same, and then copies as many bytes out as each of these numbers in turn says.
fn looks_and_copies<B: BufParts>(alloc: Global, buf: &mut B, lens: &[u8]) -> bool {
    if !looks_at_two(buf) {
        return false;
    }
    for &len in lens {
        if take_out(alloc, buf, usize::from(len)).is_none() {
            return false;
        }
    }
    true
}

/// Ten bytes are copied. The buffer after them may be looked at, to see that it isn't empty.
const TEN: &[u8] = b"\x01\x01\x02\x01\x03\x01\x01";

/// Puts a buffer after the others and one before them, appends one, takes the first out, and shows the
/// next one.
fn moves_ends_for_looks<B: ContiguousBuf + Drop>(
    buf: &mut SegmentedBuf<B>,
    (first, last): (B, B),
    others: SegmentedBuf<B>,
) -> bool {
    put(buf, last)
        && put_first(buf, first)
        && buf.fits(others.remaining())
        && buf.append(others).is_ok()
        && buf.pop().is_some()
        && buf.segment(0).is_some()
}

/// Peeks at ten bytes, and shares them.
fn looks_at_ten<B: ContiguousBuf + Drop>(alloc: Global, buf: &SegmentedBuf<B>) -> bool {
    buf.peek(&mut [0; 10]) == 10
        && buf.starts_with(b"xxxxxxxxxx")
        && buf.segments() >= 10
        && buf.remaining() >= 10
        && buf.peek_bytes(alloc, 10).is_ok()
        && buf.prefix(alloc, 10).is_ok()
}

// Neither buffers that are accepted, many at once or one after another, nor a read looks at the other
// segments.
#[test]
fn no_looks_at_held_segments(rt: HostRuntime) {
    let mut buf = SegmentedBuf::new(rt.alloc());
    assert_that(
        &rt,
        buf.extend(thousand_to_look_at(&rt).into_iter()).is_ok(),
    );
    for _ in 0..20 {
        let both = (OddCounter::of("x"), OddCounter::of("x"));
        assert_that(
            &rt,
            moves_ends_for_looks(&mut buf, both, hold(&rt, OddCounter::of("x"))),
        );
    }
    assert_that(&rt, looks_at_ten(rt.alloc(), &buf));
    assert_that(&rt, looks_and_copies(rt.alloc(), &mut buf, TEN));
    let bufs = buf.into_inner().into_vec();
    assert_that(
        &rt,
        matches!(bufs.get(1..), Some(rest) if have_few_looks(rest, (0, 0), 3)),
    );
}

/// Copies out of borrowed buffers. Returns whether none after the first few was advanced or copied
/// from, and each was looked at when it was accepted, and hardly again.
fn looks_and_copies_borrowed(
    rt: &(impl Abort + Alloc<A = Global>),
    bufs: &mut [OddCounter],
    lens: &[u8],
    few: usize,
) -> bool {
    let mut all = lend(rt, bufs);
    looks_and_copies(rt.alloc(), &mut all, lens)
        && matches!(all.into_lent().get(few..), Some(rest) if have_few_looks(rest, (0, 0), 3))
}

// A copy takes a whole chunk by one call, with no call for zero bytes before it.
#[test]
fn no_looks_at_borrowed_segments(rt: HostRuntime) {
    assert_that(
        &rt,
        looks_and_copies_borrowed(&rt, &mut thousand_to_look_at(&rt), TEN, 11),
    );
    let mut bufs = [OddCounter::of("abc"), OddCounter::of("defghi")];
    assert_that(
        &rt,
        looks_and_copies_borrowed(&rt, &mut bufs, b"\x01\x07", 2),
    );
    assert_that(&rt, bufs[0].advanced == 2 && bufs[1].advanced == 1);
}

// Copies across the end of the first of two buffers, and twice out of the second alone.
#[test]
fn advances_and_looks_of_held_segments(rt: HostRuntime) {
    let mut buf = hold(&rt, OddCounter::of("abc"));
    assert_that(&rt, put(&mut buf, OddCounter::of("defghi")));
    assert_that(&rt, looks_and_copies(rt.alloc(), &mut buf, b"\x05\x01\x01"));
    let left = buf.into_inner().into_vec();
    assert_that(
        &rt,
        left.len() == 1 && have_few_looks(&left, (3, 3), usize::MAX),
    );
}

/// Three buffers of one byte each, and after them a thousand, which lie before them in memory.
fn held_to_look_at(rt: &(impl Abort + Alloc<A = Global>)) -> SegmentedBuf<OddCounter> {
    let mut buf = SegmentedBuf::new(rt.alloc());
    assert_that(rt, buf.extend(thousand_to_look_at(rt).into_iter()).is_ok());
    for _ in 0..3 {
        assert_that(rt, put_first(&mut buf, OddCounter::of("x")));
    }
    buf
}

/// Looks for the byte at a place.
fn finds_for_looks<B: ContiguousBuf + Drop>(
    buf: &SegmentedBuf<B>,
    call: &str,
    place: usize,
) -> Option<bool> {
    Some(match call {
        "byte_at" => buf.byte_at(place) == Some(b'x'),
        "holds_at" => buf.holds_at(place, b"x"),
        "segment_of" => buf.segment_of(place) == Some((place, 0)),
        _ => return None,
    })
}

/// Reads or shares the byte at a place.
fn ranges_for_looks<B: ContiguousBuf + Drop>(
    alloc: Global,
    buf: &SegmentedBuf<B>,
    call: &str,
    place: usize,
) -> Option<bool> {
    let end = place.checked_add(1)?;
    if end > buf.remaining() {
        return None;
    }
    Some(match call {
        "slice" => buf.slice(alloc, place..end).is_ok(),
        "copy_range" => buf.copy_range(alloc, place..end).is_ok(),
        "read_range" => buf.read_range(alloc, place..end).is_ok(),
        _ => return None,
    })
}

/// Shows three chunks, one after another.
fn shows_three_for_looks<B: ContiguousBuf + Drop>(buf: &SegmentedBuf<B>) -> bool {
    let mut chunks = buf.chunks();
    for _ in 0..3 {
        if chunks.next() != Some(b"x") {
            return false;
        }
    }
    true
}

/// Reads or shares three bytes at the front.
fn fronts_for_looks<B: BufParts + ContiguousBuf + Drop>(
    alloc: Global,
    buf: &SegmentedBuf<B>,
    call: &str,
) -> bool {
    let mut table: [&[u8]; 3] = [b""; 3];
    buf.remaining() >= 3
        && match call {
            "starts_with" => buf.starts_with(b"xxx"),
            "peek" => buf.peek(&mut [0; 3]) == 3,
            "peek_bytes" => buf.peek_bytes(alloc, 3).is_ok(),
            "prefix" => buf.prefix(alloc, 3).is_ok(),
            "chunks" => shows_three_for_looks(buf),
            "chunks_into" => buf.chunks_into(&mut table) == 3,
            _ => false,
        }
}

/// Whether the buffers between a place and the nearer end were looked at at most `most` times more
/// than before, and the others no more.
fn have_looks_up_to(
    before: &[OddCounter],
    after: &[OddCounter],
    place: usize,
    most: usize,
) -> bool {
    let is_near_front = place <= after.len() / 2;
    for (at, (old, new)) in before.iter().zip(after).enumerate() {
        let is_passed = at == place || (at < place) == is_near_front;
        let more = if is_passed { most } else { 0 };
        if new.looks.get().saturating_sub(old.looks.get()) > more {
            return false;
        }
    }
    before.len() == after.len()
}

/// Whether a call at a place looks as often as its row says.
fn has_looks_of_row(
    rt: &(impl Abort + Alloc<A = Global>),
    before: &[OddCounter],
    row: &str,
) -> Option<bool> {
    let mut words = row.split(' ');
    let (call, place, most) = (words.next()?, words.next()?, words.next()?);
    let (place, most) = (place.parse().ok()?, most.parse().ok()?);
    let buf = held_to_look_at(rt);
    let is_made = match finds_for_looks(&buf, call, place) {
        Some(is_found) => is_found,
        None => match ranges_for_looks(rt.alloc(), &buf, call, place) {
            Some(is_range) => is_range,
            None => fronts_for_looks(rt.alloc(), &buf, call),
        },
    };
    let after = buf.into_inner().into_vec();
    Some(is_made && have_looks_up_to(before, &after, place, most))
}

// A call, the place at which it ends, and how often it may look at a buffer up to there. A place is
// looked for from the nearer end, and no buffer beyond it is looked at.
const UP_TO: &str = "\
byte_at 2 2
byte_at 1000 2
holds_at 2 2
holds_at 1000 2
segment_of 2 2
segment_of 1000 1
slice 2 3
slice 1000 3
copy_range 2 4
copy_range 1000 4
read_range 2 2
read_range 1000 2
starts_with 2 1
peek 2 1
peek_bytes 2 2
prefix 2 2
chunks 2 1
chunks_into 2 1";

#[test]
fn looks_end_at_a_place(rt: HostRuntime) {
    let before = held_to_look_at(&rt).into_inner().into_vec();
    for row in UP_TO.lines() {
        assert_row(&rt, row, has_looks_of_row(&rt, &before, row));
    }
}
