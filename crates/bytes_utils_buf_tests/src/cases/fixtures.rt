//! Buffers that many tests read, and questions about any buffer.
pub(crate) mod odd;
pub(crate) mod reading;
pub(crate) mod refusals;
pub(crate) mod slow_writer;

use bytes::{Buf, Bytes};
use bytes_utils_buf::parts::BufParts;
use bytes_utils_buf::segmented::{SegmentedBuf, SegmentedSlice};
use std::alloc::{AllocError, Global};
use std::fmt;
use std::process::Abort;
use std::str::Split;

/// The texts of four buffers, one of them empty.
pub(crate) const FOUR: &str = "Hello| ||World";

/// The texts of five buffers, two of them empty.
pub(crate) const FIVE: &str = "Hello|| ||World";

/// The bytes of `FOUR` and `FIVE`, joined.
pub(crate) const JOINED: &str = "Hello World";

/// Fails the test unless this holds. A test that calls it has no path of its own to a failure.
pub(crate) fn assert_that(rt: &impl Abort, holds: bool) {
    assert!(rt; holds);
}

/// The same of a row of a table.
pub(crate) fn assert_row(rt: &impl Abort, row: &str, holds: Option<bool>) {
    assert!(rt; holds == Some(true), "{row}");
}

/// Buffers of these texts, in room for all. The text `-` is no buffer.
pub(crate) fn bytes_of_texts(alloc: Global, texts: &'static str) -> Result<Vec<Bytes>, AllocError> {
    let mut bufs = Vec::with_capacity(alloc, texts.len().saturating_add(1))?;
    for text in texts.split('|') {
        if text != "-" {
            bufs.push(Bytes::from_static(text.as_bytes()))?;
        }
    }
    Ok(bufs)
}

pub(crate) fn slices_of_texts(
    alloc: Global,
    texts: &'static str,
) -> Result<Vec<&'static [u8]>, AllocError> {
    let mut bufs = Vec::new(alloc);
    for text in texts.split('|') {
        bufs.push(text.as_bytes())?;
    }
    Ok(bufs)
}

/// `JOINED` in a block of its own.
fn block(rt: &(impl Abort + Alloc<A = Global>)) -> Bytes {
    Bytes::copy_from_slice(rt.alloc(), JOINED.as_bytes()).expect(rt, "memory")
}

/// The same, and another owner of the block.
pub(crate) fn shared(rt: &(impl Abort + Alloc<A = Global>)) -> (Bytes, Bytes) {
    let block = block(rt);
    let other = block.clone().expect(rt, "memory");
    (block, other)
}

/// A hundred thousand bytes.
pub(crate) fn long() -> &'static [u8] {
    &[b'x'; 100_000]
}

/// Holds buffers of these texts.
pub(crate) fn held(
    rt: &(impl Abort + Alloc<A = Global>),
    texts: &'static str,
) -> SegmentedBuf<Bytes> {
    let bufs = bytes_of_texts(rt.alloc(), texts).expect(rt, "memory");
    SegmentedBuf::from_vec(rt.alloc(), bufs)
        .ok()
        .expect(rt, "memory")
}

/// The same of slices, if there is memory for them.
pub(crate) fn held_slices(
    alloc: Global,
    texts: &'static str,
) -> Option<SegmentedBuf<&'static [u8]>> {
    SegmentedBuf::from_vec(alloc, slices_of_texts(alloc, texts).ok()?).ok()
}

/// Holds a buffer of any type alone.
pub(crate) fn hold<B: Buf + Drop>(
    rt: &(impl Abort + Alloc<A = Global>),
    buf: B,
) -> SegmentedBuf<B> {
    let mut held = SegmentedBuf::new(rt.alloc());
    assert!(rt; held.try_push(buf).is_ok());
    held
}

/// Appends one more buffer, and returns whether it was accepted.
pub(crate) fn put<B: Buf + Drop>(held: &mut SegmentedBuf<B>, buf: B) -> bool {
    if !held.fits(buf.remaining()) {
        return false;
    }
    held.push(buf).is_ok()
}

/// Puts a buffer before the others, and returns whether it was accepted.
pub(crate) fn put_first<B: Buf + Drop>(held: &mut SegmentedBuf<B>, buf: B) -> bool {
    if !held.fits(buf.remaining()) {
        return false;
    }
    held.prepend(buf).is_ok()
}

pub(crate) fn lend<'a, B: Buf>(rt: &impl Abort, bufs: &'a mut [B]) -> SegmentedSlice<'a, B> {
    assert!(rt; SegmentedSlice::total(bufs).is_some());
    SegmentedSlice::new(bufs)
}

/// Removes the first bytes of a buffer of any type, and returns whether it has as many.
pub(crate) fn skip<B: Buf>(buf: &mut B, cnt: usize) -> bool {
    let is_within = cnt <= buf.remaining();
    if is_within {
        buf.advance(cnt);
    }
    is_within
}

/// Takes the first bytes out of a buffer of any type, if it has as many and there is memory.
pub(crate) fn take_out<B: BufParts>(alloc: Global, buf: &mut B, len: usize) -> Option<Bytes> {
    if len > buf.remaining() {
        return None;
    }
    buf.copy_out(alloc, len).ok()
}

/// Whether the debug text of a value of any type starts with `front`.
pub(crate) fn debugs<T: fmt::Debug>(alloc: Global, value: &T, front: &str) -> bool {
    let text = format!(in alloc; "{value:?}");
    matches!(&text, Ok(text) if text.as_str().starts_with(front))
}

/// Whether the next of the wanted texts has these bytes.
pub(crate) fn is_next(wanted: &mut Split<'_, char>, bytes: &[u8]) -> bool {
    wanted.next().map(str::as_bytes) == Some(bytes)
}

/// Whether the first `places` places of a table are filled with slices of these texts.
pub(crate) fn fills<B: BufParts>(buf: &B, places: usize, texts: &str) -> bool {
    let mut table: [&[u8]; 10] = [b"-"; 10];
    let filled = buf.chunks_into(&mut table[..places.min(10)]);
    let mut wanted = texts.split('|');
    for slice in &table[..filled] {
        if wanted.next().map(str::as_bytes) != Some(*slice) {
            return false;
        }
    }
    wanted.next().is_none() || (filled == 0 && texts.is_empty())
}
