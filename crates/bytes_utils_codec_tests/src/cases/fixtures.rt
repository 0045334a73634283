//! Rows, readers and assertions that many tests use.
pub(crate) mod readers;
pub(crate) mod rows;
pub(crate) mod signs;

use bytes::Bytes;
use bytes_utils::SegmentedBuf;
use std::alloc::{AllocError, Global};
use std::error::Error;
use std::process::Abort;

/// Fails the test unless this holds. A test that calls it has no path of its own to a failure.
pub(crate) fn assert_that(rt: &impl Abort, holds: bool) {
    assert!(rt; holds);
}

/// The same of a row.
pub(crate) fn assert_row(rt: &impl Abort, row: &str, holds: bool) {
    assert!(rt; holds, "{row}");
}

/// What an error prints, and what it prints in other styles.
pub(crate) fn styled<E: Error>(alloc: Global, error: &E) -> Result<String, AllocError> {
    format!(in alloc; "{error}|{error:#}|{error:>99}")
}

/// Whether an error prints this text. It is the same in every style.
pub(crate) fn says<E: Error>(alloc: Global, error: &E, text: &str) -> bool {
    match (
        styled(alloc, error),
        format!(in alloc; "{text}|{text}|{text}"),
    ) {
        (Ok(said), Ok(want)) => said.as_str() == want.as_str(),
        _ => false,
    }
}

/// Whether this is the debug text of an error.
pub(crate) fn debugs<E: Error>(alloc: Global, error: &E, text: &str) -> bool {
    match format!(in alloc; "{error:?}") {
        Ok(said) => said.as_str() == text,
        Err(_) => false,
    }
}

/// These pieces, each in a segment of its own, or `None` if memory is refused.
pub(crate) fn in_segments(alloc: Global, pieces: &[&'static [u8]]) -> Option<SegmentedBuf<Bytes>> {
    let mut buf = SegmentedBuf::new(alloc);
    let mut is_made = true;
    for piece in pieces {
        is_made &= buf.try_push(Bytes::from_static(piece)).is_ok();
    }
    is_made.then_some(buf)
}

/// Pushes a copy of a piece. Returns whether memory was there.
fn push_block(alloc: Global, buf: &mut SegmentedBuf<Bytes>, piece: &[u8]) -> bool {
    match Bytes::copy_from_slice(alloc, piece) {
        Ok(block) => buf.try_push(block).is_ok(),
        Err(_) => false,
    }
}

/// Copies of these pieces, each in a block of its own, or `None` if memory is refused.
pub(crate) fn in_blocks(alloc: Global, pieces: &[&[u8]]) -> Option<SegmentedBuf<Bytes>> {
    let mut buf = SegmentedBuf::new(alloc);
    let mut is_made = true;
    for piece in pieces {
        is_made &= push_block(alloc, &mut buf, piece);
    }
    is_made.then_some(buf)
}
