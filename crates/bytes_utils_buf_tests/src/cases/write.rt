//! Borrowed buffers, written as a whole and in part, and the number of calls.
use crate::cases::fixtures::assert_row;
use crate::cases::fixtures::slow_writer::SlowWriter;
use bytes::Buf;
use bytes_utils_buf::segmented::SegmentedSlice;
use bytes_utils_buf::write::write_all_of;
use std::alloc::{AllocError, Global};
use std::io::ErrorKind;
use std::process::Abort;

/// What writing buffers by a writer of few bytes a call gives.
#[derive(Clone, Copy)]
struct WriteRow<'t> {
    /// The lengths of the buffers in turn.
    lengths: &'t str,
    /// The length of all of them.
    len: usize,
    /// The most bytes that the writer takes a call.
    most: usize,
    /// The call at which it fails, or 0.
    fails_at: usize,
    /// How many bytes are written until then.
    written: usize,
    /// By how many calls.
    calls: usize,
    error: Option<ErrorKind>,
}

fn kind_of_write_error(name: &str) -> Option<ErrorKind> {
    match name {
        "BrokenPipe" => Some(ErrorKind::BrokenPipe),
        "Interrupted" => Some(ErrorKind::Interrupted),
        "OutOfMemory" => Some(ErrorKind::OutOfMemory),
        "TimedOut" => Some(ErrorKind::TimedOut),
        "WouldBlock" => Some(ErrorKind::WouldBlock),
        "WriteZero" => Some(ErrorKind::WriteZero),
        _ => None,
    }
}

/// Reads a row: its fields in their order, with the word `of` after the lengths.
fn write_row_of(text: &str) -> Option<WriteRow<'_>> {
    let (lengths, rest) = text.split_once(" of ")?;
    let mut words = rest.split(' ');
    Some(WriteRow {
        lengths,
        len: words.next()?.parse().ok()?,
        most: words.next()?.parse().ok()?,
        fails_at: words.next()?.parse().ok()?,
        written: words.next()?.parse().ok()?,
        calls: words.next()?.parse().ok()?,
        error: words.next().and_then(kind_of_write_error),
    })
}

/// `len` bytes, of which no two in a row are the same.
fn whole_to_write(alloc: Global, len: usize) -> Result<Vec<u8>, AllocError> {
    let mut bytes = Vec::new(alloc);
    for i in 0..len {
        bytes.push((i % 251) as u8)?;
    }
    Ok(bytes)
}

/// Cuts the bytes into buffers of these lengths, in turn.
fn cut_to_write<'s>(
    alloc: Global,
    bytes: &'s [u8],
    lengths: &str,
) -> Result<Vec<&'s [u8]>, AllocError> {
    let mut pieces = Vec::new(alloc);
    let mut rest = bytes;
    for _ in 0..bytes.len() {
        for length in lengths.split(' ') {
            if rest.is_empty() {
                return Ok(pieces);
            }
            let length: usize = length.parse().unwrap_or(0);
            let (piece, following) = rest.split_at(length.min(rest.len()));
            pieces.push(piece)?;
            rest = following;
        }
    }
    Ok(pieces)
}

/// Writes the buffers. Returns whether the row says how many of the bytes are written, by how many
/// calls, and the error, and the others are left.
fn write_stops_there(
    writer: &mut SlowWriter,
    all: &mut SegmentedSlice<'_, &[u8]>,
    whole: &[u8],
    row: &WriteRow<'_>,
) -> bool {
    let error = match write_all_of(writer, all) {
        Ok(()) => None,
        Err(reported) => Some(reported.kind()),
    };
    error == row.error
        && writer.calls == row.calls
        && writer.held.as_slice() == &whole[..row.written.min(whole.len())]
        && all.remaining().checked_add(row.written) == Some(whole.len())
}

/// Whether the buffers are written as the row says. After an error a second try writes what was left.
fn is_written_as_row(alloc: Global, lent: &mut [&[u8]], whole: &[u8], row: &WriteRow<'_>) -> bool {
    if SegmentedSlice::total(lent) != Some(whole.len()) {
        return false;
    }
    let kind = row.error.unwrap_or(ErrorKind::Other);
    let mut writer = SlowWriter::new(Vec::new(alloc), row.most, row.fails_at, kind);
    let mut all = SegmentedSlice::new(lent);
    let is_right = write_stops_there(&mut writer, &mut all, whole, row);
    if row.error.is_none() || row.most == 0 {
        return is_right;
    }
    let is_all = write_all_of(&mut writer, &mut all).is_ok();
    is_right & is_all && writer.held.as_slice() == whole
}

fn is_write_row_right(alloc: Global, row: &str) -> Option<bool> {
    let row = write_row_of(row)?;
    let whole = whole_to_write(alloc, row.len).ok()?;
    let mut lent = cut_to_write(alloc, &whole, row.lengths).ok()?;
    Some(is_written_as_row(alloc, &mut lent, &whole, &row))
}

// A writer that takes three bytes a call takes part of the block three times, and stops in the
// third of the buffers. One call takes all of them, and no call follows it.
const LENT: &str = "\
3 0 5 4 of 12 1 0 12 12|\
3 0 5 4 of 12 3 0 12 4|\
3 0 5 4 of 12 100 2 12 1|\
3 0 5 4 of 12 0 0 0 1 WriteZero|\
3 0 5 4 of 12 0 1 0 1 Interrupted|\
3 0 5 4 of 12 100 1 0 1 Interrupted|\
3 0 5 4 of 12 2 2 2 2 Interrupted|\
3 0 5 4 of 12 3 4 9 4 Interrupted";

// One call writes up to 1,024 small buffers, in blocks of whole buffers and at most 16,384 bytes, or
// 65,536 where there are more than 32,768. A buffer of more than 4,096 bytes is written by a call of
// its own. The writer takes all that it is given.
const CALLS: &str = "\
1 of 15 100000 0 15 1|\
1 of 16 100000 0 16 1|\
137 of 2055 100000 0 2055 1|\
16 of 16000 100000 0 16000 1|\
16 of 16384 100000 0 16384 1|\
16 of 16385 100000 0 16385 2|\
1 of 2049 100000 0 2049 3|\
4095 of 16380 100000 0 16380 1|\
4095 of 16384 100000 0 16384 1|\
4095 of 16385 100000 0 16385 2|\
4096 of 16384 100000 0 16384 1|\
4096 of 32768 100000 0 32768 2|\
4095 of 32769 100000 0 32769 1|\
4096 of 65536 100000 0 65536 1|\
4096 of 65537 100000 0 65537 2|\
17 of 17408 100000 0 17408 2|\
4097 of 16388 100000 0 16388 4|\
16384 of 32768 100000 0 32768 2|\
16385 of 32770 100000 0 32770 2|\
1 4097 1 1 of 8198 100000 0 8198 4";

// What a short write leaves of a block is written by itself: 16,000 bytes by four calls, and then
// the other 4,000.
const SHORT: &str = "\
16 of 64 1 0 64 64|\
1000 of 20000 5000 0 20000 5|\
5000 of 10000 3000 0 10000 4|\
1000 of 20000 5000 2 5000 2 Interrupted|\
1000 of 20000 5000 4 15000 4 Interrupted|\
1000 of 20000 5000 5 16000 5 Interrupted|\
16 5000 of 10032 100000 1 0 1 Interrupted|\
16 5000 of 10032 100000 2 16 2 Interrupted|\
16 5000 of 10032 100000 3 5016 3 Interrupted|\
16 5000 of 10032 3000 3 3016 3 Interrupted|\
1000 of 20000 0 0 0 1 WriteZero|\
5000 of 20000 0 0 0 1 WriteZero";

// Each error comes back as it is, and no call follows it. At `WriteZero` a call takes nothing.
const KINDS: &str = "\
3 5 of 8 100000 1 0 1 WouldBlock|\
3 5 of 8 3 2 3 2 WouldBlock|\
3 5 of 8 3 2 3 2 BrokenPipe|\
3 5 of 8 3 2 3 2 TimedOut|\
3 5 of 8 3 3 6 3 OutOfMemory|\
5000 of 75000 100000 15 70000 15 TimedOut|\
5000 of 100000 100000 20 95000 20 TimedOut|\
3 5 of 8 3 2 3 2 WriteZero";

#[test]
fn write_all_of_buffers(rt: HostRuntime) {
    for rows in [LENT, CALLS, SHORT, KINDS] {
        for row in rows.split('|') {
            assert_row(&rt, row, is_write_row_right(rt.alloc(), row));
        }
    }
}
