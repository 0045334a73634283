//! Streams that are cut anywhere, and what comes of them.
//!
//! A row is as `4 text: ab.=ab|$`: the limit and the kind of the reader, the stream, and after an equals sign
//! the items, with a stroke after each; after a dollar the last one, and the bytes that are left.
use super::made::{Made, made_reader};
use crate::cases::fixtures::assert_row;
use crate::cases::fixtures::signs::meant_by_signs;
use bytes_utils_codec::decode::Framed;
use std::io::Print;
use std::process::Abort;

/// Appends an item, with a stroke after it. Returns whether memory was there.
fn put_cut_item<D: Made>(item: D::Item, out: &mut Vec<u8>) -> bool {
    out.extend_from_slice(D::into_bytes(item).as_slice())
        .is_ok()
        && out.push(b'|').is_ok()
}

/// Takes the items that have come. Returns whether memory was there, and they had an end.
fn take_cut_items<D: Made>(reader: &mut Framed<D>, out: &mut Vec<u8>) -> bool {
    let mut is_put = true;
    for _ in 0..16 {
        match reader.next_item() {
            Ok(Some(item)) => is_put &= put_cut_item::<D>(item, out),
            Ok(None) => return is_put,
            Err(_) => return false,
        }
    }
    false
}

/// Pushes a piece in parts of at most `most` bytes, and takes the items that come.
fn take_cut_parts<D: Made>(
    reader: &mut Framed<D>,
    (piece, most): (&[u8], usize),
    out: &mut Vec<u8>,
) -> bool {
    let mut is_taken = true;
    for part in piece.chunks(most.max(1)) {
        is_taken &= reader.push_slice(part).is_ok() && take_cut_items(reader, out);
    }
    is_taken
}

/// Takes the last item, if there is one. Returns whether memory was there.
fn take_last_cut_item<D: Made>(reader: &mut Framed<D>, out: &mut Vec<u8>) -> bool {
    match reader.last_item() {
        Ok(Some(item)) => put_cut_item::<D>(item, out),
        Ok(None) => true,
        Err(_) => false,
    }
}

/// Takes all held bytes. Returns whether memory was there.
fn take_cut_rest<D: Made>(reader: &mut Framed<D>, out: &mut Vec<u8>) -> bool {
    let len = reader.remaining();
    match reader.take_bytes(len) {
        Ok(rest) => out.extend_from_slice(rest.as_slice()).is_ok(),
        Err(_) => false,
    }
}

/// Takes the last item, after a dollar, and the bytes that are left. Returns whether no other item is after it.
fn take_cut_end<D: Made>(reader: &mut Framed<D>, out: &mut Vec<u8>) -> bool {
    out.push(b'$').is_ok()
        && take_last_cut_item(reader, out)
        && matches!(reader.last_item(), Ok(None))
        && take_cut_rest(reader, out)
}

/// Whether this comes of a reader, of three pieces, each in parts of at most `most` bytes.
fn reader_gives_of_pieces<D: Made>(
    reader: &mut Framed<D>,
    (pieces, most): ([&[u8]; 3], usize),
    out: &mut Vec<u8>,
    want: &[u8],
) -> bool {
    let mut is_taken = true;
    for piece in pieces {
        is_taken &= take_cut_parts(reader, (piece, most), out);
    }
    is_taken && take_cut_end(reader, out) && out.as_slice() == want
}

/// Whether this comes of a new reader, of three pieces, each in parts of at most `most` bytes.
fn cuts_give_of_pieces<D: Made, R: Abort + Print + AllocGlobal>(
    rt: &R,
    kind: &str,
    pieces: [&[u8]; 3],
    most: usize,
    want: &[u8],
) -> bool {
    let mut out = Vec::new(rt.alloc());
    match made_reader::<D, R>(rt, kind) {
        Some((mut reader, _)) => {
            reader_gives_of_pieces(&mut reader, (pieces, most), &mut out, want)
        }
        None => false,
    }
}

/// Whether this comes of a stream, in single bytes and cut at each two places.
pub(super) fn cuts_give<D: Made, R: Abort + Print + AllocGlobal>(
    rt: &R,
    kind: &str,
    stream: &[u8],
    want: &[u8],
) -> bool {
    for first in 0..=stream.len() {
        let (front, rest) = stream.split_at(first);
        for second in 0..=rest.len() {
            let (middle, back) = rest.split_at(second);
            let pieces = [front, middle, back];
            if !cuts_give_of_pieces::<D, R>(rt, kind, pieces, usize::MAX, want) {
                return false;
            }
        }
    }
    cuts_give_of_pieces::<D, R>(rt, kind, [stream, b"", b""], 1, want)
}

/// Asserts each of the rows.
pub(super) fn assert_cuts<D: Made, R: Abort + Print + AllocGlobal>(rt: &R, rows: &str) {
    for row in rows.lines() {
        let (kind, case) = row.split_once(": ").unwrap_or((row, ""));
        let (stream, want) = case.split_once('=').unwrap_or((case, "no row"));
        let (stream, want) = (meant_by_signs(stream), meant_by_signs(want));
        assert_row(
            rt,
            row,
            cuts_give::<D, R>(rt, kind, stream.as_slice(), want.as_slice()),
        );
    }
}
