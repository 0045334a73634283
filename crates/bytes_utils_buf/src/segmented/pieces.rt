//! The bytes of held buffers from a place on, buffer by buffer.
ghost use Rattle.std.specs.Prelude.{◌≡◌, ◌<◌, ◌≤◌, [], length, map, take, vec_capacity, IsTrue, ◌↔◌, IsOk, IfOk, IfErr};
ghost use Rattle.std.specs.List.{concat};
ghost use Rattle.bytes_utils_buf.specs.Segments.{IsInsideSegment, front_segment, segments_from, take_from_segments};

use super::copy::copy_chunk;
use super::place::{FRONT, Place};
use crate::Reason;
use crate::contiguous::ContiguousBuf;
use bytes::{Buf, Bytes};
use std::alloc::Global;
use std::collections::VecDeque;

/// Returns the bytes of the buffer at a place, from there to its end.
#[inline]
pub(super) fn rest_of_piece<B: ContiguousBuf>(bufs: &VecDeque<B>, place: Place) -> &[u8]
    requires some { place.passed < length bufs.now.items }
    requires inside { IsInsideSegment place.passed place.offset (map B.unread bufs.now.items) }
    ensures { result.now
        ≡ front_segment (segments_from place.passed place.offset (map B.unread bufs.now.items)) }
{
    &bufs[place.passed].as_contiguous()[place.offset..]
}

/// Like `rest_of_piece`, but at most `most` bytes.
#[inline]
fn piece_at<B: ContiguousBuf>(bufs: &VecDeque<B>, place: Place, most: usize) -> &[u8]
    requires some { place.passed < length bufs.now.items }
    requires inside { IsInsideSegment place.passed place.offset (map B.unread bufs.now.items) }
    ensures { result.now ≡ take most
        (front_segment (segments_from place.passed place.offset (map B.unread bufs.now.items))) }
{
    let whole = rest_of_piece(bufs, place);
    &whole[..whole.len().min(most)]
}

/// Like `piece_at`, but shared if the buffer shares its own.
pub(super) fn part_of_piece<B: ContiguousBuf>(
    bufs: &VecDeque<B>,
    place: Place,
    alloc: Global,
    most: usize,
) -> Result<Bytes, Reason>
    requires some { place.passed < length bufs.now.items }
    requires inside { IsInsideSegment place.passed place.offset (map B.unread bufs.now.items) }
    ensures value { IfOk result (λ part. part ≡ take most
        (front_segment (segments_from place.passed place.offset (map B.unread bufs.now.items)))) }
    ensures reason { IfErr result (λ reason. reason ≡ Reason.OutOfMemory) }
    ensures none { most ≡ 0 → IsOk result }
{
    let buf = &bufs[place.passed];
    let count = (buf.remaining() - place.offset).min(most);
    buf.part(alloc, place.offset..place.offset + count)
}

/// Fills `dst` with the first bytes.
pub(super) fn copy_pieces_into<B: ContiguousBuf>(bufs: &VecDeque<B>, dst: &mut [u8])
    requires { length dst.old ≤ length (concat (map B.unread bufs.now.items)) }
    ensures { dst.new ≡ take (length dst.old) (concat (map B.unread bufs.now.items)) }
{
    let mut copied = 0;
    let mut place = FRONT;
    while copied < dst.len() {
        let piece = piece_at(bufs, place, dst.len() - copied);
        dst[copied..copied + piece.len()].copy_from_slice(piece);
        copied += piece.len();
        place.passed += 1;
        place.offset = 0;
    }
}

/// Appends the next `len` bytes to an empty copy, which has room for them.
pub(super) fn copy_pieces<B: ContiguousBuf>(
    bufs: &VecDeque<B>,
    from: Place,
    copy: &mut Vec<u8>,
    len: usize,
)
    requires inside { IsInsideSegment from.passed from.offset (map B.unread bufs.now.items) }
    requires some { len
        ≤ length (concat (segments_from from.passed from.offset (map B.unread bufs.now.items))) }
    requires room { (copy.old.items ≡ []) × (len ≤ vec_capacity copy.old) }
    ensures { copy.new.items
        ≡ take len (concat (segments_from from.passed from.offset (map B.unread bufs.now.items))) }
{
    let mut place = from;
    while copy.len() < len {
        copy_chunk(copy, rest_of_piece(bufs, place), len);
        place.passed += 1;
        place.offset = 0;
    }
}

/// Whether the next bytes are `prefix`. There are at least as many.
pub(super) fn pieces_start_with<B: ContiguousBuf>(
    bufs: &VecDeque<B>,
    from: Place,
    prefix: &[u8],
) -> bool
    requires inside { IsInsideSegment from.passed from.offset (map B.unread bufs.now.items) }
    requires some { length prefix.now
        ≤ length (concat (segments_from from.passed from.offset (map B.unread bufs.now.items))) }
    ensures { IsTrue result ↔ (take (length prefix.now)
        (concat (segments_from from.passed from.offset (map B.unread bufs.now.items)))
        ≡ prefix.now) }
{
    let mut rest = prefix;
    let mut place = from;
    while !rest.is_empty() {
        let Some(following) = rest.strip_prefix(piece_at(bufs, place, rest.len())) else {
            return false;
        };
        rest = following;
        place.passed += 1;
        place.offset = 0;
    }
    true
}

/// Returns the next `len` bytes in pieces, shared if a buffer shares its own.
pub(super) fn share_pieces<B: ContiguousBuf>(
    bufs: &VecDeque<B>,
    from: Place,
    alloc: Global,
    len: usize,
) -> Result<VecDeque<Bytes>, Reason>
    requires inside { IsInsideSegment from.passed from.offset (map B.unread bufs.now.items) }
    requires some { len
        ≤ length (concat (segments_from from.passed from.offset (map B.unread bufs.now.items))) }
    ensures ok { IfOk result (λ pieces. pieces.items
        ≡ take_from_segments len (segments_from from.passed from.offset (map B.unread bufs.now.items))) }
    ensures reason { IfErr result (λ reason. reason ≡ Reason.OutOfMemory) }
    ensures none { len ≡ 0 → IsOk result }
{
    let mut pieces = VecDeque::new(alloc);
    let mut left = len;
    let mut place = from;
    while left > 0 {
        let piece = part_of_piece(bufs, place, alloc, left)?;
        left -= piece.len();
        pieces.push_back(piece)?;
        place.passed += 1;
        place.offset = 0;
    }
    Ok(pieces)
}
