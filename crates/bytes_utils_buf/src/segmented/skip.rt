//! Loops that step past segments. Each run of their bodies steps past one segment, and is a turn of
//! the tally.
ghost use Rattle.std.specs.Prelude.{◌≡◌, ◌+◌, ◌<◌, ◌≤◌, [], length, map, take, drop, replicate, slice_index_or, ◌++◌, IfSome, IfNone};
ghost use Rattle.std.specs.List.{concat};
ghost use Rattle.bytes_utils_buf.specs.Segments.{cut_front_segment, cut_segment_at, front_segment, SkipsSegments};

use super::tally::Tally;
use bytes::Buf;
use std::collections::VecDeque;

/// Removes the first `cnt` bytes of the held segments. A passed segment is dropped without being
/// advanced. The next one is advanced.
#[inline]
pub(super) fn skip_held<B: Buf + Drop>(segments: &mut VecDeque<B>, tally: &mut Tally, cnt: usize)
    requires { cnt ≤ length (concat (map B.unread segments.old.items)) }
    ensures skips { SkipsSegments cnt (map B.unread segments.old.items) (map B.unread segments.new.items) }
    ensures turns { tally.new.turns + length segments.new.items
        ≡ tally.old.turns + length segments.old.items }
    ensures rest { tally.new ≡ record tally.old { turns = tally.new.turns } }
{
    let mut left = cnt;
    while let Some(size) = front_len_to_skip(segments, left) {
        tally.turn();
        left -= size;
        let _ = segments.pop_front();
    }
    skip_in_front(segments, left);
}

/// Returns how many bytes the first held segment has, if they are at most `left`.
#[inline]
fn front_len_to_skip<B: Buf>(segments: &VecDeque<B>, left: usize) -> Option<usize>
    ensures some { IfSome result (λ size. (0 < length segments.now.items) × (size ≤ left)
        × (size ≡ length (front_segment (map B.unread segments.now.items)))) }
    ensures none { IfNone result (0 < length segments.now.items
        → left < length (front_segment (map B.unread segments.now.items))) }
{
    match segments.front() {
        Some(front) if front.remaining() <= left => Some(front.remaining()),
        _ => None,
    }
}

/// Removes `left` bytes from the first segment, if there is one.
#[inline]
fn skip_in_front<B: Buf>(segments: &mut VecDeque<B>, left: usize)
    requires { 0 < length segments.old.items
        → left ≤ length (front_segment (map B.unread segments.old.items)) }
    ensures { map B.unread segments.new.items ≡ cut_front_segment left (map B.unread segments.old.items) }
{
    if left == 0 {
        return;
    }
    if let Some(front) = segments.front_mut() {
        front.advance(left);
    }
}

/// Removes the first `cnt` bytes of borrowed buffers. A passed buffer becomes empty by one
/// `advance`. The next one is advanced. Returns how many were passed.
pub(super) fn skip_lent<B: Buf>(bufs: &mut [B], tally: &mut Tally, cnt: usize) -> usize
    requires { cnt ≤ length (concat (map B.unread bufs.old)) }
    ensures passed { result ≤ length bufs.old }
    ensures read_out { take result (map B.unread bufs.new) ≡ replicate result [] }
    ensures skips { SkipsSegments cnt (map B.unread bufs.old) (drop result (map B.unread bufs.new)) }
    ensures turns { tally.new ≡ record tally.old { turns = tally.old.turns + result } }
{
    let mut passed = 0;
    let mut left = cnt;
    while let Some(size) = lent_len_to_skip(bufs, passed, left) {
        tally.turn();
        bufs[passed].advance(size);
        left -= size;
        passed += 1;
    }
    skip_in_lent(bufs, passed, left);
    passed
}

/// Counts the empty borrowed buffers at the front.
pub(super) fn skip_empty_lent<B: Buf>(bufs: &[B], tally: &mut Tally) -> usize
    ensures passed { result ≤ length bufs.now }
    ensures read_out { map B.unread bufs.now
        ≡ replicate result [] ++ drop result (map B.unread bufs.now) }
    ensures skips { SkipsSegments 0 (map B.unread bufs.now) (drop result (map B.unread bufs.now)) }
    ensures turns { tally.new ≡ record tally.old { turns = tally.old.turns + result } }
{
    let mut empty = 0;
    while let Some(_) = lent_len_to_skip(bufs, empty, 0) {
        tally.turn();
        empty += 1;
    }
    empty
}

/// Returns how many bytes the borrowed buffer at index `at` has, if they are at most `left`.
#[inline]
fn lent_len_to_skip<B: Buf>(bufs: &[B], at: usize, left: usize) -> Option<usize>
    ensures some { IfSome result (λ size. (at < length bufs.now) × (size ≤ left)
        × (size ≡ length (slice_index_or (map B.unread bufs.now) at []))) }
    ensures none { IfNone result (at < length bufs.now
        → left < length (slice_index_or (map B.unread bufs.now) at [])) }
{
    match bufs.get(at) {
        Some(buf) if buf.remaining() <= left => Some(buf.remaining()),
        _ => None,
    }
}

/// Removes `left` bytes from the borrowed buffer at index `at`, if there is one.
fn skip_in_lent<B: Buf>(bufs: &mut [B], at: usize, left: usize)
    requires { at < length bufs.old → left ≤ length (slice_index_or (map B.unread bufs.old) at []) }
    ensures { map B.unread bufs.new ≡ cut_segment_at at left (map B.unread bufs.old) }
{
    if left > 0 && at < bufs.len() {
        bufs[at].advance(left);
    }
}
