//! Places of bytes in held buffers.
ghost use Rattle.std.specs.Prelude.{◌≡◌, ◌<◌, ◌≤◌, [], length, map, slice_index_or, IfSome, IfNone};
ghost use Rattle.std.specs.List.{concat};
ghost use Rattle.bytes_utils_buf.specs.Segments.{IsInsideSegment, IsPlace, segments_from, SkipsSegments};

use bytes::Buf;
use std::collections::VecDeque;

/// A place in held buffers: after `passed` of them, and after `offset` bytes of the next one.
#[derive(Clone, Copy)]
pub(super) struct Place {
    pub passed: usize,
    pub offset: usize,
}

/// The place before all bytes.
pub(super) const FRONT: Place = Place {
    passed: 0,
    offset: 0,
};

/// Finds the place after the first `at` of the `len` bytes of these buffers. It looks at the buffers
/// between there and the nearer end, and advances none.
pub(super) fn find_place<B: Buf>(bufs: &VecDeque<B>, len: usize, at: usize) -> Place
    requires len { len ≡ length (concat (map B.unread bufs.now.items)) }
    requires within { at ≤ len }
    ensures place { IsPlace at result.passed result.offset (map B.unread bufs.now.items) }
    ensures skips { SkipsSegments at (map B.unread bufs.now.items)
        (segments_from result.passed result.offset (map B.unread bufs.now.items)) }
    ensures inside { IsInsideSegment result.passed result.offset (map B.unread bufs.now.items) }
{
    if at <= len / 2 {
        place_from_front(bufs, at)
    } else {
        place_from_back(bufs, len, at)
    }
}

/// As `find_place`, from the front.
fn place_from_front<B: Buf>(bufs: &VecDeque<B>, at: usize) -> Place
    requires { at ≤ length (concat (map B.unread bufs.now.items)) }
    ensures { IsPlace at result.passed result.offset (map B.unread bufs.now.items) }
{
    let mut passed = 0;
    let mut offset = at;
    while let Some(size) = size_within_place(bufs, passed, offset) {
        offset -= size;
        passed += 1;
    }
    Place { passed, offset }
}

/// As `find_place`, from the back.
fn place_from_back<B: Buf>(bufs: &VecDeque<B>, len: usize, at: usize) -> Place
    requires len { len ≡ length (concat (map B.unread bufs.now.items)) }
    requires within { at ≤ len }
    ensures { IsPlace at result.passed result.offset (map B.unread bufs.now.items) }
{
    let mut passed = bufs.len();
    let mut before = len;
    while before > at {
        passed -= 1;
        before -= size_at_place(bufs, passed);
    }
    Place {
        passed,
        offset: at - before,
    }
}

/// Returns how many bytes the buffer at index `at` has, if they are at most `left`.
#[inline]
fn size_within_place<B: Buf>(bufs: &VecDeque<B>, at: usize, left: usize) -> Option<usize>
    ensures some { IfSome result (λ size. (at < length bufs.now.items) × (size ≤ left)
        × (size ≡ length (slice_index_or (map B.unread bufs.now.items) at []))) }
    ensures none { IfNone result (at < length bufs.now.items
        → left < length (slice_index_or (map B.unread bufs.now.items) at [])) }
{
    match bufs.get(at) {
        Some(buf) if buf.remaining() <= left => Some(buf.remaining()),
        _ => None,
    }
}

/// Returns how many bytes the buffer at index `at` has.
#[inline]
fn size_at_place<B: Buf>(bufs: &VecDeque<B>, at: usize) -> usize
    requires { at < length bufs.now.items }
    ensures { result ≡ length (slice_index_or (map B.unread bufs.now.items) at []) }
{
    bufs[at].remaining()
}
