//! Tables filled with the slices of many buffers.
ghost use Rattle.std.specs.Prelude.{◌≡◌, ◌≤◌, length, map};
ghost use Rattle.std.specs.List.{concat};
ghost use Rattle.bytes_utils_buf.specs.Slices.{FillsSlices};

use crate::parts::BufParts;
use std::collections::VecDeque;

/// Fills the table with the slices of one buffer after another, until it is full. Returns how many
/// places it filled.
pub(super) fn fill_from<'s, B: BufParts>(bufs: &'s [B], dst: &mut [&'s [u8]]) -> usize
    ensures { FillsSlices result dst.old dst.new (concat (map B.unread bufs.now)) }
{
    let mut filled = 0;
    let mut i = 0;
    while i < bufs.len() && filled < dst.len() {
        filled += bufs[i].chunks_into(&mut dst[filled..]);
        i += 1;
    }
    filled
}

/// Like `fill_from`, but over the two slices of a deque.
pub(super) fn fill_from_held<'s, B: BufParts>(
    segments: &'s VecDeque<B>,
    dst: &mut [&'s [u8]],
) -> usize
    ensures { FillsSlices result dst.old dst.new (concat (map B.unread segments.now.items)) }
{
    let (first, second) = segments.as_slices();
    let filled = fill_from(first, dst);
    if filled == dst.len() {
        return filled;
    }
    filled + fill_from(second, &mut dst[filled..])
}
