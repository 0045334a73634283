//! The sum of the unread bytes of buffers.
ghost use Rattle.std.specs.Prelude.{◌≡◌, ◌^◌, ◌<◌, length, map};
ghost use Rattle.std.specs.List.{concat};
ghost use Rattle.std.specs.Option.{SomeIff};

use bytes::Buf;
use std::collections::VecDeque;

/// Sums the unread bytes of all buffers, or returns `None` if the sum exceeds `usize::MAX`.
pub(super) fn sum_of<B: Buf>(bufs: &[B]) -> Option<usize>
    ensures { SomeIff result (length (concat (map B.unread bufs.now)) < 2 ^ 64)
        (length (concat (map B.unread bufs.now))) }
{
    let mut sum: usize = 0;
    for buf in bufs {
        sum = sum.checked_add(buf.remaining())?;
    }
    Some(sum)
}

/// Like `sum_of`, but over the two slices of a deque.
pub(super) fn sum_of_held<B: Buf>(bufs: &VecDeque<B>) -> Option<usize>
    ensures { SomeIff result (length (concat (map B.unread bufs.now.items)) < 2 ^ 64)
        (length (concat (map B.unread bufs.now.items))) }
{
    let (first, second) = bufs.as_slices();
    sum_of(first)?.checked_add(sum_of(second)?)
}
