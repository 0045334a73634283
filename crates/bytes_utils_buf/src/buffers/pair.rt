//! Two buffers that are read one after the other.
ghost use Rattle.std.specs.Prelude.{◌≡◌, ◌+◌, ◌≤◌, ◌++◌, length, take, IsOk, IfOk, IfErr};
ghost use Rattle.bytes_utils_buf.specs.Slices.{FillsSlices};

use crate::Reason;
use crate::contiguous::ContiguousBuf;
use crate::parts::slice_into;
use bytes::Bytes;
use std::alloc::Global;

/// Copies the first `len` bytes of both, which stay there too. If one of the two has them all, its
/// own `prefix` returns them.
pub(super) fn first_of_pair<T: ContiguousBuf, U: ContiguousBuf>(
    front: &T,
    back: &U,
    alloc: Global,
    len: usize,
) -> Result<Bytes, Reason>
    requires { len ≤ length (T.unread front.now) + length (U.unread back.now) }
    ensures value { IfOk result
        (λ first. first ≡ take len (T.unread front.now ++ U.unread back.now)) }
    ensures reason { IfErr result (λ reason. reason ≡ Reason.OutOfMemory) }
    ensures none { len ≡ 0 → IsOk result }
{
    let in_front = front.remaining();
    if len <= in_front {
        return front.prefix(alloc, len);
    }
    if in_front == 0 {
        return back.prefix(alloc, len);
    }
    let mut copy = Vec::with_capacity(alloc, len)?;
    copy.extend_from_slice(front.as_contiguous())?;
    copy.extend_from_slice(&back.as_contiguous()[..len - in_front])?;
    Ok(Bytes::from_vec(copy)?)
}

/// Puts two slices into the first places of `dst`, and returns how many places it filled.
pub(super) fn pair_slices_into<'s>(front: &'s [u8], back: &'s [u8], dst: &mut [&'s [u8]]) -> usize
    ensures { FillsSlices result dst.old dst.new (front.now ++ back.now) }
{
    let filled = slice_into(front, dst);
    if filled == dst.len() {
        return filled;
    }
    filled + slice_into(back, &mut dst[filled..])
}

/// Like `pair_slices_into`, but of the first `len` bytes only.
pub(super) fn first_pair_slices_into<'s>(
    front: &'s [u8],
    back: &'s [u8],
    len: usize,
    dst: &mut [&'s [u8]],
) -> usize
    requires { len ≤ length front.now + length back.now }
    ensures { FillsSlices result dst.old dst.new (take len (front.now ++ back.now)) }
{
    if len <= front.len() {
        return slice_into(&front[..len], dst);
    }
    pair_slices_into(front, &back[..len - front.len()], dst)
}
