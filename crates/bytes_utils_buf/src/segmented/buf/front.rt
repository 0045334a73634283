//! Calls on the first held segment alone.
ghost use Rattle.std.specs.Prelude.{◌≡◌, ◌<◌, ◌≤◌, [], length, map, take, IsTrue, ◌↔◌, IsOk, IfOk, IfErr, OnOk, OnErr};
ghost use Rattle.std.specs.List.{concat};
ghost use Rattle.bytes_utils_buf.specs.Copies.{taken_by_copy};
ghost use Rattle.bytes_utils_buf.specs.Segments.{IsPaid, cut_front_segment, front_segment};

use super::SegmentedBuf;
use crate::parts::{BufParts, CopyRefused};
use crate::{EitherBuf, Reason};
use bytes::{Buf, Bytes, BytesMut};
use std::alloc::Global;
use std::collections::VecDeque;

impl SegmentedBuf<EitherBuf<Bytes, BytesMut>> {
    /// Takes all bytes of the only segment out, and returns them and that segment, which is empty.
    pub(crate) fn take_front_alone(
        &mut self,
        alloc: Global,
    ) -> Result<(Bytes, EitherBuf<Bytes, BytesMut>), Reason>
        requires { length self.old.segments ≡ 1 }
        ensures value { IfOk result (λ both. both.0 ≡ concat self.old.segments) }
        ensures none { OnOk result (self.new.segments ≡ []) }
        ensures paid { IsPaid self.old self.new }
        ensures err { OnErr result (self.new ≡ self.old) }
        ensures reason { IfErr result (λ reason. reason ≡ Reason.OutOfMemory) }
    {
        let all = take_from_front(&mut self.segments, alloc, self.remaining)?;
        let Some(last) = self.segments.pop_front() else {
            unreachable!()
        };
        self.tally.call();
        self.tally.turn();
        self.remaining = 0;
        Ok((all, last))
    }
}

/// Whether the first held segment has at least `len` bytes.
#[inline]
pub(super) fn front_holds<B: Buf>(segments: &VecDeque<B>, len: usize) -> bool
    ensures { IsTrue result
        ↔ ((0 < length segments.now.items) × (len ≤ length (front_segment (map B.unread segments.now.items)))) }
{
    match segments.front() {
        Some(front) => len <= front.remaining(),
        None => false,
    }
}

/// Takes `len` bytes out of the first held segment alone, by its `copy_out`.
#[inline(always)]
pub(super) fn take_from_front<B: BufParts>(
    segments: &mut VecDeque<B>,
    alloc: Global,
    len: usize,
) -> Result<Bytes, CopyRefused>
    requires some { 0 < length segments.old.items }
    requires holds { len ≤ length (front_segment (map B.unread segments.old.items)) }
    ensures value { IfOk result (λ copy. copy ≡ take len (front_segment (map B.unread segments.old.items))) }
    ensures taken { taken_by_copy len result ≤ len }
    ensures lost { IfErr result
        (λ e. B.loses (length (front_segment (map B.unread segments.old.items))) len e.taken) }
    ensures none { len ≡ 0 → IsOk result }
    ensures rest { map B.unread segments.new.items
        ≡ cut_front_segment (taken_by_copy len result) (map B.unread segments.old.items) }
{
    let Some(front) = segments.front_mut() else {
        unreachable!()
    };
    front.copy_out(alloc, len)
}
