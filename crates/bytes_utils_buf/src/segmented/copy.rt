//! Copying bytes across segments.
ghost use Rattle.std.specs.Prelude.{◌≡◌, ◌+◌, ◌-◌, ◌≤◌, ◌++◌, length, min, take, vec_capacity, IsOk, IfOk, IfErr, ◌⊎◌};
ghost use Rattle.std.specs.List.{concat};
ghost use Rattle.bytes.specs.Unread.{IsChunkOf};
ghost use Rattle.bytes_utils_buf.specs.Lent.{Lent, Passes};
ghost use Rattle.bytes_utils_buf.specs.Segments.{count_unread_segments, front_segment, FrontSegmentUnread};
ghost use Rattle.bytes_utils_buf.specs.Copies.{taken_by_copy};

use crate::parts::CopyRefused;
use bytes::Bytes;
use std::alloc::Global;

/// Segments in a row, whose calls are counted.
pub(super) trait SegmentedCopy {
    // The value as borrowed buffers.
    ghost lent: { Self → Lent };

    /// Returns a chunk of the first segment.
    fn front_chunk(&self) -> &[u8]
        ensures bytes { IsChunkOf result.now (concat (lent self.now).segments) }
        ensures front { IsChunkOf result.now (front_segment (lent self.now).segments) };

    /// Removes the first `cnt` bytes, by one counted call.
    fn skip(&mut self, cnt: usize)
        requires { cnt ≤ length (concat (lent self.old).segments) }
        ensures passes { Passes cnt (lent self.old) (lent self.new) }
        ensures calls { (lent self.new).tally.calls ≡ (lent self.old).tally.calls + 1 };

    /// Takes the first `len` bytes out, chunk by chunk.
    final fn collect(&mut self, alloc: Global, len: usize) -> Result<Bytes, CopyRefused>
    where
        Self: Sized,
        requires fits { len ≤ length (concat (lent self.old).segments) }
        requires front { FrontSegmentUnread (lent self.old).segments }
        ensures value { IfOk result (λ copy. copy ≡ take len (concat (lent self.old).segments)) }
        ensures taken { taken_by_copy len result ≤ len }
        ensures passes { Passes (taken_by_copy len result) (lent self.old) (lent self.new) }
        ensures refused { IfErr result (λ e. (e.taken ≡ 0) ⊎ (e.taken ≡ len)) }
        ensures none { len ≡ 0 → IsOk result }
        ensures least { (lent self.old).tally.calls ≤ (lent self.new).tally.calls }
        ensures most { (lent self.new).tally.calls
            ≤ (lent self.old).tally.calls + taken_by_copy len result }
        ensures each { (lent self.old).tally.calls + count_unread_segments (lent self.old).segments
            ≤ (lent self.new).tally.calls + count_unread_segments (lent self.new).segments }
    {
        let Ok(mut copy) = Vec::with_capacity(alloc, len) else {
            return Err(CopyRefused { taken: 0 });
        };
        while copy.len() < len {
            let count = copy_chunk(&mut copy, self.front_chunk(), len);
            self.skip(count);
        }
        match Bytes::from_vec(copy) {
            Ok(copy) => Ok(copy),
            Err(_) => Err(CopyRefused { taken: len }),
        }
    }
}

/// Returns how many bytes a copy of `len` bytes took.
#[inline]
pub(super) fn bytes_copied(copy: &Result<Bytes, CopyRefused>, len: usize) -> usize
    ensures { result ≡ taken_by_copy len copy.now }
{
    match copy {
        Ok(_) => len,
        Err(refused) => refused.taken,
    }
}

/// Appends the bytes of `chunk` to a copy, up to `len` bytes in all, and returns how many it
/// appended. The copy has room for them.
#[inline]
pub(super) fn copy_chunk(copy: &mut Vec<u8>, chunk: &[u8], len: usize) -> usize
    requires { (length copy.old.items ≤ len) × (len ≤ vec_capacity copy.old) }
    ensures count { result ≡ min (length chunk.now) (len - length copy.old.items) }
    ensures bytes { copy.new.items ≡ copy.old.items ++ take result chunk.now }
    ensures room { vec_capacity copy.old ≤ vec_capacity copy.new }
{
    let count = chunk.len().min(len - copy.len());
    let Ok(()) = copy.extend_from_slice(&chunk[..count]) else {
        unreachable!()
    };
    count
}
