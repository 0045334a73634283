//! Buffers whose unread bytes are one slice.
ghost use Rattle.std.specs.Prelude.{◌≡◌, ◌≤◌, length, take, drop, slice_range, IsOk, IfOk, IfErr, OnErr};
ghost use Rattle.bytes_utils_buf.specs.Copies.{taken_by_copy};

use crate::Reason;
use crate::parts::CopyRefused;
use bytes::{Buf, Bytes};
use std::alloc::Global;
use std::ops::Range;

/// A buffer whose one chunk is all of its unread bytes.
///
/// Your own type can implement it. The clauses are its laws.
pub trait ContiguousBuf: Buf {
    /// Returns all unread bytes.
    fn as_contiguous(&self) -> &[u8]
        ensures { result.now ≡ Self.unread self.now };

    /// Copies the first `len` unread bytes, or shares them if the type can. They stay in the
    /// buffer. Requires that `len` is at most `remaining()` (test: `remaining`). Fails with
    /// `OutOfMemory` if memory is refused. With `len` 0 it never fails.
    fn prefix(&self, alloc: Global, len: usize) -> Result<Bytes, Reason>
        requires { len ≤ length (Self.unread self.now) }
        ensures value { IfOk result (λ first. first ≡ take len (Self.unread self.now)) }
        ensures reason { IfErr result (λ reason. reason ≡ Reason.OutOfMemory) }
        ensures none { len ≡ 0 → IsOk result }
    {
        if len == 0 {
            return Ok(Bytes::new());
        }
        Ok(Bytes::copy_from_slice(alloc, &self.as_contiguous()[..len])?)
    }

    /// Copies the unread bytes of a range, or shares them if the type can. They stay in the buffer.
    /// Requires that `range.start <= range.end` and `range.end <= remaining()` (test: `remaining`).
    /// Fails with `OutOfMemory` if memory is refused. An empty range never fails.
    fn part(&self, alloc: Global, range: Range<usize>) -> Result<Bytes, Reason>
        requires ordered { range.start ≤ range.end }
        requires within { range.end ≤ length (Self.unread self.now) }
        ensures value { IfOk result
            (λ part. part ≡ slice_range (Self.unread self.now) range.start range.end) }
        ensures reason { IfErr result (λ reason. reason ≡ Reason.OutOfMemory) }
        ensures none { range.start ≡ range.end → IsOk result }
    {
        if range.is_empty() {
            return Ok(Bytes::new());
        }
        Ok(Bytes::copy_from_slice(alloc, &self.as_contiguous()[range])?)
    }
}

/// `prefix` and `part` share the bytes.
impl ContiguousBuf for Bytes {
    fn as_contiguous(&self) -> &[u8] {
        self.as_slice()
    }

    fn prefix(&self, _alloc: Global, len: usize) -> Result<Bytes, Reason> {
        Ok(self.slice(..len)?)
    }

    fn part(&self, _alloc: Global, range: Range<usize>) -> Result<Bytes, Reason> {
        Ok(self.slice(range)?)
    }
}

/// `prefix` and `part` copy the bytes.
impl ContiguousBuf for &[u8] {
    fn as_contiguous(&self) -> &[u8] {
        *self
    }
}

/// Takes the first `len` bytes out of a buffer, as its own `prefix` returns them: a body for
/// `copy_out`. Requires that `len` is at most `remaining()` (test: `remaining`). Fails with
/// `CopyRefused` if memory is refused; then nothing has changed. With `len` 0 it never fails.
pub fn take_prefix<B: ContiguousBuf>(
    buf: &mut B,
    alloc: Global,
    len: usize,
) -> Result<Bytes, CopyRefused>
    requires { len ≤ length (B.unread buf.old) }
    ensures value { IfOk result (λ copy. copy ≡ take len (B.unread buf.old)) }
    ensures refused { IfErr result (λ e. e.taken ≡ 0) }
    ensures rest { B.unread buf.new ≡ drop (taken_by_copy len result) (B.unread buf.old) }
    ensures same { OnErr result (buf.new ≡ buf.old) }
    ensures none { len ≡ 0 → IsOk result }
    ensures kept { B.kept buf.new ≡ B.kept buf.old }
{
    let Ok(copy) = buf.prefix(alloc, len) else {
        return Err(CopyRefused { taken: 0 });
    };
    buf.advance(len);
    Ok(copy)
}
