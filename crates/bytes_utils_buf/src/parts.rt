//! Buffers that copy their unread bytes out, and show them as slices.
ghost use Rattle.std.specs.Prelude.{ℕ, ⊤, ◌≡◌, ◌<◌, ◌≤◌, length, take, drop, IfOk, IfErr, IsOk, OnErr, ◌⊎◌};
ghost use Rattle.bytes_utils_buf.specs.Copies.{taken_by_copy};
ghost use Rattle.bytes_utils_buf.specs.Slices.{joined_slices, FillsSlices};

use bytes::{Buf, Bytes};
use std::alloc::Global;

/// The error of a copy for which memory was refused.
#[derive(Clone, Copy, Debug, Eq, PartialEq)]
pub struct CopyRefused {
    /// How many bytes were already taken. They are lost.
    pub taken: usize,
}

/// A buffer that copies its unread bytes out, and shows them as slices.
///
/// Generic code that reads segmented types asks for this trait. Your own type can implement it. The
/// clauses are its laws.
pub trait BufParts: Buf {
    // Whether a refused copy of `len` of `held` unread bytes may have taken `taken` of them, as
    // `loses held len taken`.
    ghost loses: { ℕ → ℕ → ℕ → Type 0 } = { λ _ _ _. ⊤ };

    /// Takes the first `len` unread bytes out. Requires that `len` is at most `remaining()` (test:
    /// `remaining`). Fails with `CopyRefused` if memory is refused, never for no bytes; then the
    /// first `taken` of them, at most `len` and as many as `loses` allows, are lost.
    fn copy_out(&mut self, alloc: Global, len: usize) -> Result<Bytes, CopyRefused>
        requires { len ≤ length (Self.unread self.old) }
        ensures value { IfOk result (λ copy. copy ≡ take len (Self.unread self.old)) }
        ensures taken { taken_by_copy len result ≤ len }
        ensures lost { IfErr result (λ e. loses (length (Self.unread self.old)) len e.taken) }
        ensures none { len ≡ 0 → IsOk result }
        ensures rest { Self.unread self.new ≡ drop (taken_by_copy len result) (Self.unread self.old) }
        ensures kept { Self.kept self.new ≡ Self.kept self.old };

    /// Fills the first places of `dst` with slices of the unread bytes, and returns how many places
    /// it filled. If `dst` has room left, the slices are all of the unread bytes.
    fn chunks_into<'s>(&'s self, dst: &mut [&'s [u8]]) -> usize
        ensures { FillsSlices result dst.old dst.new (Self.unread self.now) };
}

/// `copy_out` shares the bytes, and never fails for all of them. If it fails, it has taken none.
impl BufParts for Bytes {
    ghost loses = { λ held len taken. (taken ≡ 0) × (len < held) };

    fn copy_out(&mut self, _alloc: Global, len: usize) -> Result<Bytes, CopyRefused>
        requires { len ≤ length self.old }
        ensures value { IfOk result (λ copy. copy ≡ take len self.old) }
        ensures taken { taken_by_copy len result ≤ len }
        ensures rest { self.new ≡ drop (taken_by_copy len result) self.old }
        ensures refused { IfErr result (λ e. e.taken ≡ 0) }
        ensures same { OnErr result (self.new ≡ self.old) }
        ensures none { len ≡ 0 → IsOk result }
        ensures whole { len ≡ length self.old → IsOk result }
    {
        match self.split_to(len) {
            Ok(copy) => Ok(copy),
            Err(_) => Err(CopyRefused { taken: 0 }),
        }
    }

    fn chunks_into<'s>(&'s self, dst: &mut [&'s [u8]]) -> usize
        ensures fills { FillsSlices result dst.old dst.new self.now }
        ensures one { result ≤ 1 }
        ensures all { 0 < length dst.old → joined_slices (take result dst.new) ≡ self.now }
    {
        slice_into(self.as_slice(), dst)
    }
}

/// `copy_out` copies the bytes. If it fails, it has taken none.
impl BufParts for &[u8] {
    ghost loses = { λ _ _ taken. taken ≡ 0 };

    fn copy_out(&mut self, alloc: Global, len: usize) -> Result<Bytes, CopyRefused>
        requires { len ≤ length self.old.now }
        ensures value { IfOk result (λ copy. copy ≡ take len self.old.now) }
        ensures taken { taken_by_copy len result ≤ len }
        ensures rest { self.new.now ≡ drop (taken_by_copy len result) self.old.now }
        ensures refused { IfErr result (λ e. e.taken ≡ 0) }
        ensures same { OnErr result (self.new.now ≡ self.old.now) }
        ensures none { len ≡ 0 → IsOk result }
    {
        if len == 0 {
            return Ok(Bytes::new());
        }
        let all: &[u8] = *self;
        let Ok(copy) = Bytes::copy_from_slice(alloc, &all[..len]) else {
            return Err(CopyRefused { taken: 0 });
        };
        *self = &all[len..];
        Ok(copy)
    }

    fn chunks_into<'s>(&'s self, dst: &mut [&'s [u8]]) -> usize
        ensures fills { FillsSlices result dst.old dst.new self.now.now }
        ensures one { result ≤ 1 }
        ensures all { 0 < length dst.old → joined_slices (take result dst.new) ≡ self.now.now }
    {
        slice_into(*self, dst)
    }
}

/// Takes the first `len` bytes out of any buffer by a copy: a body for `copy_out`. Requires that
/// `len` is at most `remaining()` (test: `remaining`). Fails with `CopyRefused` if memory is
/// refused, never for no bytes; then it has taken none of them, or all `len`.
pub fn copy_out_of<B: Buf>(buf: &mut B, alloc: Global, len: usize) -> Result<Bytes, CopyRefused>
    requires { len ≤ length (B.unread buf.old) }
    ensures value { IfOk result (λ copy. copy ≡ take len (B.unread buf.old)) }
    ensures taken { taken_by_copy len result ≤ len }
    ensures refused { IfErr result (λ e. (e.taken ≡ 0) ⊎ (e.taken ≡ len)) }
    ensures none { len ≡ 0 → IsOk result }
    ensures rest { B.unread buf.new ≡ drop (taken_by_copy len result) (B.unread buf.old) }
    ensures kept { B.kept buf.new ≡ B.kept buf.old }
{
    if len == 0 {
        return Ok(Bytes::new());
    }
    let Ok(mut copy) = vec![in alloc; 0; len] else {
        return Err(CopyRefused { taken: 0 });
    };
    buf.copy_to_slice(&mut copy);
    match Bytes::from_vec(copy) {
        Ok(copy) => Ok(copy),
        Err(_) => Err(CopyRefused { taken: len }),
    }
}

/// Puts `bytes` into the first place of `dst`, if neither is empty, and returns how many places it
/// filled: a body for `chunks_into` of a buffer with one slice.
pub fn slice_into<'s>(bytes: &'s [u8], dst: &mut [&'s [u8]]) -> usize
    ensures fills { FillsSlices result dst.old dst.new bytes.now }
    ensures one { result ≤ 1 }
    ensures all { 0 < length dst.old → joined_slices (take result dst.new) ≡ bytes.now }
{
    if bytes.is_empty() || dst.is_empty() {
        return 0;
    }
    dst[0] = bytes;
    1
}
