//! A buffer of one of two types.
ghost use Rattle.std.specs.Prelude.{◌≡◌, ◌≤◌, length, take, drop, slice_range, IsOk, IfOk, IfErr, ◌⊎◌};
ghost use Rattle.bytes.specs.Unread.{IsChunkOf};
ghost use Rattle.bytes_utils_buf.specs.Either.{unread_of, kept_of, LosesOfSide};
ghost use Rattle.bytes_utils_buf.specs.Copies.{taken_by_copy};
ghost use Rattle.bytes_utils_buf.specs.Slices.{FillsSlices};

use crate::Reason;
use crate::contiguous::ContiguousBuf;
use crate::parts::{BufParts, CopyRefused};
use bytes::{Buf, Bytes};
use std::alloc::Global;
use std::ops::Range;

/// A buffer of one of two types. It reads as the buffer that it holds.
///
/// For buffers of two types that are read as one, such as a borrowed head and a shared body:
///
/// ```text
/// let mut message = SegmentedBuf::new(alloc);
/// message.push(EitherBuf::Left(b"HELLO ".as_slice()))?; // if `message.fits(6)`
/// message.push(EitherBuf::Right(body))?;                // a `Bytes`, if it fits
/// ```
///
/// It nests: for three types, `EitherBuf<A, EitherBuf<B, C>>`.
#[derive(Debug, Drop)]
pub enum EitherBuf<L, R> {
    /// A buffer of the first type.
    Left(L),
    /// A buffer of the second type.
    Right(R),
}

impl<L: Buf, R: Buf> Buf for EitherBuf<L, R> {
    ghost unread = { unread_of L.unread R.unread };

    ghost kept = { kept_of L.kept R.kept };

    fn remaining(&self) -> usize {
        match self {
            EitherBuf::Left(buf) => buf.remaining(),
            EitherBuf::Right(buf) => buf.remaining(),
        }
    }

    fn chunk(&self) -> &[u8] {
        match self {
            EitherBuf::Left(buf) => buf.chunk(),
            EitherBuf::Right(buf) => buf.chunk(),
        }
    }

    fn advance(&mut self, cnt: usize) {
        match self {
            EitherBuf::Left(buf) => buf.advance(cnt),
            EitherBuf::Right(buf) => buf.advance(cnt),
        }
    }
}

impl<L: BufParts, R: BufParts> BufParts for EitherBuf<L, R> {
    // As a refused copy of either side; `side` says of which.
    ghost loses = { λ held len taken. L.loses held len taken ⊎ R.loses held len taken };

    fn copy_out(&mut self, alloc: Global, len: usize) -> Result<Bytes, CopyRefused>
        requires { len ≤ length (unread_of L.unread R.unread self.old) }
        ensures value { IfOk result (λ copy. copy ≡ take len (unread_of L.unread R.unread self.old)) }
        ensures taken { taken_by_copy len result ≤ len }
        ensures lost { IfErr result
            (λ e. L.loses (length (unread_of L.unread R.unread self.old)) len e.taken
            ⊎ R.loses (length (unread_of L.unread R.unread self.old)) len e.taken) }
        ensures side { IfErr result
            (λ e. LosesOfSide L.unread R.unread L.loses R.loses self.old len e.taken) }
        ensures none { len ≡ 0 → IsOk result }
        ensures rest { unread_of L.unread R.unread self.new
            ≡ drop (taken_by_copy len result) (unread_of L.unread R.unread self.old) }
        ensures kept { kept_of L.kept R.kept self.new ≡ kept_of L.kept R.kept self.old }
    {
        match self {
            EitherBuf::Left(buf) => buf.copy_out(alloc, len),
            EitherBuf::Right(buf) => buf.copy_out(alloc, len),
        }
    }

    fn chunks_into<'s>(&'s self, dst: &mut [&'s [u8]]) -> usize {
        match self {
            EitherBuf::Left(buf) => buf.chunks_into(dst),
            EitherBuf::Right(buf) => buf.chunks_into(dst),
        }
    }
}

impl<L: ContiguousBuf, R: ContiguousBuf> ContiguousBuf for EitherBuf<L, R> {
    fn as_contiguous(&self) -> &[u8] {
        match self {
            EitherBuf::Left(buf) => buf.as_contiguous(),
            EitherBuf::Right(buf) => buf.as_contiguous(),
        }
    }

    fn prefix(&self, alloc: Global, len: usize) -> Result<Bytes, Reason> {
        match self {
            EitherBuf::Left(buf) => buf.prefix(alloc, len),
            EitherBuf::Right(buf) => buf.prefix(alloc, len),
        }
    }

    fn part(&self, alloc: Global, range: Range<usize>) -> Result<Bytes, Reason> {
        match self {
            EitherBuf::Left(buf) => buf.part(alloc, range),
            EitherBuf::Right(buf) => buf.part(alloc, range),
        }
    }
}
