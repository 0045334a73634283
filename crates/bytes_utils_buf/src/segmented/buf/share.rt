//! Blocks that become shared bytes.
ghost use Rattle.std.specs.Prelude.{◌≡◌, [], map, IsOk, IfOk, IfErr};
ghost use Rattle.std.specs.List.{concat};
ghost use Rattle.bytes_utils_buf.specs.Packing.{packed_bytes};
ghost use Rattle.bytes_utils_buf.specs.Segments.{newly_held};

use super::SegmentedBuf;
use crate::{EitherBuf, Reason, Refused};
use bytes::{Bytes, BytesMut};
use std::alloc::Global;
use std::collections::VecDeque;
use std::mem::replace;

impl SegmentedBuf<EitherBuf<Bytes, BytesMut>> {
    /// Returns the segments, each as a `Bytes` that shares its block, with a tally of their own.
    /// Fails with `OutOfMemory` if memory is refused, never for no segments; then the value comes
    /// back, with the same bytes, but blocks may be frozen.
    pub fn into_shared(
        mut self,
        alloc: Global,
    ) -> Result<SegmentedBuf<Bytes>, Refused<SegmentedBuf<EitherBuf<Bytes, BytesMut>>>>
        ensures ok { IfOk result (λ all. all ≡ newly_held self.segments) }
        ensures bytes { IfOk result (λ all. concat all.segments ≡ concat self.segments) }
        ensures back { IfErr result (λ e. e.back ≡ self) }
        ensures reason { IfErr result (λ e. e.reason ≡ Reason.OutOfMemory) }
        ensures empty { self.segments ≡ [] → IsOk result }
    {
        match self.share(alloc) {
            Ok(all) => Ok(all),
            Err(reason) => Err(Refused { reason, back: self }),
        }
    }

    /// As `into_shared`. The value stays as it is, except that its blocks can't grow any more.
    fn share(&mut self, alloc: Global) -> Result<SegmentedBuf<Bytes>, Reason>
        ensures ok { IfOk result (λ all. all ≡ newly_held self.old.segments) }
        ensures same { self.new ≡ self.old }
        ensures reason { IfErr result (λ reason. reason ≡ Reason.OutOfMemory) }
        ensures empty { self.old.segments ≡ [] → IsOk result }
    {
        share_all(&mut self.segments)?;
        self.prefix(alloc, self.remaining)
    }
}

/// Makes each block a `Bytes`, without a copy.
fn share_all(pieces: &mut VecDeque<EitherBuf<Bytes, BytesMut>>) -> Result<(), Reason>
    ensures same { map packed_bytes pieces.new.items ≡ map packed_bytes pieces.old.items }
    ensures reason { IfErr result (λ reason. reason ≡ Reason.OutOfMemory) }
    ensures empty { map packed_bytes pieces.old.items ≡ [] → IsOk result }
{
    for place in 0..pieces.len() {
        share_piece(&mut pieces[place])?;
    }
    Ok(())
}

/// Makes a block a `Bytes`, without a copy.
fn share_piece(piece: &mut EitherBuf<Bytes, BytesMut>) -> Result<(), Reason>
    ensures same { packed_bytes piece.new ≡ packed_bytes piece.old }
    ensures reason { IfErr result (λ reason. reason ≡ Reason.OutOfMemory) }
{
    match replace(piece, EitherBuf::Left(Bytes::new())) {
        EitherBuf::Left(bytes) => *piece = EitherBuf::Left(bytes),
        EitherBuf::Right(block) => match block.freeze() {
            Ok(bytes) => *piece = EitherBuf::Left(bytes),
            Err(refused) => {
                *piece = EitherBuf::Right(refused.value);
                return Err(Reason::OutOfMemory);
            }
        },
    }
    Ok(())
}
