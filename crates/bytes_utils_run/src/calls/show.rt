//! Copies of the bytes that a buffer shows.
ghost use Rattle.std.specs.Prelude.{◌≡◌, ◌<◌, length, map, IfOk, IfErr};
ghost use Rattle.bytes_utils_run.specs.Calls.{AreCallSlices, IsReply};
ghost use Rattle.bytes_utils_run.specs.declared.calls.call.ReadCall.{ReadCall as Reading};

use super::call::Reply;
use bytes::Buf;
use bytes_utils::parts::BufParts;
use std::alloc::{AllocError, Global};

/// Copies the first chunk.
pub(super) fn show_chunk<B: BufParts>(alloc: Global, buf: &B) -> Reply
    ensures { IsReply Reading.Chunk (B.unread buf.now) result }
{
    let chunk = buf.chunk();
    if chunk.is_empty() {
        return Reply::Shown(Vec::new(alloc));
    }
    match chunk.to_vec(alloc) {
        Ok(copy) => Reply::Shown(copy),
        Err(_) => Reply::NoMemory,
    }
}

/// Copies the slices that a table of `places` places is filled with.
pub(super) fn show_slices<B: BufParts>(alloc: Global, buf: &B, places: usize) -> Reply
    ensures { IsReply (Reading.Chunks places) (B.unread buf.now) result }
{
    match shown_slices(alloc, buf, places) {
        Ok(slices) => Reply::Slices(slices),
        Err(_) => Reply::NoMemory,
    }
}

/// Copies these slices. The table has at most as many places as there are bytes, since each slice
/// has at least one.
fn shown_slices<B: BufParts>(
    alloc: Global,
    buf: &B,
    places: usize,
) -> Result<Vec<Vec<u8>>, AllocError>
    ensures slices { IfOk result
        (λ slices. AreCallSlices places (map (λ s. s.items) slices.items) (B.unread buf.now)) }
    ensures places { IfErr result (λ _. 0 < places) }
    ensures bytes { IfErr result (λ _. 0 < length (B.unread buf.now)) }
{
    let empty: &[u8] = &[];
    let len = places.min(buf.remaining());
    if len == 0 {
        return Ok(Vec::new(alloc));
    }
    let mut table = vec![in alloc; empty; len]?;
    let filled = buf.chunks_into(&mut table);
    shown_copies(alloc, &table[..filled])
}

fn shown_copies(alloc: Global, slices: &[&[u8]]) -> Result<Vec<Vec<u8>>, AllocError>
    ensures { IfOk result (λ all. map (λ s. s.items) all.items ≡ map (λ s. s.now) slices.now) }
{
    let mut all = Vec::with_capacity(alloc, slices.len())?;
    for slice in slices {
        all.push(slice.to_vec(alloc)?)?;
    }
    Ok(all)
}
