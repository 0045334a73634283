//! Many buffers written in few calls.
ghost use Rattle.std.specs.Prelude.{◌≡◌, ◌+◌, ◌^◌, ◌<◌, ◌≤◌, [], ◌++◌, length, take, drop, IsTrue, OnOk, OnErr};
ghost use Rattle.std.specs.Io.KnownBytes.{Appends};
ghost use Rattle.bytes_utils_buf.specs.Slices.{joined_slices};
ghost use Rattle.bytes_utils_buf.specs.Write.{WritesCounted, WritesFront};

use crate::parts::BufParts;
use bytes::Buf;
use std::io::{self, ErrorKind, Write};

/// The most slices of a buffer that are written before their bytes are removed from it.
const MOST_SLICES: usize = 1_024;

/// The length of the table that is filled first. A buffer with fewer slices needs no longer one.
const FEW_SLICES: usize = 16;

/// The length of the usual block for small slices.
const BLOCK_LEN: usize = 16_384;

/// The length of the block for slices with no more bytes than this.
const SMALL_BLOCK_LEN: usize = 2_048;

/// The length of the block for slices with more than twice the bytes of the usual one.
const LARGE_BLOCK_LEN: usize = 65_536;

/// The length from which a slice is written by a call of its own, without a copy.
const LARGE_LEN: usize = 4_097;

/// Writes `bytes`, and adds the number of bytes written to `written`.
fn write_bytes<W: Write>(writer: &mut W, bytes: &[u8], written: &mut usize) -> io::Result<()>
    requires { written.old + length bytes.now ≤ usize.MAX }
    ensures front { WritesCounted (W.contents writer.old) (W.contents writer.new)
        written.old written.new bytes.now }
    ensures ok { OnOk result (written.new ≡ written.old + length bytes.now) }
    ensures err { OnErr result (written.new < written.old + length bytes.now) }
{
    let mut rest = bytes;
    while !rest.is_empty() {
        let count = writer.write(rest)?;
        if count == 0 {
            return Err(io::Error::from(ErrorKind::WriteZero));
        }
        *written += count;
        rest = &rest[count..];
    }
    Ok(())
}

/// Whether a slice is small, and has at most `room` bytes.
fn is_gathered_to_write(slice: &[u8], room: usize) -> bool
    ensures { IsTrue result → length slice.now ≤ room }
{
    slice.len() < LARGE_LEN && slice.len() <= room
}

/// Copies the first small slices into the block, as many as fit whole. Returns how many slices they
/// are, and how many bytes they have.
fn gather_to_write(slices: &[&[u8]], block: &mut [u8]) -> (usize, usize)
    ensures slices { result.0 ≤ length slices.now }
    ensures room { result.1 ≤ length block.old }
    ensures bytes { take result.1 block.new ≡ joined_slices (take result.0 slices.now) }
{
    let mut gathered = 0;
    let mut filled = 0;
    while gathered < slices.len() && is_gathered_to_write(slices[gathered], block.len() - filled) {
        let slice = slices[gathered];
        block[filled..filled + slice.len()].copy_from_slice(slice);
        filled += slice.len();
        gathered += 1;
    }
    (gathered, filled)
}

/// Returns how many slices to write next, and their bytes: small slices, copied into the block, or
/// one large slice as it is.
fn front_to_write<'b, 's: 'b>(slices: &[&'s [u8]], block: &'b mut [u8]) -> (usize, &'b [u8])
    requires { 0 < length slices.now }
    ensures some { 0 < result.0 }
    ensures slices { result.0 ≤ length slices.now }
    ensures bytes { result.1.now ≡ joined_slices (take result.0 slices.now) }
{
    let (gathered, filled) = gather_to_write(slices, block);
    if gathered == 0 {
        return (1, slices[0]);
    }
    (gathered, &block[..filled])
}

/// Writes `slices`, and adds the number of bytes written to `written`. Small slices are copied into
/// a block of `BLOCK` bytes, which only this call has on its stack.
#[inline(never)]
fn write_slices<W: Write, const BLOCK: usize>(
    writer: &mut W,
    slices: &[&[u8]],
    written: &mut usize,
) -> io::Result<()>
    requires fits { written.old + length (joined_slices slices.now) ≤ usize.MAX }
    requires block { BLOCK < 2 ^ 63 }
    ensures front { WritesCounted (W.contents writer.old) (W.contents writer.new)
        written.old written.new (joined_slices slices.now) }
    ensures ok { OnOk result (written.new ≡ written.old + length (joined_slices slices.now)) }
    ensures err { OnErr result (written.new < written.old + length (joined_slices slices.now)) }
{
    let mut block = [0; BLOCK];
    let mut place = 0;
    while place < slices.len() {
        let (count, bytes) = front_to_write(&slices[place..], &mut block);
        write_bytes(writer, bytes, written)?;
        place += count;
    }
    Ok(())
}

/// Whether the slices have at most `room` bytes together.
fn fit_write_block(slices: &[&[u8]], room: usize) -> bool {
    let mut room = room;
    for slice in slices {
        if room < slice.len() {
            return false;
        }
        room -= slice.len();
    }
    true
}

/// As `write_slices`, with a block that is large only for many bytes. One slice needs none.
fn write_by_block<W: Write>(writer: &mut W, slices: &[&[u8]], written: &mut usize) -> io::Result<()>
    requires { written.old + length (joined_slices slices.now) ≤ usize.MAX }
    ensures front { WritesCounted (W.contents writer.old) (W.contents writer.new)
        written.old written.new (joined_slices slices.now) }
    ensures ok { OnOk result (written.new ≡ written.old + length (joined_slices slices.now)) }
    ensures err { OnErr result (written.new < written.old + length (joined_slices slices.now)) }
{
    if slices.len() == 1 {
        return write_bytes(writer, slices[0], written);
    }
    if fit_write_block(slices, SMALL_BLOCK_LEN) {
        return write_slices::<W, SMALL_BLOCK_LEN>(writer, slices, written);
    }
    if fit_write_block(slices, 2 * BLOCK_LEN) {
        return write_slices::<W, BLOCK_LEN>(writer, slices, written);
    }
    write_slices::<W, LARGE_BLOCK_LEN>(writer, slices, written)
}

/// Writes the first slices of a buffer. Returns how many bytes were written, and any error.
fn write_first<W: Write, B: BufParts>(
    writer: &mut W,
    buf: &B,
    slices: &[&[u8]],
) -> (usize, io::Result<()>)
    requires front { joined_slices slices.now ++ drop (length (joined_slices slices.now)) (B.unread buf.now)
        ≡ B.unread buf.now }
    requires some { 0 < length (B.unread buf.now) → 0 < length (joined_slices slices.now) }
    ensures bound { result.0 ≤ length (B.unread buf.now) }
    ensures bytes { Appends (W.contents writer.old) (W.contents writer.new)
        (take result.0 (B.unread buf.now)) }
    ensures some { OnOk result.1 (0 < length (B.unread buf.now) → 0 < result.0) }
    ensures err { OnErr result.1 (result.0 < length (B.unread buf.now)) }
{
    // The number of unread bytes fits `usize`.
    let _most = buf.remaining();
    let mut written = 0;
    let result = write_by_block(writer, slices, &mut written);
    (written, result)
}

/// As `write_front`, with the longer table, which only this call has on its stack.
#[inline(never)]
#[tactic(auto, using(crate::proofs::WriteLemmas::FillsSlices_some))]
fn write_many<W: Write, B: BufParts>(writer: &mut W, buf: &B) -> (usize, io::Result<()>)
    ensures bound { result.0 ≤ length (B.unread buf.now) }
    ensures bytes { Appends (W.contents writer.old) (W.contents writer.new)
        (take result.0 (B.unread buf.now)) }
    ensures some { OnOk result.1 (0 < length (B.unread buf.now) → 0 < result.0) }
    ensures err { OnErr result.1 (result.0 < length (B.unread buf.now)) }
{
    let mut table: [&[u8]; MOST_SLICES] = [b""; MOST_SLICES];
    let filled = buf.chunks_into(&mut table);
    write_first(writer, buf, &table[..filled])
}

/// Writes the first slices of a buffer. Returns how many bytes were written, and any error.
#[tactic(auto, using(crate::proofs::WriteLemmas::FillsSlices_some))]
fn write_front<W: Write, B: BufParts>(writer: &mut W, buf: &B) -> (usize, io::Result<()>)
    ensures bound { result.0 ≤ length (B.unread buf.now) }
    ensures bytes { Appends (W.contents writer.old) (W.contents writer.new)
        (take result.0 (B.unread buf.now)) }
    ensures some { OnOk result.1 (0 < length (B.unread buf.now) → 0 < result.0) }
    ensures err { OnErr result.1 (result.0 < length (B.unread buf.now)) }
{
    let mut table: [&[u8]; FEW_SLICES] = [b""; FEW_SLICES];
    let filled = buf.chunks_into(&mut table);
    if filled == FEW_SLICES {
        return write_many(writer, buf);
    }
    write_first(writer, buf, &table[..filled])
}

/// Writes all unread bytes of `buf`, such as a `SegmentedBuf` or a `SegmentedSlice` of borrowed
/// buffers, and removes them from it:
///
/// ```text
/// let mut parts = [b"Hello".as_slice(), b" ", b"World"];
/// write_all_of(&mut out, &mut SegmentedSlice::new(&mut parts))?; // if `total` isn't `None`
/// ```
///
/// Slices of at most 4,096 bytes that follow one another are copied into a block on the stack, and
/// one call writes up to 1,024 of them. The block has 64 KiB if the next 1,024 slices, large ones
/// too, have more than 32 KiB, 2 KiB if they fit it, and 16 KiB otherwise. A larger slice is written
/// by a call of its own, without a copy, and so is one that is the only one. For fewer than 16
/// slices the table is smaller.
///
/// A short write is continued. Fails with an `io::Error`; then `buf` has the bytes that were not
/// written, at least one. No clause says which error: it is the writer's own, after which no further
/// write is made, or `WriteZero` if a write took nothing.
pub fn write_all_of<W: Write, B: BufParts>(writer: &mut W, buf: &mut B) -> io::Result<()>
    ensures front { WritesFront (W.contents writer.old) (W.contents writer.new)
        (B.unread buf.old) (B.unread buf.new) }
    ensures ok { OnOk result (Appends (W.contents writer.old) (W.contents writer.new)
        (B.unread buf.old)) }
    ensures empty { OnOk result (B.unread buf.new ≡ []) }
    ensures err { OnErr result (0 < length (B.unread buf.new)) }
    ensures kept { B.kept buf.new ≡ B.kept buf.old }
{
    while buf.has_remaining() {
        let (written, result) = write_front(writer, buf);
        buf.advance(written);
        result?;
    }
    Ok(())
}
