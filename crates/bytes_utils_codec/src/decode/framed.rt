//! A decoder with the bytes that it has not taken yet.
ghost use Rattle.std.specs.Prelude.{◌≡◌, ◌+◌, ◌^◌, ◌<◌, ◌≤◌, ◌↔◌, [], length, take, IfErr, IfOk, IsOk, IsTrue, OnErr, OnOk};
ghost use Rattle.std.specs.Io.KnownBytes.{IsAtEnd, Keeps};
ghost use Rattle.std.specs.List.{concat};
ghost use Rattle.bytes_utils_codec.specs.Pushing.{IsPush};
ghost use Rattle.bytes_utils_codec.specs.Decoding.{Decodes, DecodesAtEnd, IsFedBy, decoding, fed, passed, starting};

use super::Decoder;
use bytes::{Buf, Bytes};
use bytes_utils_buf::segmented::{PackedBuf, SegmentedBuf};
use bytes_utils_buf::{Reason, Refused};
use std::alloc::Global;
use std::io::{self, Read};
use std::marker::Model;

/// A piece of at most this many bytes is copied to those before it.
const SMALL: usize = 512;

/// A reader of the items of a decoder. The stream comes in pieces that are cut anywhere.
///
/// ```text
/// let mut frames = Framed::new(alloc, LengthPrefixed::new(1024));
/// frames.push_slice(b"\0\0\0\x03ab")?;
/// frames.next_item()?         // `None`
/// frames.push_slice(b"c\0\0")?;
/// frames.next_item()?         // `Ok(abc)`; two bytes are left
/// ```
///
/// Pieces of at most 512 bytes, or of another threshold, are copied together, so that a peer that
/// sends single bytes doesn't fill the memory with blocks: see [`PackedBuf`]. How many bytes are
/// held at most is up to the decoder.
#[derive(Drop)]
pub struct Framed<D: Decoder> {
    alloc: Global,
    decoder: D,
    held: PackedBuf,
}

impl<D: Decoder> Model for Framed<D> {
    ghost use Rattle.bytes_utils_codec.specs.Decoding.{Decoding, decoding};

    ghost Value = { Decoding D };

    ghost view = { λ d. decoding d.decoder d.held };
}

impl<D: Decoder> Framed<D> {
    /// Makes a reader that holds no bytes, and copies pieces of at most 512 bytes together.
    pub fn new(alloc: Global, decoder: D) -> Framed<D>
        ensures { result ≡ starting decoder 512 }
    {
        Framed::with_threshold(alloc, decoder, SMALL)
    }

    /// As `new`, but copies pieces of at most `threshold` bytes together. With 0 each piece of `push`
    /// is held as it is, so the caller has to bound their number.
    pub fn with_threshold(alloc: Global, decoder: D, threshold: usize) -> Framed<D>
        ensures { result ≡ starting decoder threshold }
    {
        Framed::from_parts(alloc, decoder, PackedBuf::new(alloc, threshold))
    }

    /// Makes a reader that holds these bytes, such as those that another one returned by `finish`:
    /// this decoder goes on over them.
    pub fn from_parts(alloc: Global, decoder: D, held: PackedBuf) -> Framed<D>
        ensures { result ≡ decoding decoder held }
    {
        Framed {
            alloc,
            decoder,
            held,
        }
    }

    /// Appends `piece`. A piece that is not longer than the threshold is copied to the end of those
    /// before it; a longer one is held as it is. Fails with `TooLong` if the number of held bytes
    /// would pass `usize::MAX`, and with `OutOfMemory` if memory is refused; then nothing has changed
    /// and `piece` comes back. An empty piece is never refused.
    pub fn push(&mut self, piece: Bytes) -> Result<(), Refused<Bytes>>
        ensures pushed { IsPush self.old.held piece result
            (self.new ≡ fed self.old piece) (self.new ≡ self.old) }
    {
        self.held.push(self.alloc, piece)
    }

    /// Appends a copy of `bytes`, in a block that it shares with other small pieces. Fails as `push`
    /// does; then nothing has changed.
    pub fn push_slice(&mut self, bytes: &[u8]) -> Result<(), Reason>
        ensures ok { OnOk result (self.new ≡ fed self.old bytes.now) }
        ensures err { OnErr result (self.new ≡ self.old) }
        ensures too_long { IfErr result (λ reason. (reason ≡ Reason.TooLong)
            ↔ (2 ^ 64 ≤ length self.old.held + length bytes.now)) }
        ensures empty { bytes.now ≡ [] → IsOk result }
    {
        self.held.push_slice(self.alloc, bytes)
    }

    /// Sets how many bytes a read of `read_from` or `read_item` has room for, at least: `room`, or 1
    /// for 0. Before, it is 512, or that of the `PackedBuf` that `from_parts` took. A caller who
    /// expects a long item sets more. No clause sees it.
    pub fn set_read_room(&mut self, room: usize)
        ensures { self.new ≡ self.old }
    {
        self.held.set_read_room(room);
    }

    /// Makes one read of `input`, straight into the room after the held bytes, which is at least 512
    /// bytes, or as many as `set_read_room` set, and mostly some 4,096. Returns the number of bytes
    /// that came, which is 0 at the end of the input only. Fails with an `io::Error`; then nothing was
    /// read and nothing has changed. No clause says which error: it is the reader's own, `Interrupted`
    /// too, `OutOfMemory` if memory is refused, or `FileTooLarge` if the number of held bytes might
    /// pass `usize::MAX`.
    pub fn read_from<R: Read>(&mut self, input: &mut R) -> io::Result<usize>
        ensures read { OnOk result
            (IsFedBy (R.remaining input.old) (R.remaining input.new) self.old self.new) }
        ensures count { IfOk result
            (λ count. length self.new.held ≡ length self.old.held + count) }
        ensures end { IfOk result (λ count. count ≡ 0 → IsAtEnd (R.remaining input.new)) }
        ensures err { OnErr result (self.new ≡ self.old) }
        ensures unread { OnErr result (Keeps (R.remaining input.old) (R.remaining input.new)) }
    {
        self.held.read_from(self.alloc, input)
    }

    /// Returns the next item, or `None` if more bytes have to come. Fails as the decoder does; then
    /// the call can be made again.
    pub fn next_item(&mut self) -> Result<Option<D::Item>, D::Error>
        ensures step { Decodes D.gives D.waits D.fails D.keeps self.old result self.new }
    {
        self.decoder.decode(self.alloc, &mut self.held)
    }

    /// Returns the next item at the end of the stream: also one that is ended by that alone. Returns
    /// `None` if there is none. Fails as the decoder does; then the call can be made again.
    pub fn last_item(&mut self) -> Result<Option<D::Item>, D::Error>
        ensures step { DecodesAtEnd D.gives D.fails D.fails_at_end D.keeps self.old result self.new }
    {
        self.decoder.decode_eof(self.alloc, &mut self.held)
    }

    /// Removes and returns the first `len` bytes, whatever they are: a body whose length an item
    /// reported. They are shared if they lie in the first segment, and else copied into one block.
    /// The decoder begins at the front of the bytes after them. Requires that `len` is at most the
    /// number of held bytes (test: `remaining`). Fails with `OutOfMemory` if memory is refused, never
    /// for no bytes; then nothing has changed.
    pub fn take_bytes(&mut self, len: usize) -> Result<Bytes, Reason>
        requires { len ≤ length self.old.held }
        ensures front { IfOk result (λ front. front ≡ take len self.old.held) }
        ensures ok { OnOk result (self.new ≡ passed D.restarted len self.old) }
        ensures err { OnErr result (self.new ≡ self.old) }
        ensures none { len ≡ 0 → IsOk result }
        ensures reason { IfErr result (λ reason. reason ≡ Reason.OutOfMemory) }
    {
        let front = self.held.take_bytes(self.alloc, len)?;
        self.decoder.restart();
        Ok(front)
    }

    /// As `take_bytes`, but in the pieces that held them: those that were held as they came are
    /// shared, and bytes that were copied together are copied once more.
    pub fn split_to(&mut self, len: usize) -> Result<SegmentedBuf<Bytes>, Reason>
        requires { len ≤ length self.old.held }
        ensures front { IfOk result (λ front. concat front.segments ≡ take len self.old.held) }
        ensures ok { OnOk result (self.new ≡ passed D.restarted len self.old) }
        ensures err { OnErr result (self.new ≡ self.old) }
        ensures none { len ≡ 0 → IsOk result }
        ensures reason { IfErr result (λ reason. reason ≡ Reason.OutOfMemory) }
    {
        let front = self.held.split_to(self.alloc, len)?;
        self.decoder.restart();
        Ok(front)
    }

    /// Drops the first `len` bytes, whatever they are, and asks for no memory: the end of a body, or
    /// one that is too long. The decoder begins at the front of the bytes after them. Requires that
    /// `len` is at most the number of held bytes (test: `remaining`).
    pub fn advance(&mut self, len: usize)
        requires { len ≤ length self.old.held }
        ensures { self.new ≡ passed D.restarted len self.old }
    {
        self.held.advance(len);
        self.decoder.restart();
    }

    /// Returns whether the held bytes start with `prefix`.
    pub fn starts_with(&self, prefix: &[u8]) -> bool
        ensures { IsTrue result ↔ (take (length prefix.now) self.now.held ≡ prefix.now) }
    {
        self.held.as_segmented().starts_with(prefix)
    }

    /// Returns the number of held bytes: those pushed and not yet taken.
    pub fn remaining(&self) -> usize
        ensures { result ≡ length self.now.held }
    {
        self.held.remaining()
    }

    /// Returns the held bytes, in their segments. There are at most two segments, and one more for
    /// each 256 bytes, or half of another threshold (clause `few` of `PackedBuf::segments`).
    pub fn pieces(&self) -> &PackedBuf
        ensures bytes { concat result.now.held.segments ≡ self.now.held }
        ensures threshold { result.now.threshold ≡ self.now.threshold }
    {
        &self.held
    }

    /// Returns the decoder.
    pub fn decoder(&self) -> &D
        ensures { result.now ≡ self.now.decoder }
    {
        &self.decoder
    }

    /// Returns the decoder and the held bytes: at the end of the stream, those that are in no item.
    pub fn finish(self) -> (D, PackedBuf)
        ensures decoder { result.0 ≡ self.decoder }
        ensures bytes { concat result.1.held.segments ≡ self.held }
        ensures threshold { result.1.threshold ≡ self.threshold }
    {
        let Framed { decoder, held, .. } = self;
        (decoder, held)
    }
}
