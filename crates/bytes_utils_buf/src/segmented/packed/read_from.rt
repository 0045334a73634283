//! Reads into pieces that are held.
ghost use Rattle.std.specs.Prelude.{◌≡◌, ◌<◌, ◌≤◌, [], ◌∷◌, length, IfOk, IfSome, IfNone, OnErr};
ghost use Rattle.std.specs.Io.KnownBytes.{Keeps};
ghost use Rattle.bytes_utils_buf.specs.Packing.{Packs, after_packing, last_packed};
ghost use Rattle.bytes_utils_buf.specs.Reading.{Reads};
ghost use Rattle.bytes_utils_buf.specs.Segments.{IsPaid, after_accepting};

use super::{PackedBuf, packed_block, packed_block_len};
use crate::segmented::BLOCK;
use bytes::BytesMut;
use std::alloc::Global;
use std::io::{self, Read};
use std::mem::replace;

impl PackedBuf {
    /// Makes one read of `input`, straight into the room of the last block, or into a new one if
    /// that has room for too few bytes: fewer than 512, or than `set_read_room` set. Returns the
    /// number of bytes that came, which is 0 at the end of the input only. They are held as
    /// `push_slice` holds them, without its copy.
    ///
    /// Fails with an `io::Error`; then nothing was read and nothing has changed. No clause says which
    /// error: it is the reader's own, `Interrupted` too, `OutOfMemory` if memory is refused, or
    /// `FileTooLarge` if the number of held bytes might pass `usize::MAX`.
    pub fn read_from<R: Read>(&mut self, alloc: Global, input: &mut R) -> io::Result<usize>
        ensures read { IfOk result (λ count. Reads Packs
            (R.remaining input.old) (R.remaining input.new) self.old.held self.new.held count) }
        ensures threshold { self.new.threshold ≡ self.old.threshold }
        ensures err { OnErr result (self.new ≡ self.old) }
        ensures unread { OnErr result (Keeps (R.remaining input.old) (R.remaining input.new)) }
        ensures paid { IsPaid self.old.held self.new.held }
    {
        let room = self.read_room.max(1);
        self.held.make_room_in_last(alloc, room)?;
        if let Some(count) = self.held.read_last(input, room)? {
            return Ok(count);
        }
        if self.held.segments() > 0 && self.held.last_segment().len() < self.threshold {
            return self.read_joined(alloc, input, room);
        }
        self.read_alone(alloc, input, room)
    }

    /// Reads into a new block after a copy of the last segment, whose place it takes.
    fn read_joined<R: Read>(
        &mut self,
        alloc: Global,
        input: &mut R,
        room: usize,
    ) -> io::Result<usize>
        requires room { 0 < room }
        requires last { 0 < length self.old.held.segments }
        ensures read { IfOk result (λ count. Reads (λ got old new. new ≡ after_packing old got)
            (R.remaining input.old) (R.remaining input.new) self.old.held self.new.held count) }
        ensures threshold { self.new.threshold ≡ self.old.threshold }
        ensures err { OnErr result (self.new ≡ self.old) }
        ensures unread { OnErr result (Keeps (R.remaining input.old) (R.remaining input.new)) }
    {
        let last = self.held.last_segment();
        let size = last.len().saturating_add(room);
        let mut block = BytesMut::with_capacity(alloc, packed_block_len(size, BLOCK))?;
        block.extend_reserved(last);
        self.held.read_instead_of_last(input, block)
    }

    /// Reads into a block of its own.
    fn read_alone<R: Read>(
        &mut self,
        alloc: Global,
        input: &mut R,
        room: usize,
    ) -> io::Result<usize>
        requires room { 0 < room }
        requires over { 0 < length self.old.held.segments
            → self.old.threshold ≤ length (last_packed self.old.held.segments) }
        ensures read { IfOk result
            (λ count. Reads (λ got old new. new ≡ after_accepting old (got ∷ []))
            (R.remaining input.old) (R.remaining input.new) self.old.held self.new.held count) }
        ensures threshold { self.new.threshold ≡ self.old.threshold }
        ensures err { OnErr result (self.new ≡ self.old) }
        ensures unread { OnErr result (Keeps (R.remaining input.old) (R.remaining input.new)) }
    {
        let emptied = replace(&mut self.emptied, BytesMut::new(alloc));
        self.emptied = packed_block(alloc, emptied, room, BLOCK)?;
        self.held.read_block(alloc, input, &mut self.emptied)
    }
}
