//! Integers at a cursor, and arrays of bytes. None of these calls asks for memory.
ghost use Rattle.std.specs.Prelude.{◌≡◌, ◌≤◌, length, take, slice_index};
ghost use Rattle.std.specs.Int.{w16, w32, w64, from_be_bytes, from_le_bytes};
ghost use Rattle.bytes.specs.Unread.{IsChunkOf};
ghost use Rattle.bytes_utils_codec.specs.Cursor.{CursorReadsValue, passed_on, unread};

use super::Cursor;
use bytes_utils_buf::contiguous::ContiguousBuf;

impl<'a, B: ContiguousBuf + Drop> Cursor<'a, B> {
    /// Passes the next `N` bytes and returns them, or returns `None` if fewer are there.
    pub fn take_array<const N: usize>(&mut self) -> Option<[u8; N]>
        ensures { CursorReadsValue N (λ bytes. bytes) self.old self.new result }
    {
        if self.remaining() < N {
            return None;
        }
        let mut bytes = [0; N];
        self.copy_next(&mut bytes);
        Some(bytes)
    }

    /// Passes the next byte and returns it, or returns `None` if there is none.
    pub fn take_u8(&mut self) -> Option<u8>
        ensures { CursorReadsValue 1 (λ bytes. slice_index bytes 0) self.old self.new result }
    {
        Some(u8::from_be_bytes(self.take_array()?))
    }

    /// Passes the next two bytes and returns the number that they write, the most significant one
    /// first, or returns `None` if fewer are there.
    pub fn take_u16(&mut self) -> Option<u16>
        ensures { CursorReadsValue 2 (from_be_bytes w16) self.old self.new result }
    {
        Some(u16::from_be_bytes(self.take_array()?))
    }

    /// As `take_u16`, the least significant byte first.
    pub fn take_u16_le(&mut self) -> Option<u16>
        ensures { CursorReadsValue 2 (from_le_bytes w16) self.old self.new result }
    {
        Some(u16::from_le_bytes(self.take_array()?))
    }

    /// As `take_u16`, of four bytes.
    pub fn take_u32(&mut self) -> Option<u32>
        ensures { CursorReadsValue 4 (from_be_bytes w32) self.old self.new result }
    {
        Some(u32::from_be_bytes(self.take_array()?))
    }

    /// As `take_u32`, the least significant byte first.
    pub fn take_u32_le(&mut self) -> Option<u32>
        ensures { CursorReadsValue 4 (from_le_bytes w32) self.old self.new result }
    {
        Some(u32::from_le_bytes(self.take_array()?))
    }

    /// As `take_u16`, of eight bytes.
    pub fn take_u64(&mut self) -> Option<u64>
        ensures { CursorReadsValue 8 (from_be_bytes w64) self.old self.new result }
    {
        Some(u64::from_be_bytes(self.take_array()?))
    }

    /// As `take_u64`, the least significant byte first.
    pub fn take_u64_le(&mut self) -> Option<u64>
        ensures { CursorReadsValue 8 (from_le_bytes w64) self.old self.new result }
    {
        Some(u64::from_le_bytes(self.take_array()?))
    }

    /// Fills `dst` with the next bytes, which it passes.
    fn copy_next(&mut self, dst: &mut [u8])
        requires { length dst.old ≤ length (unread self.old) }
        ensures bytes { dst.new ≡ take (length dst.old) (unread self.old) }
        ensures passed { self.new ≡ passed_on (length dst.old) self.old }
    {
        let mut filled = 0;
        while filled < dst.len() {
            let chunk = self.chunk();
            let count = chunk.len().min(dst.len() - filled);
            dst[filled..filled + count].copy_from_slice(&chunk[..count]);
            self.advance(count);
            filled += count;
        }
    }

    /// The next bytes that lie in one segment; none at the end.
    fn chunk(&self) -> &'a [u8]
        ensures { IsChunkOf result.now (unread self.now) }
    {
        let Some((index, offset)) = self.buf.segment_of(self.at) else {
            return &[];
        };
        match self.buf.segment(index) {
            Some(segment) => &segment[offset..],
            None => &[],
        }
    }
}
