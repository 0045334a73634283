//! The bytes of the segments, one segment after another or as slices in a table.
ghost use Rattle.std.specs.Prelude.{◌≡◌};
ghost use Rattle.std.specs.Iterator.{YieldsFirstRef, item_count};
ghost use Rattle.std.specs.List.{concat};
ghost use Rattle.bytes_utils_buf.specs.Chunks.{to_come};
ghost use Rattle.bytes_utils_buf.specs.Slices.{FillsSlices};

use super::SegmentedBuf;
use crate::contiguous::ContiguousBuf;
use crate::parts::BufParts;
use crate::segmented::fill::fill_from_held;

/// An iterator over the bytes of each segment, front first. [`SegmentedBuf::chunks`] makes it.
#[derive(Drop)]
pub struct Chunks<'a, B: ContiguousBuf + Drop> {
    buf: &'a SegmentedBuf<B>,
    place: usize,
}

impl<B: ContiguousBuf + Drop> SegmentedBuf<B> {
    /// Returns an iterator over the bytes of each segment, front first. It takes none of them:
    ///
    /// ```text
    /// for chunk in body.chunks() {
    ///     hasher.write(chunk); // `Hello`, then ` World`
    /// }
    /// ```
    pub fn chunks(&self) -> Chunks<'_, B>
        ensures { to_come result ≡ self.now.segments }
    {
        Chunks {
            buf: self,
            place: 0,
        }
    }
}

impl<B: BufParts + Drop> SegmentedBuf<B> {
    /// Fills the first places of `dst` with slices of the unread bytes, and returns how many places
    /// it filled. It asks the segments in order. A nested one gives its own slices.
    pub fn chunks_vectored<'s>(&'s self, dst: &mut [&'s [u8]]) -> usize
        ensures { FillsSlices result dst.old dst.new (concat self.now.segments) }
    {
        fill_from_held(&self.segments, dst)
    }
}

impl<'a, B: ContiguousBuf + Drop> Iterator for Chunks<'a, B> {
    type Item = &'a [u8];

    ghost next_gives = { YieldsFirstRef to_come };

    ghost remaining = { item_count to_come };

    fn next(&mut self) -> Option<&'a [u8]> {
        if self.place >= self.buf.segments() {
            return None;
        }
        let segment = self.buf.segment(self.place)?;
        self.place += 1;
        Some(segment)
    }
}
