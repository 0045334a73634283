//! Tables of the slices of borrowed buffers.
ghost use Rattle.bytes_utils_buf.specs.Slices.{FillsSlices};
ghost use Rattle.std.specs.List.{concat};

use super::SegmentedSlice;
use crate::parts::BufParts;
use crate::segmented::fill::fill_from;

impl<B: BufParts> SegmentedSlice<'_, B> {
    /// Fills the first places of `dst` with slices of the unread bytes, and returns how many places
    /// it filled. It asks the buffers in order. A nested one gives its own slices.
    pub fn chunks_vectored<'s>(&'s self, dst: &mut [&'s [u8]]) -> usize
        ensures { FillsSlices result dst.old dst.new (concat self.now.segments) }
    {
        let bufs = &*self.bufs;
        fill_from(&bufs[self.place..], dst)
    }
}
