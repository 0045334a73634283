//! `SegmentedBuf`, `SegmentedSlice` and `PackedBuf`: many buffers that read as one.
mod buf;
mod copy;
mod fill;
mod packed;
mod pieces;
mod place;
mod skip;
mod slice;
mod sum;
mod tally;

pub use buf::{Chunks, SegmentedBuf};
pub use packed::PackedBuf;
pub use slice::SegmentedSlice;

/// How many bytes a new block has, if it need not have more.
const BLOCK: usize = 4096;
