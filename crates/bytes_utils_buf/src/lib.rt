//! Many byte buffers that read as one, without copying them together.
//!
//! [`SegmentedBuf`](segmented::SegmentedBuf) holds its buffers, and
//! [`SegmentedSlice`](segmented::SegmentedSlice) borrows them.
//! [`PackedBuf`](segmented::PackedBuf) holds pieces, and copies small ones together. [`EitherBuf`]
//! is a buffer of one of two types. [`BufParts`](parts::BufParts) is the trait of buffers that copy
//! their bytes out and show them as slices, and [`ContiguousBuf`](contiguous::ContiguousBuf) that of
//! those whose bytes are one slice. [`write_all_of`](write::write_all_of) writes a buffer in few calls.
//! Errors are an `io::Error` of reads and writes, a [`Reason`], a [`Refused`], which gives back a
//! value, or a [`CopyRefused`](parts::CopyRefused).
//!
//! What comments say of shared or copied bytes, of blocks and of the number of looks or writes is so
//! in the bodies: no clause sees it.
#![tactic(auto)]

mod buffers;
pub mod contiguous;
mod either_buf;
pub mod parts;
mod refused;
pub mod segmented;
pub mod write;

pub use either_buf::EitherBuf;
pub use refused::{Reason, Refused};
