//! Many byte buffers read as one, and text over shared bytes that is split into owned parts.
//!
//! - [`SegmentedBuf`] holds buffers and [`SegmentedSlice`] borrows them. Each reads as one buffer.
//!   `contiguous`, `parts` and `write` are about buffers too.
//! - [`Str`] is text over shared bytes and [`StrMut`] is text that grows. `split` has the splitters
//!   of `str`, with owned parts.
//! - `json` reads and writes texts as JSON. Texts also implement the traits of `serde`.
//! - `needle` searches one piece of bytes, for `split` and for the streams of `bytes_utils_codec`.
//!
//! What comments say of shared or copied bytes and of the steps of a search is so in the bodies: no
//! clause sees it.
#![tactic(auto)]

pub mod json;
pub mod needle;
pub mod split;
pub mod string;

pub use bytes_utils_buf::{EitherBuf, Reason, Refused, contiguous, parts, segmented, write};
pub use segmented::{SegmentedBuf, SegmentedSlice};
pub use string::{Str, StrMut};
