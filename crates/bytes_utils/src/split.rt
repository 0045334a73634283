//! Iterators that split a text into owned parts.

mod boundary;
pub mod character;
mod closure;
mod cut;
mod direction;
mod empty_separator;
mod inclusive;
mod indices;
mod lines;
mod once;
mod search;
mod separator;
mod separator_step;
mod slice_ref;
mod strip;
mod trim;
mod words;

pub use boundary::boundaries;
pub use closure::BytesIter;
pub use direction::Direction;
pub use inclusive::SplitInclusiveBytes;
pub use indices::SplitIndicesBytes;
pub use lines::{LinesBytes, line_place};
pub use separator::{RSplitBytes, RSplitNBytes, SplitBytes, SplitNBytes};
pub use words::{SplitAsciiWhitespaceBytes, SplitWhitespaceBytes};
