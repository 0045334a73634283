//! Streams that come in pieces, read by decoders, or as text; a search, and a cursor, over the bytes
//! of many segments.
//!
//! - `decode` takes frames, lines, or what a decoder of yours takes, off a stream, and `texts` the text
//!   of it.
//! - `find` searches the bytes of many segments, `search` goes on where it stopped, and `cursor` reads
//!   parts off them.
//!
//! What comments say of shared or copied bytes, and of which bytes are looked at, is so in the bodies:
//! no clause sees it.
#![tactic(auto)]

pub mod cursor;
pub mod decode;
pub mod find;
mod find_end;
pub mod search;
pub mod texts;
