//! What no clause says: worked cases, that calls succeed, printed text, how often a buffer is
//! looked at, and what is left after memory is refused.
mod buffers;
mod contiguous;
mod fixtures;
mod parts;
mod refused;
mod segmented;
mod write;
