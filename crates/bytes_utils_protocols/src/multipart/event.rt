//! What comes next of a part that is given as it comes.
use super::head::PartHead;
use bytes::Bytes;

/// What comes next of a part.
#[derive(Debug, Drop)]
pub enum PartEvent {
    /// The head, at the beginning of the part.
    Head(PartHead),
    /// A piece of the body, which is not empty. The body is all its pieces, joined.
    Body(Bytes),
    /// The end of the body, and of the part.
    End,
}
