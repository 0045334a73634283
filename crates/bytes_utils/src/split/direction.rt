//! The end of a text at which splitting begins.

/// The end from which a text is split.
#[derive(Clone, Copy, Debug, PartialEq, Eq)]
pub enum Direction {
    /// From the front: the first part is returned first.
    Forward,
    /// From the back: the last part is returned first.
    Backward,
}
