//! Errors of refused calls.

mod convert;
mod show;

/// Why a call failed.
#[derive(Clone, Copy, Debug, Eq, PartialEq)]
pub enum Reason {
    /// Memory was refused, or a length is more than any allocation may have.
    OutOfMemory = 1,
    /// A sum of lengths exceeds `usize::MAX`, or a part of a message exceeds the limit of its reader.
    TooLong = 2,
}

/// The error of a call that gives back the value it did not accept.
#[derive(Debug, Drop)]
pub struct Refused<T> {
    /// Why the call failed.
    pub reason: Reason,
    /// The value that was not accepted.
    pub back: T,
}
