//! A frame that is longer than the limit.
use std::error::Error;
use std::fmt;

/// A frame is longer than the limit. It is skipped, and the next item is the one after it.
#[derive(Clone, Copy, Debug, Eq, PartialEq)]
pub struct FrameTooLong;

/// Writes `the frame is too long`.
impl fmt::Display for FrameTooLong {
    ghost use Rattle.std.specs.Prelude.{Some, codes};

    ghost output = { λ error. Some (codes "the frame is too long") };

    fn fmt<W: fmt::Write>(&self, f: &mut fmt::Formatter<W>) -> fmt::Result {
        write!(f, "the frame is too long")
    }
}

impl Error for FrameTooLong {}
