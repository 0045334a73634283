//! What is before the first delimiter of a stream.
ghost use Rattle.std.specs.Prelude.{◌≡◌, ◌^◌, ◌<◌, ◌≤◌, [], length, take};

use super::waiting::Waiting;
use std::fmt::{self, Debug, Formatter, Write};
use std::marker::Model;
use std::snapshot::Snapshot;

/// The bytes before the first delimiter. They are let go: only their number is kept. Clauses see the
/// bytes until the part after them is taken.
#[derive(Drop)]
pub(super) struct Preamble {
    len: usize,
    bytes: Snapshot<Waiting>,
}

impl Model for Preamble {
    ghost use Rattle.std.specs.Prelude.{ℕ, ◌≤◌, List, length, take};

    ghost Value = { List ℕ };

    ghost view = { λ p. take p.len p.bytes.value.held };

    ghost invariant = { λ p. p.len ≤ length p.bytes.value.held };
}

impl Preamble {
    /// The first `len` of these bytes.
    pub(super) fn front_of(bytes: &Waiting, len: usize) -> Preamble
        requires { len ≤ length bytes.now.held }
        ensures { result ≡ take len bytes.now.held }
    {
        Preamble {
            len,
            bytes: Snapshot::of(bytes),
        }
    }

    /// None of these bytes.
    pub(super) fn none_of(bytes: &Waiting) -> Preamble
        ensures { result ≡ [] }
    {
        Preamble::front_of(bytes, 0)
    }

    /// How many bytes there were.
    pub(super) fn len(&self) -> usize
        ensures value { result ≡ length self.now }
        ensures fits { length self.now < 2 ^ 64 }
    {
        self.len
    }
}

impl Debug for Preamble {
    fn fmt<W: Write>(&self, f: &mut Formatter<W>) -> fmt::Result {
        write!(f, "{} bytes", self.len)
    }
}
