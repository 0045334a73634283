//! What a peer may send of a part, and why there is none.
ghost use Rattle.std.specs.Prelude.{◌≡◌, ◌+◌, ◌-◌, ◌^◌, min};

use bytes_utils::Reason;
use std::error::Error;
use std::fmt;

/// What a peer may send.
#[derive(Clone, Copy, Debug)]
pub struct Limits {
    /// The most bytes between a delimiter and the body: spaces, the head, and its line ends.
    pub head: usize,
    /// The most bytes of a body. Before the first delimiter there may be as many bytes as both
    /// limits allow together, less two.
    pub body: usize,
}

/// Why there is no part.
#[derive(Clone, Copy, Debug, Eq, PartialEq)]
pub enum PartError {
    /// A call was refused for this reason, which is `OutOfMemory`.
    Refused(Reason),
    /// What came is no part whose head is header fields, whatever comes after it.
    Malformed,
    /// The head of the next part isn't UTF-8.
    NotUtf8,
    /// What came is no part within the limits, whatever comes after it.
    TooLarge,
}

impl From<Reason> for PartError {
    ghost use Rattle.bytes_utils_protocols.specs.declared.multipart.limits.PartError.TheVariants.{Refused};

    ghost from_gives = { λ reason error. error ≡ Refused reason };

    fn from(reason: Reason) -> PartError {
        PartError::Refused(reason)
    }
}

/// Writes its reason, `the part is malformed`, `the head is not UTF-8` or `the part is too large`.
impl fmt::Display for PartError {
    ghost use Rattle.std.specs.Prelude.{Some};
    ghost use Rattle.bytes_utils_protocols.specs.Multipart.{part_error_text};

    ghost output = { λ error. Some (part_error_text error) };

    ghost styled_output = { λ error _. Some (part_error_text error) };

    fn fmt<W: fmt::Write>(&self, f: &mut fmt::Formatter<W>) -> fmt::Result {
        match self {
            PartError::Refused(reason) => fmt::Display::fmt(reason, f),
            PartError::Malformed => f.write_str("the part is malformed"),
            PartError::NotUtf8 => f.write_str("the head is not UTF-8"),
            PartError::TooLarge => f.write_str("the part is too large"),
        }
    }
}

impl Error for PartError {}

/// The most bytes between two delimiters, or before the first one.
pub(super) fn most_multipart_bytes(limits: Limits) -> usize
    ensures { result ≡ min (limits.head + limits.body) (2 ^ 64 - 1) }
{
    limits.head.saturating_add(limits.body)
}
