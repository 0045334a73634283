//! What a peer may send of a reply, and why there is none.
ghost use Rattle.std.specs.Prelude.{◌≡◌};

use bytes_utils::Reason;
use std::error::Error;
use std::fmt;

/// What a peer may send.
#[derive(Clone, Copy, Debug)]
pub struct Limits {
    /// The most bytes of a line, with its first byte and without its end.
    pub line: usize,
    /// The most bytes of a bulk item.
    pub bulk: usize,
    /// The most items of a reply, with its arrays.
    pub items: usize,
}

/// Why there is no reply.
#[derive(Clone, Copy, Debug, Eq, PartialEq)]
pub enum ReplyError {
    /// A call was refused for this reason, which is `OutOfMemory`.
    Refused(Reason),
    /// What came is no reply, whatever comes after it.
    Malformed,
    /// What came is no reply within the limits, whatever comes after it.
    TooLarge,
}

impl From<Reason> for ReplyError {
    ghost use Rattle.bytes_utils_protocols.specs.declared.redis.limits.ReplyError.TheVariants.{Refused};

    ghost from_gives = { λ reason error. error ≡ Refused reason };

    fn from(reason: Reason) -> ReplyError {
        ReplyError::Refused(reason)
    }
}

/// Writes its reason, `the reply is malformed` or `the reply is too large`.
impl fmt::Display for ReplyError {
    ghost use Rattle.std.specs.Prelude.{Some};
    ghost use Rattle.bytes_utils_protocols.specs.Redis.{reply_error_text};

    ghost output = { λ error. Some (reply_error_text error) };

    ghost styled_output = { λ error _. Some (reply_error_text error) };

    fn fmt<W: fmt::Write>(&self, f: &mut fmt::Formatter<W>) -> fmt::Result {
        match self {
            ReplyError::Refused(reason) => fmt::Display::fmt(reason, f),
            ReplyError::Malformed => f.write_str("the reply is malformed"),
            ReplyError::TooLarge => f.write_str("the reply is too large"),
        }
    }
}

impl Error for ReplyError {}
