//! What `?` converts an error to.
ghost use Rattle.std.specs.Prelude.{◌≡◌};
ghost use Rattle.bytes_utils_buf.specs.declared.refused.Reason.TheVariants.{OutOfMemory};

use super::{Reason, Refused};
use crate::parts::CopyRefused;
use std::alloc::{AllocError, AllocFailed};
use std::io::{self, ErrorKind};

/// Keeps the reason, and drops the value.
impl<T: Drop> From<Refused<T>> for Reason {
    ghost from_gives = { λ refused reason. reason ≡ refused.reason };

    fn from(refused: Refused<T>) -> Reason {
        refused.reason
    }
}

impl From<CopyRefused> for Reason {
    ghost from_gives = { λ _ reason. reason ≡ OutOfMemory };

    fn from(_refused: CopyRefused) -> Reason {
        Reason::OutOfMemory
    }
}

impl From<AllocError> for Reason {
    ghost from_gives = { λ _ reason. reason ≡ OutOfMemory };

    fn from(_refused: AllocError) -> Reason {
        Reason::OutOfMemory
    }
}

/// Drops the value that was not stored.
impl<T: Drop> From<AllocFailed<T>> for Reason {
    ghost from_gives = { λ _ reason. reason ≡ OutOfMemory };

    fn from(_refused: AllocFailed<T>) -> Reason {
        Reason::OutOfMemory
    }
}

/// Keeps the reason as a kind: `OutOfMemory`, or `FileTooLarge` for `TooLong`.
impl From<Reason> for io::Error {
    ghost use Rattle.std.specs.IoError.{error_kind};
    ghost use Rattle.bytes_utils_buf.specs.Refusals.{refusal_kind};

    ghost from_gives = { λ reason error. error_kind error ≡ refusal_kind reason };

    fn from(reason: Reason) -> io::Error {
        match reason {
            Reason::OutOfMemory => io::Error::from(ErrorKind::OutOfMemory),
            Reason::TooLong => io::Error::from(ErrorKind::FileTooLarge),
        }
    }
}
