//! How errors print.
ghost use Rattle.std.specs.Prelude.{Some};
ghost use Rattle.bytes_utils_buf.specs.Refusals.{refusal_text, copy_refused_text};

use super::{Reason, Refused};
use crate::parts::CopyRefused;
use std::error::Error;
use std::fmt;

impl fmt::Display for Reason {
    ghost output = { λ reason. Some (refusal_text reason) };

    // The same text in every style, such as `{:#}`.
    ghost styled_output = { λ reason _. Some (refusal_text reason) };

    fn fmt<W: fmt::Write>(&self, f: &mut fmt::Formatter<W>) -> fmt::Result {
        match self {
            Reason::OutOfMemory => f.write_str("out of memory"),
            Reason::TooLong => f.write_str("too long"),
        }
    }
}

impl Error for Reason {}

/// Prints its reason.
impl<T> fmt::Display for Refused<T> {
    ghost output = { λ refused. Some (refusal_text refused.reason) };

    ghost styled_output = { λ refused _. Some (refusal_text refused.reason) };

    fn fmt<W: fmt::Write>(&self, f: &mut fmt::Formatter<W>) -> fmt::Result {
        fmt::Display::fmt(&self.reason, f)
    }
}

impl<T: fmt::Debug + Drop> Error for Refused<T> {}

impl fmt::Display for CopyRefused {
    ghost output = { λ refused. Some (copy_refused_text refused.taken) };

    fn fmt<W: fmt::Write>(&self, f: &mut fmt::Formatter<W>) -> fmt::Result {
        write!(f, "out of memory, bytes lost: {}", self.taken)
    }
}

impl Error for CopyRefused {}
