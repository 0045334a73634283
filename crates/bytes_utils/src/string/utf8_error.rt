//! The error for bytes that are not UTF-8.
ghost use Rattle.std.specs.Prelude.{◌≡◌};
ghost use Rattle.bytes_utils.specs.Errors.{utf8_error_storage, utf8_error_fault};

use std::error::Error;
use std::{fmt, str};

/// The bytes for a text are not UTF-8. The error has their storage.
#[derive(Debug, Drop)]
pub struct Utf8Error<S> {
    storage: S,
    fault: str::Utf8Error,
}

impl<S> Utf8Error<S> {
    pub(crate) fn new(storage: S, fault: str::Utf8Error) -> Self
        ensures storage { utf8_error_storage result ≡ storage }
        ensures fault { utf8_error_fault result ≡ fault }
    {
        Utf8Error { storage, fault }
    }

    /// Returns the storage that was refused.
    pub fn into_inner(self) -> S
        ensures { result ≡ utf8_error_storage self }
    {
        let Utf8Error { storage, fault: _ } = self;
        storage
    }

    /// Returns std's error, which says what is wrong with the bytes and where.
    pub fn utf8_error(&self) -> str::Utf8Error
        ensures { result ≡ utf8_error_fault self.now }
    {
        self.fault
    }
}

/// Writes std's text for the same error.
impl<S> fmt::Display for Utf8Error<S> {
    ghost use Rattle.std.specs.Prelude.{Some};
    ghost use Rattle.std.specs.Str.{valid_up_to, error_len};
    ghost use Rattle.bytes_utils.specs.Errors.{utf8_error_text};

    ghost output = { λ e.
        Some (utf8_error_text (valid_up_to (utf8_error_fault e)) (error_len (utf8_error_fault e))) };

    fn fmt<W: fmt::Write>(&self, f: &mut fmt::Formatter<W>) -> fmt::Result {
        let at = self.fault.valid_up_to();
        match self.fault.error_len() {
            Some(len) => write!(f, "invalid utf-8 sequence of {len} bytes from index {at}"),
            None => write!(f, "incomplete utf-8 byte sequence from index {at}"),
        }
    }
}

impl<S: fmt::Debug + Drop> Error for Utf8Error<S> {}
