//! Why no item was read.
ghost use Rattle.std.specs.Prelude.{◌≡◌};
ghost use Rattle.bytes_utils_codec.specs.declared.decode.read.error.ReadItemError.TheVariants.{Io};

use std::error::Error;
use std::{fmt, io};

/// Why no item was read. What was read is held, but for bytes that the decoder skips.
#[derive(Debug, Drop)]
pub enum ReadItemError<E> {
    /// The decoder failed.
    Decoder(E),
    /// A read failed, with an error of `read_from` that is not an interruption.
    Io(io::Error),
    /// No item came within 65,536 reads.
    TooManyReads,
}

impl<E> From<io::Error> for ReadItemError<E> {
    ghost from_gives = { λ cause error. error ≡ Io cause };

    fn from(cause: io::Error) -> ReadItemError<E> {
        ReadItemError::Io(cause)
    }
}

/// Writes what the decoder's error or that of the read does, or `too many reads`.
impl<E: fmt::Display> fmt::Display for ReadItemError<E> {
    ghost use Rattle.bytes_utils_codec.specs.ReadItem.{item_error_text};

    ghost output = { item_error_text E.output };

    fn fmt<W: fmt::Write>(&self, f: &mut fmt::Formatter<W>) -> fmt::Result {
        match self {
            ReadItemError::Decoder(error) => fmt::Display::fmt(error, f),
            ReadItemError::Io(error) => fmt::Display::fmt(error, f),
            ReadItemError::TooManyReads => f.write_str("too many reads"),
        }
    }
}

impl<E: Error> Error for ReadItemError<E> {}
