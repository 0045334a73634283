//! The messages of `JsonRefused`.

use super::JsonRefused;
use std::error::Error;
use std::fmt;

impl fmt::Display for JsonRefused {
    ghost use Rattle.std.specs.Prelude.{Some};
    ghost use Rattle.bytes_utils.specs.Json.{json_refused_text};

    ghost output = { λ refused. Some (json_refused_text refused) };

    fn fmt<W: fmt::Write>(&self, f: &mut fmt::Formatter<W>) -> fmt::Result {
        match self {
            JsonRefused::OutOfMemory => f.write_str("out of memory"),
            JsonRefused::NotJson => f.write_str("not JSON"),
            JsonRefused::NotText => f.write_str("neither a string nor a list of bytes"),
            JsonRefused::NotUtf8 => f.write_str("not UTF-8"),
        }
    }
}

impl Error for JsonRefused {}
