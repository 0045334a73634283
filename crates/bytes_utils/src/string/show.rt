//! Printing a text, as its `str` is printed.
ghost use Rattle.std.specs.Prelude.{Some};

use crate::string::{Storage, StrInner};
use std::fmt;

impl<S: Storage> fmt::Debug for StrInner<S> {
    fn fmt<W: fmt::Write>(&self, f: &mut fmt::Formatter<W>) -> fmt::Result {
        fmt::Debug::fmt(&self.as_str(), f)
    }
}

impl<S: Storage> fmt::Display for StrInner<S> {
    ghost output = { λ text. Some text };

    fn fmt<W: fmt::Write>(&self, f: &mut fmt::Formatter<W>) -> fmt::Result {
        fmt::Display::fmt(&self.as_str(), f)
    }
}
