//! Borrowing a text as a `str`, also by its methods and by generic code, and as bytes.
ghost use Rattle.std.specs.Prelude.{◌≡◌};

use crate::string::{Storage, StrInner};
use std::convert::{AsSlice, AsStr};
use std::ops::DerefStr;

/// Gives a text the methods of `str`, and makes `&text` a `&str` if one is expected.
impl<S: Storage> DerefStr for StrInner<S> {
    ghost deref_gives = { λ text bytes. bytes ≡ text };

    fn deref(&self) -> &str {
        StrInner::as_str(self)
    }
}

/// Makes a text an argument of generic code over texts.
impl<S: Storage> AsStr for StrInner<S> {
    ghost text = { λ text. text };

    fn as_str(&self) -> &str {
        StrInner::as_str(self)
    }
}

/// Makes a text an argument of generic code over bytes.
impl<S: Storage> AsSlice<u8> for StrInner<S> {
    ghost items = { λ text. text };

    fn as_slice(&self) -> &[u8] {
        StrInner::as_str(self).as_bytes()
    }
}
