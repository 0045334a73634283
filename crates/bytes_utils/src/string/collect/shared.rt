//! Collecting items into a `Str`.
ghost use Rattle.std.specs.Prelude.{◌≡◌, string_bytes};
ghost use Rattle.std.specs.List.{flat_map};
ghost use Rattle.std.specs.Str.{encode_utf8_all};

use crate::string::{Str, StrInner};
use bytes::Bytes;
use std::alloc::{AllocError, Global};
use std::iter::FromIterator;

/// Concatenates the characters.
impl FromIterator<char> for StrInner<Bytes> {
    type Alloc = Global;

    ghost from_iter_gives = { λ cs text. text ≡ encode_utf8_all cs };

    fn from_iter<U: IntoIterator<Item = char>>(alloc: Global, iter: U) -> Result<Str, AllocError> {
        let characters: String = iter.into_iter().collect(alloc)?;
        Str::from_string(alloc, characters).map_err(|_| AllocError)
    }
}

/// Concatenates the items.
impl<'a> FromIterator<&'a str> for StrInner<Bytes> {
    type Alloc = Global;

    ghost from_iter_gives = { λ items text. text ≡ flat_map (λ item. item.now) items };

    fn from_iter<U: IntoIterator<Item = &'a str>>(
        alloc: Global,
        iter: U,
    ) -> Result<Str, AllocError> {
        let parts: String = iter.into_iter().collect(alloc)?;
        Str::from_string(alloc, parts).map_err(|_| AllocError)
    }
}

/// Concatenates the items.
impl FromIterator<String> for StrInner<Bytes> {
    type Alloc = Global;

    ghost from_iter_gives = { λ items text. text ≡ flat_map string_bytes items };

    fn from_iter<U: IntoIterator<Item = String>>(
        alloc: Global,
        iter: U,
    ) -> Result<Str, AllocError> {
        let strings: String = iter.into_iter().collect(alloc)?;
        Str::from_string(alloc, strings).map_err(|_| AllocError)
    }
}
