//! A `StrMut` from a `String` or from items.
ghost use Rattle.std.specs.Prelude.{◌≡◌, string_bytes};
ghost use Rattle.std.specs.List.{flat_map};
ghost use Rattle.std.specs.Str.{encode_utf8_all};

use crate::string::{StrInner, StrMut};
use bytes::BytesMut;
use std::alloc::{AllocError, Global};
use std::iter::FromIterator;

/// Turns a `String` into a `StrMut` without copying its bytes.
impl From<String> for StrInner<BytesMut> {
    ghost from_gives = { λ text same. same ≡ string_bytes text };

    fn from(text: String) -> StrMut {
        // The contract of `as_str` says that the bytes are UTF-8.
        let _ = text.as_str();
        StrMut::from_inner_unchecked(BytesMut::from_vec(text.into_bytes()))
    }
}

/// Concatenates the characters.
impl FromIterator<char> for StrInner<BytesMut> {
    type Alloc = Global;

    ghost from_iter_gives = { λ cs text. text ≡ encode_utf8_all cs };

    fn from_iter<U: IntoIterator<Item = char>>(
        alloc: Global,
        iter: U,
    ) -> Result<StrMut, AllocError> {
        let characters: String = iter.into_iter().collect(alloc)?;
        Ok(StrMut::from(characters))
    }
}

/// Concatenates the items.
impl<'a> FromIterator<&'a str> for StrInner<BytesMut> {
    type Alloc = Global;

    ghost from_iter_gives = { λ items text. text ≡ flat_map (λ item. item.now) items };

    fn from_iter<U: IntoIterator<Item = &'a str>>(
        alloc: Global,
        iter: U,
    ) -> Result<StrMut, AllocError> {
        let parts: String = iter.into_iter().collect(alloc)?;
        Ok(StrMut::from(parts))
    }
}

/// Concatenates the items.
impl FromIterator<String> for StrInner<BytesMut> {
    type Alloc = Global;

    ghost from_iter_gives = { λ items text. text ≡ flat_map string_bytes items };

    fn from_iter<U: IntoIterator<Item = String>>(
        alloc: Global,
        iter: U,
    ) -> Result<StrMut, AllocError> {
        let strings: String = iter.into_iter().collect(alloc)?;
        Ok(StrMut::from(strings))
    }
}
