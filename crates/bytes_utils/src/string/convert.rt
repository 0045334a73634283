//! Conversions between a text and its storage.
ghost use Rattle.std.specs.Prelude.{◌≡◌, ◌↔◌, IsUtf8, IsOk, IfOk, IfErr};
ghost use Rattle.bytes_utils.specs.Errors.{utf8_error_storage, utf8_error_fault, IsUtf8ErrorOf};

use crate::string::{Str, StrMut, Utf8Error};
use bytes::{Bytes, BytesMut};

/// As `Str::from_inner`.
impl TryFrom<Bytes> for Str {
    type Error = Utf8Error<Bytes>;

    ghost try_from_gives = { λ bytes r. (IsOk r ↔ IsUtf8 bytes) × IfOk r (λ text. text ≡ bytes)
        × IfErr r (λ e. (utf8_error_storage e ≡ bytes) × IsUtf8ErrorOf (utf8_error_fault e) bytes) };

    fn try_from(value: Bytes) -> Result<Self, Self::Error> {
        Str::from_inner(value)
    }
}

/// As `Str::into_inner`.
impl From<Str> for Bytes {
    ghost from_gives = { λ text bytes. bytes ≡ text };

    fn from(text: Str) -> Bytes {
        text.into_inner()
    }
}

/// As `StrMut::from_inner`.
impl TryFrom<BytesMut> for StrMut {
    type Error = Utf8Error<BytesMut>;

    ghost try_from_gives = { λ bytes r. (IsOk r ↔ IsUtf8 bytes.items)
        × IfOk r (λ text. text ≡ bytes.items)
        × IfErr r (λ e. (utf8_error_storage e ≡ bytes) × IsUtf8ErrorOf (utf8_error_fault e) bytes.items) };

    fn try_from(value: BytesMut) -> Result<Self, Self::Error> {
        StrMut::from_inner(value)
    }
}

/// As `StrMut::into_inner`.
impl From<StrMut> for BytesMut {
    ghost from_gives = { λ text bytes. bytes.items ≡ text };

    fn from(built: StrMut) -> BytesMut {
        built.into_inner()
    }
}
