//! Conversions between a `Str` and `ByteStr`, the shared text of the crate `bytes`.
ghost use Rattle.std.specs.Prelude.{◌≡◌};

use crate::string::Str;
use bytes::ByteStr;

/// Converts the text without a check or a copy.
impl From<ByteStr> for Str {
    ghost from_gives = { λ text same. same ≡ text };

    fn from(text: ByteStr) -> Str {
        Str::from_inner_unchecked(text.into_bytes())
    }
}

/// Converts the text without a check or a copy.
impl From<Str> for ByteStr {
    ghost from_gives = { λ text same. same ≡ text };

    fn from(text: Str) -> ByteStr {
        ByteStr::from_known_utf8(text.into_inner())
    }
}
