//! Texts that take no memory: literals and the empty text.
ghost use Rattle.std.specs.Prelude.{◌≡◌, []};

use crate::string::{Str, StrInner};
use bytes::Bytes;

impl StrInner<Bytes> {
    /// Makes a text of a literal. It takes no memory and never fails.
    pub fn from_static(text: &'static str) -> Str
        ensures { result ≡ text.now }
    {
        StrInner {
            storage: Bytes::from_static(text.as_bytes()),
        }
    }

    /// Makes the empty text. It takes no memory and never fails.
    pub fn empty() -> Str
        ensures { result ≡ [] }
    {
        StrInner {
            storage: Bytes::new(),
        }
    }
}

/// As `empty`.
impl Default for StrInner<Bytes> {
    ghost is_default = { λ text. text ≡ [] };

    fn default() -> Str {
        Str::empty()
    }
}

/// As `from_static`.
impl From<&'static str> for StrInner<Bytes> {
    ghost from_gives = { λ text same. same ≡ text.now };

    fn from(text: &'static str) -> Str {
        Str::from_static(text)
    }
}
