//! Freezing what was built, and taking over a `String`.
ghost use Rattle.std.specs.Prelude.{◌≡◌, string_bytes, string_len, [], IsOk, IfOk, IfErr};

use crate::string::{Storage, StorageMut, Str, StrInner, StrMut};
use bytes::Bytes;
use bytes_utils_buf::{Reason, Refused};
use std::alloc::{AllocFailed, Global};

impl<S: StorageMut> StrInner<S>
where
    S::Immutable: Storage<Creator = S>,
{
    /// Turns built text into the storage that its own is made into: a `StrMut` into a `Str`.
    /// Requires that the creator's bytes are those of the text, as for `StrMut`. Fails with the new
    /// storage's reason (`OutOfMemory` for `StrMut`, never for an empty one); then the text comes
    /// back in `Refused::back`.
    pub fn freeze(self) -> Result<StrInner<S::Immutable>, Refused<Self>>
        requires creator { (c : S) → S.Immutable.created c ≡ S.stored c }
        ensures ok { IfOk result (λ frozen. frozen ≡ self) }
        ensures err { IfErr result (λ e. e.back ≡ self) }
        ensures empty { self ≡ [] → IfErr result (λ e. S.Immutable.refuses_empty e.reason) }
        ensures reason { IfErr result (λ e. S.Immutable.refuses e.reason) }
    {
        let StrInner { storage } = self;
        match S::Immutable::from_creator(storage) {
            Ok(storage) => Ok(StrInner { storage }),
            Err(Refused { reason, back }) => Err(Refused {
                reason,
                back: StrInner { storage: back },
            }),
        }
    }
}

impl StrInner<Bytes> {
    /// Turns a `String` into a `Str` without copying its bytes. `_alloc` is not used. Fails with
    /// `OutOfMemory` if memory is refused, never for an empty text; then the text comes back.
    pub fn from_string(_alloc: Global, text: String) -> Result<Str, Refused<String>>
        ensures ok { IfOk result (λ made. made ≡ string_bytes text) }
        ensures err { IfErr result (λ e. string_bytes e.back ≡ string_bytes text) }
        ensures empty { string_bytes text ≡ [] → IsOk result }
        ensures reason { IfErr result (λ e. e.reason ≡ Reason.OutOfMemory) }
    {
        // The contract of `as_str` says that the bytes are UTF-8.
        let _ = text.as_str();
        match Bytes::from_vec(text.into_bytes()) {
            Ok(storage) => Ok(StrInner { storage }),
            Err(AllocFailed { value }) => Err(Refused {
                reason: Reason::OutOfMemory,
                back: unsafe { String::from_utf8_unchecked(value) },
            }),
        }
    }

    /// As `freeze`.
    pub fn from_mut(text: StrMut) -> Result<Str, Refused<StrMut>>
        ensures ok { IfOk result (λ frozen. frozen ≡ text) }
        ensures err { IfErr result (λ e. e.back ≡ text) }
        ensures empty { text ≡ [] → IsOk result }
        ensures reason { IfErr result (λ e. e.reason ≡ Reason.OutOfMemory) }
    {
        text.freeze()
    }
}
