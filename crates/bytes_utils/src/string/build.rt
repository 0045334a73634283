//! Building a text.
ghost use Rattle.std.specs.Prelude.{◌≡◌, ◌++◌, [], encode_utf8, ◌⊎◌, IsOk, IfOk, IfErr, OnOk, OnErr};

use crate::string::{Storage, StorageMut, StrInner};
use bytes_utils_buf::Reason;
use std::alloc::Global;

impl<S: Storage> StrInner<S> {
    /// Makes an empty text. Fails with the storage's reason. A `Str` or a `StrMut` doesn't fail here.
    pub fn new(alloc: Global) -> Result<Self, Reason>
        ensures ok { IfOk result (λ text. text ≡ []) }
        ensures reason { IfErr result S.refuses }
        ensures none { IfErr result S.refuses_empty }
    {
        let storage = S::empty(alloc)?;
        Ok(StrInner { storage })
    }
}

impl<S: StorageMut> StrInner<S> {
    /// Appends `s`. Fails with the storage's reason (`OutOfMemory` for `StrMut`), never for an empty
    /// `s`; then nothing has changed.
    pub fn push_str(&mut self, s: &str) -> Result<(), Reason>
        ensures ok { OnOk result (self.new ≡ self.old ++ s.now) }
        ensures err { OnErr result (self.new ≡ self.old) }
        ensures empty { s.now ≡ [] → IsOk result }
        ensures reason { IfErr result S.refuses }
    {
        self.storage.push_slice(s.as_bytes())?;
        Ok(())
    }

    /// Appends the character `c`. Fails with the storage's reason (`OutOfMemory` for `StrMut`);
    /// then nothing has changed.
    pub fn push(&mut self, c: char) -> Result<(), Reason>
        ensures ok { OnOk result (self.new ≡ self.old ++ encode_utf8 c) }
        ensures err { OnErr result (self.new ≡ self.old) }
        ensures reason { IfErr result S.refuses }
    {
        let mut bytes = [0; 4];
        self.push_str(c.encode_utf8(&mut bytes))
    }
}

impl<S: Storage> StrInner<S>
where
    S::Creator: StorageMut,
{
    /// Copies `s` into a new text. Requires that a creator's bytes are those of its text, as for
    /// `Str` and `StrMut`. Fails with the storage's reason (`OutOfMemory` for `Str` and `StrMut`,
    /// never for an empty `s`).
    pub fn from_str(alloc: Global, s: &str) -> Result<Self, Reason>
        requires creator { (c : S.Creator) → S.created c ≡ S.Creator.stored c }
        ensures ok { IfOk result (λ text. text ≡ s.now) }
        ensures empty { s.now ≡ []
            → IfErr result (λ reason. S.refuses_empty reason ⊎ S.Creator.refuses_empty reason) }
        ensures reason { IfErr result (λ reason. S.refuses reason ⊎ S.Creator.refuses reason) }
    {
        let mut text = StrInner::<S::Creator>::new(alloc)?;
        text.push_str(s)?;
        StrInner::from_built(text)
    }

    /// The built text, in the storage that is made from its own.
    pub(super) fn from_built(text: StrInner<S::Creator>) -> Result<Self, Reason>
        requires creator { (c : S.Creator) → S.created c ≡ S.Creator.stored c }
        ensures ok { IfOk result (λ made. made ≡ text) }
        ensures empty { text ≡ [] → IfErr result S.refuses_empty }
        ensures reason { IfErr result S.refuses }
    {
        match S::from_creator(text.into_inner()) {
            Ok(storage) => Ok(StrInner { storage }),
            Err(refused) => Err(refused.reason),
        }
    }
}
