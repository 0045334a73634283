//! Texts from the items of an iterator that ends. `collect` builds a `String`, whose block becomes the
//! text's.
ghost use Rattle.std.specs.Prelude.{◌≡◌, ℕ, List, [], map, String, string_bytes, ◌⊎◌, IfOk, IfErr};
ghost use Rattle.std.specs.Global.{Global};
ghost use Rattle.std.specs.Iterator.{IsFinite, Drains, HoldsAlong};
ghost use Rattle.std.specs.List.{concat};
ghost use Rattle.std.specs.Str.{encode_utf8_all};
ghost use denote.Ref.{Bor};

mod owned;
mod shared;

use crate::string::{Storage, StorageMut, StrInner};
use bytes_utils_buf::Reason;
use std::alloc::Global;

impl<S: Storage> StrInner<S>
where
    S::Creator: StorageMut,
{
    /// Concatenates the characters. Requires that `chars` ends, that its `next` may be called, and
    /// what `from_str` requires. Fails as `from_str`, and as for an empty text if no character comes.
    pub fn from_chars<I: Iterator<Item = char> + Drop>(
        alloc: Global,
        chars: I,
    ) -> Result<Self, Reason>
        requires creator { (c : S.Creator) → S.created c ≡ S.Creator.stored c }
        requires can { I.can_next chars }
        requires ends { IsFinite (I.remaining chars) }
        ensures ok { IfOk result (λ text. (items : List ℕ) × Drains I.next_gives chars items
            × (text ≡ encode_utf8_all items)) }
        ensures empty { HoldsAlong I.next_gives chars (λ items. items ≡ [])
            → IfErr result (λ reason. S.refuses_empty reason ⊎ S.Creator.refuses_empty reason) }
        ensures reason { IfErr result (λ reason. S.refuses reason ⊎ S.Creator.refuses reason) }
    {
        let mut text = StrInner::<S::Creator>::new(alloc)?;
        text.extend_chars(chars)?;
        StrInner::from_built(text)
    }

    /// Concatenates the items. Requires that `strs` ends, that its `next` may be called, and what
    /// `from_str` requires. Fails as `from_str`, and as for an empty text if only empty items come.
    pub fn from_strs<'s, I: Iterator<Item = &'s str> + Drop>(
        alloc: Global,
        strs: I,
    ) -> Result<Self, Reason>
        requires creator { (c : S.Creator) → S.created c ≡ S.Creator.stored c }
        requires can { I.can_next strs }
        requires ends { IsFinite (I.remaining strs) }
        ensures ok { IfOk result (λ text. (items : List (Bor (List ℕ))) × Drains I.next_gives strs items
            × (text ≡ concat (map (λ s. s.now) items))) }
        ensures empty { HoldsAlong I.next_gives strs (λ items. concat (map (λ s. s.now) items) ≡ [])
            → IfErr result (λ reason. S.refuses_empty reason ⊎ S.Creator.refuses_empty reason) }
        ensures reason { IfErr result (λ reason. S.refuses reason ⊎ S.Creator.refuses reason) }
    {
        let mut text = StrInner::<S::Creator>::new(alloc)?;
        text.extend_strs(strs)?;
        StrInner::from_built(text)
    }

    /// Concatenates the items. Requires that `strings` ends, that its `next` may be called, and what
    /// `from_str` requires. Fails as `from_str`, and as for an empty text if only empty items come.
    pub fn from_strings<I: Iterator<Item = String> + Drop>(
        alloc: Global,
        strings: I,
    ) -> Result<Self, Reason>
        requires creator { (c : S.Creator) → S.created c ≡ S.Creator.stored c }
        requires can { I.can_next strings }
        requires ends { IsFinite (I.remaining strings) }
        ensures ok { IfOk result (λ text. (items : List (String Global)) × Drains I.next_gives strings items
            × (text ≡ concat (map string_bytes items))) }
        ensures empty { HoldsAlong I.next_gives strings (λ items. concat (map string_bytes items) ≡ [])
            → IfErr result (λ reason. S.refuses_empty reason ⊎ S.Creator.refuses_empty reason) }
        ensures reason { IfErr result (λ reason. S.refuses reason ⊎ S.Creator.refuses reason) }
    {
        let mut text = StrInner::<S::Creator>::new(alloc)?;
        text.extend_strings(strings)?;
        StrInner::from_built(text)
    }
}
