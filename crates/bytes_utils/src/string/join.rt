//! Joining parts with a separator between them.
ghost use Rattle.std.specs.Prelude.{◌≡◌, ℕ, List, [], map, ◌⊎◌, IfOk, IfErr};
ghost use Rattle.std.specs.Iterator.{IsFinite, Drains, HoldsAlong};
ghost use Rattle.bytes_utils.specs.Parts.{join};
ghost use denote.Ref.{Bor};

use crate::string::{Storage, StorageMut, StrInner};
use bytes_utils_buf::Reason;
use std::alloc::Global;

impl<S: Storage> StrInner<S>
where
    S::Creator: StorageMut,
{
    /// Joins the parts with `separator` between neighbours, as `join` of a slice. No parts give the
    /// empty text. With an empty separator they are concatenated, as by `from_strs`; to split the
    /// text by it again returns single characters between two empty parts. Requires that `parts`
    /// ends, that its `next` may be called, and what `from_str` requires. Fails as `from_str`, and as
    /// for an empty text if the joined parts are empty.
    pub fn join<'s, I: Iterator<Item = &'s str> + Drop>(
        alloc: Global,
        parts: I,
        separator: &str,
    ) -> Result<Self, Reason>
        requires creator { (c : S.Creator) → S.created c ≡ S.Creator.stored c }
        requires can { I.can_next parts }
        requires ends { IsFinite (I.remaining parts) }
        ensures ok { IfOk result (λ text. (items : List (Bor (List ℕ))) × Drains I.next_gives parts items
            × (text ≡ join separator.now (map (λ part. part.now) items))) }
        ensures empty { HoldsAlong I.next_gives parts
            (λ items. join separator.now (map (λ part. part.now) items) ≡ [])
            → IfErr result (λ reason. S.refuses_empty reason ⊎ S.Creator.refuses_empty reason) }
        ensures reason { IfErr result (λ reason. S.refuses reason ⊎ S.Creator.refuses reason) }
    {
        let mut text = StrInner::<S::Creator>::new(alloc)?;
        let mut between = "";
        for part in parts {
            text.push_str(between)?;
            text.push_str(part)?;
            between = separator;
        }
        StrInner::from_built(text)
    }
}
