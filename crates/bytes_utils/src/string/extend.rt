//! A text that is extended by the items of an iterator that ends. `Extend`, for `StrMut`, drops an item
//! that is refused.
ghost use Rattle.std.specs.Prelude.{◌≡◌, ◌≢◌, ◌++◌, ℕ, List, [], map, Some, String, string_bytes, IfErr, OnOk};
ghost use Rattle.std.specs.Global.{Global};
ghost use Rattle.std.specs.Iterator.{IsFinite, Drains, YieldsThen};
ghost use Rattle.std.specs.List.{concat, flat_map};
ghost use Rattle.std.specs.Str.{encode_utf8_all};
ghost use denote.Ref.{Bor};

use crate::string::{StorageMut, StrInner};
use bytes::BytesMut;
use bytes_utils_buf::Refused;
use std::alloc::AllocError;

impl<S: StorageMut> StrInner<S> {
    /// Appends the characters. Requires that `iter` ends, and that its `next` may be called. Fails
    /// with the first refused character and the storage's reason (`OutOfMemory` for `StrMut`); then
    /// those before it are in the text. Those after it are dropped with `iter`, but an iterator
    /// passed as `&mut iter` continues right after the refused character.
    #[tactic(auto, using(crate::proofs::Building::characters_push))]
    pub fn extend_chars<I: Iterator<Item = char> + Drop>(
        &mut self,
        iter: I,
    ) -> Result<(), Refused<char>>
        requires can { I.can_next iter }
        requires ends { IsFinite (I.remaining iter) }

        // All items are appended, or those before the one that comes back.
        ensures ok { OnOk result ((items : List ℕ) × Drains I.next_gives iter items
            × (self.new ≡ self.old ++ encode_utf8_all items)) }
        ensures err { IfErr result (λ e. (items : List ℕ) × (rest : I)
            × YieldsThen I.next_gives iter items (Some e.back) rest
            × (self.new ≡ self.old ++ encode_utf8_all items)) }
        ensures reason { IfErr result (λ e. S.refuses e.reason) }
    {
        for c in iter {
            if let Err(reason) = self.push(c) {
                return Err(Refused { reason, back: c });
            }
        }
        Ok(())
    }

    /// Appends the items. Requires that `iter` ends, and that its `next` may be called. Fails with
    /// the first refused item, never an empty one, and the storage's reason (`OutOfMemory` for
    /// `StrMut`); then those before it are in the text. Those after it are dropped with `iter`, but
    /// an iterator passed as `&mut iter` continues right after the refused item.
    #[tactic(auto, using(crate::proofs::Building::texts_push))]
    pub fn extend_strs<'s, I: Iterator<Item = &'s str> + Drop>(
        &mut self,
        iter: I,
    ) -> Result<(), Refused<&'s str>>
        requires can { I.can_next iter }
        requires ends { IsFinite (I.remaining iter) }

        // All items are appended, or those before the one that comes back.
        ensures ok { OnOk result ((items : List (Bor (List ℕ))) × Drains I.next_gives iter items
            × (self.new ≡ self.old ++ concat (map (λ s. s.now) items))) }
        ensures err { IfErr result (λ e. (items : List (Bor (List ℕ))) × (rest : I)
            × YieldsThen I.next_gives iter items (Some e.back) rest
            × (self.new ≡ self.old ++ concat (map (λ s. s.now) items))) }
        ensures empty { IfErr result (λ e. e.back.now ≢ []) }
        ensures reason { IfErr result (λ e. S.refuses e.reason) }
    {
        for s in iter {
            if let Err(reason) = self.push_str(s) {
                return Err(Refused { reason, back: s });
            }
        }
        Ok(())
    }

    /// Appends the items. Requires that `iter` ends, and that its `next` may be called. Fails with
    /// the first refused item, never an empty one, and the storage's reason (`OutOfMemory` for
    /// `StrMut`); then those before it are in the text. Those after it are dropped with `iter`, but
    /// an iterator passed as `&mut iter` continues right after the refused item.
    #[tactic(auto, using(crate::proofs::Building::texts_push))]
    pub fn extend_strings<I: Iterator<Item = String> + Drop>(
        &mut self,
        iter: I,
    ) -> Result<(), Refused<String>>
        requires can { I.can_next iter }
        requires ends { IsFinite (I.remaining iter) }

        // All items are appended, or those before the one that comes back.
        ensures ok { OnOk result ((items : List (String Global)) × Drains I.next_gives iter items
            × (self.new ≡ self.old ++ concat (map string_bytes items))) }
        ensures err { IfErr result (λ e. (items : List (String Global)) × (rest : I)
            × YieldsThen I.next_gives iter items (Some e.back) rest
            × (self.new ≡ self.old ++ concat (map string_bytes items))) }
        ensures empty { IfErr result (λ e. string_bytes e.back ≢ []) }
        ensures reason { IfErr result (λ e. S.refuses e.reason) }
    {
        for s in iter {
            if let Err(reason) = self.push_str(s.as_str()) {
                return Err(Refused { reason, back: s });
            }
        }
        Ok(())
    }
}

/// As `extend_chars`, but a refused character is dropped.
impl Extend<char> for StrInner<BytesMut> {
    ghost extend_gives = { λ text cs longer. longer ≡ text ++ encode_utf8_all cs };

    #[tactic(auto, using(crate::proofs::Building::characters_push))]
    fn extend<U: IntoIterator<Item = char>>(&mut self, items: U) -> Result<(), AllocError> {
        for c in items {
            if let Err(_) = self.push(c) {
                return Err(AllocError);
            }
        }
        Ok(())
    }
}

/// As `extend_strs`, but a refused item is dropped.
impl<'a> Extend<&'a str> for StrInner<BytesMut> {
    ghost extend_gives = { λ text items longer. longer ≡ text ++ flat_map (λ item. item.now) items };

    #[tactic(auto, using(std::proofs::lemmas::List::flat_map_more))]
    fn extend<U: IntoIterator<Item = &'a str>>(&mut self, iter: U) -> Result<(), AllocError> {
        for part in iter {
            if let Err(_) = self.push_str(part) {
                return Err(AllocError);
            }
        }
        Ok(())
    }
}

/// As `extend_strings`, but a refused item is dropped.
impl Extend<String> for StrInner<BytesMut> {
    ghost extend_gives = { λ text items longer. longer ≡ text ++ flat_map string_bytes items };

    #[tactic(auto, using(std::proofs::lemmas::List::flat_map_more))]
    fn extend<U: IntoIterator<Item = String>>(&mut self, iter: U) -> Result<(), AllocError> {
        for string in iter {
            if let Err(_) = self.push_str(string.as_str()) {
                return Err(AllocError);
            }
        }
        Ok(())
    }
}
