//! Equality, order and hash of the text, in any storage.
ghost use Rattle.std.specs.Prelude.{◌≡◌, ◌↔◌, IsTrue, nat_eq, refl, Some};
ghost use Rattle.std.specs.Ordering.{nat_cmp};
ghost use Rattle.std.specs.Hash as fed;
ghost use Rattle.std.specs.Cmp.Lexicographic.{pointwise, slice_cmp, nat_list_eq_equiv, nat_list_cmp_total, texts_ties, texts_po};
ghost use Rattle.std.specs.Cmp.{partial_equiv_from_equiv};
ghost use Rattle.std.specs.Cmp.Rules.{hashing};
ghost use Rattle.std.proofs.Common.{rules};

use crate::string::{Storage, StrInner};
use std::cmp::Ordering;
use std::hash::{Hash, Hasher};

impl<S: Storage> StrInner<S> {
    /// Returns whether the text is `other`, in place of `==` with a `&str`.
    pub fn eq_str(&self, other: &str) -> bool
        ensures same { IsTrue result ↔ (self.now ≡ other.now) }
        // As `==` of two texts.
        ensures eq { result ≡ pointwise nat_eq self.now other.now }
    {
        self.as_str() == other
    }

    /// Compares the text with `other` by their bytes, which is the order of their code points.
    pub fn cmp_str(&self, other: &str) -> Ordering
        // As `cmp` of two texts.
        ensures { result ≡ slice_cmp nat_cmp self.now other.now }
    {
        self.as_str().cmp(other)
    }
}

impl<S: Storage> PartialEq for StrInner<S> {
    ghost eq = { pointwise nat_eq };

    ghost laws = { partial_equiv_from_equiv nat_list_eq_equiv };

    fn eq(&self, other: &Self) -> bool {
        self.eq_str(other.as_str())
    }
}

impl<S: Storage> Eq for StrInner<S> {
    ghost laws = { nat_list_eq_equiv };
}

impl<S: Storage> PartialOrd for StrInner<S> {
    ghost partial_cmp = { λ x y. Some (slice_cmp nat_cmp x y) };

    ghost laws = { texts_po };

    fn partial_cmp(&self, other: &Self) -> Option<Ordering> {
        Some(self.cmp(other))
    }
}

impl<S: Storage> Ord for StrInner<S> {
    ghost cmp = { slice_cmp nat_cmp };

    ghost total = { nat_list_cmp_total };

    ghost matches_partial_cmp = { λ x y. refl };

    ghost matches_eq = { texts_ties };

    fn cmp(&self, other: &Self) -> Ordering {
        self.cmp_str(other.as_str())
    }
}

/// Hashes as the text's `str`.
impl<S: Storage> Hash for StrInner<S> {
    ghost hash_input = { fed.str };

    ghost respects_eq = { Prim.search (hashing, rules) };

    fn hash<H: Hasher>(&self, state: &mut H) {
        self.as_str().hash(state);
    }
}
