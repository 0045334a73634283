//! The storages of a text.
ghost use Rattle.std.specs.Prelude.{⊤, ◌≡◌, ℕ, ◌≤◌, List, [], ◌++◌, length, take, drop, IsOk, IfOk, IfErr, OnOk, OnErr};
ghost use Rattle.bytes_utils_buf.specs.declared.refused.Reason.{Reason};

mod owned;
mod shared;

use bytes_utils_buf::{Reason, Refused};
use std::alloc::Global;

/// A storage of bytes that can be split into owned pieces. Your own type can implement it; the
/// clauses are its laws.
pub trait Storage: Sized + Drop {
    /// The storage that this one is frozen from: `BytesMut` for `Bytes`.
    type Creator: Drop;

    // The storage's bytes.
    ghost stored: { Self → List ℕ };

    // The bytes of a creator.
    ghost created: { Self.Creator → List ℕ };

    // The reasons for which it may refuse.
    ghost refuses: { Reason → Type 0 } = { λ _. ⊤ };

    // Those for which it may refuse what stores no bytes: to be made of none, or to be split at an end.
    ghost refuses_empty: { Reason → Type 0 } = { λ _. ⊤ };

    // Those for which it may refuse to return one side alone.
    ghost refuses_side: { Reason → Type 0 } = { λ _. ⊤ };

    /// Makes a storage of no bytes. Fails with a reason that `refuses` and `refuses_empty` allow.
    fn empty(alloc: Global) -> Result<Self, Reason>
        ensures ok { IfOk result (λ s. stored s ≡ []) }
        ensures reason { IfErr result refuses }
        ensures none { IfErr result refuses_empty };

    /// Returns all bytes.
    fn as_bytes(&self) -> &[u8]
        ensures { result.now ≡ stored self.now };

    /// Takes over a filled creator. Fails with a reason that `refuses` allows, and for no bytes
    /// `refuses_empty` too; then the creator comes back.
    fn from_creator(creator: Self::Creator) -> Result<Self, Refused<Self::Creator>>
        ensures ok { IfOk result (λ s. stored s ≡ created creator) }
        ensures err { IfErr result (λ e. created e.back ≡ created creator) }
        ensures none { created creator ≡ [] → IfErr result (λ e. refuses_empty e.reason) }
        ensures reason { IfErr result (λ e. refuses e.reason) };

    /// Splits the storage into the bytes before `at` and those from `at` on. Requires that `at` is
    /// at most the number of bytes (test: `as_bytes().len()`). Fails with a reason that `refuses`
    /// allows, and at 0 or at the number of bytes `refuses_empty` too; then the storage comes back.
    fn split_at(self, at: usize) -> Result<(Self, Self), Refused<Self>>
        requires { at ≤ length (stored self) }
        ensures left { IfOk result (λ pieces. stored pieces.0 ≡ take at (stored self)) }
        ensures right { IfOk result (λ pieces. stored pieces.1 ≡ drop at (stored self)) }
        ensures err { IfErr result (λ e. stored e.back ≡ stored self) }
        ensures none { at ≡ 0 → IfErr result (λ e. refuses_empty e.reason) }
        ensures all { at ≡ length (stored self) → IfErr result (λ e. refuses_empty e.reason) }
        ensures reason { IfErr result (λ e. refuses e.reason) };

    /// Returns the bytes before `at` alone: the first piece of `split_at`, or a cheaper way. Requires
    /// what `split_at` does. Fails with a reason that `refuses` and `refuses_side` allow; then the
    /// storage comes back.
    fn into_front(self, at: usize) -> Result<Self, Refused<Self>>
        requires { at ≤ length (stored self) }
        ensures front { IfOk result (λ front. stored front ≡ take at (stored self)) }
        ensures err { IfErr result (λ e. stored e.back ≡ stored self) }
        ensures reason { IfErr result (λ e. refuses e.reason) }
        ensures side { IfErr result (λ e. refuses_side e.reason) };

    /// Returns the bytes from `at` on alone: the second piece of `split_at`, or a cheaper way. Requires
    /// and fails as `into_front`.
    fn into_back(self, at: usize) -> Result<Self, Refused<Self>>
        requires { at ≤ length (stored self) }
        ensures back { IfOk result (λ back. stored back ≡ drop at (stored self)) }
        ensures err { IfErr result (λ e. stored e.back ≡ stored self) }
        ensures reason { IfErr result (λ e. refuses e.reason) }
        ensures side { IfErr result (λ e. refuses_side e.reason) };
}

/// A storage in which text is built.
pub trait StorageMut: Storage {
    /// The storage into which this one is frozen: `Bytes` for `BytesMut`.
    type Immutable;

    /// Appends `s`. Fails with a reason that `refuses` allows, never for an empty `s`; then nothing
    /// has changed.
    fn push_slice(&mut self, s: &[u8]) -> Result<(), Reason>
        ensures ok { OnOk result (Self.stored self.new ≡ Self.stored self.old ++ s.now) }
        ensures err { OnErr result (Self.stored self.new ≡ Self.stored self.old) }
        ensures empty { s.now ≡ [] → IsOk result }
        ensures reason { IfErr result Self.refuses };
}
