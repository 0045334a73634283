//! A text: checked, read and split.
ghost use Rattle.std.specs.Prelude.{◌≡◌, ◌↔◌, length, take, drop, IsUtf8, IsCharBoundary, IsOk, IfOk, IfErr};
ghost use Rattle.std.specs.Str.{valid_up_to, error_len};
ghost use Rattle.std.specs.Str.Lossy.{utf8_valid_len, utf8_error_len};
ghost use Rattle.bytes_utils.specs.Errors.{utf8_error_storage, utf8_error_fault};

use crate::string::{Storage, Utf8Error};
use bytes_utils_buf::{Reason, Refused};
use std::marker::Model;
use std::str;

/// Text over a storage.
///
/// For parts that outlive the text they were cut from. A part is owned, and shares its bytes if the
/// storage shares them, as `Bytes` does:
///
/// ```text
/// let text = Str::from_inner(bytes)?;          // `Bytes` of `key=value`; fails if not UTF-8
/// let (key, rest) = text.split_at_bytes(3)?;   // `key`, `=value`; 3 is a character boundary
/// for part in rest.split_bytes("=") { .. }     // an empty part, `value`
/// ```
///
/// In clauses a text is its bytes.
#[derive(Drop)]
pub struct StrInner<S: Storage> {
    pub(super) storage: S,
}

impl<S: Storage> Model for StrInner<S> {
    ghost use Rattle.std.specs.Prelude.{ℕ, List, IsUtf8};

    ghost Value = { List ℕ };

    ghost view = { λ s. S.stored s.storage };

    ghost invariant = { λ s. IsUtf8 (S.stored s.storage) };
}

impl<S: Storage> StrInner<S> {
    /// Makes a text of a storage. Fails with a `Utf8Error` if its bytes are not UTF-8; then `s`
    /// comes back in the error.
    pub fn from_inner(s: S) -> Result<Self, Utf8Error<S>>
        ensures variant { IsOk result ↔ IsUtf8 (S.stored s) }
        ensures ok { IfOk result (λ text. text ≡ S.stored s) }
        ensures err { IfErr result (λ e. utf8_error_storage e ≡ s) }
        ensures valid_len { IfErr result
            (λ e. valid_up_to (utf8_error_fault e) ≡ utf8_valid_len (S.stored s)) }
        ensures fault { IfErr result (λ e. error_len (utf8_error_fault e)
            ≡ utf8_error_len (drop (valid_up_to (utf8_error_fault e)) (S.stored s))) }
    {
        match str::from_utf8(s.as_bytes()) {
            Ok(_) => Ok(StrInner { storage: s }),
            Err(fault) => Err(Utf8Error::new(s, fault)),
        }
    }

    /// Makes a text of a storage without a check. Requires that its bytes are UTF-8 (test:
    /// `from_inner`).
    pub fn from_inner_unchecked(s: S) -> Self
        requires { IsUtf8 (S.stored s) }
        ensures { result ≡ S.stored s }
    {
        StrInner { storage: s }
    }

    /// Returns a reference to the storage.
    pub fn inner(&self) -> &S
        ensures value { S.stored result.now ≡ self.now }
        ensures utf8 { IsUtf8 (S.stored result.now) }
    {
        &self.storage
    }

    /// Turns the text into its storage.
    pub fn into_inner(self) -> S
        ensures value { S.stored result ≡ self }
        ensures utf8 { IsUtf8 (S.stored result) }
    {
        let StrInner { storage } = self;
        storage
    }

    /// Returns the text as a `str`. Its `is_char_boundary` is the test of the conditions on places.
    #[inline]
    pub fn as_str(&self) -> &str
        ensures value { result.now ≡ self.now }
        ensures utf8 { IsUtf8 result.now }
    {
        unsafe { str::from_utf8_unchecked(self.storage.as_bytes()) }
    }

    /// Returns the number of bytes.
    pub fn len(&self) -> usize
        ensures { result ≡ length self.now }
    {
        self.as_str().len()
    }

    /// Splits the text into the text before byte `at` and the text from it on. Requires that `at`
    /// is a character boundary (test: `as_str().is_char_boundary`). Fails with the storage's reason
    /// (`OutOfMemory` for `Str` and `StrMut`, never at 0 or at the end); then the text comes back.
    #[inline]
    #[tactic(auto, using(crate::proofs::Building::pieces))]
    pub fn split_at_bytes(self, at: usize) -> Result<(Self, Self), Refused<Self>>
        requires { IsCharBoundary self at }
        ensures left { IfOk result (λ halves. halves.0 ≡ take at self) }
        ensures right { IfOk result (λ halves. halves.1 ≡ drop at self) }
        ensures err { IfErr result (λ e. e.back ≡ self) }
        ensures none { at ≡ 0 → IfErr result (λ e. S.refuses_empty e.reason) }
        ensures all { at ≡ length self → IfErr result (λ e. S.refuses_empty e.reason) }
        ensures reason { IfErr result (λ e. S.refuses e.reason) }
    {
        let StrInner { storage } = self;
        match storage.split_at(at) {
            Ok((left, right)) => Ok((StrInner { storage: left }, StrInner { storage: right })),
            Err(Refused { reason, back }) => Err(Refused {
                reason,
                back: StrInner { storage: back },
            }),
        }
    }

    /// Both halves, or the reason alone of a refused split.
    #[inline]
    #[tactic(auto, using(crate::proofs::Building::pieces))]
    pub(crate) fn into_halves(self, at: usize) -> Result<(Self, Self), Reason>
        requires { IsCharBoundary self at }
        ensures left { IfOk result (λ halves. halves.0 ≡ take at self) }
        ensures right { IfOk result (λ halves. halves.1 ≡ drop at self) }
        ensures none { at ≡ 0 → IfErr result S.refuses_empty }
        ensures all { at ≡ length self → IfErr result S.refuses_empty }
        ensures reason { IfErr result S.refuses }
    {
        let StrInner { storage: whole } = self;
        match whole.split_at(at) {
            Ok((front, back)) => Ok((StrInner { storage: front }, StrInner { storage: back })),
            Err(unsplit) => Err(unsplit.reason),
        }
    }

    /// The text before byte `at` alone.
    #[inline(always)]
    #[tactic(auto, using(crate::proofs::Building::pieces))]
    pub(crate) fn into_front(self, at: usize) -> Result<Self, Reason>
        requires { IsCharBoundary self at }
        ensures ok { IfOk result (λ front. front ≡ take at self) }
        ensures reason { IfErr result S.refuses }
        ensures side { IfErr result S.refuses_side }
    {
        let StrInner { storage } = self;
        match storage.into_front(at) {
            Ok(storage) => Ok(StrInner { storage }),
            Err(refused) => Err(refused.reason),
        }
    }

    /// The text from byte `at` on alone.
    #[inline(always)]
    #[tactic(auto, using(crate::proofs::Building::pieces))]
    pub(crate) fn into_back(self, at: usize) -> Result<Self, Reason>
        requires { IsCharBoundary self at }
        ensures ok { IfOk result (λ back. back ≡ drop at self) }
        ensures reason { IfErr result S.refuses }
        ensures side { IfErr result S.refuses_side }
    {
        let StrInner { storage } = self;
        match storage.into_back(at) {
            Ok(storage) => Ok(StrInner { storage }),
            Err(refused) => Err(refused.reason),
        }
    }
}
