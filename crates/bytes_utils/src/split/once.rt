//! A text split once, at the first or the last separator.
ghost use Rattle.std.specs.Prelude.{◌≡◌, ℕ, List, [], ◌++◌, MatchOption, IfOk, IfErr, OnErr};
ghost use Rattle.std.specs.Str.{chars};
ghost use Rattle.bytes_utils.specs.Ends.{EndsWith, RefusesAtEnd};
ghost use Rattle.bytes_utils.specs.Halves.{AreHalvesAtFirst, AreHalvesAtLast};
ghost use Rattle.bytes_utils.specs.Occurrence.{Occurs};

use super::cut::cut_at_separator;
use super::search::{rsearch_alone, search_alone};
use crate::string::{Storage, StrInner};
use bytes_utils_buf::Reason;

impl<S: Storage> StrInner<S> {
    /// Splits at the first `separator`, as `str::split_once` does, and returns the text before it
    /// and the text after it. If the separator doesn't occur, returns all of the text and `None`.
    /// The empty separator occurs first at the start of the text.
    ///
    /// ```text
    /// let (path, query) = target.split_once_bytes("?")?;
    /// let (name, Some(value)) = line.split_once_bytes(": ")? else { .. };
    /// ```
    ///
    /// Fails for a reason of the storage, and only if the separator occurs; then the text is
    /// dropped. The reason is `OutOfMemory` for a [`Str`](crate::Str) or a `StrMut`, which don't
    /// fail if nothing comes after the first separator, or if the separator is empty.
    pub fn split_once_bytes(self, separator: &str) -> Result<(Self, Option<Self>), Reason>
        ensures halves { IfOk result (λ cut. MatchOption cut.1
            (¬ Occurs (chars separator.now) (chars self))
            (λ following. AreHalvesAtFirst (chars self) (chars separator.now)
            (chars cut.0) (chars following))) }
        ensures bytes { IfOk result (λ cut. MatchOption cut.1 (cut.0 ≡ self)
            (λ following. cut.0 ++ (separator.now ++ following) ≡ self)) }
        ensures in_bytes { IfOk result (λ cut. MatchOption cut.1 (¬ Occurs separator.now self)
            (λ following. AreHalvesAtFirst self separator.now cut.0 following)) }
        ensures err { OnErr result (Occurs (chars separator.now) (chars self)) }
        ensures ends { (before : List ℕ) → AreHalvesAtFirst self separator.now before []
            → IfErr result (RefusesAtEnd S.refuses_empty S.refuses_side) }
        ensures empty { separator.now ≡ []
            → IfErr result (RefusesAtEnd S.refuses_empty S.refuses_side) }
        ensures reason { IfErr result S.refuses }
    {
        let Some(at) = search_alone(self.as_str(), separator) else {
            return Ok((self, None));
        };
        let (before, following) = cut_at_separator(self, separator, at)?;
        Ok((before, Some(following)))
    }

    /// Splits at the last `separator`, as `str::rsplit_once` does, and returns the text before it
    /// and the text after it. If the separator doesn't occur, returns `None` and all of the text.
    /// The empty separator occurs last at the end of the text.
    ///
    /// ```text
    /// let (folder, file) = path.rsplit_once_bytes("/")?;
    /// ```
    ///
    /// Fails for a reason of the storage, and only if the separator occurs; then the text is
    /// dropped. The reason is `OutOfMemory` for a [`Str`](crate::Str) or a `StrMut`, which don't
    /// fail if the text ends with the separator.
    pub fn rsplit_once_bytes(self, separator: &str) -> Result<(Option<Self>, Self), Reason>
        ensures halves { IfOk result (λ cut. MatchOption cut.0
            (¬ Occurs (chars separator.now) (chars self))
            (λ before. AreHalvesAtLast (chars self) (chars separator.now)
            (chars before) (chars cut.1))) }
        ensures bytes { IfOk result (λ cut. MatchOption cut.0 (cut.1 ≡ self)
            (λ before. before ++ (separator.now ++ cut.1) ≡ self)) }
        ensures in_bytes { IfOk result (λ cut. MatchOption cut.0 (¬ Occurs separator.now self)
            (λ before. AreHalvesAtLast self separator.now before cut.1)) }
        ensures err { OnErr result (Occurs (chars separator.now) (chars self)) }
        ensures ends { EndsWith separator.now self
            → IfErr result (RefusesAtEnd S.refuses_empty S.refuses_side) }
        ensures reason { IfErr result S.refuses }
    {
        let Some(at) = rsearch_alone(self.as_str(), separator) else {
            return Ok((None, self));
        };
        let (before, following) = cut_at_separator(self, separator, at)?;
        Ok((Some(before), following))
    }
}
