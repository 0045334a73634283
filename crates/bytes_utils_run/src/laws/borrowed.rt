//! The methods of `str` that return borrowed parts, with contracts, and the laws that the owned parts
//! are the same.
//!
//! Each function but the last two calls the method of `str` that has its name (`split_character` and
//! `split_tested` call `split`) and returns that method's own iterator or halves. Its contract adds
//! which parts a run of the iterator gives, in order. The parts are right by the definitions that
//! `cut_all` follows too, and the halves by those of `split_once_bytes` and `rsplit_once_bytes`. A
//! run that stops early gives the first of the parts.
//!
//! A separator must not be empty here: for the empty one, std's contract allows other parts too.
ghost use Rattle.std.specs.Prelude.{◌≡◌, ◌<◌, ◌==◌, ℕ, Bool, [], ◌∷◌, None, Some, MatchOption, length};
ghost use Rattle.std.specs.Str.{chars};
ghost use Rattle.std.specs.Str.Iter.{lines_steps, split_whitespace_steps};
ghost use Rattle.std.specs.Str.Iter.{split_ascii_whitespace_steps, split_inclusive_steps};
ghost use Rattle.std.specs.Str.Iter.{split_steps, split_pattern, splitn_steps};
ghost use Rattle.std.specs.Str.Iter.{rsplit_steps, rsplitn_steps};
ghost use Rattle.std.specs.Str.Pattern.{FindsChar};
ghost use Rattle.bytes_utils.specs.Halves.{AreHalvesAtFirst, AreHalvesAtLast};
ghost use Rattle.bytes_utils.specs.Occurrence.{Occurs};
ghost use Rattle.bytes_utils_run.specs.Borrowed.{GivesBorrowedParts, finds_borrowed_text, rfinds_borrowed_text, keeps_borrowed_text};
ghost use Rattle.bytes_utils_run.specs.Borrowed.{OwnedAsBorrowedLaw, OnceAsBorrowedLaw};
ghost use Rattle.bytes_utils_run.specs.Borrowed.{keeps_character, AnswersBy, finds_tested};
ghost use Rattle.bytes_utils_run.specs.Borrowed.{keeps_tested, AreBorrowedPartsByTest};
ghost use Rattle.bytes_utils_run.specs.Cutting.{ArePartsBy, ByWords, ByAsciiWords, ByLines};
ghost use Rattle.bytes_utils_run.specs.Cutting.{FromFront, FromBack, Keeping};

use std::str::{
    Lines, RSplit, RSplitN, Split, SplitAsciiWhitespace, SplitInclusive, SplitN, SplitWhitespace,
};

/// Splits `text` into words at white space (Unicode's property White_Space).
pub fn split_whitespace(text: &str) -> SplitWhitespace<'_>
    ensures { GivesBorrowedParts split_whitespace_steps result (ArePartsBy ByWords (chars text.now)) }
{
    text.split_whitespace()
}

/// Splits `text` into words at ASCII white space.
pub fn split_ascii_whitespace(text: &str) -> SplitAsciiWhitespace<'_>
    ensures { GivesBorrowedParts split_ascii_whitespace_steps result
        (ArePartsBy ByAsciiWords (chars text.now)) }
{
    text.split_ascii_whitespace()
}

/// Splits `text` into lines, without their line ends.
pub fn lines(text: &str) -> Lines<'_>
    ensures { GivesBorrowedParts lines_steps result (ArePartsBy ByLines (chars text.now)) }
{
    text.lines()
}

/// Splits `text` at each `separator`. Requires that `separator` isn't empty (test: `is_empty`).
pub fn split<'t, 's>(text: &'t str, separator: &'s str) -> Split<'t, &'s str>
    requires { 0 < length separator.now }
    ensures { GivesBorrowedParts (split_steps finds_borrowed_text keeps_borrowed_text) result
        (ArePartsBy (FromFront (chars separator.now) None) (chars text.now)) }
{
    text.split(separator)
}

/// Splits `text` at `separator` into at most `most` parts. The last part is the rest, not split.
/// Requires that `separator` isn't empty (test: `is_empty`).
pub fn splitn<'t, 's>(text: &'t str, most: usize, separator: &'s str) -> SplitN<'t, &'s str>
    requires { 0 < length separator.now }
    ensures { GivesBorrowedParts (splitn_steps finds_borrowed_text keeps_borrowed_text) result
        (ArePartsBy (FromFront (chars separator.now) (Some most)) (chars text.now)) }
{
    text.splitn(most, separator)
}

/// Splits `text` at each `separator`, from the back. Requires that `separator` isn't empty (test:
/// `is_empty`).
pub fn rsplit<'t, 's>(text: &'t str, separator: &'s str) -> RSplit<'t, &'s str>
    requires { 0 < length separator.now }
    ensures { GivesBorrowedParts (rsplit_steps rfinds_borrowed_text keeps_borrowed_text) result
        (ArePartsBy (FromBack (chars separator.now) None) (chars text.now)) }
{
    text.rsplit(separator)
}

/// Splits `text` at `separator`, from the back, into at most `most` parts. The last part is the
/// rest, not split. Requires that `separator` isn't empty (test: `is_empty`).
pub fn rsplitn<'t, 's>(text: &'t str, most: usize, separator: &'s str) -> RSplitN<'t, &'s str>
    requires { 0 < length separator.now }
    ensures { GivesBorrowedParts (rsplitn_steps rfinds_borrowed_text keeps_borrowed_text) result
        (ArePartsBy (FromBack (chars separator.now) (Some most)) (chars text.now)) }
{
    text.rsplitn(most, separator)
}

/// Splits `text` after each `separator`, which stays at the end of its part. Requires that
/// `separator` isn't empty (test: `is_empty`).
pub fn split_inclusive<'t, 's>(text: &'t str, separator: &'s str) -> SplitInclusive<'t, &'s str>
    requires { 0 < length separator.now }
    ensures { GivesBorrowedParts (split_inclusive_steps finds_borrowed_text keeps_borrowed_text) result
        (ArePartsBy (Keeping (chars separator.now)) (chars text.now)) }
{
    text.split_inclusive(separator)
}

/// Splits `text` at each `character`. The parts are those by a separator of this one character.
pub fn split_character(text: &str, character: char) -> Split<'_, char>
    ensures { GivesBorrowedParts (split_steps FindsChar keeps_character) result
        (ArePartsBy (FromFront (character ∷ []) None) (chars text.now)) }
{
    text.split(character)
}

/// Splits `text` at each character for which `is_separator` returns true. The contract is about a
/// closure whose result depends on the character alone. If it returns true for one character only,
/// the parts are those by a separator of that character.
pub fn split_tested<F: FnMut(char) -> bool>(text: &str, is_separator: F) -> Split<'_, F>
    ensures pattern { split_pattern result ≡ is_separator }
    ensures tested { (passes : ℕ → Bool) → AnswersBy F.FnMut is_separator passes
        → GivesBorrowedParts (split_steps (finds_tested (AnswersBy F.FnMut))
        (keeps_tested (AnswersBy F.FnMut))) result
        (AreBorrowedPartsByTest passes (chars text.now)) }
    ensures one { (separator : ℕ) → AnswersBy F.FnMut is_separator (λ c. c == separator)
        → GivesBorrowedParts (split_steps (finds_tested (AnswersBy F.FnMut))
        (keeps_tested (AnswersBy F.FnMut))) result
        (ArePartsBy (FromFront (separator ∷ []) None) (chars text.now)) }
{
    text.split(is_separator)
}

/// Splits `text` around the first `separator`, or returns `None` if there is none. Requires that
/// `separator` isn't empty (test: `is_empty`).
pub fn split_once<'t>(text: &'t str, separator: &str) -> Option<(&'t str, &'t str)>
    requires { 0 < length separator.now }
    ensures { MatchOption result (¬ Occurs (chars separator.now) (chars text.now))
        (λ halves. AreHalvesAtFirst (chars text.now) (chars separator.now)
        (chars halves.0.now) (chars halves.1.now)) }
{
    text.split_once(separator)
}

/// Splits `text` around the last `separator`, or returns `None` if there is none. Requires that
/// `separator` isn't empty (test: `is_empty`).
pub fn rsplit_once<'t>(text: &'t str, separator: &str) -> Option<(&'t str, &'t str)>
    requires { 0 < length separator.now }
    ensures { MatchOption result (¬ Occurs (chars separator.now) (chars text.now))
        (λ halves. AreHalvesAtLast (chars text.now) (chars separator.now)
        (chars halves.0.now) (chars halves.1.now)) }
{
    text.rsplit_once(separator)
}

/// `cut_all` gives the same parts, in the same order, as the method of `str`; if it is refused, it
/// gives fewer of them, from the first on.
#[tactic(auto, using(crate::proofs::OwnedAsBorrowed::owned_as_borrowed_law))]
pub fn owned_as_borrowed()
    ensures { OwnedAsBorrowedLaw }
{}

/// `split_once_bytes` and `rsplit_once_bytes` give the same halves as the methods of `str`, or
/// `None` if those do, since only one result is right.
#[tactic(auto, using(crate::proofs::OnceAsBorrowed::once_at_first, crate::proofs::OnceAsBorrowed::once_at_last))]
pub fn once_as_borrowed()
    ensures first { OnceAsBorrowedLaw AreHalvesAtFirst }
    ensures last { OnceAsBorrowedLaw AreHalvesAtLast }
{}
