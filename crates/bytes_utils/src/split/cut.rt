//! The steps that cut a text: each splitter cuts, returns a part and keeps the rest by these.
ghost use Rattle.std.specs.Prelude.{◌≡◌, ◌≤◌, ◌<◌, ◌+◌, ◌++◌, ℕ, length, take, drop, IsCharBoundary, IfOk, IfErr, OnErr, MatchOption};
ghost use Rattle.std.specs.Str.{chars};
ghost use Rattle.bytes_utils.specs.Occurrence.{OccursAt};
ghost use Rattle.bytes_utils.specs.Characters.{character_place};
ghost use Rattle.bytes_utils.specs.Ends.{RefusesAtEnd};

use crate::string::{Storage, StrInner};
use bytes_utils_buf::Reason;

/// A part, and what is left of the text, if anything.
pub(super) type Cut<S> = (StrInner<S>, Option<StrInner<S>>);

/// Returns the text before the byte place `end` and the text from `next` on. Splits at `next`, the
/// later place, first, and then takes the part from the first piece.
#[inline(always)]
pub(super) fn cut_around<S: Storage>(
    text: StrInner<S>,
    end: usize,
    next: usize,
) -> Result<(StrInner<S>, StrInner<S>), Reason>
    requires order { end ≤ next }
    requires end { IsCharBoundary text end }
    requires next { IsCharBoundary text next }
    ensures before { IfOk result (λ pieces. pieces.0 ≡ take end text) }
    ensures after { IfOk result (λ pieces. pieces.1 ≡ drop next text) }
    ensures none { next ≡ 0 → IfErr result (RefusesAtEnd S.refuses_empty S.refuses_side) }
    ensures all { next ≡ length text
        → IfErr result (RefusesAtEnd S.refuses_empty S.refuses_side) }
    ensures reason { IfErr result S.refuses }
{
    let (front, after) = text.into_halves(next)?;
    let before = front.into_front(end)?;
    Ok((before, after))
}

/// Returns the text before the separator that occurs at the byte place `at`, and the text after it.
#[inline(always)]
pub(super) fn cut_at_separator<S: Storage>(
    text: StrInner<S>,
    separator: &str,
    at: usize,
) -> Result<(StrInner<S>, StrInner<S>), Reason>
    requires { (i : ℕ) × (at ≡ character_place (chars text) i)
        × OccursAt (chars separator.now) (chars text) i }
    ensures before { IfOk result (λ pieces. pieces.0 ≡ take at text) }
    ensures after { IfOk result (λ pieces. pieces.1 ≡ drop (at + length separator.now) text) }
    ensures bytes { IfOk result (λ pieces. pieces.0 ++ (separator.now ++ pieces.1) ≡ text) }
    ensures none { at + length separator.now ≡ 0
        → IfErr result (RefusesAtEnd S.refuses_empty S.refuses_side) }
    ensures all { at + length separator.now ≡ length text
        → IfErr result (RefusesAtEnd S.refuses_empty S.refuses_side) }
    ensures reason { IfErr result S.refuses }
{
    // The contract of `as_str` says that the bytes are UTF-8.
    let _ = text.as_str();
    cut_around(text, at, at + separator.len())
}

/// Returns the text before the byte place `end` and the text from it on, if any: at the end of the
/// text it makes no split.
#[inline(always)]
pub(super) fn cut_after<S: Storage>(text: StrInner<S>, end: usize) -> Result<Cut<S>, Reason>
    requires { IsCharBoundary text end }
    ensures front { IfOk result (λ cut. cut.0 ≡ take end text) }
    ensures rest { IfOk result (λ cut. MatchOption cut.1 (end ≡ length text)
        (λ rest. rest ≡ drop end text)) }
    ensures err { OnErr result (end < length text) }
    ensures reason { IfErr result S.refuses }
{
    if end == text.as_str().len() {
        return Ok((text, None));
    }
    let (front, rest) = text.into_halves(end)?;
    Ok((front, Some(rest)))
}

/// Returns the text from the byte place `start` on: at the start of the text it makes no cut.
#[inline(always)]
pub(super) fn cut_before<S: Storage>(text: StrInner<S>, start: usize) -> Result<StrInner<S>, Reason>
    requires { IsCharBoundary text start }
    ensures rest { IfOk result (λ rest. rest ≡ drop start text) }
    ensures err { OnErr result (0 < start) }
    ensures reason { IfErr result S.refuses }
    ensures side { IfErr result S.refuses_side }
{
    if start == 0 {
        return Ok(text);
    }
    text.into_back(start)
}

/// Returns the text before the byte place `end`: at the end of the text it makes no cut.
#[inline(always)]
pub(super) fn cut_front<S: Storage>(text: StrInner<S>, end: usize) -> Result<StrInner<S>, Reason>
    requires { IsCharBoundary text end }
    ensures front { IfOk result (λ front. front ≡ take end text) }
    ensures err { OnErr result (end < length text) }
    ensures reason { IfErr result S.refuses }
    ensures side { IfErr result S.refuses_side }
{
    if end == text.as_str().len() {
        return Ok(text);
    }
    text.into_front(end)
}

/// Returns the part of a cut and keeps what is left. Of a refused cut it returns the reason and
/// keeps nothing.
macro_rules! yield_part {
    ($rest:expr, $cut:expr) => {
        match $cut {
            Ok((part, left)) => {
                $rest = left;
                Some(Ok(part))
            }
            Err(reason) => Some(Err(reason)),
        }
    };
}

pub(super) use yield_part;
