//! A text split by the empty separator: an empty part, each character, an empty part.
ghost use Rattle.std.specs.Prelude.{◌≡◌, ◌<◌, ◌≤◌, ℕ, [], Option, None, Some, length, true, false, IfOk, IfErr, OnErr, IfSome};
ghost use Rattle.std.specs.Bool.{OnTrue};
ghost use Rattle.std.specs.Str.{chars};
ghost use Rattle.bytes_utils.specs.Ends.{RefusesAtEnd};
ghost use Rattle.bytes_utils.specs.Splitting.{ArePartsToCome, AreForwardPartsToCome, AreBackwardPartsToCome, LeavesMoreToSplit, limit_after_split, most_parts, splitting};
ghost use Rattle.bytes_utils.specs.Step.{StepGivesFirst};

use super::character::{first_end, last_character_start};
use super::cut::{Cut, cut_around};
use super::direction::Direction;
use crate::string::{Storage, StrInner};
use bytes_utils_buf::Reason;

/// Splits off the empty part at an end of a text, by one split.
#[inline(always)]
fn empty_part<S: Storage>(text: StrInner<S>, from: Direction) -> Result<Cut<S>, Reason>
    ensures gives { IfOk result (λ cut. (limit : Option ℕ) → LeavesMoreToSplit limit
        → StepGivesFirst (ArePartsToCome from)
        (splitting (Some text) [] limit false) (chars cut.0)
        (splitting cut.1 [] (limit_after_split limit) true)) }
    ensures rest { IfOk result (λ cut. cut.1 ≡ Some text) }
    ensures end { IfErr result S.refuses_empty }
    ensures reason { IfErr result S.refuses }
{
    let end = text.as_str().len();
    match from {
        Direction::Forward => {
            let (part, rest) = text.into_halves(0)?;
            Ok((part, Some(rest)))
        }
        Direction::Backward => {
            let (rest, part) = text.into_halves(end)?;
            Ok((part, Some(rest)))
        }
    }
}

/// Splits off the first character. An empty text is returned whole, as the last part. `cut_around`
/// with the same place twice is no slip: like a step by any other separator, this one splits at the
/// later place, and then takes the part by `into_front`.
#[inline(always)]
fn first_by_empty_separator<S: Storage>(text: StrInner<S>) -> Result<Cut<S>, Reason>
    ensures gives { IfOk result (λ cut. (limit : Option ℕ) → LeavesMoreToSplit limit
        → StepGivesFirst AreForwardPartsToCome
        (splitting (Some text) [] limit true) (chars cut.0)
        (splitting cut.1 [] (limit_after_split limit) true)) }
    ensures shorter { IfOk result (λ cut. IfSome cut.1 (λ rest. length rest < length text)) }
    ensures err { OnErr result (0 < length text) }
    ensures ends { length (chars text) ≤ 1
        → IfErr result (RefusesAtEnd S.refuses_empty S.refuses_side) }
    ensures reason { IfErr result S.refuses }
{
    let Some(end) = first_end(text.as_str()) else {
        return Ok((text, None));
    };
    let (part, rest) = cut_around(text, end, end)?;
    Ok((part, Some(rest)))
}

/// Splits off the last character. An empty text is returned whole, as the last part. It cuts as
/// `first_by_empty_separator` does.
#[inline(always)]
fn last_by_empty_separator<S: Storage>(text: StrInner<S>) -> Result<Cut<S>, Reason>
    ensures gives { IfOk result (λ cut. (limit : Option ℕ) → LeavesMoreToSplit limit
        → StepGivesFirst AreBackwardPartsToCome
        (splitting (Some text) [] limit true) (chars cut.0)
        (splitting cut.1 [] (limit_after_split limit) true)) }
    ensures shorter { IfOk result (λ cut. IfSome cut.1 (λ rest. length rest < length text)) }
    ensures err { OnErr result (0 < length text) }
    ensures ends { length (chars text) ≤ 1
        → IfErr result (RefusesAtEnd S.refuses_empty S.refuses_side) }
    ensures reason { IfErr result S.refuses }
{
    let Some(start) = last_character_start(text.as_str()) else {
        return Ok((text, None));
    };
    let (rest, part) = cut_around(text, start, start)?;
    Ok((part, Some(rest)))
}

/// Returns the next part by the empty separator and the rest, if the limit leaves more than one
/// part: first the empty part, then each character, and at last the rest, which is empty.
#[inline(always)]
pub(super) fn cut_by_empty_separator<S: Storage>(
    text: StrInner<S>,
    begun: bool,
    from: Direction,
) -> Result<Cut<S>, Reason>
    ensures gives { IfOk result (λ cut. (limit : Option ℕ) → LeavesMoreToSplit limit
        → StepGivesFirst (ArePartsToCome from)
        (splitting (Some text) [] limit begun) (chars cut.0)
        (splitting cut.1 [] (limit_after_split limit) true)) }
    ensures fewer { IfOk result (λ cut. most_parts
        (splitting cut.1 [] None true)
        < most_parts (splitting (Some text) [] None begun)) }
    ensures err { OnErr result (OnTrue begun (0 < length text)) }
    ensures ends { OnTrue begun (length (chars text) ≤ 1)
        → IfErr result (RefusesAtEnd S.refuses_empty S.refuses_side) }
    ensures first { begun ≡ false → IfErr result S.refuses_empty }
    ensures reason { IfErr result S.refuses }
{
    if !begun {
        return empty_part(text, from);
    }
    match from {
        Direction::Forward => first_by_empty_separator(text),
        Direction::Backward => last_by_empty_separator(text),
    }
}
