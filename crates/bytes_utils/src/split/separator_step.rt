//! A text split by a separator, from either end.
ghost use Rattle.std.specs.Prelude.{◌≡◌, ◌≢◌, ◌<◌, ◌==◌, ℕ, List, Option, Some, length, false, None, IfOk, IfErr, OnErr, OnSome, IfSome, IsUtf8};
ghost use Rattle.std.specs.Bool.{OnTrue};
ghost use Rattle.std.specs.Option.{option_map_or};
ghost use Rattle.std.specs.Str.{chars};
ghost use Rattle.bytes_utils.specs.Ends.{RefusesAtEnd};
ghost use Rattle.bytes_utils.specs.Occurrence.{Occurs};
ghost use Rattle.bytes_utils.specs.SeparatorSearch.{end_of, needle_of};
ghost use Rattle.bytes_utils.specs.Splitting.{ArePartsToCome, AreForwardPartsToCome, AreBackwardPartsToCome, CutsAtEnd, GivesEmptyFirst, RefusesSplit, SeparatorEnds, LeavesMoreToSplit, limit_after_split, most_parts, splitting, all_of};
ghost use Rattle.bytes_utils.specs.Step.{StepGivesFirst, IsStep};
ghost use Rattle.bytes_utils.specs.declared.split.direction.Direction.TheVariants.{Forward, Backward};

use super::cut::{Cut, cut_at_separator, yield_part};
use super::direction::Direction;
use super::empty_separator::cut_by_empty_separator;
use super::search::{SeparatorSearch, rsearch_by, search_by};
use crate::string::{Storage, StrInner};
use bytes_utils_buf::Reason;
use memchr::memmem::{Finder, FinderRev};
use std::marker::Model;

/// Splits off the part before the first separator. Returns the whole text if there is none.
#[inline(always)]
fn first_separated_part<S: Storage>(
    text: StrInner<S>,
    separator: &str,
    finder: &Finder,
    is_long: bool,
) -> Result<Cut<S>, Reason>
    requires some { 0 < length separator.now }
    requires needle { finder.now ≡ separator.now }
    ensures gives { IfOk result (λ cut. (limit : Option ℕ) → LeavesMoreToSplit limit
        → StepGivesFirst AreForwardPartsToCome
        (splitting (Some text) separator.now limit false) (chars cut.0)
        (splitting cut.1 separator.now (limit_after_split limit) false)) }
    ensures shorter { IfOk result (λ cut. IfSome cut.1 (λ rest. length rest < length text)) }
    ensures err { OnErr result (Occurs (chars separator.now) (chars text)) }
    ensures ends { SeparatorEnds Forward separator.now text
        → IfErr result (RefusesAtEnd S.refuses_empty S.refuses_side) }
    ensures reason { IfErr result S.refuses }
{
    let Some(at) = search_by(finder, is_long, text.as_str()) else {
        return Ok((text, None));
    };
    let (part, rest) = cut_at_separator(text, separator, at)?;
    Ok((part, Some(rest)))
}

/// Splits off the part after the last separator. Returns the whole text if there is none.
#[inline(always)]
fn last_separated_part<S: Storage>(
    text: StrInner<S>,
    separator: &str,
    finder: &FinderRev,
    is_long: bool,
) -> Result<Cut<S>, Reason>
    requires some { 0 < length separator.now }
    requires needle { finder.now ≡ separator.now }
    ensures gives { IfOk result (λ cut. (limit : Option ℕ) → LeavesMoreToSplit limit
        → StepGivesFirst AreBackwardPartsToCome
        (splitting (Some text) separator.now limit false) (chars cut.0)
        (splitting cut.1 separator.now (limit_after_split limit) false)) }
    ensures shorter { IfOk result (λ cut. IfSome cut.1 (λ rest. length rest < length text)) }
    ensures err { OnErr result (Occurs (chars separator.now) (chars text)) }
    ensures ends { SeparatorEnds Backward separator.now text
        → IfErr result (RefusesAtEnd S.refuses_empty S.refuses_side) }
    ensures reason { IfErr result S.refuses }
{
    let Some(at) = rsearch_by(finder, is_long, text.as_str()) else {
        return Ok((text, None));
    };
    let (rest, part) = cut_at_separator(text, separator, at)?;
    Ok((part, Some(rest)))
}

/// Returns the next part and the rest, if the limit leaves more than one part. A separator that
/// isn't empty is searched for; the empty one is before and after each character.
#[inline(always)]
fn cut_separated<S: Storage>(
    text: StrInner<S>,
    separator: &str,
    search: &SeparatorSearch,
    begun: bool,
) -> Result<Cut<S>, Reason>
    requires begun { OnTrue begun (length separator.now ≡ 0) }
    requires needle { needle_of search.now ≡ separator.now }
    ensures gives { IfOk result (λ cut. (limit : Option ℕ) → LeavesMoreToSplit limit
        → StepGivesFirst (ArePartsToCome (end_of search.now))
        (splitting (Some text) separator.now limit begun) (chars cut.0)
        (splitting cut.1 separator.now (limit_after_split limit) (length separator.now == 0))) }
    ensures fewer { IfOk result (λ cut. most_parts
        (splitting cut.1 separator.now None (length separator.now == 0))
        < most_parts (splitting (Some text) separator.now None begun)) }
    ensures holds { OnErr result (Occurs (chars separator.now) (chars text)) }
    ensures more { OnErr result (OnTrue begun (0 < length text)) }
    ensures ends { CutsAtEnd (end_of search.now) separator.now begun text
        → IfErr result (RefusesAtEnd S.refuses_empty S.refuses_side) }
    ensures first { GivesEmptyFirst separator.now begun → IfErr result S.refuses_empty }
    ensures reason { IfErr result S.refuses }
{
    if separator.is_empty() {
        return cut_by_empty_separator(text, begun, search.end());
    }
    match search {
        SeparatorSearch::First(finder) => first_separated_part(text, separator, finder, false),
        SeparatorSearch::FirstLong(finder) => first_separated_part(text, separator, finder, true),
        SeparatorSearch::Last(finder) => last_separated_part(text, separator, finder, false),
        SeparatorSearch::LastLong(finder) => last_separated_part(text, separator, finder, true),
    }
}

/// Returns the next part and the rest. If the limit is one part, the part is all of the text.
#[inline(always)]
fn next_separated_part<S: Storage>(
    text: StrInner<S>,
    separator: &str,
    search: &SeparatorSearch,
    limit: Option<usize>,
    begun: bool,
) -> Result<Cut<S>, Reason>
    requires some { limit ≢ Some 0 }
    requires begun { OnTrue begun (length separator.now ≡ 0) }
    requires needle { needle_of search.now ≡ separator.now }
    ensures gives { IfOk result (λ cut. StepGivesFirst (ArePartsToCome (end_of search.now))
        (splitting (Some text) separator.now limit begun) (chars cut.0)
        (splitting cut.1 separator.now (limit_after_split limit) (length separator.now == 0))) }
    ensures fewer { IfOk result (λ cut. most_parts
        (splitting cut.1 separator.now None (length separator.now == 0))
        < most_parts (splitting (Some text) separator.now None begun)) }
    ensures left { IfOk result (λ cut. IfSome cut.1 (λ _. LeavesMoreToSplit limit)) }
    ensures holds { OnErr result (Occurs (chars separator.now) (chars text)) }
    ensures more { OnErr result (OnTrue begun (0 < length text)) }
    ensures ends { CutsAtEnd (end_of search.now) separator.now begun text
        → IfErr result (RefusesAtEnd S.refuses_empty S.refuses_side) }
    ensures first { GivesEmptyFirst separator.now begun → IfErr result S.refuses_empty }
    ensures reason { IfErr result S.refuses }
    ensures limit { OnErr result (LeavesMoreToSplit limit) }
{
    if limit == Some(1) {
        return Ok((text, None));
    }
    cut_separated(text, separator, search, begun)
}

/// What is left of a text that is split by a separator, and the number of parts that may still be
/// returned. If a split is refused, the error is the last item.
#[derive(Drop)]
pub(super) struct SeparatedText<'s, S: Storage> {
    rest: Option<StrInner<S>>,
    separator: &'s str,
    search: SeparatorSearch<'s>,
    limit: Option<usize>,
    begun: bool,
}

impl<'s, S: Storage> Model for SeparatedText<'s, S> {
    ghost use Rattle.std.specs.Prelude.{◌≡◌, ◌≢◌, length, Some, IfSome, IsUtf8};
    ghost use Rattle.std.specs.Bool.{OnTrue};
    ghost use Rattle.bytes_utils.specs.SeparatorSearch.{end_of, needle_of};
    ghost use Rattle.bytes_utils.specs.Splitting.{SplittingFrom};

    ghost Value = { SplittingFrom };

    ghost view = { λ s. record {
      state = record {
        rest = s.rest;
        separator = s.separator.now;
        limit = s.limit;
        begun = s.begun;
      };
      end = end_of s.search;
    } };

    ghost invariant = { λ s. (needle_of s.search ≡ s.separator.now) × IsUtf8 s.separator.now
        × IfSome s.rest
        (λ _. OnTrue s.begun ((length s.separator.now ≡ 0) × (s.limit ≢ Some 0))) };
}

impl<'s, S: Storage> SeparatedText<'s, S> {
    /// Starts to split all of `text` from the end `from`, into at most `limit` parts if there is a
    /// limit.
    #[inline(always)]
    pub(super) fn new(
        text: StrInner<S>,
        separator: &'s str,
        limit: Option<usize>,
        from: Direction,
    ) -> Self
        ensures state { result.state ≡ all_of text separator.now limit }
        ensures end { result.end ≡ from }
        ensures coming { (parts : List (List ℕ)) × ArePartsToCome from result.state parts }
    {
        SeparatedText {
            rest: Some(text),
            separator,
            search: SeparatorSearch::new(separator, from),
            limit,
            begun: false,
        }
    }

    /// Returns the number of bytes that are still to be split.
    #[inline(always)]
    pub(super) fn left(&self) -> usize
        ensures value { result ≡ option_map_or length self.now.state.rest 0 }
        ensures utf8 { IfSome self.now.state.rest IsUtf8 }
        ensures begun { IfSome self.now.state.rest (λ _. OnTrue self.now.state.begun
            (length self.now.state.separator ≡ 0)) }
        ensures separator { IsUtf8 self.now.state.separator }
    {
        match &self.rest {
            Some(rest) => rest.as_str().len(),
            None => 0,
        }
    }

    /// Returns the next part from its end.
    #[inline(always)]
    pub(super) fn next(&mut self) -> Option<Result<StrInner<S>, Reason>>
        ensures step { IsStep (ArePartsToCome self.old.end)
            (RefusesSplit S.refuses S.refuses_empty S.refuses_side self.old.end)
            self.old.state result self.new.state }
        ensures none { result ≡ None → self.new.state ≡ self.old.state }
        ensures separator { self.new.state.separator ≡ self.old.state.separator }
        ensures end { self.new.end ≡ self.old.end }
        ensures fewer { OnSome result (most_parts self.new.state < most_parts self.old.state) }
    {
        if self.limit == Some(0) {
            return None;
        }
        let text = self.rest.take()?;
        let cut = next_separated_part(text, self.separator, &self.search, self.limit, self.begun);
        self.limit = self.limit.map(|most| most.saturating_sub(1));
        self.begun = self.separator.is_empty();
        yield_part!(self.rest, cut)
    }
}
