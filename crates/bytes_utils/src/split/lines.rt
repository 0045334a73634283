//! A text split into its lines.
ghost use Rattle.std.specs.Prelude.{◌≡◌, ◌<◌, ℕ, List, [], ◌∷◌, Some, MatchOption, length, take, drop, IsCharBoundary, IfOk, IfErr, OnErr, IfSome};
ghost use Rattle.std.specs.Iterator.{at_most};
ghost use Rattle.std.specs.Option.{option_map_or};
ghost use Rattle.std.specs.Str.{chars};
ghost use Rattle.bytes_utils.specs.Ends.{RefusesAtEnd};
ghost use Rattle.bytes_utils.specs.Lines.{AreLinesToCome, HoldsLineFeed, RefusesLine, lines, text_after_line};
ghost use Rattle.bytes_utils.specs.Step.{StepGivesFirst, IsStep, LeavesEnd};

use super::cut::{Cut, cut_around, yield_part};
use super::search::search_alone;
use crate::string::{Storage, StrInner};
use bytes_utils_buf::Reason;
use std::marker::Model;

/// Returns the byte place at which the first line of `text` ends and that at which the text after
/// its line feed begins. Returns `None` if the text has no line feed: then it is one line, or none
/// if it is empty.
///
/// The line is the first one of `str::lines`: a carriage return directly before the line feed isn't
/// part of it. [`lines_bytes`](StrInner::lines_bytes) takes the same steps; use this call to take
/// one line off a borrowed text.
///
/// ```text
/// let text = "Host: a\r\nbody";
/// if let Some((end, next)) = line_place(text) {
///     let (line, rest) = (&text[..end], &text[next..]); // "Host: a" and "body"
/// }
/// ```
#[inline]
pub fn line_place(text: &str) -> Option<(usize, usize)>
    ensures order { IfSome result (λ place. place.0 < place.1) }
    ensures end { IfSome result (λ place. IsCharBoundary text.now place.0) }
    ensures next { IfSome result (λ place. IsCharBoundary text.now place.1) }
    ensures feed { MatchOption result (¬ HoldsLineFeed (Some text.now))
        (λ _. HoldsLineFeed (Some text.now)) }
    ensures line { MatchOption result
        (0 < length text.now → lines (chars text.now) ≡ chars text.now ∷ [])
        (λ place. lines (chars text.now)
        ≡ chars (take place.0 text.now) ∷ lines (chars (drop place.1 text.now))) }
    ensures after { MatchOption result (text_after_line (chars text.now) ≡ [])
        (λ place. chars (drop place.1 text.now) ≡ text_after_line (chars text.now)) }
{
    let at = search_alone(text, "\n")?;
    let line = &text[..at];
    let end = line.strip_suffix('\r').unwrap_or(line).len();
    Some((end, at + 1))
}

/// Splits off the first line and its line feed. Returns the whole text if it has no line feed.
#[inline(always)]
fn first_line<S: Storage>(text: StrInner<S>) -> Result<Cut<S>, Reason>
    requires { 0 < length text }
    ensures gives { IfOk result (λ cut. StepGivesFirst AreLinesToCome (Some text) (chars cut.0) cut.1) }
    ensures leaves { IfOk result (λ cut. LeavesEnd (Some text) cut.1) }
    ensures shorter { IfOk result (λ cut. IfSome cut.1 (λ rest. length rest < length text)) }
    ensures err { OnErr result (HoldsLineFeed (Some text)) }
    ensures ends { text_after_line (chars text) ≡ []
        → IfErr result (RefusesAtEnd S.refuses_empty S.refuses_side) }
    ensures reason { IfErr result S.refuses }
{
    let Some((end, next)) = line_place(text.as_str()) else {
        return Ok((text, None));
    };
    let (line, rest) = cut_around(text, end, next)?;
    Ok((line, Some(rest)))
}

/// An iterator over the lines of a text, first to last, as `str::lines` has them. What a step leaves
/// is an end of the text. If a split is refused, the error is the last item.
#[derive(Drop)]
pub struct LinesBytes<S: Storage> {
    rest: Option<StrInner<S>>,
}

impl<S: Storage> Model for LinesBytes<S> {
    ghost use Rattle.std.specs.Prelude.{ℕ, List, Option};

    ghost Value = { Option (List ℕ) };

    ghost view = { λ s. s.rest };
}

impl<S: Storage> StrInner<S> {
    /// Splits the text into its lines, as `str::lines` does: without their line feeds, and without
    /// one carriage return directly before each line feed.
    pub fn lines_bytes(self) -> LinesBytes<S>
        ensures value { result ≡ Some self }
        ensures coming { (lines : List (List ℕ)) × AreLinesToCome result lines }
    {
        LinesBytes { rest: Some(self) }
    }
}

impl<S: Storage> Iterator for LinesBytes<S> {
    type Item = Result<StrInner<S>, Reason>;

    ghost next_gives = { λ s r t. LeavesEnd s t × IsStep AreLinesToCome
        (RefusesLine S.refuses S.refuses_empty S.refuses_side) s r t };

    ghost remaining = { λ s. at_most (option_map_or length s 0) };

    #[inline(always)]
    fn next(&mut self) -> Option<Self::Item> {
        let text = self.rest.take()?;
        if text.as_str().is_empty() {
            return None;
        }
        yield_part!(self.rest, first_line(text))
    }
}
