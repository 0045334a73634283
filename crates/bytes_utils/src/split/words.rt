//! A text split into its words.
ghost use Rattle.std.specs.Prelude.{◌≡◌, ◌<◌, ◌≤◌, ◌⊎◌, true, false, ℕ, Bool, List, [], ◌∷◌, Some, MatchOption, length, take, drop, IsCharBoundary, IfOk, IfErr, OnErr, IfSome, OnSome};
ghost use Rattle.std.specs.Char.{IsAsciiGraphic, is_ascii_whitespace, is_whitespace};
ghost use Rattle.std.specs.Iterator.{at_most};
ghost use Rattle.std.specs.Option.{option_map_or};
ghost use Rattle.std.specs.Str.{chars, NoCharPasses};
ghost use Rattle.bytes_utils.specs.Step.{IsStep, LeavesEnd};
ghost use Rattle.bytes_utils.specs.Words.{AreWordsToCome, HoldsSpaceAfterWord, HoldsSpaceBetweenWords, RefusesWord, ends_word, words};

mod graphic;

use self::graphic::graphic_end;
use super::cut::{Cut, cut_after, cut_before, yield_part};
use crate::string::{Storage, StrInner};
use bytes_utils_buf::Reason;
use std::marker::Model;

/// What counts as white space.
trait WhiteSpace {
    // Which characters are white space.
    ghost is_space: { ℕ → Bool };

    /// Returns whether `c` is white space.
    fn has(c: char) -> bool
        ensures { result ≡ is_space c };

    /// A law, with nothing to do at run time: no graphic ASCII character is white space.
    fn no_graphic()
        ensures { (c : ℕ) → IsAsciiGraphic c → is_space c ≡ false };
}

/// The characters with Unicode's property White_Space.
struct Unicode;

impl WhiteSpace for Unicode {
    ghost is_space = { is_whitespace };

    fn has(c: char) -> bool {
        c.is_whitespace()
    }

    #[tactic(auto, using(crate::proofs::WhiteSpace::none_graphic))]
    fn no_graphic() {}
}

/// U+0009, U+000A, U+000C, U+000D and U+0020.
struct Ascii;

impl WhiteSpace for Ascii {
    ghost is_space = { is_ascii_whitespace };

    fn has(c: char) -> bool {
        c.is_ascii_whitespace()
    }

    #[tactic(auto, using(crate::proofs::WhiteSpace::none_graphic))]
    fn no_graphic() {}
}

/// Returns the byte place at which white space begins, or the text ends. Graphic ASCII at the front
/// is passed a block at a time.
#[inline]
fn word_length<W: WhiteSpace>(text: &str) -> usize
    ensures boundary { IsCharBoundary text.now result }
    ensures none { NoCharPasses W.is_space (take result text.now) }
    ensures ends { ends_word W.is_space (chars (drop result text.now)) ≡ true }
{
    W::no_graphic();
    let graphic = graphic_end(text.as_bytes());
    let rest = &text[graphic..];
    let length = rest.find(|c: char| W::has(c)).unwrap_or(rest.len());
    graphic + length
}

/// Returns the byte places at which the first word begins and ends.
#[inline(always)]
fn word_place<W: WhiteSpace>(text: &str) -> Option<(usize, usize)>
    ensures order { IfSome result (λ place. place.0 < place.1) }
    ensures start { IfSome result (λ place. IsCharBoundary text.now place.0) }
    ensures end { IfSome result (λ place. IsCharBoundary text.now place.1) }
    ensures before { IfSome result (λ place. 0 < place.0
        → HoldsSpaceBetweenWords W.is_space (Some text.now)) }
    ensures after { IfSome result (λ place. place.1 < length text.now
        → HoldsSpaceBetweenWords W.is_space (Some text.now)) }
    ensures follows { IfSome result (λ place. place.1 < length text.now
        → HoldsSpaceAfterWord W.is_space (chars text.now)) }
    ensures word { MatchOption result (words W.is_space (chars text.now) ≡ [])
        (λ place. words W.is_space (chars text.now)
        ≡ chars (drop place.0 (take place.1 text.now))
        ∷ words W.is_space (chars (drop place.1 text.now))) }
{
    let start = text.find(|c: char| !W::has(c))?;
    let length = word_length::<W>(&text[start..]);
    Some((start, start + length))
}

/// Returns the text between two byte places, and the text after the second, if any. It splits at
/// the later place first.
#[inline(always)]
fn cut_word<S: Storage>(text: StrInner<S>, start: usize, end: usize) -> Result<Cut<S>, Reason>
    requires order { start ≤ end }
    requires start { IsCharBoundary text start }
    requires end { IsCharBoundary text end }
    ensures word { IfOk result (λ cut. cut.0 ≡ drop start (take end text)) }
    ensures rest { IfOk result (λ cut. MatchOption cut.1 (end ≡ length text)
        (λ rest. rest ≡ drop end text)) }
    ensures err { OnErr result ((0 < start) ⊎ (end < length text)) }
    ensures side { end ≡ length text → IfErr result S.refuses_side }
    ensures reason { IfErr result S.refuses }
{
    let (front, rest) = cut_after(text, end)?;
    let word = cut_before(front, start)?;
    Ok((word, rest))
}

/// Takes the first word off `rest`, and leaves what is after it, if anything.
#[inline(always)]
fn next_word<W: WhiteSpace, S: Storage>(
    rest: &mut Option<StrInner<S>>,
) -> Option<Result<StrInner<S>, Reason>>
    ensures step { IsStep (AreWordsToCome W.is_space)
        (RefusesWord S.refuses S.refuses_side W.is_space)
        rest.old result rest.new }
    ensures leaves { LeavesEnd rest.old rest.new }
    ensures shorter { OnSome result
        (option_map_or length rest.new 0 < option_map_or length rest.old 0) }
{
    let text = rest.take()?;
    let (start, end) = word_place::<W>(text.as_str())?;
    yield_part!(*rest, cut_word(text, start, end))
}

/// An iterator over the words of a text between characters with Unicode's property White_Space,
/// first to last, as `str::split_whitespace` has them. What a step leaves is an end of the text. If
/// a split is refused, the error is the last item.
#[derive(Drop)]
pub struct SplitWhitespaceBytes<S: Storage> {
    rest: Option<StrInner<S>>,
}

impl<S: Storage> Model for SplitWhitespaceBytes<S> {
    ghost use Rattle.std.specs.Prelude.{ℕ, List, Option};

    ghost Value = { Option (List ℕ) };

    ghost view = { λ s. s.rest };
}

/// An iterator over the words of a text between ASCII white space, first to last, as
/// `str::split_ascii_whitespace` has them. What a step leaves is an end of the text. If a split is
/// refused, the error is the last item.
#[derive(Drop)]
pub struct SplitAsciiWhitespaceBytes<S: Storage> {
    rest: Option<StrInner<S>>,
}

impl<S: Storage> Model for SplitAsciiWhitespaceBytes<S> {
    ghost use Rattle.std.specs.Prelude.{ℕ, List, Option};

    ghost Value = { Option (List ℕ) };

    ghost view = { λ s. s.rest };
}

impl<S: Storage> StrInner<S> {
    /// Splits the text into its words, as `str::split_whitespace` does: the maximal runs of
    /// characters without Unicode's property White_Space.
    pub fn split_whitespace_bytes(self) -> SplitWhitespaceBytes<S>
        ensures value { result ≡ Some self }
        ensures coming { (parts : List (List ℕ)) × AreWordsToCome is_whitespace result parts }
    {
        SplitWhitespaceBytes { rest: Some(self) }
    }

    /// Splits the text into its words, as `str::split_ascii_whitespace` does: the maximal runs of
    /// characters other than U+0009, U+000A, U+000C, U+000D and U+0020.
    pub fn split_ascii_whitespace_bytes(self) -> SplitAsciiWhitespaceBytes<S>
        ensures value { result ≡ Some self }
        ensures coming { (parts : List (List ℕ)) × AreWordsToCome is_ascii_whitespace result parts }
    {
        SplitAsciiWhitespaceBytes { rest: Some(self) }
    }
}

impl<S: Storage> Iterator for SplitWhitespaceBytes<S> {
    type Item = Result<StrInner<S>, Reason>;

    ghost next_gives = { λ s r t. LeavesEnd s t × IsStep (AreWordsToCome is_whitespace)
        (RefusesWord S.refuses S.refuses_side is_whitespace) s r t };

    ghost remaining = { λ s. at_most (option_map_or length s 0) };

    #[inline(always)]
    fn next(&mut self) -> Option<Self::Item> {
        next_word::<Unicode, S>(&mut self.rest)
    }
}

impl<S: Storage> Iterator for SplitAsciiWhitespaceBytes<S> {
    type Item = Result<StrInner<S>, Reason>;

    ghost next_gives = { λ s r t. LeavesEnd s t × IsStep (AreWordsToCome is_ascii_whitespace)
        (RefusesWord S.refuses S.refuses_side is_ascii_whitespace) s r t };

    ghost remaining = { λ s. at_most (option_map_or length s 0) };

    #[inline(always)]
    fn next(&mut self) -> Option<Self::Item> {
        next_word::<Ascii, S>(&mut self.rest)
    }
}
