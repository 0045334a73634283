//! A text split at the places that a closure of the caller returns.
ghost use Rattle.std.specs.Prelude.{◌≡◌, ◌<◌, ℕ, List, Result, Some, length, IfOk, IfErr, IfSome, IsUtf8};
ghost use Rattle.std.specs.Iterator.{at_most, Drains};
ghost use Rattle.std.specs.Str.{chars};
ghost use Rattle.bytes_utils.specs.Ends.{RefusesAtEnd, RefusesCut};
ghost use Rattle.bytes_utils.specs.ClosureWalk.{IsClosureCutAtEnd, IsLawfulClosureCut, IsLawfulClosure, IsWalkStep, IsWholeWalk};
ghost use Rattle.bytes_utils_buf.specs.declared.refused.Reason.{Reason as WhyRefused};
ghost use Rattle.bytes_utils.specs.ClosureWalk.{walk_chunk_at, most_chunks, walk_rest_at};

use super::cut::{Cut, cut_around, yield_part};
use super::direction::Direction;
use crate::string::{Storage, StrInner};
use bytes_utils_buf::Reason;
use std::marker::Model;

/// Splits off the chunk between the edges that a closure returned, and returns it with the rest.
#[inline(always)]
fn cut_by_closure<S: Storage>(
    text: StrInner<S>,
    direction: Direction,
    chunk_edge: usize,
    separator_edge: usize,
) -> Result<Cut<S>, Reason>
    requires text { IsUtf8 text }
    requires cut { IsLawfulClosureCut direction text chunk_edge separator_edge }
    ensures chunk { IfOk result
        (λ cut. cut.0 ≡ walk_chunk_at direction text chunk_edge separator_edge) }
    ensures rest { IfOk result
        (λ cut. cut.1 ≡ Some (walk_rest_at direction text chunk_edge separator_edge)) }
    ensures fewer { IfOk result
        (λ cut. IfSome cut.1 (λ rest. length (chars rest) < length (chars text))) }
    ensures ends { IsClosureCutAtEnd direction text chunk_edge separator_edge
        → IfErr result (RefusesAtEnd S.refuses_empty S.refuses_side) }
    ensures reason { IfErr result S.refuses }
{
    match direction {
        Direction::Forward => {
            let (chunk, rest) = cut_around(text, chunk_edge, separator_edge)?;
            Ok((chunk, Some(rest)))
        }
        Direction::Backward => {
            let (rest, chunk) = cut_around(text, separator_edge, chunk_edge)?;
            Ok((chunk, Some(rest)))
        }
    }
}

/// An iterator over the chunks of a text, split at the places that a closure returns. If a split is
/// refused, the error is the last item.
///
/// Use it for owned chunks that no named splitter gives, such as fields whose ends a scanner finds:
///
/// ```text
/// let comma = |s: &str| s.find(',').map(|at| (at, at + 1));
/// for field in BytesIter::new(text, Direction::Forward, comma) { .. }   // `a`, `b` of `a,b`
/// ```
#[derive(Drop)]
pub struct BytesIter<S: Storage, F> {
    rest: Option<StrInner<S>>,
    direction: Direction,
    closure: F,
}

impl<S: Storage, F> Model for BytesIter<S, F> {
    ghost use Rattle.bytes_utils.specs.ClosureWalk.{Walk};

    ghost Value = { Walk F };

    ghost view = { λ s. record { rest = s.rest; direction = s.direction; closure = s.closure } };
}

impl<S: Storage, F: FnMut(&str) -> Option<(usize, usize)>> BytesIter<S, F> {
    /// Splits `s` from the end named by `direction`. For each item, `ext` is called once on what is
    /// left. It returns two byte places, `chunk` and `separator`: forward, the end of the first
    /// chunk and the end of the separator after it; backward, the start of the last chunk and the
    /// start of the separator before it. If it returns `None`, all that is left is the last chunk,
    /// which may be empty.
    ///
    /// Requires that `ext` may be called on any text, in any state, and that both places are
    /// character boundaries: forward with `chunk <= separator` and `0 < separator`, backward with
    /// `separator <= chunk` and `separator` less than the length of what is left. Nothing tests
    /// this at run time; the caller proves it.
    pub fn new(s: StrInner<S>, direction: Direction, ext: F) -> Self
        requires { IsLawfulClosure F.FnMut direction }
        ensures value { result ≡ record { rest = Some s; direction = direction; closure = ext } }
        // The chunks of a whole run and what it leaves out between them, joined in order, are the
        // text.
        ensures run { (items : List (Result (List ℕ) WhyRefused))
            → Drains (IsWalkStep F.FnMut (RefusesCut S.refuses S.refuses_empty S.refuses_side))
            result items
            → IsWholeWalk F.FnMut (RefusesCut S.refuses S.refuses_empty S.refuses_side)
            direction s items }
    {
        // The contract of `as_str` says that the bytes are UTF-8.
        let _ = s.as_str();
        BytesIter {
            rest: Some(s),
            direction,
            closure: ext,
        }
    }
}

impl<S: Storage, F: FnMut(&str) -> Option<(usize, usize)> + Drop> Iterator for BytesIter<S, F> {
    type Item = Result<StrInner<S>, Reason>;

    ghost can_next = { λ s. IsLawfulClosure F.FnMut s.direction };

    ghost next_gives = { λ s r t. IsWalkStep F.FnMut
        (RefusesCut S.refuses S.refuses_empty S.refuses_side) s r t };

    ghost remaining = { λ s. at_most (most_chunks s) };

    #[inline]
    fn next(&mut self) -> Option<Self::Item> {
        let text = self.rest.take()?;
        let Some((chunk_edge, separator_edge)) = (self.closure)(text.as_str()) else {
            return Some(Ok(text));
        };
        yield_part!(
            self.rest,
            cut_by_closure(text, self.direction, chunk_edge, separator_edge)
        )
    }
}
