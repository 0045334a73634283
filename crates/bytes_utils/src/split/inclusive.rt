//! A text split after each separator.
ghost use Rattle.std.specs.Prelude.{◌≡◌, ◌<◌, ℕ, List, Some, length, IfOk, IfErr, OnErr, IfSome};
ghost use Rattle.std.specs.Iterator.{at_most};
ghost use Rattle.std.specs.Str.{chars};
ghost use Rattle.bytes_utils.specs.Keeping.{AreInclusivePartsToCome, CutsAfterNext, RefusesInclusive};
ghost use Rattle.bytes_utils.specs.Keeping.{most_inclusive_parts};
ghost use Rattle.bytes_utils.specs.Step.{StepGivesFirst, IsStep};

use super::cut::{Cut, yield_part};
use super::search::search_alone;
use crate::string::{Storage, StrInner};
use bytes_utils_buf::Reason;
use std::marker::Model;

/// Splits off the part up to the end of the first separator. Returns the whole text if no separator
/// occurs in it, or first at its end.
#[inline(always)]
fn inclusive_part<S: Storage>(text: StrInner<S>, separator: &str) -> Result<Cut<S>, Reason>
    requires separator { 0 < length separator.now }
    requires text { 0 < length text }
    ensures gives { IfOk result (λ cut. StepGivesFirst AreInclusivePartsToCome
        (record { rest = Some text; separator = separator.now }) (chars cut.0)
        (record { rest = cut.1; separator = separator.now })) }
    ensures shorter { IfOk result (λ cut. IfSome cut.1 (λ rest. length rest < length text)) }
    ensures err { OnErr result
        (CutsAfterNext (record { rest = Some text; separator = separator.now })) }
    ensures reason { IfErr result S.refuses }
{
    let Some(at) = search_alone(text.as_str(), separator) else {
        return Ok((text, None));
    };
    let end = at + separator.len();
    if end == text.as_str().len() {
        return Ok((text, None));
    }
    let (part, rest) = text.into_halves(end)?;
    Ok((part, Some(rest)))
}

/// An iterator over the parts of a text, each with the separator that ends it, as
/// `str::split_inclusive` has them. If a split is refused, the error is the last item.
#[derive(Drop)]
pub struct SplitInclusiveBytes<'s, S: Storage> {
    rest: Option<StrInner<S>>,
    separator: &'s str,
}

impl<'s, S: Storage> Model for SplitInclusiveBytes<'s, S> {
    ghost use Rattle.std.specs.Prelude.{◌<◌, length};
    ghost use Rattle.bytes_utils.specs.Keeping.{Keeping};

    ghost Value = { Keeping };

    ghost view = { λ s. record { rest = s.rest; separator = s.separator.now } };

    ghost invariant = { λ s. 0 < length s.separator.now };
}

impl<S: Storage> StrInner<S> {
    /// Splits after each `separator`, as `str::split_inclusive` does. Each part keeps its
    /// separator, and no part is empty. Requires that `separator` isn't empty (test: `is_empty`).
    pub fn split_inclusive_bytes<'s>(self, separator: &'s str) -> SplitInclusiveBytes<'s, S>
        requires { 0 < length separator.now }
        ensures value { result ≡ record { rest = Some self; separator = separator.now } }
        ensures coming { (parts : List (List ℕ)) × AreInclusivePartsToCome result parts }
    {
        SplitInclusiveBytes {
            rest: Some(self),
            separator,
        }
    }
}

impl<'s, S: Storage> Iterator for SplitInclusiveBytes<'s, S> {
    type Item = Result<StrInner<S>, Reason>;

    ghost next_gives = { λ s r t. (t.separator ≡ s.separator)
        × IsStep AreInclusivePartsToCome (RefusesInclusive S.refuses) s r t };

    ghost remaining = { λ s. at_most (most_inclusive_parts s) };

    #[inline]
    fn next(&mut self) -> Option<Self::Item> {
        let text = self.rest.take()?;
        if text.as_str().is_empty() {
            return None;
        }
        yield_part!(self.rest, inclusive_part(text, self.separator))
    }
}
