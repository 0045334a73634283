//! The splitters by a separator, from either end, with or without a limit.
ghost use Rattle.std.specs.Prelude.{◌≡◌, ℕ, List, None, Some};
ghost use Rattle.std.specs.Iterator.{at_most};
ghost use Rattle.bytes_utils.specs.Splitting.{AreForwardPartsToCome, AreBackwardPartsToCome};
ghost use Rattle.bytes_utils.specs.Splitting.{RefusesSplit, all_of, most_parts};
ghost use Rattle.bytes_utils.specs.Step.{IsStep};
ghost use Rattle.bytes_utils.specs.declared.split.direction.Direction.TheVariants.{Forward, Backward};

use super::direction::Direction;
use super::indices::SplitIndicesBytes;
use super::separator_step::SeparatedText;
use crate::string::{Storage, StrInner};
use bytes_utils_buf::Reason;
use std::marker::Model;

/// An iterator over the parts of a text between separators, first to last. If a split is refused,
/// the error is the last item.
#[derive(Drop)]
pub struct SplitBytes<'s, S: Storage> {
    parts: SeparatedText<'s, S>,
}

/// The iterator that `splitn_bytes` returns.
pub type SplitNBytes<'s, S> = SplitBytes<'s, S>;

impl<'s, S: Storage> Model for SplitBytes<'s, S> {
    ghost use Rattle.std.specs.Prelude.{◌≡◌};
    ghost use Rattle.bytes_utils.specs.Splitting.{Splitting};
    ghost use Rattle.bytes_utils.specs.declared.split.direction.Direction.TheVariants.{Forward};

    ghost Value = { Splitting };

    ghost view = { λ s. s.parts.state };

    ghost invariant = { λ s. s.parts.end ≡ Forward };
}

impl<'s, S: Storage> SplitBytes<'s, S> {
    /// Pairs each part to come with the byte place at which it begins in the text. If parts were
    /// already taken, the places count from the start of what is left when this is called. These
    /// are the places of the parts; `str::match_indices` reports those of the matches.
    pub fn indices(self) -> SplitIndicesBytes<'s, S>
        ensures parts { result.parts ≡ self.entry }
        ensures at { result.at ≡ 0 }
    {
        SplitIndicesBytes::new(self.parts)
    }
}

impl<S: Storage> StrInner<S> {
    /// Splits at each `separator`, first part first, as `str::split` does. The empty separator
    /// gives an empty part, each character, and an empty part.
    pub fn split_bytes<'s>(self, separator: &'s str) -> SplitBytes<'s, S>
        ensures value { result ≡ all_of self separator.now None }
        ensures coming { (parts : List (List ℕ)) × AreForwardPartsToCome result parts }
    {
        SplitBytes {
            parts: SeparatedText::new(self, separator, None, Direction::Forward),
        }
    }

    /// Splits into at most `most` parts, first part first, as `str::splitn` does. The last part
    /// that the limit allows is all that is left, unsplit.
    pub fn splitn_bytes<'s>(self, most: usize, separator: &'s str) -> SplitBytes<'s, S>
        ensures value { result ≡ all_of self separator.now (Some most) }
        ensures coming { (parts : List (List ℕ)) × AreForwardPartsToCome result parts }
    {
        SplitBytes {
            parts: SeparatedText::new(self, separator, Some(most), Direction::Forward),
        }
    }
}

impl<'s, S: Storage> Iterator for SplitBytes<'s, S> {
    type Item = Result<StrInner<S>, Reason>;

    ghost next_gives = { IsStep AreForwardPartsToCome
        (RefusesSplit S.refuses S.refuses_empty S.refuses_side Forward) };

    ghost remaining = { λ s. at_most (most_parts s) };

    #[inline]
    fn next(&mut self) -> Option<Self::Item> {
        self.parts.next()
    }
}

/// An iterator over the parts of a text between separators, last to first. If a split is refused,
/// the error is the last item.
#[derive(Drop)]
pub struct RSplitBytes<'s, S: Storage> {
    parts: SeparatedText<'s, S>,
}

/// The iterator that `rsplitn_bytes` returns.
pub type RSplitNBytes<'s, S> = RSplitBytes<'s, S>;

impl<'s, S: Storage> Model for RSplitBytes<'s, S> {
    ghost use Rattle.std.specs.Prelude.{◌≡◌};
    ghost use Rattle.bytes_utils.specs.Splitting.{Splitting};
    ghost use Rattle.bytes_utils.specs.declared.split.direction.Direction.TheVariants.{Backward};

    ghost Value = { Splitting };

    ghost view = { λ s. s.parts.state };

    ghost invariant = { λ s. s.parts.end ≡ Backward };
}

impl<S: Storage> StrInner<S> {
    /// Splits at each `separator`, last part first, as `str::rsplit` does: each part is split off
    /// at the last separator of what is left.
    pub fn rsplit_bytes<'s>(self, separator: &'s str) -> RSplitBytes<'s, S>
        ensures value { result ≡ all_of self separator.now None }
        ensures coming { (parts : List (List ℕ)) × AreBackwardPartsToCome result parts }
    {
        RSplitBytes {
            parts: SeparatedText::new(self, separator, None, Direction::Backward),
        }
    }

    /// Splits into at most `most` parts, last part first, as `str::rsplitn` does. The last part
    /// that the limit allows is all that is left, unsplit.
    pub fn rsplitn_bytes<'s>(self, most: usize, separator: &'s str) -> RSplitBytes<'s, S>
        ensures value { result ≡ all_of self separator.now (Some most) }
        ensures coming { (parts : List (List ℕ)) × AreBackwardPartsToCome result parts }
    {
        RSplitBytes {
            parts: SeparatedText::new(self, separator, Some(most), Direction::Backward),
        }
    }
}

impl<'s, S: Storage> Iterator for RSplitBytes<'s, S> {
    type Item = Result<StrInner<S>, Reason>;

    ghost next_gives = { λ s r t. (t.separator ≡ s.separator)
        × IsStep AreBackwardPartsToCome
        (RefusesSplit S.refuses S.refuses_empty S.refuses_side Backward) s r t };

    ghost remaining = { λ s. at_most (most_parts s) };

    #[inline]
    fn next(&mut self) -> Option<Self::Item> {
        self.parts.next()
    }
}
