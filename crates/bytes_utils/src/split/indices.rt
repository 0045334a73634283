//! The parts of a text between separators, each with the byte place at which it begins.
ghost use Rattle.std.specs.Prelude.{◌≡◌};
ghost use Rattle.std.specs.Iterator.{at_most};
ghost use Rattle.bytes_utils.specs.Indices.{AreIndexedPartsToCome, RefusesIndexed, index_and_chars};
ghost use Rattle.bytes_utils.specs.Splitting.{most_parts};
ghost use Rattle.bytes_utils.specs.Step.{IsStepOf};
ghost use Rattle.bytes_utils.specs.declared.split.direction.Direction.TheVariants.{Forward};

use super::separator_step::SeparatedText;
use crate::string::{Storage, StrInner};
use bytes_utils_buf::Reason;
use std::marker::Model;
use std::mem;

/// An iterator over the parts of a text between separators, first to last, each with the byte place
/// at which it begins. If a split is refused, the error is the last item.
#[derive(Drop)]
pub struct SplitIndicesBytes<'s, S: Storage> {
    parts: SeparatedText<'s, S>,
    total: usize,
    at: usize,
}

impl<'s, S: Storage> Model for SplitIndicesBytes<'s, S> {
    ghost use Rattle.std.specs.Prelude.{◌≡◌, ◌+◌, length, IfSome, IsUtf8};
    ghost use Rattle.std.specs.Bool.{OnTrue};
    ghost use Rattle.bytes_utils.specs.Indices.{Indexing};
    ghost use Rattle.bytes_utils.specs.declared.split.direction.Direction.TheVariants.{Forward};

    ghost Value = { Indexing };

    ghost view = { λ s. record { parts = s.parts.state; at = s.at } };

    ghost invariant = { λ s. (s.parts.end ≡ Forward) × IsUtf8 s.parts.state.separator
        × IfSome s.parts.state.rest (λ rest. IsUtf8 rest × (s.at + length rest ≡ s.total)
        × OnTrue s.parts.state.begun (length s.parts.state.separator ≡ 0)) };
}

impl<'s, S: Storage> SplitIndicesBytes<'s, S> {
    /// Pairs the parts to come with their byte places in what is still to be split.
    pub(super) fn new(parts: SeparatedText<'s, S>) -> Self
        requires { parts.end ≡ Forward }
        ensures parts { result.parts ≡ parts.entry.state }
        ensures at { result.at ≡ 0 }
    {
        let total = parts.left();
        SplitIndicesBytes {
            parts,
            total,
            at: 0,
        }
    }
}

impl<'s, S: Storage> Iterator for SplitIndicesBytes<'s, S> {
    type Item = Result<(usize, StrInner<S>), Reason>;

    ghost next_gives = { IsStepOf index_and_chars AreIndexedPartsToCome
        (RefusesIndexed S.refuses S.refuses_empty S.refuses_side) };

    ghost remaining = { λ s. at_most (most_parts s.parts) };

    #[inline]
    fn next(&mut self) -> Option<Self::Item> {
        let part = self.parts.next()?;
        let at = mem::replace(&mut self.at, self.total - self.parts.left());
        match part {
            Ok(part) => Some(Ok((at, part))),
            Err(reason) => Some(Err(reason)),
        }
    }
}
