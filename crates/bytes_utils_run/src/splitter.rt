//! The splitter of a text for any of the ways to split.
ghost use Rattle.std.specs.Prelude.{◌≡◌, ℕ, List};
ghost use Rattle.std.specs.Iterator.{at_most};
ghost use Rattle.std.specs.Str.{chars};
ghost use Rattle.bytes_utils.specs.Step.{IsStep};
ghost use Rattle.bytes_utils_run.specs.AnySplitter.{AreToCome, GoesOnTo, RefusesNext, most_to_come, splitter_of};
ghost use Rattle.bytes_utils_run.specs.Cutting.{ArePartsBy, cutting, IsCuttingAllowed};

use crate::how::How;
use bytes_utils::Reason;
use bytes_utils::split::{
    LinesBytes, RSplitBytes, SplitAsciiWhitespaceBytes, SplitBytes, SplitInclusiveBytes,
    SplitWhitespaceBytes,
};
use bytes_utils::string::{Storage, StrInner};

/// The splitter for one of the ways to split, which gives the parts one by one.
#[derive(Drop)]
pub enum AnySplitter<'s, S: Storage> {
    /// For `How::Words`.
    Words(SplitWhitespaceBytes<S>),
    /// For `How::AsciiWords`.
    AsciiWords(SplitAsciiWhitespaceBytes<S>),
    /// For `How::Lines`.
    Lines(LinesBytes<S>),
    /// For `How::Split` and `How::SplitN`.
    Split(SplitBytes<'s, S>),
    /// For `How::RSplit` and `How::RSplitN`.
    RSplit(RSplitBytes<'s, S>),
    /// For `How::Inclusive`.
    Inclusive(SplitInclusiveBytes<'s, S>),
}

impl<'s, S: Storage> AnySplitter<'s, S> {
    /// Makes the splitter of a text for this way to split. Requires that the separator of
    /// `Inclusive` isn't empty (test: `is_empty`).
    pub fn new(text: StrInner<S>, how: How<'s>) -> Self
        requires { IsCuttingAllowed how }
        ensures some { (parts : List (List ℕ)) × AreToCome result parts }
        ensures right { (parts : List (List ℕ)) → AreToCome result parts
            → ArePartsBy (cutting how.entry) (chars text) parts }
        ensures value { result ≡ splitter_of how.entry text }
    {
        match how {
            How::Words => AnySplitter::Words(text.split_whitespace_bytes()),
            How::AsciiWords => AnySplitter::AsciiWords(text.split_ascii_whitespace_bytes()),
            How::Lines => AnySplitter::Lines(text.lines_bytes()),
            How::Split(separator) => AnySplitter::Split(text.split_bytes(separator)),
            How::SplitN(most, separator) => {
                AnySplitter::Split(text.splitn_bytes(most, separator))
            }
            How::RSplit(separator) => AnySplitter::RSplit(text.rsplit_bytes(separator)),
            How::RSplitN(most, separator) => {
                AnySplitter::RSplit(text.rsplitn_bytes(most, separator))
            }
            How::Inclusive(separator) => {
                AnySplitter::Inclusive(text.split_inclusive_bytes(separator))
            }
        }
    }
}

impl<'s, S: Storage> Iterator for AnySplitter<'s, S> {
    type Item = Result<StrInner<S>, Reason>;

    ghost next_gives = { λ s r t. GoesOnTo s t × IsStep AreToCome
        (RefusesNext S.refuses S.refuses_empty S.refuses_side) s r t };

    ghost remaining = { λ s. at_most (most_to_come s) };

    fn next(&mut self) -> Option<Self::Item> {
        match self {
            AnySplitter::Words(splitter) => splitter.next(),
            AnySplitter::AsciiWords(splitter) => splitter.next(),
            AnySplitter::Lines(splitter) => splitter.next(),
            AnySplitter::Split(splitter) => splitter.next(),
            AnySplitter::RSplit(splitter) => splitter.next(),
            AnySplitter::Inclusive(splitter) => splitter.next(),
        }
    }
}
