//! The search for a separator, among bytes and by `memchr` alone.
ghost use Rattle.std.specs.Prelude.{◌≡◌, ◌<◌, Some, length, IsUtf8};
ghost use Rattle.memchr.specs.Find.{FindsLastNeedle};
ghost use Rattle.std.specs.Str.{chars};
ghost use Rattle.bytes_utils.specs.Occurrence.{FindsFirstOccurrence, FindsLastOccurrence};
ghost use Rattle.bytes_utils.specs.SeparatorSearch.{end_of, needle_of};

use super::direction::Direction;
use crate::needle::{find_byte, find_in_piece};
use memchr::arch::all::is_suffix;
use memchr::memmem::{self, Finder, FinderRev};
use memchr::memrchr;

/// The search for one separator from one end: prepared once for all steps of a splitter. A separator
/// of two bytes or more is searched for by its first or last byte first.
#[derive(Drop)]
pub(super) enum SeparatorSearch<'s> {
    First(Finder<'s>),
    FirstLong(Finder<'s>),
    Last(FinderRev<'s>),
    LastLong(FinderRev<'s>),
}

impl<'s> SeparatorSearch<'s> {
    #[inline]
    pub(super) fn new(separator: &'s str, from: Direction) -> SeparatorSearch<'s>
        ensures needle { needle_of result ≡ separator.now }
        ensures end { end_of result ≡ from }
    {
        let is_long = separator.len() > 1;
        let bytes = separator.as_bytes();
        match from {
            Direction::Forward if is_long => SeparatorSearch::FirstLong(Finder::new(bytes)),
            Direction::Forward => SeparatorSearch::First(Finder::new(bytes)),
            Direction::Backward if is_long => SeparatorSearch::LastLong(FinderRev::new(bytes)),
            Direction::Backward => SeparatorSearch::Last(FinderRev::new(bytes)),
        }
    }

    /// Returns the end at which the search begins.
    #[inline]
    pub(super) fn end(&self) -> Direction
        ensures { result ≡ end_of self.now }
    {
        match self {
            SeparatorSearch::First(_) | SeparatorSearch::FirstLong(_) => Direction::Forward,
            SeparatorSearch::Last(_) | SeparatorSearch::LastLong(_) => Direction::Backward,
        }
    }
}

/// Returns the byte place of the first occurrence of the finder's separator. A long separator is
/// searched for by `search_long_by`.
#[inline(always)]
pub(super) fn search_by(finder: &Finder, is_long: bool, text: &str) -> Option<usize>
    requires some { 0 < length finder.now }
    requires utf8 { IsUtf8 finder.now }
    ensures { FindsFirstOccurrence (chars finder.now) (chars text.now) result }
{
    if is_long {
        return search_long_by(finder, text);
    }
    finder.find(text.as_bytes())
}

/// Returns the byte place of the last occurrence of the finder's separator. A long separator is
/// searched for by `rsearch_long_by`.
#[inline(always)]
pub(super) fn rsearch_by(finder: &FinderRev, is_long: bool, text: &str) -> Option<usize>
    requires some { 0 < length finder.now }
    requires utf8 { IsUtf8 finder.now }
    ensures { FindsLastOccurrence (chars finder.now) (chars text.now) result }
{
    if is_long {
        return rsearch_long_by(finder, text);
    }
    finder.rfind(text.as_bytes())
}

/// As `search_by`, by the separator's first byte. The finder searches only if the separator is not at
/// the first place of that byte.
#[inline]
fn search_long_by(finder: &Finder, text: &str) -> Option<usize>
    requires some { 0 < length finder.now }
    requires utf8 { IsUtf8 finder.now }
    ensures { FindsFirstOccurrence (chars finder.now) (chars text.now) result }
{
    let bytes = text.as_bytes();
    let Some(from) = find_byte(finder.needle()[0], bytes) else {
        return None;
    };
    find_in_piece(finder, bytes, from, 1)
}

/// As `rsearch_by`, by the separator's last byte. The finder searches only if the separator does not
/// end at the last place of that byte.
#[inline]
fn rsearch_long_by(finder: &FinderRev, text: &str) -> Option<usize>
    requires some { 0 < length finder.now }
    requires utf8 { IsUtf8 finder.now }
    ensures { FindsLastOccurrence (chars finder.now) (chars text.now) result }
{
    let bytes = text.as_bytes();
    let needle = finder.needle();
    let Some(at) = memrchr(needle[needle.len() - 1], bytes) else {
        return None;
    };
    search_at_end(finder, &bytes[..at + 1])
}

/// The last place of the finder's needle, which is looked for at the end first.
#[inline]
#[tactic(auto, using(crate::proofs::SearchLemmas::found_at_end))]
fn search_at_end(finder: &FinderRev, bytes: &[u8]) -> Option<usize>
    ensures { FindsLastNeedle bytes.now finder.now result }
{
    if is_suffix(bytes, finder.needle()) {
        let at = bytes.len() - finder.needle().len();
        return Some(at);
    }
    finder.rfind(bytes)
}

/// Returns the byte place of the first occurrence of `separator`, by a finder for this search
/// alone. The empty separator occurs first at the start.
pub(super) fn search_alone(text: &str, separator: &str) -> Option<usize>
    ensures { FindsFirstOccurrence (chars separator.now) (chars text.now) result }
{
    memmem::find(text.as_bytes(), separator.as_bytes())
}

/// Returns the byte place of the last occurrence of `separator`, by a finder for this search alone.
/// The empty separator is found at the end.
pub(super) fn rsearch_alone(text: &str, separator: &str) -> Option<usize>
    ensures last { 0 < length separator.now
        → FindsLastOccurrence (chars separator.now) (chars text.now) result }
    ensures empty { length separator.now ≡ 0 → result ≡ Some (length text.now) }
{
    memmem::rfind(text.as_bytes(), separator.as_bytes())
}
