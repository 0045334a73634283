//! The command line of an input.
ghost use Rattle.std.specs.Prelude.{◌≡◌, ◌≢◌, ◌≤◌, ℕ, List, MatchOption, None, Some, codes, take, drop, IsCharBoundary};
ghost use Rattle.std.specs.Str.{chars};
ghost use Rattle.bytes_utils.specs.Lines.{text_after_line};
ghost use Rattle.bytes_utils_run.specs.Command.{IsCommand, IsCommandCount, IsCommandCountAfter, command_line, IsReadFrom};
ghost use Rattle.bytes_utils_run.specs.Cutting.{Cutting, FromFront, FromBack, Keeping, IsCuttingAllowed, cutting};

use crate::How;
use crate::program::word::{is_word, rest_after_word, word_number};
use bytes_utils::split::line_place;

/// Finds where the first line ends, and where the text after it begins.
pub(super) fn command_line_places(input: &str) -> (usize, usize)
    ensures end { IsCharBoundary input.now result.0 }
    ensures next { IsCharBoundary input.now result.1 }
    ensures order { result.0 ≤ result.1 }
    ensures line { chars (take result.0 input.now) ≡ command_line (chars input.now) }
    ensures text { chars (drop result.1 input.now) ≡ text_after_line (chars input.now) }
{
    let Some((end, next)) = line_place(input) else {
        return (input.len(), input.len());
    };
    (end, next)
}

/// Reads a number and one space, and returns the number and the rest.
fn command_count(text: &str) -> Option<(usize, &str)>
    ensures { MatchOption result ((most : ℕ) (rest : List ℕ) → ¬ IsCommandCount (chars text.now) most rest)
        (λ found. IsCommandCount (chars text.now) found.0 (chars found.1.now)) }
{
    let (digits, rest) = text.split_once(" ")?;
    Some((word_number(digits)?, rest))
}

/// Reads a word, a number and one space, and returns the number and the rest.
fn command_count_after<'l>(line: &'l str, word: &str) -> Option<(usize, &'l str)>
    ensures { MatchOption result ((most : ℕ) (rest : List ℕ)
        → ¬ IsCommandCountAfter (chars word.now) (chars line.now) most rest)
        (λ found. IsCommandCountAfter (chars word.now) (chars line.now) found.0 (chars found.1.now)) }
{
    command_count(rest_after_word(line, word)?)
}

/// Reads a way to split that is a word alone.
#[tactic(auto, using(crate::proofs::CommandLemmas::chars_word))]
fn word_command(line: &str) -> Option<How<'_>>
    ensures { MatchOption result
        ((chars line.now ≢ codes "words") × (chars line.now ≢ codes "ascii") × (chars line.now ≢ codes "lines"))
        (λ split_mode. IsCuttingAllowed split_mode × IsCommand (cutting split_mode) (chars line.now)) }
{
    if is_word(line, "words") {
        return Some(How::Words);
    }
    if is_word(line, "ascii") {
        return Some(How::AsciiWords);
    }
    if is_word(line, "lines") {
        return Some(How::Lines);
    }
    None
}

/// Reads a way to split that is a word and a separator.
#[tactic(auto, using(crate::proofs::CommandLemmas::chars_word))]
fn separator_command(line: &str) -> Option<How<'_>>
    ensures { MatchOption result
        ((p : List ℕ) → (¬ IsCommand (FromFront p None) (chars line.now))
        × (¬ IsCommand (FromBack p None) (chars line.now))
        × (¬ IsCommand (Keeping p) (chars line.now)))
        (λ split_mode. IsCuttingAllowed split_mode × IsCommand (cutting split_mode) (chars line.now)) }
{
    if let Some(separator) = rest_after_word(line, "split ") {
        return Some(How::Split(separator));
    }
    if let Some(separator) = rest_after_word(line, "rsplit ") {
        return Some(How::RSplit(separator));
    }
    let separator = rest_after_word(line, "inclusive ")?;
    if separator.is_empty() {
        return None;
    }
    Some(How::Inclusive(separator))
}

/// Reads a way to split that is a word, a number and a separator.
#[tactic(auto, using(crate::proofs::CommandLemmas::chars_word))]
fn limit_command(line: &str) -> Option<How<'_>>
    ensures { MatchOption result
        ((p : List ℕ) (most : ℕ) → (¬ IsCommand (FromFront p (Some most)) (chars line.now))
        × (¬ IsCommand (FromBack p (Some most)) (chars line.now)))
        (λ split_mode. IsCuttingAllowed split_mode × IsCommand (cutting split_mode) (chars line.now)) }
{
    if let Some((most, separator)) = command_count_after(line, "splitn ") {
        return Some(How::SplitN(most, separator));
    }
    if let Some((most, separator)) = command_count_after(line, "rsplitn ") {
        return Some(How::RSplitN(most, separator));
    }
    None
}

/// Reads a way to split, if the line is one.
#[tactic(auto, using(crate::proofs::CommandLemmas::split_mode_is))]
fn split_command(line: &str) -> Option<How<'_>>
    ensures { MatchOption result ((way : Cutting) → ¬ IsCommand way (chars line.now))
        (λ split_mode. IsCuttingAllowed split_mode × IsCommand (cutting split_mode) (chars line.now)) }
{
    if let Some(split_mode) = word_command(line) {
        return Some(split_mode);
    }
    if let Some(split_mode) = separator_command(line) {
        return Some(split_mode);
    }
    limit_command(line)
}

/// What a command line asks for.
#[derive(Clone, Copy)]
pub(super) enum Command<'l> {
    /// To split the text.
    Cut(How<'l>),
    /// To make the calls that the lines of the text ask for.
    Buf,
}

/// Reads a command line, or returns `None` if it isn't a command.
#[tactic(auto, using(crate::proofs::CommandLemmas::chars_word))]
pub(super) fn read_command(line: &str) -> Option<Command<'_>>
    ensures { MatchOption result
        ((chars line.now ≢ codes "buf") × ((way : Cutting) → ¬ IsCommand way (chars line.now)))
        (λ command. IsReadFrom (chars line.now) command) }
{
    if is_word(line, "buf") {
        return Some(Command::Buf);
    }
    Some(Command::Cut(split_command(line)?))
}
