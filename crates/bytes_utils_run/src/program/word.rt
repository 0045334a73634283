//! Words and numbers of the input.
ghost use Rattle.std.specs.Prelude.{◌≡◌, ◌≢◌, ℕ, List, ◌++◌, MatchOption, IsUtf8, IfSome};
ghost use Rattle.std.specs.Bool.{MatchBool};
ghost use Rattle.std.specs.Str.{chars};
ghost use Rattle.bytes_utils_run.specs.Number.{IsNumber};

/// The most digits that a number may have, with leading zeros.
const MOST_DIGITS: usize = 20;

/// Reads a decimal number without a sign, if the text is one.
#[tactic(auto, using(crate::proofs::NumberLemmas::number_short, crate::proofs::NumberLemmas::number_unsigned, crate::proofs::NumberLemmas::parsed_number))]
pub(super) fn word_number(text: &str) -> Option<usize>
    ensures { MatchOption result ((n : ℕ) → ¬ IsNumber (chars text.now) n)
        (λ n. IsNumber (chars text.now) n) }
{
    if text.len() > MOST_DIGITS {
        return None;
    }
    // A plus sign is no digit, though `parse` accepts it.
    if text.starts_with('+') {
        return None;
    }
    text.parse().ok()
}

/// Returns whether a line is a word.
#[tactic(auto, using(crate::proofs::CommandLemmas::reports_word))]
pub(super) fn is_word(line: &str, word: &str) -> bool
    ensures { MatchBool result (chars line.now ≡ chars word.now) (chars line.now ≢ chars word.now) }
{
    line == word
}

/// Returns what follows a word at the beginning of a line.
#[tactic(auto, using(crate::proofs::CommandLemmas::rest_after_is, crate::proofs::CommandLemmas::rest_after_utf8))]
pub(super) fn rest_after_word<'l>(line: &'l str, word: &str) -> Option<&'l str>
    ensures value { MatchOption result ((rest : List ℕ) → chars line.now ≢ chars word.now ++ rest)
        (λ rest. chars line.now ≡ chars word.now ++ chars rest.now) }
    ensures utf8 { IfSome result (λ rest. IsUtf8 rest.now) }
{
    line.strip_prefix(word)
}
