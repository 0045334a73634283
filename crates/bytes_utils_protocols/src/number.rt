//! A number that is written in decimal digits.
ghost use Rattle.std.specs.Prelude.{◌≡◌, ℕ, MatchOption};
ghost use Rattle.bytes_utils_protocols.specs.Digits.{WriteNumber};

use std::str;

/// The number that the bytes write, if they are digits alone.
pub(crate) fn number(digits: &[u8]) -> Option<usize>
    ensures { MatchOption result ((n : ℕ) → ¬ WriteNumber digits.now n)
        (λ n. WriteNumber digits.now n) }
{
    let text = str::from_utf8(digits).ok()?;
    // A plus sign isn't a digit, but `parse` accepts it.
    if text.starts_with('+') {
        return None;
    }
    text.parse().ok()
}
