//! The first place of a needle in one piece of bytes, looked for by its first byte.
ghost use Rattle.std.specs.Prelude.{◌≡◌, ◌≢◌, ℕ, ◌<◌, ◌≤◌, length, slice_index, Some, IfOk, IfErr};
ghost use Rattle.memchr.specs.Find.{FindsNeedle, IsFirstByte, Nowhere, OccursAt, is_byte};

use memchr::arch::all::is_prefix;
use memchr::memmem::Finder;
use memchr::{memchr, memchr_iter};

/// How many places of a needle's first byte are tried before a `Finder` searches: it is often near.
pub const NEAR_LOOKS: usize = 4;

/// Returns the first place of the needle in a piece, or `None` if it isn't there. It is looked for by
/// its first byte. Requires that the needle is not empty (test: `finder.needle().is_empty()`).
#[inline]
pub fn find_by_first_byte(finder: &Finder, piece: &[u8]) -> Option<usize>
    requires { 0 < length finder.now }
    ensures { FindsNeedle piece.now finder.now 0 result }
{
    let from = prefix_without_first_byte(finder.needle(), piece);
    find_in_piece(finder, piece, from, 1)
}

/// Returns the first place of the needle in a piece, or `None` if it isn't there. It is looked for at
/// `looks` places, as by `look_at_first_bytes`, and then the finder searches what is left. Requires
/// what `look_at_first_bytes` requires.
#[inline]
pub fn find_in_piece(finder: &Finder, piece: &[u8], from: usize, looks: usize) -> Option<usize>
    requires some { 0 < length finder.now }
    requires within { from ≤ length piece.now }
    requires none { (k : ℕ) → k < from → slice_index piece.now k ≢ slice_index finder.now 0 }
    ensures { FindsNeedle piece.now finder.now 0 result }
{
    match look_at_first_bytes(finder.needle(), piece, from, looks) {
        Ok(at) => Some(at),
        Err(left) => {
            let at = finder.find(&piece[left..])?;
            Some(left + at)
        }
    }
}

/// Looks for the needle at place `from` of a piece, and then at the next places of the needle's first
/// byte: at `looks` places in all, or one if `looks` is 0. Returns the first place of the needle if it
/// is at one of these. Otherwise fails with the place from which it is still to be looked for: one
/// after `from`, unless that is the end. Requires that the needle is not empty (test: `is_empty`), that
/// `from` is at most the number of bytes (test: `len`), and that the first byte does not occur before
/// it, as before 0 or what `prefix_without_first_byte` returns.
#[inline]
pub fn look_at_first_bytes(
    needle: &[u8],
    piece: &[u8],
    from: usize,
    mut looks: usize,
) -> Result<usize, usize>
    requires some { 0 < length needle.now }
    requires within { from ≤ length piece.now }
    requires none { (k : ℕ) → k < from → slice_index piece.now k ≢ slice_index needle.now 0 }
    ensures found { IfOk result (λ at. FindsNeedle piece.now needle.now 0 (Some at)) }
    ensures within { IfErr result (λ left. left ≤ length piece.now) }
    ensures none { IfErr result (λ left. Nowhere (OccursAt piece.now needle.now) 0 left) }
    ensures past { IfErr result (λ left. from < length piece.now → from < left) }
{
    let mut at = from;
    while at < piece.len() {
        if is_prefix(&piece[at..], needle) {
            return Ok(at);
        }
        if looks <= 1 {
            return Err(at + 1);
        }
        looks -= 1;
        at = place_from(needle[0], piece, at + 1);
    }
    Err(at)
}

/// Returns the first place of the byte `first`, or `None` if it isn't there. It is found soon if it
/// is near the start.
#[inline]
#[tactic(auto, using(crate::proofs::NeedleLemmas::first_byte_from_places))]
pub fn find_byte(first: u8, bytes: &[u8]) -> Option<usize>
    ensures { IsFirstByte (is_byte first) bytes.now result }
{
    memchr_iter(first, bytes).next()
}

/// Returns the number of bytes before the first place of the needle's first byte, or of all bytes if
/// it does not occur. Requires that the needle is not empty (test: `is_empty`).
#[inline]
pub fn prefix_without_first_byte(needle: &[u8], piece: &[u8]) -> usize
    requires { 0 < length needle.now }
    ensures within { result ≤ length piece.now }
    ensures none { (k : ℕ) → k < result → slice_index piece.now k ≢ slice_index needle.now 0 }
    ensures first { result < length piece.now
        → slice_index piece.now result ≡ slice_index needle.now 0 }
{
    place_from(needle[0], piece, 0)
}

/// Returns the first place from `from` on of the byte `first`, or the number of bytes if it does not
/// occur there. Requires that `from` is at most that number (test: `bytes.len()`).
#[inline]
pub fn place_from(first: u8, bytes: &[u8], from: usize) -> usize
    requires { from ≤ length bytes.now }
    ensures low { from ≤ result }
    ensures within { result ≤ length bytes.now }
    ensures none { (k : ℕ) → from ≤ k → k < result → slice_index bytes.now k ≢ first }
    ensures found { result < length bytes.now → slice_index bytes.now result ≡ first }
{
    match memchr(first, &bytes[from..]) {
        Some(at) => from + at,
        None => bytes.len(),
    }
}
