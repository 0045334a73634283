//! Where the graphic ASCII at the front of bytes ends: sixteen bytes are compared at once.
ghost use Rattle.std.specs.Prelude.{◌≡◌, ◌+◌, ◌≤◌, length, drop};
ghost use Rattle.std.specs.Char.{is_ascii_graphic};
ghost use Rattle.std.specs.List.{prefix_len};

use std::simd::prelude::*;

/// The number of bytes that are compared at once.
const BLOCK: usize = 16;

/// Returns the number of graphic ASCII bytes at the front of a block.
#[inline(always)]
#[tactic(auto, using(crate::proofs::Graphic::blocks))]
fn graphic_in_block(block: u8x16) -> usize
    ensures { result ≡ prefix_len is_ascii_graphic block }
{
    let others = (block - u8x16::splat(b'!'))
        .simd_gt(u8x16::splat(b'~' - b'!'))
        .to_bitmask();
    if others == 0 {
        BLOCK
    } else {
        others.trailing_zeros() as usize
    }
}

/// Returns the place at which the graphic ASCII from `from` on ends, byte by byte.
#[inline]
fn graphic_end_by_bytes(bytes: &[u8], from: usize) -> usize
    requires { from ≤ length bytes.now }
    ensures { result ≡ from + prefix_len is_ascii_graphic (drop from bytes.now) }
{
    let mut at = from;
    while at < bytes.len() && bytes[at].is_ascii_graphic() {
        at += 1;
    }
    at
}

/// Returns the place at which the graphic ASCII at the front ends. Each of these bytes is a
/// character.
#[inline]
#[tactic(auto, using(crate::proofs::Graphic::blocks))]
pub(super) fn graphic_end(bytes: &[u8]) -> usize
    ensures { result ≡ prefix_len is_ascii_graphic bytes.now }
{
    let mut at = 0;
    while bytes.len() - at >= BLOCK {
        let graphic = graphic_in_block(u8x16::from_slice(&bytes[at..]));
        if graphic < BLOCK {
            return at + graphic;
        }
        at += BLOCK;
    }
    graphic_end_by_bytes(bytes, at)
}
