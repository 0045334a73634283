//! Texts split into all of their parts. Worked cases are in `runs.txt` of the crate
//! `bytes_utils_demo`.
ghost use Rattle.std.specs.Prelude.{◌≡◌};

mod memory;
mod refusals;
mod rows;

use bytes::{Bytes, BytesMut};
use bytes_utils::Str;
use bytes_utils::string::{Storage, StorageMut, StrInner};
use bytes_utils_run::{How, Parts, cut_all};
use rows::is_cut_row_allowed;
use std::alloc::Global;
use std::iter::repeat_n;
use std::test::Fail;

/// Returns what is left of `wanted` after these parts, if it begins with them. In `wanted` a bar
/// comes after each part.
fn wanted_after_cut<'w, S: Storage>(parts: &Parts<S>, wanted: &'w str) -> Option<&'w str> {
    let mut rest = wanted;
    for part in &parts.given {
        rest = rest.strip_prefix(part.as_str())?.strip_prefix("|")?;
    }
    Some(rest)
}

/// Returns whether all of a text is split, into this number of parts.
fn is_cut_into<S: Storage>(alloc: Global, text: &str, how: How<'_>, count: usize) -> bool
where
    S::Creator: StorageMut,
    requires creator { (c : S.Creator) → S.created c ≡ S.Creator.stored c }
{
    if !is_cut_row_allowed(how) {
        return false;
    }
    match StrInner::<S>::from_str(alloc, text) {
        Ok(text) => {
            let parts = cut_all(alloc, text, how);
            parts.refused.is_none() && parts.given.len() == count
        }
        Err(_) => false,
    }
}

#[test]
fn cut_all_gives_many_parts(rt: HostRuntime) -> Result<(), Fail> {
    let text = Str::from_strs(rt.alloc(), repeat_n("β,\n", 10_000))?;
    for (how, count) in [
        (How::Split(","), 10_001),
        (How::SplitN(usize::MAX, ","), 10_001),
        (How::RSplit(","), 10_001),
        (How::RSplitN(usize::MAX, ","), 10_001),
        (How::Inclusive(","), 10_001),
        (How::Words, 10_000),
        (How::AsciiWords, 10_000),
        (How::Lines, 10_000),
    ] {
        let is_shared_cut = is_cut_into::<Bytes>(rt.alloc(), text.as_str(), how, count);
        let is_growing_cut = is_cut_into::<BytesMut>(rt.alloc(), text.as_str(), how, count);
        assert!(rt; is_shared_cut && is_growing_cut, "{how:?}");
    }
    Ok(())
}
