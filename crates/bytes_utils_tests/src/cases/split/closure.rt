//! A text split by closures, from either end.
ghost use Rattle.std.specs.Prelude.{◌≤◌, IfSome};
ghost use Rattle.bytes_utils.specs.ClosureWalk.{IsLawfulClosureCut};
ghost use Rattle.bytes_utils.specs.declared.split.direction.Direction.TheVariants.{Forward};

use crate::cases::fixtures::{are_taken, assert_row};
use bytes_utils::string::{BytesIter, Direction, Storage, StrInner};
use bytes_utils::{Reason, Str, StrMut};
use std::alloc::Global;

/// Whether these are the characters, last to first, by `are_taken`.
fn closure_gives_characters<S: Storage>(text: StrInner<S>, wanted: &str) -> Result<bool, Reason> {
    let mut chunks = BytesIter::new(text, Direction::Backward, |s: &str| {
        let last = s.len().checked_sub(1)?;
        let start = s.floor_char_boundary(last);
        Some((start, start))
    });
    are_taken(&mut chunks, wanted.split('|'))
}

/// Whether these are the chunks of one, two and three characters and so on, by `are_taken`.
fn closure_gives_growing<S: Storage>(text: StrInner<S>, wanted: &str) -> Result<bool, Reason> {
    let mut passed = 0_usize;
    let grows = move |s: &str|
        ensures { IfSome result (λ cut. IsLawfulClosureCut Forward s.now cut.0 cut.1) }
    {
        let (start, last) = s.char_indices().nth(passed)?;
        passed = passed.saturating_add(1);
        let end = start.saturating_add(last.len_utf8());
        s.is_char_boundary(end).then_some((end, end))
    };
    let mut chunks = BytesIter::new(text, Direction::Forward, grows);
    are_taken(&mut chunks, wanted.split('|'))
}

/// Whether the text of either storage has these characters, last to first, and these growing chunks.
fn is_cut_by_closures(
    alloc: Global,
    text: &'static str,
    characters: &str,
    growing: &str,
) -> Result<bool, Reason> {
    Ok(
        closure_gives_characters(Str::from_static(text), characters)?
            && closure_gives_characters(StrMut::from_str(alloc, text)?, characters)?
            && closure_gives_growing(Str::from_static(text), growing)?
            && closure_gives_growing(StrMut::from_str(alloc, text)?, growing)?,
    )
}

#[test]
fn closures_give_characters_and_growing_chunks(rt: HostRuntime) {
    for (text, characters, growing) in [
        ("aβ", "β|a|", "a|β"),
        ("abcdef", "f|e|d|c|b|a|", "a|bc|def|"),
        ("αβγδεζ", "ζ|ε|δ|γ|β|α|", "α|βγ|δεζ|"),
    ] {
        let is_right = is_cut_by_closures(rt.alloc(), text, characters, growing);
        assert_row(&rt, text, is_right == Ok(true));
    }
}
