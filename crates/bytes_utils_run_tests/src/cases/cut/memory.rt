//! The parts that are given if a request for memory is refused. With enough memory none is refused;
//! a run that refuses one prints a line for it.
use super::wanted_after_cut;
use bytes_utils::StrMut;
use bytes_utils_run::{How, cut_all};
use std::alloc::Global;
use std::test::Fail;

/// Splits a text completely, unless memory for the text is refused. Returns whether that was
/// refused, and what is missing of the parts, if those that are given are the first of them.
fn cut_if_memory_allows(alloc: Global) -> Option<(bool, Option<&'static str>)> {
    let text = StrMut::from_str(alloc, "a,b,,c,d,e").ok()?;
    let parts = cut_all(alloc, text, How::Split(","));
    Some((
        parts.refused.is_some(),
        wanted_after_cut(&parts, "a|b||c|d|e|"),
    ))
}

// After a refused request the parts are a proper beginning of all, and the text is then split
// completely.
#[test]
fn cut_parts_if_memory_is_refused(rt: HostRuntime) -> Result<(), Fail> {
    let mut outcome = cut_if_memory_allows(rt.alloc());
    if let Some((true, missing)) = outcome {
        println!(rt; "refused cut_all")?;
        assert!(rt; missing.is_some() && missing != Some(""));
        outcome = cut_if_memory_allows(rt.alloc());
    }
    assert!(rt; outcome.is_none() || outcome == Some((false, Some(""))));
    Ok(())
}
