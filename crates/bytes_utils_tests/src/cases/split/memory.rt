//! What a call returns if a request for memory is refused: a refused split is one item, and then
//! the end. The next call succeeds.
use super::ways::Way;
use crate::cases::fixtures::assert_row;
use crate::cases::fixtures::refusals::{Answer, is_text_made_or_refusal};
use bytes_utils::StrMut;
use std::alloc::Global;
use std::io::Print;
use std::process::Abort;

/// The answer of a run over the text by commas: the parts are right, or those before a refusal.
fn split_if_memory_allows(alloc: Global, way: Way, text: &str) -> Answer {
    let growing = StrMut::from_str(alloc, text).ok()?;
    Some(way.beside(growing, ",", text))
}

/// Asserts the parts of the text. After a refused split asserts the parts before it and the end,
/// reports the call, and asserts the parts of another run.
fn assert_split_if_memory_allows<R: Abort + Print>(
    rt: &R,
    alloc: Global,
    way: Way,
    call: &str,
    text: &str,
) {
    if !is_text_made_or_refusal(rt, call, split_if_memory_allows(alloc, way, text)) {
        assert_row(
            rt,
            call,
            split_if_memory_allows(alloc, way, text) == Some(Ok(true)),
        );
    }
}

#[test]
fn split_parts_if_memory_is_refused(rt: HostRuntime) {
    for (way, call, text) in [
        (Way::Split, "SplitBytes::next", "a,b,c"),
        (Way::RSplit, "RSplitBytes::next", "a,b,c"),
        (Way::SplitN(2), "SplitNBytes::next", "a,b,c"),
        (Way::RSplitN(2), "RSplitNBytes::next", "a,b,c"),
        (Way::Indices, "SplitIndicesBytes::next", "a,b"),
        (Way::SplitInclusive, "SplitInclusiveBytes::next", "a,b,"),
        (Way::SplitOnce, "StrInner::split_once_bytes", "a,β"),
        (Way::RSplitOnce, "StrInner::rsplit_once_bytes", "a,β"),
        (Way::SplitAt(1), "StrInner::split_at_bytes", "aβ"),
        (Way::Lines, "LinesBytes::next", "a\r\nb\n"),
        (Way::SplitWhitespace, "SplitWhitespaceBytes::next", " a b "),
        (
            Way::SplitAsciiWhitespace,
            "SplitAsciiWhitespaceBytes::next",
            " a b ",
        ),
        (Way::Fields, "BytesIter::next", "a,b,c"),
    ] {
        assert_split_if_memory_allows(&rt, rt.alloc(), way, call, text);
    }
}

// What is left at the ends is cut out of its storage, and asks for no memory of its own.
#[test]
fn split_ends_need_no_memory(rt: HostRuntime) {
    for (way, call, text) in [
        (Way::StripPrefix, "StrInner::strip_prefix_bytes", ",β"),
        (Way::StripSuffix, "StrInner::strip_suffix_bytes", "β,"),
        (Way::Trim, "StrInner::trim_bytes", " β "),
        (Way::TrimStart, "StrInner::trim_start_bytes", " β "),
        (Way::TrimEnd, "StrInner::trim_end_bytes", " β "),
    ] {
        assert_split_if_memory_allows(&rt, rt.alloc(), way, call, text);
    }
}
