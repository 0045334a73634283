//! Long separators, and texts of many parts: no split is refused while there is memory.
use super::borrowed::is_as_borrowed;
use super::ways::Way;
use crate::cases::fixtures::repeated;
use bytes_utils::Str;
use std::alloc::Global;
use std::process::Abort;

/// Asserts that the parts are those that `str` borrows, in each way, also with the greatest limit.
fn assert_long_split(rt: &impl Abort, alloc: Global, text: &str, separator: &str) {
    for way in [
        Way::Split,
        Way::RSplit,
        Way::SplitN(usize::MAX),
        Way::RSplitN(usize::MAX),
        Way::Indices,
        Way::SplitInclusive,
        Way::SplitOnce,
        Way::RSplitOnce,
        Way::SplitAt(1),
        Way::Lines,
        Way::SplitWhitespace,
        Way::SplitAsciiWhitespace,
        Way::Fields,
    ] {
        assert!(rt; is_as_borrowed(alloc, way, text, separator), "{way:?}");
    }
}

/// The last part of each text is the beginning of the separator of 300 or 65,536 bytes.
#[test]
fn long_separators_of_a_split(rt: HostRuntime) {
    for len in [299, 65_535] {
        let mut separator = repeated(rt.alloc(), "-", len).expect(&rt, "no memory");
        separator.push('+').expect(&rt, "no memory");
        let separator = separator.as_str();
        let text = Str::join(rt.alloc(), "a||β|-".split('|'), separator).expect(&rt, "no memory");
        assert_long_split(&rt, rt.alloc(), text.as_str(), separator);
    }
}

#[test]
fn long_split_of_many_parts(rt: HostRuntime) {
    let text = repeated(rt.alloc(), "a,β\r\n ", 2_000).expect(&rt, "no memory");
    assert_long_split(&rt, rt.alloc(), text.as_str(), ",");
}
