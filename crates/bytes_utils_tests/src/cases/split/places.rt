//! Places in a text: where its first line ends, where its characters begin, and a cut at each.
use super::borrowed::is_as_borrowed;
use super::ways::Way;
use crate::cases::fixtures::assert_that;
use bytes_utils::split::{boundaries, line_place};

#[test]
fn split_places_of_lines_and_characters(rt: HostRuntime) {
    boundaries();
    assert_that(&rt, line_place("αb\r\n\nc") == Some((3, 5)));
    assert_that(&rt, line_place("a\rb").is_none());
    for at in 0..6 {
        assert_that(
            &rt,
            is_as_borrowed(rt.alloc(), Way::SplitAt(at), "hello", ""),
        );
    }
}
