//! Owned parts for borrowed ones.
use crate::cases::fixtures::{assert_row, assert_that, is_text};
use bytes_utils::Str;

/// Whether the text has this part.
fn slice_ref_has_part(text: &Str, part: &str, want: &str) -> bool {
    match text.slice_ref(part) {
        Ok(part) => is_text(part, want),
        Err(_) => false,
    }
}

// Parts that methods of `str` give, and texts of another place, of which one doesn't occur.
#[test]
fn slice_ref_of_parts(rt: HostRuntime) {
    let text = Str::from_str(rt.alloc(), " naïve = 'β' ").expect(&rt, "no memory");
    let quoted = text.split('\'').nth(1).unwrap_or("none");
    for (part, want) in [
        (text.trim(), "naïve = 'β'"),
        (quoted, "β"),
        ("", ""),
        ("v", "v"),
        (" naïve = 'β' ", " naïve = 'β' "),
    ] {
        assert_row(&rt, want, slice_ref_has_part(&text, part, want));
    }
    assert_that(&rt, matches!(text.slice_ref("vï"), Ok(None)));
}
