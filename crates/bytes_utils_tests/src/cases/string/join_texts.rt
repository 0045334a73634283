//! Texts joined with a separator between them.
use crate::cases::fixtures::assert_row;
use bytes_utils::Str;
use std::alloc::Global;

/// Whether the texts are joined to this one.
fn is_joined(alloc: Global, texts: &[Str], separator: &str, want: &str) -> bool {
    match Str::join_texts(alloc, texts, separator) {
        Ok(text) => text.eq_str(want),
        Err(_) => false,
    }
}

#[test]
fn join_texts(rt: HostRuntime) {
    let first = Str::from_str(rt.alloc(), "a").expect(&rt, "no memory");
    let texts = [first, Str::from_static(""), Str::from_static("β")];
    for (count, separator, want) in [
        (3, ", ", "a, , β"),
        (2, "", "a"),
        (1, ", ", "a"),
        (0, ", ", ""),
    ] {
        let some = texts.get(..count).unwrap_or(&texts);
        assert_row(&rt, want, is_joined(rt.alloc(), some, separator, want));
    }
}
