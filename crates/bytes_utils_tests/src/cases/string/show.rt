//! Printed texts, compared with what their `str` prints.
use bytes_utils::Str;
use std::alloc::{AllocError, Global};
use std::fmt;

/// Texts with a bar between them. The last one has 72 bytes.
const TEXTS: &str = "|aβ\n\"😈\0|longer than it|aβaβaβaβaβaβaβaβaβaβaβaβaβaβaβaβaβaβaβaβaβaβaβaβ";

/// The value, padded, cut, in quotes, and in another style.
fn shown<T: fmt::Display + fmt::Debug>(alloc: Global, value: &T) -> Result<String, AllocError> {
    format!(in alloc;
        "{value}|{value:>8}|{value:*^9}|{value:.2}|{value:?}|{value:12?}|{value:#}|{value:#?}"
    )
}

/// Whether the text shows as its `str`.
fn is_shown_as_str(alloc: Global, text: &'static str) -> Result<bool, AllocError> {
    let want = shown(alloc, &text)?;
    Ok(shown(alloc, &Str::from_static(text))? == want)
}

#[test]
fn shows_as_str(rt: HostRuntime) {
    for text in TEXTS.split('|') {
        assert!(rt;
            is_shown_as_str(rt.alloc(), text).expect(&rt, "no memory"),
            "{text:?}"
        );
    }
}
