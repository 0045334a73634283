//! Texts formatted by the two macros.
ghost use Rattle.std.specs.Prelude.{◌≡◌, ◌++◌, codes, decimal, IfOk};

use crate::cases::fixtures::{assert_that, is_text};
use bytes_utils::{Str, StrMut, format_bytes, format_bytes_mut};
use std::alloc::Global;
use std::fmt;

/// A name and a number, with text between them.
fn format_count(alloc: Global, name: &str, count: u32) -> Result<Str, fmt::Error>
    ensures { IfOk result (λ text. text ≡ name.now ++ (codes ": " ++ decimal count)) }
{
    format_bytes!(alloc; "{}: {}", name, count)
}

/// As `format_count`, and how often the macro evaluated its allocator.
fn format_count_mut(alloc: Global, name: &str, count: u32) -> (u32, Result<StrMut, fmt::Error>)
    ensures once { result.0 ≡ 1 }
    ensures text { IfOk result.1 (λ text. text ≡ name.now ++ (codes ": " ++ decimal count)) }
{
    let mut evaluated = 0;
    let text = format_bytes_mut!({ evaluated += 1; alloc }; "{}: {}", name, count);
    (evaluated, text)
}

/// An argument whose `fmt` fails.
struct FaultyFormat;

impl fmt::Display for FaultyFormat {
    fn fmt<W: fmt::Write>(&self, _f: &mut fmt::Formatter<W>) -> fmt::Result {
        Err(fmt::Error)
    }
}

#[test]
fn formats_by_both_macros(rt: HostRuntime) {
    let alloc = rt.alloc();
    let text = format_bytes!(alloc; "Hello {}", "world");
    assert_that(&rt, is_text(text.ok(), "Hello world"));
    assert_that(&rt, is_text(format_count(alloc, "aβ", 12).ok(), "aβ: 12"));
    assert_that(
        &rt,
        format_bytes!(alloc; "before {}", FaultyFormat).is_err(),
    );
    let (evaluated, text) = format_count_mut(alloc, "aβ", 12);
    assert_that(&rt, evaluated == 1 && is_text(text.ok(), "aβ: 12"));
}
