//! Long texts, and texts of many items: no call is refused while there is memory.
use super::calls::{CALLS, string_call_makes};
use super::slice::are_slices;
use super::steps::step;
use crate::cases::fixtures::{assert_row, assert_that, repeated};
use bytes_utils::{Str, StrMut};

/// An item with the comma that ends it. Each text has ten thousand: 100,000 bytes.
const ITEM: &str = "012345678,";

#[test]
fn long_strings_by_each_call(rt: HostRuntime) {
    let text = repeated(rt.alloc(), ITEM, 10_000).expect(&rt, "no memory");
    for call in CALLS.lines() {
        assert_row(
            &rt,
            call,
            string_call_makes(rt.alloc(), call, text.as_str()) == Some(Ok(true)),
        );
    }
    let text = Str::from_str(rt.alloc(), text.as_str()).expect(&rt, "no memory");
    assert_that(&rt, are_slices(&text, 0, 99_999));
}

#[test]
fn long_string_of_appended_items(rt: HostRuntime) {
    let more = repeated(rt.alloc(), ITEM, 10_000).expect(&rt, "no memory");
    let mut text = StrMut::new(rt.alloc()).expect(&rt, "no memory");
    for call in [
        "StrInner::extend_strings",
        "StrInner::extend_chars",
        "StrInner::extend_strs",
        "StrInner::push_str",
        "StrInner::push",
        "StrInner::write_str",
    ] {
        assert_row(
            &rt,
            call,
            step(rt.alloc(), &mut text, call, more.as_str()) == Some(Ok(true)),
        );
    }
    assert_that(&rt, text.len() == 600_000);
    // What is left after all was given can grow again.
    let is_given = text.split_built().is_ok() && text.push('!').is_ok() && text.eq_str("!");
    assert_that(&rt, is_given);
}
