//! What each call returns if a request for memory is refused. A call that was refused is made again,
//! and succeeds.
use super::calls::{CALLS, string_call_makes};
use super::slice::are_slices;
use crate::cases::fixtures::refusals::{ITEMS, is_text_made_or_refusal};
use crate::cases::fixtures::{assert_row, assert_that};
use bytes_utils::Str;

#[test]
fn string_calls_if_memory_is_refused(rt: HostRuntime) {
    for call in CALLS.lines() {
        if !is_text_made_or_refusal(&rt, call, string_call_makes(rt.alloc(), call, ITEMS)) {
            assert_row(
                &rt,
                call,
                string_call_makes(rt.alloc(), call, ITEMS) == Some(Ok(true)),
            );
        }
    }
}

// Pieces of shared bytes, each of which is one more owner, and copies.
#[test]
fn string_slices_need_no_memory(rt: HostRuntime) {
    if let Ok(text) = Str::from_str(rt.alloc(), "Hello β") {
        for (from, to) in [(0, 0), (1, 1), (1, 5), (0, 8), (6, 8), (8, 8)] {
            assert_that(&rt, are_slices(&text, from, to));
        }
    }
}
