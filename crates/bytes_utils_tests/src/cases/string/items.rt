//! Items of an iterator, of which the storage refuses one.
use crate::cases::fixtures::storage::{Splits, text_in_refusing_storage};
use crate::cases::fixtures::{assert_row, is_text, strings};
use bytes_utils::string::{StorageMut, StrInner};
use bytes_utils::{Reason, Refused};
use std::alloc::Global;
use std::cell::Cell;

/// What came back from a call that was refused for the storage's reason.
fn item_back<B: Drop>(answer: Result<(), Refused<B>>) -> Option<B> {
    let refused = answer.err()?;
    (refused.reason == Reason::TooLong).then_some(refused.back)
}

/// Whether the call is refused the third item that isn't empty. That comes back, a borrowed iterator
/// continues after it, and the text has the first two. An empty item is never refused.
fn gives_item_back<S: StorageMut>(alloc: Global, mut text: StrInner<S>, call: &str) -> bool {
    match call {
        "extend_chars" => {
            let mut items = "aβcd".chars();
            let is_back = item_back(text.extend_chars(&mut items)) == Some('c');
            is_back && items.next() == Some('d') && text.eq_str("aβ")
        }
        "extend_strs" => {
            let mut items = "one,,two,three,four".split(',');
            let is_back = item_back(text.extend_strs(&mut items)) == Some("three");
            is_back && items.next() == Some("four") && text.eq_str("onetwo")
        }
        _ => match strings(alloc, "a,b,c,d") {
            Ok(strings) => {
                let mut items = strings.into_iter();
                let is_back = is_text(item_back(text.extend_strings(&mut items)), "c,");
                is_back && is_text(items.next(), "d") && text.eq_str("a,b,")
            }
            Err(_) => false,
        },
    }
}

#[test]
fn string_items_come_back_if_refused(rt: HostRuntime) {
    let asked = Cell::new(0);
    let splits = Splits { asked, granted: 0 };
    for call in ["extend_chars", "extend_strs", "extend_strings"] {
        let is_back = match text_in_refusing_storage(rt.alloc(), "", 2, &splits) {
            Some(text) => gives_item_back(rt.alloc(), text, call),
            None => false,
        };
        assert_row(&rt, call, is_back);
    }
}
