//! Shared helpers: the calls that make a text, by their names, and texts that are made by each.
use super::steps::step;
use crate::cases::fixtures::refusals::{Answer, given_text_or_refusal};
use crate::cases::fixtures::{assert_row, strings};
use bytes_utils::{Reason, Str, StrMut, format_bytes, format_bytes_mut};
use std::alloc::{AllocError, Global};

/// The calls that make a text. `memory` sees each of them refused, but for the last one.
pub(super) const CALLS: &str = "\
StrInner::from_str
StrInner::from_chars
StrInner::from_strs
StrInner::from_strings
StrInner::join
Str::join_texts
format_bytes!
format_bytes_mut!
StrInner::freeze
Str::from_mut
Str::from_string
StrMut::try_clone
StrMut::clone
StrMut::split_built
Str::from_iter of char
Str::from_iter of &str
Str::from_iter of String
StrMut::from_iter of char
StrMut::from_iter of &str
StrMut::from_iter of String
StrInner::push_str
StrInner::push
StrInner::write_str
StrInner::extend_chars
StrInner::extend_strs
StrInner::extend_strings
StrMut::extend of char
StrMut::extend of &str
StrMut::extend of String
StrMut::from of String";

/// The text, split once and joined again. It has to have a comma.
fn string_call_joins(alloc: Global, text: &str) -> Option<Result<Str, Reason>> {
    let (first, following) = text.split_once(',')?;
    let first = Str::from_str(alloc, first).ok()?;
    let texts = [first, Str::from_str(alloc, following).ok()?];
    Some(Str::join_texts(alloc, &texts, ","))
}

/// The answer of the call of this name, which makes the text. The text has to have a comma.
pub(super) fn string_call_makes(alloc: Global, call: &str, text: &str) -> Answer {
    match call {
        "StrInner::from_str" => given_text_or_refusal(Str::from_str(alloc, text), text),
        "StrInner::from_chars" => given_text_or_refusal(Str::from_chars(alloc, text.chars()), text),
        "StrInner::from_strs" => given_text_or_refusal(
            Str::from_strs(alloc, text.split_inclusive(',')),
            text,
        ),
        "StrInner::from_strings" => {
            let strings = strings(alloc, text).ok()?;
            given_text_or_refusal(Str::from_strings(alloc, strings.into_iter()), text)
        }
        "StrInner::join" => given_text_or_refusal(Str::join(alloc, text.split(','), ","), text),
        "Str::join_texts" => given_text_or_refusal(string_call_joins(alloc, text)?, text),
        "format_bytes!" => {
            let made = format_bytes!(alloc; "{}", text);
            given_text_or_refusal(made.ok().ok_or(Reason::OutOfMemory), text)
        }
        "format_bytes_mut!" => {
            let made = format_bytes_mut!(alloc; "{}", text);
            given_text_or_refusal(made.ok().ok_or(Reason::OutOfMemory), text)
        }
        _ => string_call_collects(alloc, call, text),
    }
}

/// As `string_call_makes`, of a call that collects the text.
fn string_call_collects(alloc: Global, call: &str, text: &str) -> Answer {
    match call {
        "Str::from_iter of char" => given_text_or_refusal::<Str, AllocError>(
            text.chars().collect(alloc),
            text,
        ),
        "Str::from_iter of &str" => {
            given_text_or_refusal::<Str, AllocError>(text.split_inclusive(',').collect(alloc), text)
        }
        "Str::from_iter of String" => {
            let strings = strings(alloc, text).ok()?;
            given_text_or_refusal::<Str, AllocError>(strings.into_iter().collect(alloc), text)
        }
        "StrMut::from_iter of char" => given_text_or_refusal::<StrMut, AllocError>(
            text.chars().collect(alloc),
            text,
        ),
        "StrMut::from_iter of &str" => {
            given_text_or_refusal::<StrMut, AllocError>(
                text.split_inclusive(',').collect(alloc),
                text,
            )
        }
        "StrMut::from_iter of String" => {
            let strings = strings(alloc, text).ok()?;
            given_text_or_refusal::<StrMut, AllocError>(strings.into_iter().collect(alloc), text)
        }
        _ => string_call_on_text(alloc, call, text),
    }
}

/// As `string_call_makes`, of a call on a text.
fn string_call_on_text(alloc: Global, call: &str, text: &str) -> Answer {
    match call {
        "StrInner::freeze" => given_text_or_refusal(
            StrMut::from_str(alloc, text).ok()?.freeze(),
            text,
        ),
        "Str::from_mut" => given_text_or_refusal(
            Str::from_mut(StrMut::from_str(alloc, text).ok()?),
            text,
        ),
        "Str::from_string" => {
            let string = String::from_str(alloc, text).ok()?;
            given_text_or_refusal(Str::from_string(alloc, string), text)
        }
        "StrMut::from of String" => {
            let string = String::from_str(alloc, text).ok()?;
            given_text_or_refusal::<_, Reason>(Ok(StrMut::from(string)), text)
        }
        "StrMut::try_clone" | "StrMut::clone" | "StrMut::split_built" => {
            step(alloc, &mut StrMut::from_str(alloc, text).ok()?, call, text)
        }
        _ => string_call_appends(alloc, call, text),
    }
}

/// As `string_call_makes`, of a call that appends the text to the empty one. If it is refused, some of the text
/// is there, and more can be appended.
fn string_call_appends(alloc: Global, call: &str, more: &str) -> Answer {
    let mut text = StrMut::new(alloc).ok()?;
    Some(match step(alloc, &mut text, call, more)? {
        Ok(is_right) => Ok(is_right && text.eq_str(more)),
        Err(reason) if is_beginning_by_string_call(&mut text, more) => Err(reason),
        Err(_) => Ok(false),
    })
}

/// Whether the text is a part of the whole one from its start, but not all, and can grow further.
fn is_beginning_by_string_call(text: &mut StrMut, whole: &str) -> bool {
    whole.starts_with(text.as_str())
        && text.len() < whole.len()
        && text.push('!').is_ok()
        && text.ends_with("!")
}

#[test]
fn string_calls_with_few_items(rt: HostRuntime) {
    for (call, text) in [
        ("StrInner::from_chars", "Hi😈"),
        ("StrInner::from_chars", ""),
        ("StrInner::from_strs", ""),
        ("StrInner::from_strings", ""),
    ] {
        assert_row(
            &rt,
            call,
            string_call_makes(rt.alloc(), call, text) == Some(Ok(true)),
        );
    }
}
