//! Calls of a text that grows, one after another.
use crate::cases::fixtures::refusals::{Answer, given_text_or_refusal};
use crate::cases::fixtures::{assert_row, strings};
use bytes_utils::{Reason, StrMut};
use std::alloc::Global;
use std::fmt::Write;

/// The answer of a call that changes a text.
fn step_done<E: Into<Reason>>(changed: Result<(), E>) -> Answer {
    Some(match changed {
        Ok(()) => Ok(true),
        Err(reason) => Err(reason.into()),
    })
}

/// Appends the characters one by one.
fn step_pushes_each(text: &mut StrMut, more: &str) -> Result<(), Reason> {
    for c in more.chars() {
        text.push(c)?;
    }
    Ok(())
}

/// Makes a call that appends `more`, or the items of `more`, each with the comma that ends it.
fn step_appends(alloc: Global, text: &mut StrMut, call: &str, more: &str) -> Answer {
    match call {
        "StrInner::push_str" => step_done(text.push_str(more)),
        "StrInner::push" => step_done(step_pushes_each(text, more)),
        "StrInner::write_str" => step_done(text.write_str(more).ok().ok_or(Reason::OutOfMemory)),
        "StrInner::extend_chars" => step_done(text.extend_chars(more.chars())),
        "StrInner::extend_strs" => step_done(text.extend_strs(more.split_inclusive(','))),
        "StrInner::extend_strings" => {
            let strings = strings(alloc, more).ok()?;
            step_done(text.extend_strings(strings.into_iter()))
        }
        "StrMut::extend of char" => step_done(text.extend(more.chars())),
        "StrMut::extend of &str" => step_done(text.extend(more.split_inclusive(','))),
        "StrMut::extend of String" => {
            let strings = strings(alloc, more).ok()?;
            step_done(text.extend(strings))
        }
        _ => None,
    }
}

/// Makes a call that appends `more`, or one of the other calls. Of these, some give a text, which has
/// to be `more`.
pub(super) fn step(alloc: Global, text: &mut StrMut, call: &str, more: &str) -> Answer {
    match call {
        "StrMut::make_ascii_uppercase" => step_done(text.make_ascii_uppercase()),
        "StrMut::make_ascii_lowercase" => step_done(text.make_ascii_lowercase()),
        "StrMut::try_clone" => given_text_or_refusal(text.try_clone(), more),
        "StrMut::clone" => given_text_or_refusal(text.clone(), more),
        "StrMut::split_built" => given_text_or_refusal(text.split_built(), more),
        "StrMut::split_built, StrInner::freeze" => given_text_or_refusal(
            text.split_built().ok()?.freeze(),
            more,
        ),
        _ => step_appends(alloc, text, call, more),
    }
}

/// Calls of one text: a name, what is appended or given, and the whole text after it.
const STEPS: &str = "\
StrInner::push_str|Hello|Hello|
StrInner::push_str| |Hello |
StrInner::push_str|World|Hello World|
StrMut::split_built, StrInner::freeze|Hello World||
StrInner::push|!|!|
StrMut::split_built|!||
StrInner::push_str|aβz|aβz|
StrMut::make_ascii_uppercase||AβZ|
StrMut::make_ascii_lowercase||aβz|
StrMut::try_clone|aβz|aβz|
StrMut::clone|aβz|aβz|
StrInner::extend_chars|Hi😈|aβzHi😈|
StrInner::extend_strs||aβzHi😈|";

/// Whether a row is right of the text.
fn is_step_right(alloc: Global, text: &mut StrMut, row: &str) -> Option<bool> {
    let mut fields = row.split('|');
    let (call, more, want) = (fields.next()?, fields.next()?, fields.next()?);
    Some(step(alloc, text, call, more) == Some(Ok(true)) && text.eq_str(want))
}

#[test]
fn steps_of_a_growing_text(rt: HostRuntime) {
    let mut text = StrMut::new(rt.alloc()).expect(&rt, "no memory");
    for row in STEPS.lines() {
        assert_row(
            &rt,
            row,
            is_step_right(rt.alloc(), &mut text, row) == Some(true),
        );
    }
}
