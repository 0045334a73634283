//! How errors print, and what `?` converts them to.
use crate::cases::fixtures::{assert_row, assert_that, debugs, shared};
use bytes_utils_buf::parts::CopyRefused;
use bytes_utils_buf::{Reason, Refused};
use std::alloc::{AllocError, AllocFailed, Global};
use std::error::Error;
use std::process::Abort;

/// Whether any error has this text, the same in every style.
fn refused_says<E: Error>(alloc: Global, error: &E, text: &str) -> Option<bool> {
    let said = format!(in alloc; "{error}|{error:#}|{error:>60}").ok()?;
    let want = format!(in alloc; "{text}|{text}|{text}").ok()?;
    Some(said == want)
}

/// An error that gives back a value.
fn refused_too_long() -> Refused<u8> {
    Refused {
        reason: Reason::TooLong,
        back: 7,
    }
}

#[test]
fn refused_errors_say_why(rt: HostRuntime) {
    let (alloc, all_lost) = (rt.alloc(), CopyRefused { taken: usize::MAX });
    let (memory, long) = ("out of memory", "too long");
    let lost = "out of memory, bytes lost: 18446744073709551615";
    assert_row(
        &rt,
        memory,
        refused_says(alloc, &Reason::OutOfMemory, memory),
    );
    assert_row(&rt, long, refused_says(alloc, &refused_too_long(), long));
    assert_row(&rt, lost, refused_says(alloc, &all_lost, lost));
    let text = "Refused { reason: TooLong, back: 7 }";
    assert_that(&rt, debugs(alloc, &refused_too_long(), text));
    let text = "CopyRefused { taken: 3 }";
    assert_that(&rt, debugs(alloc, &CopyRefused { taken: 3 }, text));
}

/// What `?` converts an error to.
fn reason_of_refused<E>(refused: E) -> Result<(), Reason>
where
    Reason: From<E>,
{
    Err(refused)?
}

fn refused_gives_reason<E>(refused: E, reason: Reason) -> bool
where
    Reason: From<E>,
{
    reason_of_refused(refused) == Err(reason)
}

#[test]
fn refused_errors_become_reasons(rt: HostRuntime) {
    let (value, lost) = (AllocFailed { value: 7_u8 }, CopyRefused { taken: 3 });
    assert_that(
        &rt,
        refused_gives_reason(refused_too_long(), Reason::TooLong),
    );
    assert_that(&rt, refused_gives_reason(lost, Reason::OutOfMemory));
    assert_that(&rt, refused_gives_reason(AllocError, Reason::OutOfMemory));
    assert_that(&rt, refused_gives_reason(value, Reason::OutOfMemory));

    // The value that comes back is the other owner of a block, and is dropped.
    let (back, other) = shared(&rt);
    assert_that(&rt, !other.is_unique());
    let reason = Reason::TooLong;
    assert_that(&rt, refused_gives_reason(Refused { reason, back }, reason));
    assert_that(&rt, other.is_unique());
}
