//! Texts and assertions that many tests use.
ghost use Rattle.std.specs.Iterator.{IsFinite};

pub(crate) mod refusals;
pub(crate) mod storage;

use bytes_utils::Reason;
use bytes_utils::string::{Storage, StrInner};
use std::alloc::{AllocError, Global};
use std::convert::AsStr;
use std::error::Error;
use std::process::Abort;

/// The items, each with the comma that ends it.
pub(crate) fn strings(alloc: Global, items: &str) -> Result<Vec<String>, AllocError> {
    let mut strings = Vec::new(alloc);
    for item in items.split_inclusive(',') {
        strings.push(String::from_str(alloc, item)?)?;
    }
    Ok(strings)
}

/// The item, this number of times.
pub(crate) fn repeated(alloc: Global, item: &str, count: u32) -> Result<String, AllocError> {
    let mut all = String::new(alloc);
    for _ in 0..count {
        all.push_str(item)?;
    }
    Ok(all)
}

/// Asserts what a helper returns, so that a test has no exit of its own.
pub(crate) fn assert_that(rt: &impl Abort, holds: bool) {
    assert!(rt; holds);
}

/// The same of a row of a table.
pub(crate) fn assert_row(rt: &impl Abort, row: &str, holds: bool) {
    assert!(rt; holds, "{row}");
}

/// Whether there is a text, and it is this one.
pub(crate) fn is_text<T: AsStr + Drop>(text: Option<T>, want: &str) -> bool {
    match text {
        Some(text) => text.as_str() == want,
        None => false,
    }
}

/// Whether an error prints this text, also in other styles.
pub(crate) fn says<E: Error>(alloc: Global, error: &E, text: &str) -> Result<bool, AllocError> {
    let said = format!(in alloc; "{error}|{error:#}|{error:>99}")?;
    Ok(said == format!(in alloc; "{text}|{text}|{text}")?)
}

/// Whether exactly these parts come. Fails if the first of them come, and one refusal, and then the
/// end.
pub(crate) fn are_taken<'t, S, P, W>(parts: &mut P, wanted: W) -> Result<bool, Reason>
where
    S: Storage,
    P: Iterator<Item = Result<StrInner<S>, Reason>> + Drop,
    W: Iterator<Item = &'t str> + Drop,
    requires parts { P.can_next parts.old }
    requires wanted { W.can_next wanted × IsFinite (W.remaining wanted) }
{
    for want in wanted {
        let Some(part) = parts.next() else {
            return Ok(false);
        };
        match part {
            Ok(part) => if !part.eq_str(want) {
                return Ok(false);
            },
            Err(reason) => return if parts.next().is_none() {
                Err(reason)
            } else {
                Ok(false)
            },
        }
    }
    Ok(parts.next().is_none())
}

/// As `are_taken`, and then the parts have ended, also at each further call.
pub(crate) fn are_all<'t, S, P, W>(mut parts: P, wanted: W) -> Result<bool, Reason>
where
    S: Storage,
    P: Iterator<Item = Result<StrInner<S>, Reason>> + Drop,
    W: Iterator<Item = &'t str> + Drop,
    requires can { (s : P) → P.can_next s }
    requires wanted { W.can_next wanted × IsFinite (W.remaining wanted) }
{
    let answer = are_taken(&mut parts, wanted);
    if parts.next().is_none() && parts.next().is_none() && parts.next().is_none() {
        answer
    } else {
        Ok(false)
    }
}
