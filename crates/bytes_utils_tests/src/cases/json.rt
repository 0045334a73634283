//! Texts as JSON, in both storages, and a caller that knows what it reads by the clauses alone.
mod calls;
mod memory;

ghost use Rattle.std.specs.Prelude.{◌≡◌, IfOk, IfErr};

use crate::cases::fixtures::{assert_row, assert_that, is_text, says};
use bytes::{Bytes, BytesMut};
use bytes_utils::json::JsonRefused;
use bytes_utils::string::{Storage, StorageMut, StrInner};
use std::alloc::Global;
use std::process::Abort;

/// Writes the text as JSON and reads it back: it is the same, unless memory is refused.
fn written_and_read<S: Storage>(
    alloc: Global,
    text: &StrInner<S>,
) -> Result<StrInner<S>, JsonRefused>
where
    S::Creator: StorageMut,
    requires creator { (c : S.Creator) → S.created c ≡ S.Creator.stored c }
    ensures ok { IfOk result (λ read. read ≡ text.now) }
    ensures err { IfErr result (λ e. e ≡ JsonRefused.OutOfMemory) }
{
    let json = text.to_json(alloc).map_err(|_| JsonRefused::OutOfMemory)?;
    StrInner::from_json(alloc, json.as_str())
}

/// Whether this is the JSON of a text, and it is read as that text.
fn is_written_as_json<S: Storage>(alloc: Global, text: &str, want: &str) -> bool
where
    S::Creator: StorageMut,
    requires creator { (c : S.Creator) → S.created c ≡ S.Creator.stored c }
{
    match StrInner::<S>::from_str(alloc, text) {
        Ok(made) => {
            is_text(made.to_json(alloc).ok(), want)
                && is_text(written_and_read(alloc, &made).ok(), text)
        }
        Err(_) => false,
    }
}

/// Whether this is read from the JSON.
fn is_read_from_json<S: Storage>(alloc: Global, json: &str, want: Result<&str, JsonRefused>) -> bool
where
    S::Creator: StorageMut,
    requires creator { (c : S.Creator) → S.created c ≡ S.Creator.stored c }
{
    match StrInner::<S>::from_json(alloc, json) {
        Ok(text) => Ok(text.as_str()) == want,
        Err(refused) => Err(refused) == want,
    }
}

/// JSON texts, and what each is read as.
const READS: [(&str, Result<&str, JsonRefused>); 15] = [
    ("[72,105]", Ok("Hi")),
    ("[]", Ok("")),
    ("\"\\u00e9\"", Ok("é")),
    ("[195,169]", Ok("é")),
    ("[1", Err(JsonRefused::NotJson)),
    ("", Err(JsonRefused::NotJson)),
    ("\"a\" 1", Err(JsonRefused::NotJson)),
    ("[256]", Err(JsonRefused::NotText)),
    ("1", Err(JsonRefused::NotText)),
    ("[255,256]", Err(JsonRefused::NotText)),
    ("[-1]", Err(JsonRefused::NotText)),
    ("[1.0]", Err(JsonRefused::NotText)),
    ("{}", Err(JsonRefused::NotText)),
    ("null", Err(JsonRefused::NotText)),
    ("[255]", Err(JsonRefused::NotUtf8)),
];

/// Asserts what texts in one storage are read from, and written as.
fn assert_json_of_storage<S: Storage>(rt: &impl Abort, alloc: Global)
where
    S::Creator: StorageMut,
    requires creator { (c : S.Creator) → S.created c ≡ S.Creator.stored c }
{
    for (json, want) in READS {
        assert!(rt; is_read_from_json::<S>(alloc, json, want), "{json}");
    }
    for (text, json) in [
        ("Hello, world!", "\"Hello, world!\""),
        ("\u{1}\"\\\né", "\"\\u0001\\\"\\\\\\né\""),
    ] {
        assert!(rt; is_written_as_json::<S>(alloc, text, json), "{json}");
    }
}

#[test]
fn json_reads_and_writes(rt: HostRuntime) {
    assert_json_of_storage::<Bytes>(&rt, rt.alloc());
    assert_json_of_storage::<BytesMut>(&rt, rt.alloc());
}

/// Callers can rely on the numbers of the errors.
#[test]
fn json_errors_say_why(rt: HostRuntime) {
    for (refused, number, why) in [
        (JsonRefused::OutOfMemory, 1, "out of memory"),
        (JsonRefused::NotJson, 3, "not JSON"),
        (
            JsonRefused::NotText,
            4,
            "neither a string nor a list of bytes",
        ),
        (JsonRefused::NotUtf8, 5, "not UTF-8"),
    ] {
        assert_row(&rt, why, refused as u8 == number);
        assert_row(&rt, why, says(rt.alloc(), &refused, why) == Ok(true));
    }
    let debugged = format!(in rt.alloc(); "{:?}", JsonRefused::NotUtf8);
    assert_that(&rt, is_text(debugged.ok(), "NotUtf8"));
}
