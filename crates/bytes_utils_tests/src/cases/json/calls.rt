//! The calls that write a text as JSON or read it, also those of `serde`.
use crate::cases::fixtures::refusals::{Answer, given_text_or_refusal};
use crate::cases::fixtures::{assert_row, repeated};
use bytes_utils::json::JsonRefused;
use bytes_utils::{Reason, Str, StrMut};
use serde_json::{Error, Value, from_str, from_value, to_string};
use std::alloc::Global;
use std::convert::AsStr;

/// The calls by their names.
const CALLS: &str = "\
to_json
from_json
Str::serialize
Str::deserialize
Str::deserialize_owned
StrMut::deserialize
StrMut::deserialize_owned";

/// The answer of a call of `serde_json` that makes this text.
fn answer_of_json_call_by_serde<T: AsStr + Drop>(made: Result<T, Error>, want: &str) -> Answer {
    Some(match made {
        Ok(text) => Ok(text.as_str() == want),
        Err(error) if error.is_memory() => Err(Reason::OutOfMemory),
        Err(_) => Ok(false),
    })
}

/// The answer of the call of this name, which writes the text as the JSON, or reads it.
pub(super) fn answer_of_json_call(alloc: Global, call: &str, text: &str, json: &str) -> Answer {
    match call {
        "to_json" => given_text_or_refusal(Str::from_str(alloc, text).ok()?.to_json(alloc), json),
        "from_json" => Some(match Str::from_json(alloc, json) {
            Ok(made) => Ok(made.eq_str(text)),
            Err(JsonRefused::OutOfMemory) => Err(Reason::OutOfMemory),
            Err(_) => Ok(false),
        }),
        "Str::serialize" => {
            let text = Str::from_str(alloc, text).ok()?;
            answer_of_json_call_by_serde(to_string(alloc, &text), json)
        }
        "Str::deserialize" => answer_of_json_call_by_serde::<Str>(from_str(alloc, json), text),
        "StrMut::deserialize" => answer_of_json_call_by_serde::<StrMut>(
            from_str(alloc, json),
            text,
        ),
        "Str::deserialize_owned" => {
            let value = Value::from_str(alloc, json).ok()?;
            answer_of_json_call_by_serde::<Str>(from_value(alloc, value), text)
        }
        "StrMut::deserialize_owned" => {
            let value = Value::from_str(alloc, json).ok()?;
            answer_of_json_call_by_serde::<StrMut>(from_value(alloc, value), text)
        }
        _ => None,
    }
}

#[test]
fn json_calls_of_a_long_text(rt: HostRuntime) {
    let text = repeated(rt.alloc(), "\n", 100_000).expect(&rt, "no memory");
    let escaped = repeated(rt.alloc(), "\\n", 100_000).expect(&rt, "no memory");
    let json = format!(in rt.alloc(); "\"{escaped}\"").expect(&rt, "no memory");
    for call in CALLS.lines() {
        assert_row(
            &rt,
            call,
            answer_of_json_call(rt.alloc(), call, text.as_str(), json.as_str()) == Some(Ok(true)),
        );
    }
}
