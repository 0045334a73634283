//! Texts written as JSON and read from it, if a request for memory is refused.
use super::calls::answer_of_json_call;
use crate::cases::fixtures::assert_row;
use crate::cases::fixtures::refusals::is_text_made_or_refusal;

/// Characters that JSON escapes.
const TEXT: &str = "\u{1}\"\\\né😈";

const JSON: &str = "\"\\u0001\\\"\\\\\\né😈\"";

/// Another JSON of the same text.
const ESCAPED: &str = "\"\\u0001\\u0022\\u005C\\u000a\\u00e9\\ud83d\\ude08\"";

#[test]
fn json_texts_if_memory_is_refused(rt: HostRuntime) {
    for (call, text, json) in [
        ("to_json", TEXT, JSON),
        ("from_json", TEXT, JSON),
        ("from_json", TEXT, ESCAPED),
        ("from_json", "Hi", "[72,105]"),
        ("Str::serialize", TEXT, JSON),
        ("Str::deserialize", TEXT, JSON),
        ("Str::deserialize", TEXT, ESCAPED),
        ("Str::deserialize_owned", TEXT, JSON),
        ("StrMut::deserialize", TEXT, JSON),
        ("StrMut::deserialize", TEXT, ESCAPED),
        ("StrMut::deserialize_owned", TEXT, JSON),
    ] {
        if !is_text_made_or_refusal(&rt, call, answer_of_json_call(rt.alloc(), call, text, json)) {
            assert_row(
                &rt,
                call,
                answer_of_json_call(rt.alloc(), call, text, json) == Some(Ok(true)),
            );
        }
    }
}
