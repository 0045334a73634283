//! Texts as JSON: written as a JSON string, and read from a string or from a list of bytes.
ghost use Rattle.std.specs.Prelude.{◌≡◌, ◌≢◌, ◌⊎◌, Ok, Err, ◌↔◌, ℕ, ◌<◌, List, [], All, map, Some, IfOk, IfErr, IfSome, IfNone, string_bytes, encode_utf8_all};
ghost use Rattle.std.specs.Str.{chars};
ghost use Rattle.serde_json.specs.Read.{read};
ghost use Rattle.serde_json.specs.View.{view};
ghost use Rattle.bytes_utils.specs.Json.{json_string, json_number, JsonRepresents, IsJsonRefusal, JsonHoldsText, IsNotJson, JsonHoldsNoBytes, JsonHoldsOtherBytes};

mod show;

use crate::string::{Storage, StorageMut, StrInner};
use bytes_utils_buf::Reason;
use serde_json::Value;
use std::alloc::{AllocError, Global};

/// Why no text was read from JSON.
#[derive(Clone, Copy, Debug, Eq, PartialEq)]
pub enum JsonRefused {
    /// Memory was refused, or the storage refused for another reason.
    OutOfMemory = 1,
    /// Not JSON: a syntax error, trailing input, or nesting deeper than 127.
    NotJson = 3,
    /// JSON, but neither a string nor a list of whole numbers from 0 to 255. A number with a
    /// fraction or an exponent is not one of these, whatever its value.
    NotText = 4,
    /// A list of such numbers, which as bytes are not UTF-8.
    NotUtf8 = 5,
}

/// The text as a JSON string.
fn write_json(alloc: Global, text: &str) -> Result<String, AllocError>
    ensures table { IfOk result
        (λ json. string_bytes json ≡ encode_utf8_all (json_string (chars text.now))) }
    ensures reads_back { IfOk result (λ json. JsonHoldsText (string_bytes json) text.now) }
{
    Value::try_from_str(alloc, text)?.to_string(alloc)
}

/// The value of a JSON text.
fn json_value_of(alloc: Global, json: &str) -> Result<Value, JsonRefused>
    ensures ok { IfOk result (λ value. read json.now ≡ Some (view value)) }
    ensures err { IfErr result
        (λ e. (e ≡ JsonRefused.OutOfMemory) ⊎ ((e ≡ JsonRefused.NotJson) × IsNotJson json.now)) }
    ensures empty { json.now ≡ [] → result ≡ Err JsonRefused.NotJson }
{
    match Value::from_str(alloc, json) {
        Ok(value) => Ok(value),
        Err(error) if error.is_memory() => Err(JsonRefused::OutOfMemory),
        Err(_) => Err(JsonRefused::NotJson),
    }
}

/// Returns the member as a byte, if it is a whole number below 256.
fn json_byte(member: &Value) -> Option<u8>
    ensures some { IfSome result (λ byte. view member.now ≡ json_number byte) }
    ensures in_range { IfSome result (λ byte. byte < 256) }
    ensures none { IfNone result ((n : ℕ) → n < 256 → view member.now ≢ json_number n) }
{
    u8::try_from(member.as_u64()?).ok()
}

/// Returns the members as bytes.
fn json_bytes<S: StorageMut>(alloc: Global, members: &[Value]) -> Result<S, JsonRefused>
    ensures ok { IfOk result (λ bytes. map view members.now ≡ map json_number (S.stored bytes)) }
    ensures in_range { IfOk result (λ bytes. All (λ b. b < 256) (S.stored bytes)) }
    ensures err { IfErr result
        (λ e. (e ≡ JsonRefused.OutOfMemory) ⊎ ((e ≡ JsonRefused.NotText)
        × ((ns : List ℕ) → All (λ n. n < 256) ns → map view members.now ≢ map json_number ns))) }
{
    let mut bytes = S::empty(alloc).map_err(|_| JsonRefused::OutOfMemory)?;
    for member in members {
        let byte = json_byte(member).ok_or(JsonRefused::NotText)?;
        bytes
            .push_slice(&[byte])
            .map_err(|_| JsonRefused::OutOfMemory)?;
    }
    Ok(bytes)
}

impl<S: Storage> StrInner<S> {
    /// Returns the text as a JSON string (RFC 8259, section 7), without white space around it.
    /// Fails with `OutOfMemory` if memory is refused.
    pub fn to_json(&self, alloc: Global) -> Result<String, Reason>
        ensures table { IfOk result
            (λ json. string_bytes json ≡ encode_utf8_all (json_string (chars self.now))) }
        ensures reads_back { IfOk result (λ json. JsonHoldsText (string_bytes json) self.now) }
        ensures err { IfErr result (λ e. e ≡ Reason.OutOfMemory) }
    {
        write_json(alloc, self.as_str()).map_err(|_| Reason::OutOfMemory)
    }
}

impl<S: Storage> StrInner<S>
where
    S::Creator: StorageMut,
{
    /// Reads a text from JSON (RFC 8259): from a string, or from a list of the bytes of its UTF-8.
    /// The JSON is what `serde_json` reads as one value over the whole text. Requires that a
    /// creator's bytes are those of its text, as for `Str` and `StrMut`. Fails with `OutOfMemory` if
    /// memory is refused or the storage refuses, and otherwise with `NotJson`, `NotText` or
    /// `NotUtf8`, each exactly if its cause holds; for an empty `json` always with `NotJson`.
    pub fn from_json(alloc: Global, json: &str) -> Result<Self, JsonRefused>
        requires creator { (c : S.Creator) → S.created c ≡ S.Creator.stored c }
        ensures ok { IfOk result (λ text. JsonHoldsText json.now text) }
        ensures text { (text : List ℕ) → JsonHoldsText json.now text
            → (result ≡ Ok text) ⊎ (result ≡ Err JsonRefused.OutOfMemory) }

        // Unless `OutOfMemory` is returned, each other error is returned exactly if its cause
        // holds.
        ensures not_json { result ≢ Err JsonRefused.OutOfMemory
            → ((result ≡ Err JsonRefused.NotJson) ↔ IsNotJson json.now) }
        ensures not_text { result ≢ Err JsonRefused.OutOfMemory
            → ((result ≡ Err JsonRefused.NotText) ↔ JsonHoldsNoBytes json.now) }
        ensures not_utf8 { result ≢ Err JsonRefused.OutOfMemory
            → ((result ≡ Err JsonRefused.NotUtf8) ↔ JsonHoldsOtherBytes json.now) }

        // No bytes are no JSON, and need no memory.
        ensures empty { json.now ≡ [] → result ≡ Err JsonRefused.NotJson }
    {
        let value = json_value_of(alloc, json)?;
        Self::from_json_value(alloc, &value)
    }

    /// The text that a JSON value represents.
    fn from_json_value(alloc: Global, value: &Value) -> Result<Self, JsonRefused>
        requires creator { (c : S.Creator) → S.created c ≡ S.Creator.stored c }
        ensures ok { IfOk result (λ text. JsonRepresents (view value.now) text) }
        ensures err { IfErr result (λ e. IsJsonRefusal (view value.now) e) }
    {
        if let Some(text) = value.as_str() {
            return Self::from_str(alloc, text).map_err(|_| JsonRefused::OutOfMemory);
        }
        let members = value.as_array().ok_or(JsonRefused::NotText)?;
        let bytes = json_bytes::<S::Creator>(alloc, members)?;
        let storage = S::from_creator(bytes).map_err(|_| JsonRefused::OutOfMemory)?;
        Self::from_inner(storage).map_err(|_| JsonRefused::NotUtf8)
    }
}
