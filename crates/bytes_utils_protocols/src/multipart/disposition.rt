//! The parameters of a `Content-Disposition` (RFC 2183, section 2; RFC 2045, section 5.1).
ghost use Rattle.std.specs.Prelude.{◌≡◌, ◌<◌, ◌≤◌, ℕ, List, [], ◌∷◌, length, false, ◌↔◌, IsTrue, IfOk, IfErr, IfSome, IfNone, option_map, string_bytes};
ghost use Rattle.std.specs.List.{prefix_len};
ghost use Rattle.bytes_utils_protocols.specs.Disposition.{BeginsWithSemicolon, DispositionParameter, HasDispositionParameter, IsDispositionStringEnd, ReadsDispositionParameter, TakesDispositionParameter, TakesDispositionSign, TakesDispositionString, TakesDispositionToken, TakesDispositionValue, disposition_quote, is_disposition_separator, is_disposition_token_byte, unescaped_disposition, without_disposition_separators};
ghost use Rattle.bytes_utils_protocols.specs.Headers.{without_header_blanks};

use crate::header::header_blanks_len;
use bytes::Bytes;
use bytes_utils::{Reason, Str};
use std::alloc::Global;

/// A parameter: its name, and its value as it is written, without its quotes.
#[derive(Drop)]
struct Parameter<'t> {
    name: &'t str,
    value: &'t str,
}

/// The value of the parameter of this name in a disposition, without its escapes.
pub(super) fn read_parameter(
    alloc: Global,
    disposition: &Option<String>,
    name: &str,
) -> Result<Option<Str>, Reason>
    ensures ok { IfOk result (λ value. ReadsDispositionParameter name.now
        (option_map string_bytes disposition.now) value) }
    ensures reason { IfErr result (λ reason. reason ≡ Reason.OutOfMemory) }
{
    let Some(text) = disposition else {
        return Ok(None);
    };
    match parameter_of(text.as_str(), name) {
        Some(written) => Ok(Some(unescaped(alloc, written)?)),
        None => Ok(None),
    }
}

/// The value, as it is written, of the parameter of this name, whatever the case of its letters, or
/// `None` if the text is no disposition, or has no such parameter or more than one.
fn parameter_of<'t>(text: &'t str, name: &str) -> Option<&'t str>
    ensures some { IfSome result (λ value. HasDispositionParameter name.now text.now value.now) }
    ensures none { IfNone result
        ((value : List ℕ) → ¬ HasDispositionParameter name.now text.now value) }
{
    let (_, mut rest) = split_token(after_blanks(text))?;
    let mut found = None;
    while !has_only_separators(rest) {
        if !begins_with_semicolon(rest) {
            return None;
        }
        let (parameter, after) = split_parameter(after_separators(rest))?;
        if parameter.name.eq_ignore_ascii_case(name) {
            if found.is_some() {
                return None;
            }
            found = Some(parameter.value);
        }
        rest = after;
    }
    found
}

/// The parameter at the beginning of the text, and what comes after it.
fn split_parameter(text: &str) -> Option<(Parameter<'_>, &str)>
    ensures some { IfSome result (λ x. TakesDispositionParameter text.now
        (record { name = x.0.name.now; value = x.0.value.now }) x.1.now) }
    ensures none { IfNone result ((parameter : DispositionParameter) (rest : List ℕ)
        → ¬ TakesDispositionParameter text.now parameter rest) }
    ensures fewer { IfSome result (λ x. length x.1.now < length text.now) }
{
    let (name, rest) = split_token(text)?;
    let (value, rest) = split_value(after_sign(rest)?)?;
    Some((Parameter { name, value }, rest))
}

/// What comes after an equals sign and the blanks around it, if the text begins with these.
fn after_sign(text: &str) -> Option<&str>
    ensures some { IfSome result (λ rest. TakesDispositionSign text.now rest.now) }
    ensures none { IfNone result ((rest : List ℕ) → ¬ TakesDispositionSign text.now rest) }
    ensures fewer { IfSome result (λ rest. length rest.now ≤ length text.now) }
{
    let after = after_blanks(text).strip_prefix('=')?;
    Some(after_blanks(after))
}

/// The token or the string at the beginning of the text, without its quotes, and what comes after it.
fn split_value(text: &str) -> Option<(&str, &str)>
    ensures some { IfSome result (λ x. TakesDispositionValue text.now x.0.now x.1.now) }
    ensures none { IfNone result ((value rest : List ℕ)
        → ¬ TakesDispositionValue text.now value rest) }
    ensures fewer { IfSome result (λ x. length x.1.now ≤ length text.now) }
{
    match text.strip_prefix('"') {
        Some(quoted) => split_at_quote(quoted),
        None => split_token(text),
    }
}

/// The token at the beginning of the text, and what comes after it.
fn split_token(text: &str) -> Option<(&str, &str)>
    ensures some { IfSome result (λ x. TakesDispositionToken text.now x.0.now x.1.now) }
    ensures none { IfNone result
        ((token rest : List ℕ) → ¬ TakesDispositionToken text.now token rest) }
    ensures fewer { IfSome result (λ x. length x.1.now < length text.now) }
{
    let len = token_len(text.as_bytes());
    if len == 0 {
        return None;
    }
    Some(text.split_at(len))
}

/// What is before the first quote that no backslash escapes, and what comes after that quote.
fn split_at_quote(text: &str) -> Option<(&str, &str)>
    ensures some { IfSome result
        (λ x. TakesDispositionString (disposition_quote ∷ text.now) x.0.now x.1.now) }
    ensures none { IfNone result ((inner rest : List ℕ)
        → ¬ TakesDispositionString (disposition_quote ∷ text.now) inner rest) }
    ensures fewer { IfSome result (λ x. length x.1.now ≤ length text.now) }
{
    let len = quote_place(text.as_bytes())?;
    let (inner, _) = text.split_at(len);
    let (_, rest) = text.split_at(len + 1);
    Some((inner, rest))
}

/// The place of the first quote that no backslash escapes.
fn quote_place(text: &[u8]) -> Option<usize>
    ensures some { IfSome result (λ place. IsDispositionStringEnd text.now place) }
    ensures none { IfNone result ((place : ℕ) → ¬ IsDispositionStringEnd text.now place) }
{
    let mut escaped = false;
    for (place, byte) in text.iter().enumerate() {
        if *byte == b'"' && !escaped {
            return Some(place);
        }
        escaped = !escaped && *byte == b'\\';
    }
    None
}

/// The text without the spaces and tabs at its beginning.
fn after_blanks(text: &str) -> &str
    ensures value { result.now ≡ without_header_blanks text.now }
    ensures fewer { length result.now ≤ length text.now }
{
    let (_, rest) = text.split_at(header_blanks_len(text.as_bytes()));
    rest
}

/// The text without the separators at its beginning.
fn after_separators(text: &str) -> &str
    ensures value { result.now ≡ without_disposition_separators text.now }
    ensures fewer { length result.now ≤ length text.now }
{
    let (_, rest) = text.split_at(separators_len(text.as_bytes()));
    rest
}

/// Whether only separators are left.
fn has_only_separators(text: &str) -> bool
    ensures { IsTrue result ↔ (without_disposition_separators text.now ≡ []) }
{
    after_separators(text).is_empty()
}

/// Whether the first byte that is no blank is a semicolon.
fn begins_with_semicolon(text: &str) -> bool
    ensures { IsTrue result ↔ BeginsWithSemicolon text.now }
{
    after_blanks(text).strip_prefix(';').is_some()
}

/// The number of separators at the beginning.
fn separators_len(text: &[u8]) -> usize
    ensures bound { result ≤ length text.now }
    ensures count { result ≡ prefix_len is_disposition_separator text.now }
{
    text.iter().take_while(|byte| is_separator(**byte)).count()
}

/// Whether the byte is a separator, which may be between parameters.
fn is_separator(byte: u8) -> bool
    ensures { result ≡ is_disposition_separator byte }
{
    matches!(byte, b' ' | b'\t' | b';')
}

/// The number of bytes at the beginning that a token may have.
fn token_len(text: &[u8]) -> usize
    ensures bound { result ≤ length text.now }
    ensures count { result ≡ prefix_len is_disposition_token_byte text.now }
{
    text.iter().take_while(|byte| is_token_byte(**byte)).count()
}

/// Whether a token may have the byte.
fn is_token_byte(byte: u8) -> bool
    ensures { result ≡ is_disposition_token_byte byte }
{
    byte.is_ascii_graphic() && !b"()<>@,;:\\\"/[]?=".contains(&byte)
}

/// A value without the backslashes of its escapes.
fn unescaped(alloc: Global, written: &str) -> Result<Str, Reason>
    ensures ok { IfOk result (λ value. value ≡ unescaped_disposition false written.now) }
    ensures reason { IfErr result (λ reason. reason ≡ Reason.OutOfMemory) }
{
    let bytes = unescaped_bytes(alloc, written.as_bytes())?;
    Ok(Str::from_inner_unchecked(Bytes::from_vec(bytes)?))
}

/// The same, as bytes.
fn unescaped_bytes(alloc: Global, written: &[u8]) -> Result<Vec<u8>, Reason>
    ensures ok { IfOk result (λ bytes. bytes.items ≡ unescaped_disposition false written.now) }
    ensures reason { IfErr result (λ reason. reason ≡ Reason.OutOfMemory) }
{
    let mut bytes = Vec::with_capacity(alloc, written.len())?;
    let mut escaped = false;
    for byte in written {
        if escaped && !matches!(*byte, b'"' | b'\\') {
            bytes.push(b'\\')?;
        }
        escaped = !escaped && *byte == b'\\';
        if !escaped {
            bytes.push(*byte)?;
        }
    }
    Ok(bytes)
}
