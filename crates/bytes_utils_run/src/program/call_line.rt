//! Lines of the input that ask for calls on a buffer.
ghost use Rattle.std.specs.Prelude.{◌≡◌, ◌⊎◌, ℕ, List, MatchOption, IfOk, IfErr, IsErrOf};
ghost use Rattle.std.specs.Str.{chars};
ghost use Rattle.bytes_utils.specs.Lines.{lines};
ghost use Rattle.bytes_utils_run.specs.CallLine.{AreCallLines, IsCallLine, IsNumberedCallLine};
ghost use Rattle.bytes_utils_run.specs.declared.calls.call.Call.{Call as Asked};
ghost use Rattle.bytes_utils_run.specs.declared.calls.call.Call.TheVariants.{Push as Pushing, Segments as Counting, Read as Reading};
ghost use Rattle.bytes_utils_run.specs.declared.calls.call.ReadCall.{ReadCall as AskedRead};
ghost use Rattle.bytes_utils_run.specs.declared.calls.call.ReadCall.TheVariants.{Advance as Advancing, CopyOut as Copying, Chunks as Showing};

use crate::program::Fault;
use crate::program::word::{is_word, rest_after_word, word_number};
use crate::{Call, ReadCall};
use bytes::Bytes;
use bytes_utils::Str;
use std::alloc::Global;

/// Reads a word and the number after it.
fn call_line_number(line: &str, word: &str) -> Option<usize>
    ensures { MatchOption result ((n : ℕ) → ¬ IsNumberedCallLine (chars word.now) n (chars line.now))
        (λ n. IsNumberedCallLine (chars word.now) n (chars line.now)) }
{
    word_number(rest_after_word(line, word)?)
}

/// Reads a call that is a word alone.
#[tactic(auto, using(crate::proofs::CommandLemmas::chars_word))]
fn word_call_line(line: &str) -> Option<Call<Bytes>>
    ensures { MatchOption result
        ((¬ IsCallLine Counting (chars line.now))
        × (¬ IsCallLine (Reading AskedRead.Remaining) (chars line.now))
        × (¬ IsCallLine (Reading AskedRead.Chunk) (chars line.now)))
        (λ call. IsCallLine call (chars line.now)) }
{
    if is_word(line, "segments") {
        return Some(Call::Segments);
    }
    if is_word(line, "remaining") {
        return Some(Call::Read(ReadCall::Remaining));
    }
    if is_word(line, "chunk") {
        return Some(Call::Read(ReadCall::Chunk));
    }
    None
}

/// Reads a call that is a word and a number.
#[tactic(auto, using(crate::proofs::CommandLemmas::chars_word))]
fn call_line_with_number(line: &str) -> Option<Call<Bytes>>
    ensures { MatchOption result
        ((n : ℕ) → (¬ IsCallLine (Reading (Advancing n)) (chars line.now))
        × (¬ IsCallLine (Reading (Copying n)) (chars line.now))
        × (¬ IsCallLine (Reading (Showing n)) (chars line.now)))
        (λ call. IsCallLine call (chars line.now)) }
{
    if let Some(cnt) = call_line_number(line, "advance ") {
        return Some(Call::Read(ReadCall::Advance(cnt)));
    }
    if let Some(len) = call_line_number(line, "copy ") {
        return Some(Call::Read(ReadCall::CopyOut(len)));
    }
    if let Some(places) = call_line_number(line, "chunks ") {
        return Some(Call::Read(ReadCall::Chunks(places)));
    }
    None
}

/// Reads the bytes to push: all of the line after the word and its space.
fn pushed_by_call_line(line: Str) -> Result<Bytes, Fault>
    ensures ok { IfOk result (λ bytes. IsCallLine (Pushing bytes) (chars line)) }
    ensures unknown { IsErrOf result Fault.UnknownCommand
        → (bytes : List ℕ) → ¬ IsCallLine (Pushing bytes) (chars line) }
    ensures fault { IfErr result
        (λ fault. (fault ≡ Fault.UnknownCommand) ⊎ (fault ≡ Fault.OutOfMemory)) }
{
    let Some(text) = line.strip_prefix_bytes("push ")? else {
        return Err(Fault::UnknownCommand);
    };
    Ok(text.into_inner())
}

/// Reads the call that a line asks for.
fn call_of_line(line: Str) -> Result<Call<Bytes>, Fault>
    ensures ok { IfOk result (λ call. IsCallLine call (chars line)) }
    ensures unknown { IsErrOf result Fault.UnknownCommand
        → (call : Asked (List ℕ)) → ¬ IsCallLine call (chars line) }
    ensures fault { IfErr result
        (λ fault. (fault ≡ Fault.UnknownCommand) ⊎ (fault ≡ Fault.OutOfMemory)) }
{
    if let Some(call) = word_call_line(line.as_str()) {
        return Ok(call);
    }
    if let Some(call) = call_line_with_number(line.as_str()) {
        return Ok(call);
    }
    Ok(Call::Push(pushed_by_call_line(line)?))
}

/// Reads the calls that the lines of a text ask for, in order.
pub(super) fn calls_of_lines(alloc: Global, text: Str) -> Result<Vec<Call<Bytes>>, Fault>
    ensures ok { IfOk result (λ calls. AreCallLines calls.items (lines (chars text))) }
    ensures unknown { IsErrOf result Fault.UnknownCommand
        → (calls : List (Asked (List ℕ))) → ¬ AreCallLines calls (lines (chars text)) }
    ensures fault { IfErr result
        (λ fault. (fault ≡ Fault.UnknownCommand) ⊎ (fault ≡ Fault.OutOfMemory)) }
{
    let mut calls = Vec::new(alloc);
    for line in text.lines_bytes() {
        let Ok(line) = line else {
            return Err(Fault::OutOfMemory);
        };
        let call = call_of_line(line)?;
        let Ok(()) = calls.push(call) else {
            return Err(Fault::OutOfMemory);
        };
    }
    Ok(calls)
}
