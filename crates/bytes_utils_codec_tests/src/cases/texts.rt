//! Rows of calls of a reader of texts. They begin with the kind of the reader, `strict` or `lossy`, and the bytes of a
//! block, shares of which are pushed: `strict café: push 0 4, next caf, next none`.
//!
//! | call | |
//! |---|---|
//! | `push 0 4` | pushes the bytes of the block from place 0 to place 4 |
//! | `next ab`, `next none` | the next item is this text, or there is none; `last` alike, at the end of the stream |
//! | `next fault ~` | the next item is an error that has these bytes |
//! | `remaining 2` | two bytes are held |
//! | `finish ab` | what was held comes back |
mod cut;
mod memory;

use super::fixtures::assert_row;
use super::fixtures::rows::{CalledByRow, Refusal, is_row_right, named_row_call};
use super::fixtures::signs::{
    are_parts_of_signs, is_block_of_signs, is_number_of_signs, meant_by_signs,
};
use bytes::Bytes;
use bytes_utils::string::{Str, Utf8Error};
use bytes_utils::{Reason, Refused};
use bytes_utils_codec::texts::Texts;
use std::alloc::Global;
use std::io::Print;
use std::mem;
use std::process::Abort;

/// A reader on which calls are made, with the block that it shares.
#[derive(Drop)]
struct TextsRun<'a> {
    alloc: Global,
    texts: Texts,
    block: &'a Bytes,
}

/// A reader of a kind.
fn texts_of_kind(alloc: Global, kind: &str) -> Texts {
    match kind {
        "lossy" => Texts::new(alloc).lossy(),
        _ => Texts::new(alloc),
    }
}

/// Whether an error has the wanted bytes, and so are the owners of their block.
fn is_fault_of_texts(fault: Utf8Error<Bytes>, want: &str) -> bool {
    let bytes = fault.into_inner();
    match want.strip_prefix("fault ") {
        Some(want) => is_block_of_signs(&bytes, want),
        None => false,
    }
}

/// Whether an item is as wanted, and so are the owners of its block. Fails if the call was refused.
fn is_item_of_texts(
    name: &'static str,
    item: Result<Option<Result<Str, Utf8Error<Bytes>>>, Reason>,
    want: &str,
) -> Result<bool, Refusal> {
    match item {
        Ok(Some(Ok(text))) => Ok(is_block_of_signs(text.inner(), want)),
        Ok(Some(Err(fault))) => Ok(is_fault_of_texts(fault, want)),
        Ok(None) => Ok(want == "none"),
        Err(reason) => named_row_call("Texts::", name, Err(reason)),
    }
}

/// Whether a piece of this length was pushed. If the call was refused, the piece came back.
fn is_pushed_to_texts(pushed: &Result<(), Refused<Bytes>>, len: usize) -> Result<bool, Refusal> {
    match pushed {
        Ok(()) => Ok(true),
        Err(refused) if refused.back.len() == len => {
            named_row_call("Texts::", "push", Err(refused.reason))
        }
        Err(_) => Ok(false),
    }
}

impl TextsRun<'_> {
    /// Pushes the bytes of the block from one place to another.
    fn push(&mut self, places: &str) -> Result<bool, Refusal> {
        let (from, to) = places.split_once(' ').unwrap_or((places, ""));
        let (from, to) = (from.parse().unwrap_or(0), to.parse().unwrap_or(0_usize));
        if to < from || self.block.len() < to {
            return Ok(false);
        }
        match self.block.slice(from..to) {
            Ok(piece) => is_pushed_to_texts(&self.texts.push(piece), to - from),
            Err(_) => Ok(false),
        }
    }

    /// Takes back what is held.
    fn finish(&mut self, want: &str) -> bool {
        let texts = mem::replace(&mut self.texts, Texts::new(self.alloc));
        are_parts_of_signs(texts.finish(), want)
    }
}

impl CalledByRow for TextsRun<'_> {
    fn make(&mut self, call: &str) -> Result<bool, Refusal> {
        let (name, rest) = call.split_once(' ').unwrap_or((call, ""));
        match name {
            "push" => self.push(rest),
            "next" => is_item_of_texts("next_item", self.texts.next_item(), rest),
            "last" => is_item_of_texts("last_item", self.texts.last_item(), rest),
            "remaining" => Ok(is_number_of_signs(rest, self.texts.remaining())),
            "finish" => Ok(self.finish(rest)),
            _ => Ok(false),
        }
    }

    fn bytes(&self) -> usize {
        self.texts.remaining()
    }
}

/// Whether calls are right of a new reader of a kind, with this block.
fn is_texts_row_right<R: Abort + Print + AllocGlobal>(
    rt: &R,
    kind: &str,
    block: &Bytes,
    calls: &str,
) -> bool {
    let mut run = TextsRun {
        alloc: rt.alloc(),
        texts: texts_of_kind(rt.alloc(), kind),
        block,
    };
    is_row_right(rt, &mut run, calls)
}

/// Items share the blocks of their pieces. A character that is cut, or a fault, is a copy.
const ROWS: &str = "\
strict café_au: push 0 4, next &caf, remaining 1, next none, \
    push 4 8, next *é, next &_au, last none, finish #0 in 0
strict ~ab: push 0 3, next fault &~, next ab, next none, last none
strict a{}b: push 0 2, next a, next none, push 2 4, next fault *{}, next &b
strict {}: push 0 2, next none, finish {} in 1
strict {}: push 0 2, next none, last fault &{}, last none, remaining 0
lossy café_~au: push 0 4, push 4 9, next &caf, next *é, next &_, next &\u{fffd}, next &au
lossy {}: push 0 2, next none, last \u{fffd}, last none, remaining 0
";

/// In the end nothing shares the block.
#[test]
fn texts_share_their_pieces(rt: HostRuntime) {
    for row in ROWS.lines() {
        let (bytes, calls) = row.split_once(": ").unwrap_or((row, ""));
        let (kind, bytes) = bytes.split_once(' ').unwrap_or((bytes, ""));
        let block = Bytes::copy_from_slice(rt.alloc(), meant_by_signs(bytes).as_slice());
        let block = block.expect(&rt, "no memory");
        let holds = is_texts_row_right(&rt, kind, &block, calls) && block.is_unique();
        assert_row(&rt, row, holds);
    }
}
