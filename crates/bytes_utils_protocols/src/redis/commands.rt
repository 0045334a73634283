//! Commands to a server.
ghost use Rattle.std.specs.Prelude.{◌≡◌, ℕ, ◌+◌, ◌^◌, ◌<◌, ◌≤◌, List, ◌++◌, length, IfOk, IfErr, OnOk};
ghost use Rattle.std.specs.List.{concat};
ghost use Rattle.bytes_utils_protocols.specs.Redis.{TakesRedisReply};
ghost use Rattle.bytes_utils_protocols.specs.RedisCommand.{IsRedisCommandWithin, redis_bulk_bytes, redis_command_bytes, redis_command_items, redis_length_bytes};
ghost use Rattle.bytes_utils_protocols.specs.declared.redis.limits.Limits.{Limits};

use super::line::LINE_END;
use super::pending::SMALL;
use bytes::Bytes;
use bytes_utils::Reason;
use bytes_utils::segmented::{PackedBuf, SegmentedBuf};
use itoa::Buffer;
use std::alloc::Global;

/// Returns the bytes of a command to a server: an array with a bulk string for each word
/// (https://redis.io/docs/latest/develop/reference/protocol-spec/). Those of the words `GET` and `a`
/// are `*2\r\n$3\r\nGET\r\n$1\r\na\r\n`. No words give `*0\r\n`, after which a server sends no reply.
/// A reader of replies whose limits allow them takes the words out again.
///
/// A word of more than 512 bytes is shared, not copied. The others are copied together with the
/// lines, so that a small command is one segment. `write_all_of` writes them.
///
/// Fails with `OutOfMemory` if memory is refused, or with `TooLong`, which comes only if the number
/// of bytes exceeds `usize::MAX`.
pub fn command(alloc: Global, words: &[Bytes]) -> Result<SegmentedBuf<Bytes>, Reason>
    ensures bytes { IfOk result (λ whole. concat whole.segments ≡ redis_command_bytes words.now) }
    ensures reads { IfOk result (λ whole. (limits : Limits) (rest : List ℕ)
        → IsRedisCommandWithin limits words.now
        → TakesRedisReply limits (concat whole.segments ++ rest) (redis_command_items words.now) rest) }
    ensures too_long { IfErr result (λ reason. reason ≡ Reason.TooLong
        → 2 ^ 64 ≤ length (redis_command_bytes words.now)) }
{
    let mut whole = PackedBuf::new(alloc, SMALL);
    push_command_length(&mut whole, alloc, b'*', words.len())?;
    for word in words {
        push_command_word(&mut whole, alloc, word)?;
    }
    Ok(whole.into_shared(alloc)?)
}

/// Appends a word as a bulk string.
fn push_command_word(whole: &mut PackedBuf, alloc: Global, word: &Bytes) -> Result<(), Reason>
    ensures bytes { OnOk result (concat whole.new.held.segments
        ≡ concat whole.old.held.segments ++ redis_bulk_bytes word.now) }
    ensures fits { OnOk result (length (concat whole.new.held.segments) < 2 ^ 64) }
    ensures too_long { IfErr result (λ reason. reason ≡ Reason.TooLong → 2 ^ 64
        ≤ length (concat whole.old.held.segments) + length (redis_bulk_bytes word.now)) }
{
    push_command_length(whole, alloc, b'$', word.len())?;
    push_command_bytes(whole, alloc, word)?;
    whole.push_slice(alloc, LINE_END)
}

/// Appends the bytes of a word.
fn push_command_bytes(whole: &mut PackedBuf, alloc: Global, word: &Bytes) -> Result<(), Reason>
    ensures bytes { OnOk result (concat whole.new.held.segments
        ≡ concat whole.old.held.segments ++ word.now) }
    ensures too_long { IfErr result (λ reason. reason ≡ Reason.TooLong
        → 2 ^ 64 ≤ length (concat whole.old.held.segments) + length word.now) }
{
    // A clone of a short word would be dropped at once.
    if word.len() <= SMALL {
        return whole.push_slice(alloc, word.as_slice());
    }
    Ok(whole.push(alloc, word.clone()?)?)
}

/// Appends the line that begins with `kind` and writes this length.
fn push_command_length(
    whole: &mut PackedBuf,
    alloc: Global,
    kind: u8,
    len: usize,
) -> Result<(), Reason>
    ensures bytes { OnOk result (concat whole.new.held.segments
        ≡ concat whole.old.held.segments ++ redis_length_bytes kind len) }
    ensures fits { OnOk result (length (concat whole.new.held.segments) < 2 ^ 64) }
    ensures too_long { IfErr result (λ reason. reason ≡ Reason.TooLong → 2 ^ 64
        ≤ length (concat whole.old.held.segments) + length (redis_length_bytes kind len)) }
{
    let mut digits = Buffer::new();
    whole.push_slice(alloc, &[kind])?;
    whole.push_slice(alloc, digits.format(len).as_bytes())?;
    whole.push_slice(alloc, LINE_END)
}
