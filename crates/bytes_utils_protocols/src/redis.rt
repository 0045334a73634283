//! The Redis protocol, version 2: commands to a server, and replies, with nested arrays, of a stream
//! that comes in pieces.
ghost use Rattle.std.specs.Prelude.{◌≡◌, ℕ, ◌+◌, ◌^◌, ◌<◌, ◌≤◌, ◌↔◌, List, [], ◌++◌, length, IfOk, IfErr, IfSome, IfNone, IsOk, OnOk, OnErr};
ghost use Rattle.bytes_utils_codec.specs.Pushing.{IsPush};
ghost use Rattle.bytes_utils_protocols.specs.Redis.{AsksForRedisReply, BeginsRedisReply, IsRedisReplyOverLimit, NoRedisReply, TakesRedisReply};

mod commands;
mod item;
mod limits;
mod line;
mod passed;
mod pending;

use bytes::Bytes;
use bytes_utils::{Reason, Refused};
pub use commands::command;
pub use item::Item;
pub use limits::{Limits, ReplyError};
use pending::Pending;
use std::alloc::Global;
use std::marker::Model;

/// A stream that comes in pieces, and the replies in it.
///
/// ```text
/// let limits = Limits { line: 64 << 10, bulk: 512 << 20, items: 1 << 20 };
/// let mut replies = ReplyReader::new(alloc, limits);
/// replies.push(first)?;            // a `Bytes` of `*2\r\n:1\r\n$5\r\nhe`
/// replies.next_reply()?            // `None`
/// replies.push(second)?;           // one of `llo\r\n`
/// replies.next_reply()?            // `Array(Some(2))`, `Integer(1)`, `Bulk(Some(hello))`
/// ```
///
/// Each call goes on where the last one stopped: no byte of an item is read again, but for a carriage
/// return whose line feed is to come. What can't become a reply within the limits is an error as soon
/// as that is certain, so a peer can't send without end.
#[derive(Drop)]
pub struct ReplyReader {
    alloc: Global,
    pending: Pending,
    limits: Limits,
    /// How many bytes were held when a call last returned `None`, or 0 if a reply came since.
    seen: usize,
}

impl Model for ReplyReader {
    ghost use Rattle.std.specs.Prelude.{◌≤◌};
    ghost use Rattle.bytes_utils_protocols.specs.Redis.{RedisReplying};
    ghost use Rattle.bytes_utils_protocols.specs.RedisPending.{IsPending, AreSeen, held_by_pending, most_seen_by_pending};

    ghost Value = { RedisReplying };

    ghost view = { λ r. record {
      held = held_by_pending r.pending;
      limits = r.limits;
      seen = r.seen;
    } };

    ghost invariant = { λ r. IsPending r.limits r.pending
        × AreSeen r.limits (held_by_pending r.pending) r.seen
        × (r.seen ≤ most_seen_by_pending r.pending) };
}

impl ReplyReader {
    /// Makes a reader that holds no bytes.
    pub fn new(alloc: Global, limits: Limits) -> ReplyReader
        ensures { result ≡ record { held = []; limits = limits; seen = 0 } }
    {
        ReplyReader {
            alloc,
            pending: Pending::new(alloc),
            limits,
            seen: 0,
        }
    }

    /// Appends a piece. If it has at most 512 bytes, it is copied; if not, it is shared. Fails with
    /// `TooLong` if the number of held bytes would pass `usize::MAX`, and with `OutOfMemory` if
    /// memory is refused; then nothing has changed and `piece` comes back. An empty piece is never
    /// refused.
    pub fn push(&mut self, piece: Bytes) -> Result<(), Refused<Bytes>>
        ensures pushed { IsPush self.old.held piece result
            (self.new.held ≡ self.old.held ++ piece) (self.new ≡ self.old) }
        ensures limits { self.new.limits ≡ self.old.limits }
        ensures seen { self.new.seen ≡ self.old.seen }
    {
        self.pending.push(self.alloc, piece)
    }

    /// Appends a copy of `piece`, in a block that it shares with other small pieces: for a caller
    /// that reads into a buffer of its own. Fails as `push` does; then nothing has changed.
    pub fn push_slice(&mut self, piece: &[u8]) -> Result<(), Reason>
        ensures ok { OnOk result (self.new.held ≡ self.old.held ++ piece.now) }
        ensures err { OnErr result (self.new ≡ self.old) }
        ensures too_long { IfErr result (λ reason. (reason ≡ Reason.TooLong)
            ↔ (2 ^ 64 ≤ length self.old.held + length piece.now)) }
        ensures empty { piece.now ≡ [] → IsOk result }
        ensures limits { self.new.limits ≡ self.old.limits }
        ensures seen { self.new.seen ≡ self.old.seen }
    {
        self.pending.push_slice(self.alloc, piece)
    }

    /// Returns the number of held bytes: those that came after the replies that were returned. Bytes of
    /// items that were read count too.
    pub fn remaining(&self) -> usize
        ensures { result ≡ length self.now.held }
    {
        self.pending.len()
    }

    /// Returns the next reply, as its items in order, or `None` while the held bytes are only a
    /// beginning of one within the limits. A bulk item in one piece of more than 512 bytes is
    /// shared. Fails with `Malformed` only if they begin with no reply, whatever comes after them,
    /// with `TooLarge` only if a limit is passed, so that they begin with none within the limits, and
    /// with `Refused` if memory is refused; then nothing has changed. Memory is asked for only to look
    /// at a line of an item that is due, of two bytes or more and within its limit, or to keep such an
    /// item once it is whole, and only if bytes of that line or item have come since the last call that
    /// returned `None`.
    pub fn next_reply(&mut self) -> Result<Option<Vec<Item>>, ReplyError>
        ensures reply { IfOk result (λ next. IfSome next (λ items.
            TakesRedisReply self.old.limits self.old.held items.items self.new.held)) }
        ensures fewer { IfOk result (λ next. IfSome next (λ _.
            length self.new.held < length self.old.held)) }
        ensures seen { IfOk result (λ next. IfSome next (λ _. self.new.seen ≡ 0)) }
        ensures waits { IfOk result (λ next. IfNone next
            ((self.new ≡ record self.old { seen = length self.old.held })
            × NoRedisReply self.old.limits self.old.held)) }
        ensures begins { IfOk result (λ next. IfNone next
            (BeginsRedisReply self.old.limits self.old.held)) }
        ensures err { OnErr result (self.new ≡ self.old) }
        ensures malformed { IfErr result (λ e. e ≡ ReplyError.Malformed
            → (limits : Limits) (more : List ℕ) → NoRedisReply limits (self.old.held ++ more)) }
        ensures too_large { IfErr result (λ e. e ≡ ReplyError.TooLarge
            → (more : List ℕ) → NoRedisReply self.old.limits (self.old.held ++ more)) }
        ensures over { IfErr result (λ e. e ≡ ReplyError.TooLarge
            → IsRedisReplyOverLimit self.old.limits self.old.held) }
        ensures reason { IfErr result (λ e. (reason : _) → e ≡ ReplyError.Refused reason
            → reason ≡ Reason.OutOfMemory) }
        ensures asks { IfErr result (λ e. (reason : _) → e ≡ ReplyError.Refused reason
            → AsksForRedisReply self.old.limits self.old.held self.old.seen) }
        ensures limits { self.new.limits ≡ self.old.limits }
    {
        if self.limits.items == 0 {
            return Err(ReplyError::TooLarge);
        }
        let held = self.pending.len();
        if self.seen > 0 && self.seen == held {
            return Ok(None);
        }
        if !self.pending.read(self.alloc, self.limits)? {
            self.seen = held;
            return Ok(None);
        }
        self.seen = 0;
        Ok(Some(self.pending.take(self.alloc)))
    }
}
