//! What was read of a reply whose end is to come.
ghost use Rattle.std.specs.Prelude.{◌≡◌, ◌≢◌, ℕ, ◌+◌, ◌-◌, ◌^◌, ◌<◌, ◌≤◌, List, [], ◌∷◌, ◌++◌, length, take, drop, IfOk, IfErr, IfSome, IfNone, IsOk, IsTrue, OnOk, OnErr, ◌↔◌};
ghost use Rattle.std.specs.List.{concat};
ghost use Rattle.std.specs.Bool.{OnFalse, OnTrue};
ghost use Rattle.bytes_utils_codec.specs.Cursor.{unread};
ghost use Rattle.bytes_utils_codec.specs.Pushing.{IsPush};
ghost use Rattle.bytes_utils_protocols.specs.Redis.{BeginsRedisBody, BeginsRedisReply, HasNoRedisBody, IsRedisLineOf, IsRedisReplyOverLimit, IsRedisTextLine, NoRedisReply, after_redis_line, redis_body, redis_items_in, redis_line_end};
ghost use Rattle.bytes_utils_protocols.specs.RedisLine.{RedisLineEndsAt, IsRedisLineReadTo, NoLineReturn, NoLineEnds};
ghost use Rattle.bytes_utils_protocols.specs.RedisPending.{AsksForPending, AwaitsPendingBody, FindsPendingHead, FindsPendingItem, IsPendingNext, IsPending, held_by_pending, most_seen_by_pending, most_seen_of_next, unread_by_pending};

use super::item::{Item, redis_items_in};
use super::limits::{Limits, ReplyError};
use super::line::{BegunLine, LINE_END, Line, LineHead};
use super::passed::Passed;
use bytes::{Buf, Bytes};
use bytes_utils::contiguous::ContiguousBuf;
use bytes_utils::segmented::PackedBuf;
use bytes_utils::{Reason, Refused};
use bytes_utils_codec::cursor::{Cursor, Mismatch};
use bytes_utils_codec::find::find_from;
use std::alloc::Global;
use std::mem::replace;

/// Pieces of at most this many bytes are copied together.
pub(super) const SMALL: usize = 512;

/// What was read of the next item. Its bytes are held until all have come.
#[derive(Clone, Copy, Debug)]
pub(super) enum Next {
    /// A beginning of its line.
    InLine(BegunLine),
    /// The line of a bulk item: where its bytes begin, and how many they are.
    InBody(usize, usize),
}

/// What has come of the end of a line.
#[derive(Clone, Copy, Debug)]
enum LineEnd {
    Missing,
    /// A carriage return.
    Half,
    Here,
}

/// What was read of a reply: its first items. Their bytes were let go.
#[derive(Drop)]
pub(super) struct Pending {
    pub(super) pieces: PackedBuf,
    pub(super) passed: Passed,
    pub(super) items: Vec<Item>,
    pub(super) due: usize,
    pub(super) next: Next,
}

impl Pending {
    /// Nothing was read, and no bytes are held.
    pub(super) fn new(alloc: Global) -> Pending
        ensures pending { (limits : Limits) → IsPending limits result }
        ensures held { held_by_pending result ≡ [] }
    {
        Pending {
            pieces: PackedBuf::new(alloc, SMALL),
            passed: Passed::none(),
            items: Vec::new(alloc),
            due: 1,
            next: pending_at_line(),
        }
    }

    /// Appends a piece, as `PackedBuf` does.
    pub(super) fn push(&mut self, alloc: Global, piece: Bytes) -> Result<(), Refused<Bytes>>
        requires { length (held_by_pending self.old) < 2 ^ 64 }
        ensures pending { (limits : Limits) → IsPending limits self.old → IsPending limits self.new }
        ensures pushed { IsPush (held_by_pending self.old) piece result
            (held_by_pending self.new ≡ held_by_pending self.old ++ piece) (self.new ≡ self.old) }
        ensures seen { most_seen_by_pending self.new ≡ most_seen_by_pending self.old }
    {
        if !self.fits(piece.len()) {
            return Err(Refused {
                reason: Reason::TooLong,
                back: piece,
            });
        }
        self.pieces.push(alloc, piece)
    }

    /// Appends a copy of `piece`, as `PackedBuf` does.
    pub(super) fn push_slice(&mut self, alloc: Global, piece: &[u8]) -> Result<(), Reason>
        requires { length (held_by_pending self.old) < 2 ^ 64 }
        ensures pending { (limits : Limits) → IsPending limits self.old → IsPending limits self.new }
        ensures ok { OnOk result (held_by_pending self.new ≡ held_by_pending self.old ++ piece.now) }
        ensures err { OnErr result (self.new ≡ self.old) }
        ensures too_long { IfErr result (λ reason. (reason ≡ Reason.TooLong)
            ↔ (2 ^ 64 ≤ length (held_by_pending self.old) + length piece.now)) }
        ensures empty { piece.now ≡ [] → IsOk result }
        ensures seen { most_seen_by_pending self.new ≡ most_seen_by_pending self.old }
    {
        if !self.fits(piece.len()) {
            return Err(Reason::TooLong);
        }
        self.pieces.push_slice(alloc, piece)
    }

    /// The number of held bytes.
    pub(super) fn len(&self) -> usize
        requires { length (held_by_pending self.now) < 2 ^ 64 }
        ensures { result ≡ length (held_by_pending self.now) }
    {
        self.passed.len() + self.pieces.remaining()
    }

    /// Whether the number of held bytes and `len` is a `usize`.
    fn fits(&self, len: usize) -> bool
        requires { length (held_by_pending self.now) < 2 ^ 64 }
        ensures { IsTrue result ↔ (length (held_by_pending self.now) + len < 2 ^ 64) }
    {
        len <= usize::MAX - self.passed.len() - self.pieces.remaining()
    }

    /// Reads the items that have come, and returns whether the reply is whole.
    pub(super) fn read(&mut self, alloc: Global, limits: Limits) -> Result<bool, ReplyError>
        requires pending { IsPending limits self.old }
        requires some { 0 < limits.items }
        ensures pending { IsPending limits self.new }
        ensures held { held_by_pending self.new ≡ held_by_pending self.old }
        ensures whole { IfOk result (λ whole. OnTrue whole (self.new.due ≡ 0)) }
        ensures waits { IfOk result (λ whole. OnFalse whole (NoRedisReply limits (held_by_pending self.old))) }
        ensures begins { IfOk result (λ whole. OnFalse whole (BeginsRedisReply limits (held_by_pending self.old))) }
        ensures malformed { IfErr result (λ e. e ≡ ReplyError.Malformed
            → (any : Limits) (more : List ℕ) → NoRedisReply any (held_by_pending self.old ++ more)) }
        ensures too_large { IfErr result (λ e. e ≡ ReplyError.TooLarge
            → IsRedisReplyOverLimit limits (held_by_pending self.old)) }
        ensures reason { IfErr result (λ e. (reason : _) → e ≡ ReplyError.Refused reason
            → reason ≡ Reason.OutOfMemory) }
        ensures asks { IfErr result (λ e. (reason : _) → e ≡ ReplyError.Refused reason
            → AsksForPending limits self.new (most_seen_by_pending self.old)) }
        ensures further { most_seen_by_pending self.old ≤ most_seen_by_pending self.new }
        ensures seen { IfOk result (λ whole. OnFalse whole
            (length (held_by_pending self.old) ≤ most_seen_by_pending self.new)) }
    {
        while self.due > 0 {
            let room = limits.items - self.items.len() - self.due; // for the items of the next one
            let Some((item, len)) = next_pending_item(
                &self.pieces,
                &mut self.next,
                alloc,
                limits,
                room,
            )?
            else {
                return Ok(false);
            };
            self.keep(item, len)?;
        }
        Ok(true)
    }

    /// Keeps the next item, and lets go of its `len` bytes.
    fn keep(&mut self, item: Item, len: usize) -> Result<(), Reason>
        requires within { len ≤ length (unread_by_pending self.old) }
        requires fits { length (held_by_pending self.old) < 2 ^ 64 }
        requires due { 0 < self.old.due }
        requires few { (self.old.due - 1) + redis_items_in item < 2 ^ 64 }
        ensures items { OnOk result (self.new.items.items ≡ self.old.items.items ++ item ∷ []) }
        ensures due { OnOk result (self.new.due ≡ (self.old.due - 1) + redis_items_in item) }
        ensures unread { OnOk result (unread_by_pending self.new ≡ drop len (unread_by_pending self.old)) }
        ensures held { held_by_pending self.new ≡ held_by_pending self.old }
        ensures next { OnOk result ((limits : Limits) → IsPendingNext limits (unread_by_pending self.new) self.new.next) }
        ensures passed { OnOk result (length self.old.passed + len ≤ most_seen_by_pending self.new) }
        ensures err { OnErr result
            ((limits : Limits) → IsPending limits self.old → IsPending limits self.new) }
        ensures stays { OnErr result (self.new ≡ record self.old { items = self.new.items }) }
        ensures reason { IfErr result (λ reason. reason ≡ Reason.OutOfMemory) }
    {
        let of_its_own = redis_items_in(&item);
        self.items.push(item)?;
        self.due = self.due - 1 + of_its_own;
        self.passed.add(len, &self.pieces);
        self.pieces.advance(len);
        self.next = pending_at_line();
        Ok(())
    }

    /// Takes the items of a whole reply.
    pub(super) fn take(&mut self, alloc: Global) -> Vec<Item>
        requires { length (unread_by_pending self.old) < 2 ^ 64 }
        ensures items { result.items ≡ self.old.items.items }
        ensures pending { (limits : Limits) → IsPending limits self.new }
        ensures held { held_by_pending self.new ≡ unread_by_pending self.old }
    {
        self.passed = Passed::none();
        self.due = 1;
        self.next = pending_at_line();
        replace(&mut self.items, Vec::new(alloc))
    }
}

/// No byte of the next item was read.
fn pending_at_line() -> Next
    ensures { (limits : Limits) (bytes : List ℕ) → IsPendingNext limits bytes result }
{
    Next::InLine(BegunLine {
        len: 0,
        line: Line::Empty,
    })
}

/// The next item, of an array its line alone, and its number of bytes. It may have at most `room`
/// items of its own.
fn next_pending_item(
    pieces: &PackedBuf,
    next: &mut Next,
    alloc: Global,
    limits: Limits,
    room: usize,
) -> Result<Option<(Item, usize)>, ReplyError>
    requires next { IsPendingNext limits (concat pieces.now.held.segments) next.old }
    requires fits { length (concat pieces.now.held.segments) < 2 ^ 64 }
    ensures next { IsPendingNext limits (concat pieces.now.held.segments) next.new }
    ensures found { FindsPendingItem limits room (concat pieces.now.held.segments)
        (most_seen_of_next next.old) result }
    ensures further { most_seen_of_next next.old ≤ most_seen_of_next next.new }
    ensures passed { IfOk result (λ found. IfSome found (λ read. most_seen_of_next next.old < read.1)) }
    ensures seen { IfOk result (λ found. IfNone found
        (length (concat pieces.now.held.segments) ≤ most_seen_of_next next.new)) }
{
    let mut begun = match *next {
        Next::InLine(begun) => begun,
        Next::InBody(start, len) => return pending_bulk(pieces, alloc, start, len),
    };
    let head = read_pending_line(pieces, &mut begun, alloc, limits, room)?;
    *next = Next::InLine(begun);
    let Some(head) = head else {
        return Ok(None);
    };
    let start = begun.len + LINE_END.len();
    match head {
        LineHead::Whole(item) => Ok(Some((item, start))),
        LineHead::Plain => Ok(Some((pending_text(pieces, alloc, begun.len)?, start))),
        LineHead::Body(len) => {
            *next = Next::InBody(start, len);
            pending_bulk(pieces, alloc, start, len)
        }
    }
}

/// What the line reports, if it is whole. Reads the bytes of it that weren't read yet.
fn read_pending_line(
    pieces: &PackedBuf,
    begun: &mut BegunLine,
    alloc: Global,
    limits: Limits,
    room: usize,
) -> Result<Option<LineHead>, ReplyError>
    requires { IsRedisLineReadTo (concat pieces.now.held.segments) begun.old }
    ensures read { IsRedisLineReadTo (concat pieces.now.held.segments) begun.new }
    ensures head { FindsPendingHead limits room (concat pieces.now.held.segments) (begun.old.len + 1)
        result begun.new.len }
    ensures further { begun.old.len ≤ begun.new.len }
    ensures seen { IfOk result (λ head. IfNone head
        (length (concat pieces.now.held.segments) ≤ begun.new.len + 1)) }
{
    let (len, end) = end_of_pending_line(pieces, begun.len);
    if len > limits.line {
        return Err(ReplyError::TooLarge);
    }
    *begun = read_pending_to(pieces, *begun, alloc, len)?;
    match end {
        LineEnd::Missing => {
            begun.check(false, limits, room)?;
            Ok(None)
        }
        LineEnd::Half => {
            begun.check(true, limits, room)?;
            Ok(None)
        }
        LineEnd::Here => begun.check(true, limits, room),
    }
}

/// Reads the line on, up to its first `len` bytes.
fn read_pending_to(
    pieces: &PackedBuf,
    begun: BegunLine,
    alloc: Global,
    len: usize,
) -> Result<BegunLine, ReplyError>
    requires begun { IsRedisLineReadTo (concat pieces.now.held.segments) begun }
    requires further { begun.len ≤ len }
    requires within { len ≤ length (concat pieces.now.held.segments) }
    ensures read { IfOk result
        (λ next. (next.len ≡ len) × IsRedisLineReadTo (concat pieces.now.held.segments) next) }
    ensures malformed { IfErr result (λ e. e ≡ ReplyError.Malformed → (item : Item) (more : List ℕ)
        → ¬ IsRedisLineOf item (take len (concat pieces.now.held.segments) ++ more)) }
    ensures too_large { IfErr result (λ e. e ≢ ReplyError.TooLarge) }
    ensures reason { IfErr result (λ e. (reason : _) → e ≡ ReplyError.Refused reason
        → reason ≡ Reason.OutOfMemory) }
    ensures due { IfErr result (λ e. (reason : _) → e ≡ ReplyError.Refused reason
        → begun.len + 1 < len) }
{
    let bytes = pieces.as_segmented().read_range(alloc, begun.len..len)?;
    match begun.line.read(&bytes) {
        Some(line) => Ok(BegunLine { len, line }),
        None => Err(ReplyError::Malformed),
    }
}

/// How many bytes of the line have come, of which `read` are no end of a line, and what of its end.
fn end_of_pending_line(pieces: &PackedBuf, read: usize) -> (usize, LineEnd)
    requires within { read ≤ length (concat pieces.now.held.segments) }
    requires none { NoLineReturn (take read (concat pieces.now.held.segments)) }
    ensures within { (read ≤ result.0) × (result.0 ≤ length (concat pieces.now.held.segments)) }
    ensures none { (more : List ℕ) → NoLineEnds result.0 (concat pieces.now.held.segments ++ more) }
    ensures end { RedisLineEndsAt result.1 result.0 (concat pieces.now.held.segments) }
{
    if let Some(len) = find_from(pieces.as_segmented(), read, LINE_END) {
        return (len, LineEnd::Here);
    }
    let all = pieces.remaining();
    if all > read && pieces.as_segmented().byte_at(all - 1) == Some(b'\r') {
        return (all - 1, LineEnd::Half);
    }
    (all, LineEnd::Missing)
}

/// The text or the error whose line has `len` bytes.
fn pending_text(pieces: &PackedBuf, alloc: Global, len: usize) -> Result<Item, Reason>
    requires line { IsRedisTextLine (take len (concat pieces.now.held.segments)) }
    requires within { len ≤ length (concat pieces.now.held.segments) }
    ensures item { IfOk result (λ item.
        IsRedisLineOf item (take len (concat pieces.now.held.segments))
        × (after_redis_line item ≡ []) × (redis_body item ≡ []) × (redis_items_in item ≡ 0)) }
    ensures reason { IfErr result (λ reason. reason ≡ Reason.OutOfMemory) }
{
    let bytes = pieces.as_segmented().copy_range(alloc, 1..len)?;
    if pieces.as_segmented().byte_at(0) == Some(b'+') {
        return Ok(Item::Simple(bytes));
    }
    Ok(Item::Error(bytes))
}

/// The bulk item of `len` bytes, which begin at `start`. They are copied only once their end is there.
fn pending_bulk(
    pieces: &PackedBuf,
    alloc: Global,
    start: usize,
    len: usize,
) -> Result<Option<(Item, usize)>, ReplyError>
    requires { start ≤ length (concat pieces.now.held.segments) }
    ensures found { (limits : Limits) (room seen : ℕ) → seen ≤ start + len + 1
        → AwaitsPendingBody limits (concat pieces.now.held.segments) start len
        → FindsPendingItem limits room (concat pieces.now.held.segments) seen result }
    ensures passed { IfOk result (λ found. IfSome found (λ read. start + len + 1 < read.1)) }
    ensures seen { IfOk result (λ found. IfNone found
        (length (concat pieces.now.held.segments) ≤ start + len + 1)) }
{
    let mut cursor = Cursor::new(alloc, pieces.as_segmented());
    cursor.advance(start);
    if !pass_pending_body(&mut cursor, len)? {
        return Ok(None);
    }
    let bytes = pieces.as_segmented().copy_range(alloc, start..start + len)?;
    Ok(Some((Item::Bulk(Some(bytes)), cursor.at())))
}

/// Passes the `len` bytes of a bulk item and the end of a line, and returns whether all have come.
fn pass_pending_body<B: ContiguousBuf + Drop>(
    cursor: &mut Cursor<'_, B>,
    len: usize,
) -> Result<bool, ReplyError>
    ensures body { IfOk result (λ whole. OnTrue whole
        (unread cursor.old ≡ take len (unread cursor.old) ++ (redis_line_end ++ unread cursor.new))) }
    ensures len { IfOk result (λ whole. OnTrue whole (len ≤ length (unread cursor.old))) }
    ensures segments { cursor.new.segments ≡ cursor.old.segments }
    ensures waits { IfOk result (λ whole. OnFalse whole (HasNoRedisBody len (unread cursor.old))) }
    ensures few { IfOk result (λ whole. OnFalse whole (length (unread cursor.old) ≤ len + 1)) }
    ensures begins { IfOk result (λ whole. OnFalse whole (BeginsRedisBody len (unread cursor.old))) }
    ensures malformed { IfErr result (λ _. (more : List ℕ) → HasNoRedisBody len (unread cursor.old ++ more)) }
    ensures err { IfErr result (λ e. e ≡ ReplyError.Malformed) }
{
    if cursor.remaining() <= len {
        return Ok(false);
    }
    cursor.advance(len);
    match cursor.tag(LINE_END) {
        Ok(Some(())) => Ok(true),
        Ok(None) => Ok(false),
        Err(Mismatch) => Err(ReplyError::Malformed),
    }
}
