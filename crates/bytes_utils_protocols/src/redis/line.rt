//! Lines of replies, which are read as their bytes come.
ghost use Rattle.std.specs.Prelude.{◌≡◌, ℕ, ◌↔◌, ◌<◌, ◌≤◌, List, [], ◌∷◌, ◌++◌, length, true, false, FitsSigned, IsTrue, IfOk, IfErr, IfSome, IfNone, MatchOption};
ghost use Rattle.std.specs.Int.{w64};
ghost use Rattle.std.specs.Bool.{MatchBool};
ghost use Rattle.bytes_utils_protocols.specs.Redis.{IsRedisLineOf, IsRedisLineOverLimit, LacksRedisByte};
ghost use Rattle.bytes_utils_protocols.specs.RedisLine.{AreLineDigits, IsRedisLineHeadOf, IsRedisLineHeadWithin, IsRedisLineReadAs, ReadsOnRedisLine, LineReports, signed_line_number};
ghost use Rattle.bytes_utils_protocols.specs.Digits.{WriteNumber};

use super::item::{Item, redis_items_in};
use super::limits::{Limits, ReplyError};

/// What ends each line.
pub(super) const LINE_END: &[u8] = b"\r\n";

/// The sign of an integer.
#[derive(Clone, Copy, Debug)]
pub(super) enum Sign {
    Unsigned,
    Plus,
    Minus,
}

/// What a length counts: the bytes of a bulk item, or the items of an array.
#[derive(Clone, Copy, Debug)]
pub(super) enum Counted {
    Bytes,
    Items,
}

/// What was read of a line.
#[derive(Clone, Copy, Debug)]
pub(super) enum Line {
    /// No byte.
    Empty,
    /// The first byte of a text or of an error, and bytes of it.
    Text,
    /// The first byte of an integer, its sign, and the number that its digits write.
    Signed(Sign, Option<usize>),
    /// The first byte of a bulk item or of an array, and the number that its digits write.
    Length(Counted, Option<usize>),
    /// The same with `-` alone.
    Dash(Counted),
    /// The same with `-1`: nothing is there.
    Null(Counted),
}

/// The beginning of a line that was read: its number of bytes, and what they are.
#[derive(Clone, Copy, Debug)]
pub(super) struct BegunLine {
    pub(super) len: usize,
    pub(super) line: Line,
}

/// What a line reports: a whole item; a text or an error, which is the line itself; or the number of
/// bytes of a bulk item.
#[derive(Drop)]
pub(super) enum LineHead {
    Whole(Item),
    Plain,
    Body(usize),
}

impl Line {
    /// Reads more bytes of the line, or returns `None` if it is that of no item with them.
    pub(super) fn read(self, bytes: &[u8]) -> Option<Line>
        ensures { ReadsOnRedisLine self bytes.now result }
    {
        let mut line = self;
        for byte in bytes {
            line = line.read_byte(*byte)?;
        }
        Some(line)
    }

    /// Reads a byte.
    fn read_byte(self, byte: u8) -> Option<Line>
        ensures { ReadsOnRedisLine self (byte ∷ []) result }
    {
        match self {
            Line::Empty => line_from_first(byte),
            Line::Text => line_in_text(byte),
            Line::Signed(sign, value) => line_in_integer(sign, value, byte),
            Line::Length(counted, value) => line_in_length(counted, value, byte),
            Line::Dash(counted) => line_after_dash(counted, byte),
            Line::Null(_) => None,
        }
    }

    /// Whether one byte more can make it the line of an item, which it isn't yet.
    fn lacks_byte(self) -> bool
        ensures { (bytes : List ℕ) → IsRedisLineReadAs self bytes → IsTrue result ↔ LacksRedisByte bytes }
    {
        matches!(
            self,
            Line::Empty | Line::Signed(_, None) | Line::Length(_, None) | Line::Dash(_)
        )
    }

    /// What the line reports, if no byte of it is to come, or `None` if it is that of no item.
    fn head(self) -> Option<LineHead>
        ensures { LineReports self result }
    {
        match self {
            Line::Text => Some(LineHead::Plain),
            Line::Signed(sign, Some(value)) => Some(LineHead::Whole(Item::Integer(line_integer(
                sign, value,
            )?))),
            Line::Length(Counted::Bytes, Some(len)) => Some(LineHead::Body(len)),
            Line::Length(Counted::Items, Some(count)) => Some(LineHead::Whole(Item::Array(Some(
                count,
            )))),
            Line::Null(Counted::Bytes) => Some(LineHead::Whole(Item::Bulk(None))),
            Line::Null(Counted::Items) => Some(LineHead::Whole(Item::Array(None))),
            _ => None,
        }
    }
}

/// Reads the first byte.
fn line_from_first(byte: u8) -> Option<Line>
    ensures { ReadsOnRedisLine Line.Empty (byte ∷ []) result }
{
    match byte {
        b'+' | b'-' => Some(Line::Text),
        b':' => Some(Line::Signed(Sign::Unsigned, None)),
        b'$' => Some(Line::Length(Counted::Bytes, None)),
        b'*' => Some(Line::Length(Counted::Items, None)),
        _ => None,
    }
}

/// Reads a byte of a text or of an error.
fn line_in_text(byte: u8) -> Option<Line>
    ensures { ReadsOnRedisLine Line.Text (byte ∷ []) result }
{
    match byte {
        b'\r' | b'\n' => None,
        _ => Some(Line::Text),
    }
}

/// Reads a byte of an integer.
fn line_in_integer(sign: Sign, value: Option<usize>, byte: u8) -> Option<Line>
    ensures { ReadsOnRedisLine (Line.Signed sign value) (byte ∷ []) result }
{
    match (sign, value, byte) {
        (Sign::Unsigned, None, b'+') => Some(Line::Signed(Sign::Plus, None)),
        (Sign::Unsigned, None, b'-') => Some(Line::Signed(Sign::Minus, None)),
        _ => Some(Line::Signed(sign, Some(with_line_digit(value, byte)?))),
    }
}

/// Reads a byte of a length.
fn line_in_length(counted: Counted, value: Option<usize>, byte: u8) -> Option<Line>
    ensures { ReadsOnRedisLine (Line.Length counted value) (byte ∷ []) result }
{
    match (value, byte) {
        (None, b'-') => Some(Line::Dash(counted)),
        _ => Some(Line::Length(counted, Some(with_line_digit(value, byte)?))),
    }
}

/// Reads the byte after the `-` of a length.
fn line_after_dash(counted: Counted, byte: u8) -> Option<Line>
    ensures { ReadsOnRedisLine (Line.Dash counted) (byte ∷ []) result }
{
    match byte {
        b'1' => Some(Line::Null(counted)),
        _ => None,
    }
}

/// The number that the digits write with one more, or `None` if the byte is no digit or the number no
/// `usize`.
fn with_line_digit(value: Option<usize>, byte: u8) -> Option<usize>
    ensures { (digits : List ℕ) → AreLineDigits value digits
        → MatchOption result ((n : ℕ) (more : List ℕ) → ¬ WriteNumber (digits ++ byte ∷ more) n)
        (λ n. WriteNumber (digits ++ byte ∷ []) n) }
{
    if !byte.is_ascii_digit() {
        return None;
    }
    let digit = (byte - b'0') as usize;
    value.unwrap_or(0).checked_mul(10)?.checked_add(digit)
}

/// The integer with this sign, if it is an `i64`.
fn line_integer(sign: Sign, value: usize) -> Option<i64>
    ensures { MatchOption result (¬ FitsSigned w64 (signed_line_number sign value))
        (λ n. (n ≡ signed_line_number sign value) × FitsSigned w64 (signed_line_number sign value)) }
{
    match sign {
        Sign::Minus => 0i64.checked_sub_unsigned(value as u64),
        _ => 0i64.checked_add_unsigned(value as u64),
    }
}

impl BegunLine {
    /// What the line reports, or `None` if a byte of it is to come: the first one, or a digit.
    /// `ended` is whether the line has ended. Fails if no item within the limits has a line that
    /// begins in this way.
    pub(super) fn check(
        self,
        ended: bool,
        limits: Limits,
        room: usize,
    ) -> Result<Option<LineHead>, ReplyError>
        requires { self.len ≤ limits.line }
        ensures head { IfOk result (λ next. IfSome next (λ head.
            IsRedisLineHeadWithin limits.bulk room head
            × ((bytes : List ℕ) → IsRedisLineReadAs self.line bytes → IsRedisLineHeadOf head bytes))) }
        ensures lacks { IfOk result (λ next. IfNone next
            ((self.len < limits.line) × (¬ (ended ≡ true))
            × ((bytes : List ℕ) → IsRedisLineReadAs self.line bytes → LacksRedisByte bytes))) }
        ensures malformed { IfErr result (λ e. e ≡ ReplyError.Malformed
            → (bytes : List ℕ) → IsRedisLineReadAs self.line bytes
            → MatchBool ended ((item : Item) → ¬ IsRedisLineOf item bytes)
            ((item : Item) (more : List ℕ) → ¬ IsRedisLineOf item (bytes ++ more))) }
        ensures too_large { IfErr result (λ e. e ≡ ReplyError.TooLarge
            → (bytes after : List ℕ) → IsRedisLineReadAs self.line bytes → length bytes ≡ self.len
            → (ended ≡ false → after ≡ []) → IsRedisLineOverLimit limits room bytes after) }
        ensures reason { IfErr result (λ e. (reason : _) → ¬ (e ≡ ReplyError.Refused reason)) }
    {
        if let Some(head) = self.line.head() {
            if !is_line_within(&head, limits.bulk, room) {
                return Err(ReplyError::TooLarge);
            }
            return Ok(Some(head));
        }
        if ended || !self.line.lacks_byte() {
            return Err(ReplyError::Malformed);
        }
        if self.len >= limits.line {
            return Err(ReplyError::TooLarge);
        }
        Ok(None)
    }
}

/// Whether what a line reports is within the limits.
fn is_line_within(head: &LineHead, most: usize, room: usize) -> bool
    ensures { IsTrue result ↔ IsRedisLineHeadWithin most room head.now }
{
    match head {
        LineHead::Whole(item) => redis_items_in(item) <= room,
        LineHead::Plain => true,
        LineHead::Body(len) => *len <= most,
    }
}
