//! Frames that come after their lengths.
ghost use Rattle.std.specs.Prelude.{◌≡◌, ◌+◌, ◌*◌, ◌-◌, ◌^◌, ◌<◌, ◌≤◌, ◌↔◌, length, reverse, take, drop, false, true, Some, IsTrue, IfOk, IfErr, IfSome, IfNone, OnErr, OnOk};
ghost use Rattle.std.specs.List.{concat};
ghost use Rattle.std.specs.Int.Digits.{number_from_digits};
ghost use Rattle.bytes_utils_codec.specs.Decoding.{Decodes, DecodesAtEnd, decoding};
ghost use Rattle.bytes_utils_codec.specs.Prefixed.{IsPrefixedLookedAt, IsPrefixedOverLimit, IsPrefixedPart, IsPrefixedUnread, IsPrefixedWithinLimit, TakesPrefixed, adjusted_prefixed_len, after_skipped_prefixed, awaits_prefixed_front, awaits_prefixed, fails_prefixed_front, fails_prefixed, gives_prefixed_front, gives_prefixed, prefixed_head_len, keeps_prefixed_front, keeps_prefixed, needing_prefixed, prefixed_number_of, prefixing, ready_prefixed, skipping_prefixed, stated_prefixed_len};
ghost use Rattle.bytes_utils_codec.specs.PrefixedLaws.{prefixed_same, prefixed_single, prefixed_stable, prefixed_waits};

use super::{Decoder, FrameTooLong};
use bytes::{Buf, Bytes};
use bytes_utils_buf::Reason;
use bytes_utils_buf::segmented::PackedBuf;
use std::alloc::Global;
use std::marker::Model;

/// A frame, or that it is longer than the limit.
type Frame = Result<Bytes, FrameTooLong>;

/// A decoder of frames of which each comes after its length.
///
/// ```text
/// // A byte, the length of the whole frame in two bytes, and what comes after these three.
/// let frames = LengthPrefixed::new(1024).length_at(1).width(2).adjusted_by(-3);
/// let mut frames = Framed::new(alloc, frames);
/// frames.push_slice(b"\x01\0\x08Hello\x02\0")?;
/// frames.next_item()?         // `Ok(Hello)`
/// frames.next_item()?         // `None`; two bytes are left
/// ```
///
/// The head of a frame ends with its length. A frame over the limit is an item that says so: once,
/// as soon as its head has come. It is skipped: its bytes are dropped as they come, however long
/// it is. So, if items are asked for after each piece until there is none, fewer bytes are held than
/// the head and the limit have together. If the adjustment makes a length less than zero, that is
/// reported in the same way, and only the head is skipped.
///
/// The head of a frame is read when it has come. If the frame isn't whole then, further calls only
/// compare the number of held bytes, until all of the frame is there. So a decoder that waits, and
/// is put over other bytes (`Framed::from_parts`), waits for as many of these, unless `restart` is
/// called first.
///
/// A frame that lies with its head in one segment shares it: a piece of more than 512 bytes, or a
/// block of copied ones. Any other is copied into one block. `OutOfMemory` comes only for a frame
/// within the limit that has come and isn't empty. At the end of the stream, bytes that are no whole
/// frame are left, but for those of a frame that is skipped.
///
/// tokio-util's `LengthDelimitedCodec` differs in two things: its limit is on the length before the
/// adjustment, and that adjusts the number of bytes after those that are dropped, not after the head.
#[derive(Debug, Drop)]
pub struct LengthPrefixed {
    max_length: usize,
    offset: usize,
    width: usize,
    is_little_endian: bool,
    adjustment: isize,
    dropped: Option<usize>,
    // More than a `u64`: a length of eight bytes, and the adjustment.
    skipped: u128,
    // More than a `u64`: the head, and a frame of the greatest limit.
    needed: u128,
}

impl Model for LengthPrefixed {
    ghost use Rattle.std.specs.Prelude.{◌<◌, ◌≤◌};
    ghost use Rattle.bytes_utils_codec.specs.Prefixed.{Prefixing};

    ghost Value = { Prefixing };

    ghost view = { λ d. record {
      max_length = d.max_length;
      offset = d.offset;
      width = d.width;
      is_little_endian = d.is_little_endian;
      adjustment = d.adjustment;
      dropped = d.dropped;
      skipped = d.skipped;
      needed = d.needed;
    } };

    ghost invariant = { λ d. (0 < d.width) × (d.width ≤ 8) };
}

impl LengthPrefixed {
    /// Makes a decoder of frames of at most `max_length` bytes, each after its length: four bytes,
    /// the most significant one first, which don't count themselves. The other methods change that.
    pub fn new(max_length: usize) -> LengthPrefixed
        ensures { result ≡ prefixing max_length }
    {
        LengthPrefixed {
            max_length,
            offset: 0,
            width: 4,
            is_little_endian: false,
            adjustment: 0,
            dropped: None,
            skipped: 0,
            needed: 0,
        }
    }

    /// Sets how many bytes come before the length.
    pub fn length_at(mut self, offset: usize) -> LengthPrefixed
        ensures { result ≡ record self { offset = offset } }
    {
        self.offset = offset;
        self
    }

    /// Sets the number of bytes of the length. Requires that `bytes` is at least 1 and at most 8
    /// (test: compare).
    pub fn width(mut self, bytes: usize) -> LengthPrefixed
        requires { (0 < bytes) × (bytes ≤ 8) }
        ensures { result ≡ record self { width = bytes } }
    {
        self.width = bytes;
        self
    }

    /// Sets that the least significant byte of the length comes first.
    pub fn little_endian(mut self) -> LengthPrefixed
        ensures { result ≡ record self { is_little_endian = true } }
    {
        self.is_little_endian = true;
        self
    }

    /// Sets what is added to a length to make it the number of bytes after the head: -2, if a
    /// length of two bytes at the front counts itself, too. The limit is on the sum.
    pub fn adjusted_by(mut self, adjustment: isize) -> LengthPrefixed
        ensures { result ≡ record self { adjustment = adjustment } }
    {
        self.adjustment = adjustment;
        self
    }

    /// Sets how many bytes of a frame are dropped, counted from the front of its head, in place of
    /// the head. With 0 a frame is given with its head. If a frame has fewer bytes, all are dropped.
    pub fn dropping(mut self, bytes: usize) -> LengthPrefixed
        ensures { result ≡ record self { dropped = Some bytes } }
    {
        self.dropped = Some(bytes);
        self
    }

    /// Drops the bytes that are skipped, as many of them as are held.
    fn drop_skipped(&mut self, held: &mut PackedBuf)
        ensures { decoding self.new held.new ≡ after_skipped_prefixed (decoding self.old held.old) }
    {
        if self.skipped == 0 {
            return;
        }
        let here = self.skipped.min(held.remaining() as u128);
        held.advance(here as usize);
        self.skipped -= here;
    }

    /// The number of bytes of the head, if it is within the first `len` bytes.
    fn head_within(&self, len: usize) -> Option<usize>
        ensures some { IfSome result (λ head. (head ≡ prefixed_head_len self.now) × (head ≤ len)) }
        ensures none { IfNone result (len < prefixed_head_len self.now) }
    {
        let head = self.offset.checked_add(self.width)?;
        (head <= len).then_some(head)
    }

    /// The number of bytes after the head of the next frame; or if it is over the limit, how many
    /// of them are skipped.
    fn body_len(&self, held: &PackedBuf, head: usize) -> Result<usize, u128>
        requires head { head ≡ prefixed_head_len self.now }
        requires within { head ≤ length (concat held.now.held.segments) }
        ensures within { IfOk result
            (λ n. IsPrefixedWithinLimit self.now (concat held.now.held.segments) n) }
        ensures over { IfErr result
            (λ n. IsPrefixedOverLimit self.now (concat held.now.held.segments) n) }
    {
        match self.adjusted(self.stated_len(held, head)) {
            None => Err(0),
            Some(len) if len > self.max_length as u128 => Err(len),
            Some(len) => Ok(len as usize),
        }
    }

    /// The number in the length of the next frame, at the end of the head.
    fn stated_len(&self, held: &PackedBuf, head: usize) -> u64
        requires head { head ≡ prefixed_head_len self.now }
        requires within { head ≤ length (concat held.now.held.segments) }
        ensures { result ≡ stated_prefixed_len self.now (concat held.now.held.segments) }
    {
        let front = held.chunk();
        if head <= front.len() {
            return self.number_of(&front[self.offset..head]);
        }
        let mut bytes = [0; 8];
        let field = &mut bytes[..self.width];
        copy_length(held, self.offset, head, field);
        self.number_of(field)
    }

    /// The number that the bytes of a length write.
    fn number_of(&self, bytes: &[u8]) -> u64
        requires { length bytes.now ≤ 8 }
        ensures { result ≡ prefixed_number_of self.now.is_little_endian bytes.now }
    {
        if self.is_little_endian {
            little_endian_number(bytes)
        } else {
            big_endian_number(bytes)
        }
    }

    /// The number of bytes after the head, if it isn't less than zero.
    fn adjusted(&self, stated: u64) -> Option<u128>
        ensures { result ≡ adjusted_prefixed_len stated self.now.adjustment }
    {
        let stated = stated as u128;
        let change = self.adjustment.unsigned_abs() as u128;
        if self.adjustment < 0 {
            stated.checked_sub(change)
        } else {
            Some(stated + change)
        }
    }
}

/// Copies the held bytes from `start` to `end` into `dst`.
fn copy_length(held: &PackedBuf, start: usize, end: usize, dst: &mut [u8])
    requires len { start + length dst.old ≡ end }
    requires within { end ≤ length (concat held.now.held.segments) }
    ensures { dst.new ≡ take (length dst.old) (drop start (concat held.now.held.segments)) }
{
    if start == 0 {
        held.as_segmented().peek(dst);
        return;
    }
    for at in start..end {
        if let Some(byte) = held.as_segmented().byte_at(at) {
            dst[at - start] = byte;
        }
    }
}

/// The number that the bytes write, the most significant one first.
fn big_endian_number(bytes: &[u8]) -> u64
    requires { length bytes.now ≤ 8 }
    ensures { result ≡ number_from_digits 256 bytes.now }
{
    let mut number = 0;
    for byte in bytes {
        number = number * 256 + u64::from(*byte);
    }
    number
}

/// The number that the bytes write, the least significant one first.
fn little_endian_number(bytes: &[u8]) -> u64
    requires { length bytes.now ≤ 8 }
    ensures { result ≡ number_from_digits 256 (reverse bytes.now) }
{
    let mut number = 0;
    for at in (0..bytes.len()).rev() {
        number = number * 256 + u64::from(bytes[at]);
    }
    number
}

/// Takes the first `end` bytes, and returns those from `start` on. Fails with `OutOfMemory` if memory
/// is refused, never if there are none to return; then the held bytes are the same.
fn take_from(alloc: Global, held: &mut PackedBuf, start: usize, end: usize) -> Result<Bytes, Reason>
    requires { (start ≤ end) × (end ≤ length (concat held.old.held.segments)) }
    ensures bytes { IfOk result
        (λ bytes. bytes ≡ drop start (take end (concat held.old.held.segments))) }
    ensures ok { OnOk result
        (concat held.new.held.segments ≡ drop end (concat held.old.held.segments)) }
    ensures err { OnErr result
        (concat held.new.held.segments ≡ concat held.old.held.segments) }
    ensures some { OnErr result (start < end) }
    ensures threshold { held.new.threshold ≡ held.old.threshold }
    ensures reason { IfErr result (λ reason. reason ≡ Reason.OutOfMemory) }
{
    if start == end {
        held.advance(end);
        return Ok(Bytes::new());
    }
    let mut bytes = held.take_bytes(alloc, end)?;
    bytes.advance(start);
    Ok(bytes)
}

impl Decoder for LengthPrefixed {
    type Item = Result<Bytes, FrameTooLong>;

    type Error = Reason;

    ghost gives = { gives_prefixed };

    ghost waits = { awaits_prefixed };

    ghost fails = { fails_prefixed };

    ghost keeps = { keeps_prefixed };

    ghost restarted = { ready_prefixed };

    #[tactic(auto, using(crate::specs::PrefixedLaws::decodes_prefixed))]
    fn decode(&mut self, alloc: Global, held: &mut PackedBuf) -> Result<Option<Frame>, Reason> {
        self.drop_skipped(held);
        if self.skipped > 0 || (held.remaining() as u128) < self.needed {
            return Ok(None);
        }
        let Some(head) = self.head_within(held.remaining()) else {
            return Ok(None);
        };
        let len = match self.body_len(held, head) {
            Ok(len) => len,
            Err(len) => {
                held.advance(head);
                self.skipped = len;
                self.needed = 0;
                return Ok(Some(Err(FrameTooLong)));
            }
        };
        self.needed = head as u128 + len as u128;
        if held.remaining() - head < len {
            return Ok(None);
        }
        let end = head + len;
        let frame = take_from(alloc, held, self.dropped.unwrap_or(head).min(end), end)?;
        self.needed = 0;
        Ok(Some(Ok(frame)))
    }

    fn decode_eof(&mut self, alloc: Global, held: &mut PackedBuf) -> Result<Option<Frame>, Reason> {
        let Some(frame) = self.decode(alloc, held)? else {
            self.restart();
            return Ok(None);
        };
        Ok(Some(frame))
    }

    fn restart(&mut self) {
        self.skipped = 0;
        self.needed = 0;
    }

    ghost stable = { prefixed_stable };

    ghost single = { prefixed_single };

    ghost awaits = { prefixed_waits };

    ghost same = { prefixed_same };
}
