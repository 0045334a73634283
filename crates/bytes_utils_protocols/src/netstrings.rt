//! Netstrings, and a decoder of them: `5:hello,` is `hello` (http://cr.yp.to/proto/netstrings.txt).
ghost use Rattle.std.specs.Prelude.{◌≡◌, ℕ, ◌≤◌, List, [], ◌∷◌, ◌++◌, length, drop, decimal, IfOk, IfErr, IfSome, IfNone};
ghost use Rattle.std.specs.List.{concat};
ghost use Rattle.bytes_utils_codec.specs.Decoding.{decoding};
ghost use Rattle.bytes_utils_codec.specs.Taking.{keeps_same, taken_same, taken_single, taken_stable, taken_waits};
ghost use Rattle.bytes_utils_protocols.specs.Digits.{colon};
ghost use Rattle.bytes_utils_protocols.specs.Netstrings.{BeginsNetstringWithin, TakesNetstringWithin, awaits_netstring, fails_netstring, gives_netstring, netstring_bytes, takes_netstring};
ghost use Rattle.bytes_utils_protocols.specs.NetstringsLaws.{netstring_facts};

use crate::number::number;
use bytes::{Buf, Bytes, BytesMut};
use bytes_utils::Reason;
use bytes_utils::segmented::{PackedBuf, SegmentedBuf};
use bytes_utils_codec::decode::Decoder;
use itoa::Buffer;
use memchr::memchr;
use std::alloc::Global;
use std::error::Error;
use std::fmt;

/// Why there is no text.
#[derive(Clone, Copy, Debug, Eq, PartialEq)]
pub enum NetstringError {
    /// Memory was refused, which is asked for only for a text that has come with its comma and isn't
    /// empty; the text is longer than the limit; or the first 21 bytes have no colon.
    Refused(Reason),
    /// What came is no netstring, whatever comes after it.
    Malformed,
}

impl From<Reason> for NetstringError {
    ghost use Rattle.bytes_utils_protocols.specs.declared.netstrings.NetstringError.TheVariants.{Refused};

    ghost from_gives = { λ reason error. error ≡ Refused reason };

    fn from(reason: Reason) -> NetstringError {
        NetstringError::Refused(reason)
    }
}

/// Writes its reason, or `the netstring is malformed`.
impl fmt::Display for NetstringError {
    ghost use Rattle.std.specs.Prelude.{Some};
    ghost use Rattle.bytes_utils_protocols.specs.Netstrings.{netstring_error_text};

    ghost output = { λ error. Some (netstring_error_text error) };

    ghost styled_output = { λ error _. Some (netstring_error_text error) };

    fn fmt<W: fmt::Write>(&self, f: &mut fmt::Formatter<W>) -> fmt::Result {
        match self {
            NetstringError::Refused(reason) => fmt::Display::fmt(reason, f),
            NetstringError::Malformed => f.write_str("the netstring is malformed"),
        }
    }
}

impl Error for NetstringError {}

/// The next text, or `None` if more bytes have to come.
type Next = Result<Option<Bytes>, NetstringError>;

/// A decoder of netstrings. It also accepts zeros before a length.
#[derive(Clone, Copy, Debug)]
pub struct Netstrings {
    /// The most bytes of a text.
    pub max_length: usize,
}

impl Netstrings {
    /// Takes the next text, if all of its netstring has come. If not, nothing changes.
    fn take(self, alloc: Global, held: &mut PackedBuf) -> Next
        ensures item { IfOk result (λ next. IfSome next (λ text. takes_netstring
            (decoding self held.old) text (decoding self held.new))) }
        ensures none { IfOk result (λ next. IfNone next
            (awaits_netstring (decoding self held.old)
            × (decoding self held.new ≡ decoding self held.old))) }
        ensures err { IfErr result (λ error. fails_netstring (decoding self held.old) error
            × (decoding self held.new ≡ decoding self held.old)) }
    {
        let Some((start, len)) = self.front(held)? else {
            return Ok(None);
        };
        if held.remaining() - start <= len {
            return Ok(None);
        }
        let end = start + len;
        let pieces = held.as_segmented();
        if !pieces.holds_at(end, b",") {
            return Err(NetstringError::Malformed);
        }
        let text = pieces.copy_range(alloc, start..end)?;
        held.advance(end + 1);
        Ok(Some(text))
    }

    /// Returns where the next text begins, and its length, or `None` if more bytes have to come.
    fn front(self, held: &PackedBuf) -> Result<Option<(usize, usize)>, NetstringError>
        ensures within { IfOk result (λ next. IfSome next
            (λ text. text.0 ≤ length (concat held.now.held.segments))) }
        ensures begins { IfOk result (λ next. IfSome next
            (λ text. BeginsNetstringWithin self.max_length (concat held.now.held.segments) text.1
            (drop text.0 (concat held.now.held.segments)))) }
        ensures none { IfOk result (λ next. IfNone next (awaits_netstring (decoding self held.now))) }
        ensures err { IfErr result (λ error. fails_netstring (decoding self held.now) error) }
    {
        // 20 digits and a colon.
        let mut front = [0; 21];
        let count = held.as_segmented().peek(&mut front);
        let front = &front[..count];
        let Some(colon) = memchr(b':', front) else {
            if count > 20 {
                return Err(NetstringError::Refused(Reason::TooLong));
            }
            return Ok(None);
        };
        let Some(len) = number(&front[..colon]) else {
            return Err(NetstringError::Malformed);
        };
        if len > self.max_length {
            return Err(NetstringError::Refused(Reason::TooLong));
        }
        Ok(Some((colon + 1, len)))
    }
}

impl Decoder for Netstrings {
    type Item = Bytes;

    type Error = NetstringError;

    ghost gives = { gives_netstring };

    ghost waits = { awaits_netstring };

    ghost fails = { fails_netstring };

    ghost keeps = { keeps_same };

    ghost restarted = { λ decoder. decoder };

    #[tactic(auto, using(bytes_utils_codec::specs::Taking::decodes_by))]
    fn decode(&mut self, alloc: Global, held: &mut PackedBuf) -> Next {
        self.take(alloc, held)
    }

    #[tactic(auto, using(bytes_utils_codec::specs::Taking::ends_by))]
    fn decode_eof(&mut self, alloc: Global, held: &mut PackedBuf) -> Next {
        self.take(alloc, held)
    }

    fn restart(&mut self) {}

    ghost stable = { taken_stable netstring_facts };

    ghost single = { taken_single netstring_facts };

    ghost awaits = { taken_waits netstring_facts };

    ghost same = { taken_same netstring_facts };
}

/// Returns the bytes of a netstring: the length of `text` in decimal digits, a colon, `text`, whose
/// block is shared and not copied, and a comma (http://cr.yp.to/proto/netstrings.txt).
/// `write_all_of` writes them. `Netstrings` reads them as `text` again, if that is within its limit,
/// whatever follows. Fails with `OutOfMemory` if memory is refused; then `text` is dropped.
pub fn netstring(alloc: Global, text: Bytes) -> Result<SegmentedBuf<Bytes>, Reason>
    ensures bytes { IfOk result (λ whole. concat whole.segments ≡ netstring_bytes text) }
    ensures reads { IfOk result (λ whole. (limit : ℕ) (rest : List ℕ) → length text ≤ limit
        → TakesNetstringWithin limit (concat whole.segments ++ rest) text rest) }
    ensures reason { IfErr result (λ reason. reason ≡ Reason.OutOfMemory) }
{
    let front = netstring_front(alloc, text.len())?;
    let mut whole = SegmentedBuf::new(alloc);
    whole.push(front)?;
    whole.push(text)?;
    whole.push(Bytes::from_static(b","))?;
    Ok(whole)
}

/// Returns what comes before a text of this length.
fn netstring_front(alloc: Global, len: usize) -> Result<Bytes, Reason>
    ensures bytes { IfOk result (λ front. front ≡ decimal len ++ colon ∷ []) }
    ensures few { IfOk result (λ front. length front ≤ 41) }
    ensures reason { IfErr result (λ reason. reason ≡ Reason.OutOfMemory) }
{
    let mut digits = Buffer::new();
    let mut front = BytesMut::with_capacity(alloc, 21)?;
    front.extend_from_slice(digits.format(len).as_bytes())?;
    front.extend_from_slice(b":")?;
    Ok(front.freeze()?)
}
