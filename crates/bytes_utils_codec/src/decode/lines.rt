//! Lines as texts.
ghost use Rattle.std.specs.Prelude.{◌≡◌, ◌↔◌, ◌+◌, ◌<◌, ◌≤◌, ℕ, List, [], length, take, drop, slice_index, false, true, Ok, IfErr, IfOk, IsOk, IsTrue, IsUtf8, OnErr, OnOk};
ghost use Rattle.std.specs.List.{concat};
ghost use Rattle.std.specs.Str.Lossy.{utf8_lossy};
ghost use Rattle.bytes_utils.specs.Lines.{IsWithoutReturn, carriage_return};
ghost use Rattle.bytes_utils_codec.specs.Decoding.{decoding, passed};
ghost use Rattle.bytes_utils_codec.specs.LineReading.{AwaitsLine, IsLastLineOf, IsLineOf, IsTextLineItem, LineReadingLaw, TakesLastLine, TakesLineItem, WholeLineReadingLaw, fails_line, fails_line_at_end, gives_line, keeps_line, line_reading, ready_line};
ghost use Rattle.bytes_utils_codec.specs.StreamLines.{FirstStreamLinesLaw, SameStreamLinesLaw, TextStreamLinesLaw};
ghost use Rattle.bytes_utils_codec.specs.LineReadingLaws.{line_same, line_single, line_stable, line_waits};

use super::{Decoder, Delimited, FrameTooLong};
use bytes::{Buf, Bytes};
use bytes_utils::string::{Str, Utf8Error};
use bytes_utils_buf::Reason;
use bytes_utils_buf::segmented::PackedBuf;
use std::alloc::Global;
use std::error::Error;
use std::marker::Model;
use std::{fmt, str};

/// Why there is no text of a line. The next item is that of the line after it.
#[derive(Debug, Drop)]
pub enum LineFault {
    /// The line is longer than the limit.
    TooLong,
    /// The line is not UTF-8. The error holds its bytes.
    NotUtf8(Utf8Error<Bytes>),
}

impl From<FrameTooLong> for LineFault {
    ghost use Rattle.bytes_utils_codec.specs.declared.decode.lines.LineFault.TheVariants.{TooLong};

    ghost from_gives = { λ over fault. fault ≡ TooLong };

    fn from(_over: FrameTooLong) -> LineFault {
        LineFault::TooLong
    }
}

impl From<Utf8Error<Bytes>> for LineFault {
    ghost use Rattle.bytes_utils_codec.specs.declared.decode.lines.LineFault.TheVariants.{NotUtf8};

    ghost from_gives = { λ error fault. fault ≡ NotUtf8 error };

    fn from(error: Utf8Error<Bytes>) -> LineFault {
        LineFault::NotUtf8(error)
    }
}

/// Writes `the line is too long`, or the text of the UTF-8 error.
impl fmt::Display for LineFault {
    ghost use Rattle.std.specs.Prelude.{Some};
    ghost use Rattle.bytes_utils_codec.specs.LineReading.{line_fault_text};

    ghost output = { λ fault. Some (line_fault_text fault) };

    fn fmt<W: fmt::Write>(&self, f: &mut fmt::Formatter<W>) -> fmt::Result {
        match self {
            LineFault::TooLong => write!(f, "the line is too long"),
            LineFault::NotUtf8(error) => write!(f, "{error}"),
        }
    }
}

impl Error for LineFault {}

/// A line, or why there is no text of it.
pub(crate) type Line = Result<Str, LineFault>;

/// A decoder of lines as texts. A line is one of `str::lines`: it ends at a line feed, and one
/// carriage return directly before this is no part of it.
///
/// ```text
/// let mut lines = Framed::new(alloc, Lines::with_limit(alloc, 8)?);
/// lines.push_slice(b"Host: a\r")?;
/// lines.next_item()?          // `None`
/// lines.push_slice(b"\nAccept: */*\nbody")?;
/// lines.next_item()?          // `Ok(Host: a)`
/// lines.next_item()?          // `Err(TooLong)`; `body` is left
/// lines.last_item()?          // `Ok(body)`
/// ```
///
/// A line over the limit is an item that says so, once; its bytes are dropped as they come. A line
/// that is not UTF-8 is an item that has its bytes. The next item is the line after it. At the end
/// of the stream the bytes that are left are the last line, whole: without a line feed after it a
/// carriage return is part of it. Those of a line over the limit are dropped, and no line comes.
///
/// While it waits, bytes are not searched again, and no memory is asked for. A line that lies in
/// one segment shares it, wherever its end is: a piece of more than 512 bytes, or a block of copied
/// ones. Any other is copied into one block. `OutOfMemory` comes only for a line within the limit
/// that has come and isn't empty, or at the end of the stream for the last one.
#[derive(Debug, Drop)]
pub struct Lines {
    frames: Delimited,
    lossy: bool,
}

impl Model for Lines {
    ghost use Rattle.std.specs.Prelude.{◌≡◌, [], ◌∷◌};
    ghost use Rattle.bytes_utils.specs.Lines.{line_feed};
    ghost use Rattle.bytes_utils_codec.specs.LineReading.{LineReading};

    ghost Value = { LineReading };

    ghost view = { λ l. record { frames = l.frames; lossy = l.lossy } };

    ghost invariant = { λ l. l.frames.separator ≡ line_feed ∷ [] };
}

impl Lines {
    /// Makes a decoder of lines of any length. Fails with `OutOfMemory` if memory is refused.
    pub fn new(alloc: Global) -> Result<Lines, Reason>
        ensures ok { IfOk result (λ lines. lines ≡ line_reading usize.MAX) }
        ensures reason { IfErr result (λ reason. reason ≡ Reason.OutOfMemory) }
    {
        Lines::with_limit(alloc, usize::MAX)
    }

    /// Makes a decoder of lines of at most `max_length` bytes, with the carriage return and without
    /// the line feed. Fails with `OutOfMemory` if memory is refused.
    pub fn with_limit(alloc: Global, max_length: usize) -> Result<Lines, Reason>
        ensures ok { IfOk result (λ lines. lines ≡ line_reading max_length) }
        ensures reason { IfErr result (λ reason. reason ≡ Reason.OutOfMemory) }
    {
        Ok(Lines {
            frames: Delimited::with_limit(alloc, b"\n", max_length)?,
            lossy: false,
        })
    }

    /// Makes it lossy: bytes that are no character become U+FFFD, as with
    /// `String::from_utf8_lossy`. Then no line is `NotUtf8`.
    pub fn lossy(self) -> Lines
        ensures { result ≡ record self { lossy = true } }
    {
        Lines {
            frames: self.frames,
            lossy: true,
        }
    }

    /// Takes the next line, if its line feed has come.
    fn take_line(&mut self, alloc: Global, held: &mut PackedBuf) -> Result<Option<Line>, Reason>
        ensures { TakesLineItem (decoding self.old held.old) result
            (decoding self.new held.new) }
    {
        match self.frames.next_frame(held) {
            None => Ok(None),
            Some(Err(_)) => Ok(Some(Err(LineFault::TooLong))),
            Some(Ok(len)) => Ok(Some(self.take_framed(alloc, held, len)?)),
        }
    }

    /// Takes the line of the next frame, which has `len` bytes, and passes its end.
    fn take_framed(
        &mut self,
        alloc: Global,
        held: &mut PackedBuf,
        len: usize,
    ) -> Result<Line, Reason>
        requires { len + length self.old.frames.separator ≤ length (concat held.old.held.segments) }
        ensures line { IfOk result (λ line. IsLineOf self.old.lossy line
            (Ok (take len (concat held.old.held.segments)))) }
        ensures ok { OnOk result (decoding self.new held.new
            ≡ passed ready_line (len + length self.old.frames.separator)
            (decoding self.old held.old)) }
        ensures err { OnErr result (decoding self.new held.new ≡ decoding self.old held.old) }
        ensures some { OnErr result ((line : List ℕ)
            × IsWithoutReturn line (take len (concat held.old.held.segments)) × (0 < length line)) }
        ensures reason { IfErr result (λ reason. reason ≡ Reason.OutOfMemory) }
    {
        let text_len = len_without_return(held, len);
        let line = take_line(alloc, held, text_len, self.lossy)?;
        held.advance(len - text_len + 1);
        self.frames.ready();
        Ok(line)
    }

    /// Takes all bytes as the last line, if there are any and they are not those of a line that is
    /// skipped.
    fn take_last(&mut self, alloc: Global, held: &mut PackedBuf) -> Result<Option<Line>, Reason>
        ensures { TakesLastLine (decoding self.old held.old) result (decoding self.new held.new) }
    {
        if self.frames.is_skipping() {
            self.frames.pass_end(held);
            return Ok(None);
        }
        let line = take_last_line(alloc, held, self.lossy)?;
        self.frames.ready();
        Ok(line)
    }
}

impl Decoder for Lines {
    type Item = Result<Str, LineFault>;

    type Error = Reason;

    ghost gives = { gives_line };

    ghost waits = { AwaitsLine };

    ghost fails = { fails_line };

    ghost fails_at_end = { fails_line_at_end };

    ghost keeps = { keeps_line };

    ghost restarted = { ready_line };

    fn decode(&mut self, alloc: Global, held: &mut PackedBuf) -> Result<Option<Line>, Reason> {
        self.take_line(alloc, held)
    }

    fn decode_eof(&mut self, alloc: Global, held: &mut PackedBuf) -> Result<Option<Line>, Reason> {
        if let Some(line) = self.take_line(alloc, held)? {
            return Ok(Some(line));
        }
        self.take_last(alloc, held)
    }

    fn restart(&mut self) {
        self.frames.ready();
    }

    ghost stable = { line_stable };

    ghost single = { line_single };

    ghost awaits = { line_waits };

    ghost same = { line_same };
}

/// The length of the first `len` bytes without one carriage return at their end, if they have one.
fn len_without_return(held: &PackedBuf, len: usize) -> usize
    requires { len ≤ length (concat held.now.held.segments) }
    ensures line { IsWithoutReturn (take result (concat held.now.held.segments))
        (take len (concat held.now.held.segments)) }
    ensures within { result ≤ len }
    ensures few { len ≤ result + 1 }
{
    if len > 0 && is_return_at(held, len - 1) {
        len - 1
    } else {
        len
    }
}

/// Whether the byte at index `place` is a carriage return.
fn is_return_at(held: &PackedBuf, place: usize) -> bool
    requires { place < length (concat held.now.held.segments) }
    ensures { IsTrue result ↔ (slice_index (concat held.now.held.segments) place ≡ carriage_return) }
{
    match held.chunk().get(place) {
        Some(byte) => *byte == b'\r',
        None => held.as_segmented().byte_at(place) == Some(b'\r'),
    }
}

/// Takes all bytes as the last line, if there are any.
pub(super) fn take_last_line(
    alloc: Global,
    held: &mut PackedBuf,
    lossy: bool,
) -> Result<Option<Line>, Reason>
    ensures last { IfOk result (λ last. IsLastLineOf lossy last (concat held.old.held.segments)) }
    ensures ok { OnOk result (concat held.new.held.segments ≡ []) }
    ensures err { OnErr result
        (concat held.new.held.segments ≡ concat held.old.held.segments) }
    ensures some { OnErr result (0 < length (concat held.old.held.segments)) }
    ensures threshold { held.new.threshold ≡ held.old.threshold }
    ensures reason { IfErr result (λ reason. reason ≡ Reason.OutOfMemory) }
{
    let len = held.remaining();
    if len == 0 {
        return Ok(None);
    }
    Ok(Some(take_line(alloc, held, len, lossy)?))
}

/// Takes the first `len` bytes as a line. If it is lossy, and they have bytes that are no character,
/// the text is made before they are taken, so that a refused request changes nothing.
pub(super) fn take_line(
    alloc: Global,
    held: &mut PackedBuf,
    len: usize,
    lossy: bool,
) -> Result<Line, Reason>
    requires { len ≤ length (concat held.old.held.segments) }
    ensures line { IfOk result
        (λ line. IsTextLineItem lossy line (take len (concat held.old.held.segments))) }
    ensures ok { OnOk result
        (concat held.new.held.segments ≡ drop len (concat held.old.held.segments)) }
    ensures err { OnErr result
        (concat held.new.held.segments ≡ concat held.old.held.segments) }
    ensures some { OnErr result (0 < len) }
    ensures threshold { held.new.threshold ≡ held.old.threshold }
    ensures reason { IfErr result (λ reason. reason ≡ Reason.OutOfMemory) }
{
    if !lossy || is_text_line_in_one(held, len) {
        return Ok(text_of_line(held.take_bytes(alloc, len)?));
    }
    let bytes = held.as_segmented().peek_bytes(alloc, len)?;
    let text = lossy_line(alloc, bytes)?;
    held.advance(len);
    Ok(Ok(text))
}

/// The text of these bytes.
pub(crate) fn text_of_line(bytes: Bytes) -> Line
    ensures { IsTextLineItem false result bytes }
{
    Ok(Str::from_inner(bytes)?)
}

/// Whether the first `len` bytes are in one segment, and a text.
fn is_text_line_in_one(held: &PackedBuf, len: usize) -> bool
    ensures { IsTrue result → IsUtf8 (take len (concat held.now.held.segments)) }
{
    let front = held.chunk();
    len <= front.len() && str::from_utf8(&front[..len]).is_ok()
}

/// The text of these bytes, with U+FFFD for those that are no character. Fails with `OutOfMemory`
/// if memory is refused, never for no bytes.
fn lossy_line(alloc: Global, bytes: Bytes) -> Result<Str, Reason>
    ensures ok { IfOk result (λ text. text ≡ utf8_lossy bytes) }
    ensures none { bytes ≡ [] → IsOk result }
    ensures reason { IfErr result (λ reason. reason ≡ Reason.OutOfMemory) }
{
    match Str::from_inner(bytes) {
        Ok(text) => Ok(text),
        Err(fault) => lossy_line_copy(alloc, fault.into_inner().as_slice()),
    }
}

/// A copy of these bytes as a text, with U+FFFD for those that are no character.
fn lossy_line_copy(alloc: Global, bytes: &[u8]) -> Result<Str, Reason>
    ensures ok { IfOk result (λ text. text ≡ utf8_lossy bytes.now) }
    ensures reason { IfErr result (λ reason. reason ≡ Reason.OutOfMemory) }
{
    let text = String::from_utf8_lossy(alloc, bytes)?;
    Ok(Str::from_string(alloc, text)?)
}

/// The laws of a decoder that is new. Its items are those for the first lines of the bytes, each
/// its text, or why there is none; with the last one, those for all lines. With `decoder_laws`, so
/// are those of every run, whatever the pieces are. The lines of the bytes of a text are the lines
/// of the text, and there is one list of them.
pub fn line_laws()
    ensures items { LineReadingLaw }
    ensures whole { WholeLineReadingLaw }
    ensures lines { FirstStreamLinesLaw }
    ensures text { TextStreamLinesLaw }
    ensures same { SameStreamLinesLaw }
{}
