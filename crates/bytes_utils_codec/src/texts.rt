//! Texts of a stream that comes in pieces.
ghost use Rattle.std.specs.Prelude.{◌≡◌, ℕ, ◌<◌, ◌≤◌, [], ◌∷◌, ◌++◌, length, take, drop, false, true, IsUtf8, IfOk, IfErr, IfSome, IfNone, OnOk, OnErr};
ghost use Rattle.std.specs.List.{concat};
ghost use Rattle.std.specs.Str.Lossy.{utf8_valid_len, utf8_error_len};
ghost use Rattle.bytes_utils_buf.specs.Segments.{front_segment, unread_segments};
ghost use Rattle.bytes_utils_codec.specs.Pushing.{IsPush};
ghost use Rattle.bytes_utils_codec.specs.TextReading.{IsTextFaultItem, IsTextFront, IsUnfinishedText, LossyTextLaw, TakesTextItem, TakesLastText, TextFaultLaw, TextFrontLaw, TextItemsLaw, WholeLossyTextLaw, asks_for_text_at_end, asks_for_text, reading_of_pieces, text_fed};

use bytes::{Buf, Bytes};
use bytes_utils::split::character::first_end;
use bytes_utils::string::{Str, Utf8Error};
use bytes_utils_buf::segmented::SegmentedBuf;
use bytes_utils_buf::{Reason, Refused};
use std::alloc::Global;
use std::marker::Model;
use std::str;

/// A text, or bytes that are none.
type Item = Result<Str, Utf8Error<Bytes>>;

/// What the held bytes begin with.
enum Front {
    /// A text, of this number of bytes.
    Text(usize),
    /// Bytes that are not UTF-8, of this number: one U+FFFD replaces them.
    Fault(usize),
    /// The first bytes of a character, or no byte.
    Unfinished,
}

/// A reader of all text of a stream. The stream comes in pieces that are cut anywhere, also inside a
/// character.
///
/// ```text
/// let mut texts = Texts::new(alloc);
/// texts.push(first)?;              // a `Bytes` of `caf` and the first byte of `é`
/// texts.next_item()?               // `Ok(caf)`
/// texts.next_item()?               // `None`: one byte is held
/// texts.push(second)?;             // the second byte of `é`, and ` au lait`
/// texts.next_item()?               // `Ok(é)`, and then `Ok( au lait)`
/// texts.last_item()?               // `None`: the stream may end here
/// ```
///
/// Bytes that are no text are an item that has them, and the next item is that of the bytes after
/// them. They are the longest beginning of a character that the bytes after it don't complete, or
/// else a single byte (the Unicode Standard, section 3.9). With `lossy` the item is U+FFFD.
///
/// A text shares the block of its piece, and so do bytes that are none. Only what is cut between two
/// pieces is copied: a character, or bytes that are none, of at most four bytes.
///
/// A piece is held as it is until its last text is taken. So take all items, up to `None`, before
/// the next `push`: then at most three bytes are held between two pieces.
#[derive(Debug, Drop)]
pub struct Texts {
    alloc: Global,
    pieces: SegmentedBuf<Bytes>,
    lossy: bool,
}

impl Model for Texts {
    ghost use Rattle.bytes_utils_codec.specs.TextReading.{TextPieces};

    ghost Value = { TextPieces };

    ghost view = { λ t. record { pieces = t.pieces.segments; lossy = t.lossy } };
}

impl Texts {
    /// Makes a reader that holds no bytes.
    pub fn new(alloc: Global) -> Texts
        ensures { result ≡ record { pieces = []; lossy = false } }
    {
        Texts {
            alloc,
            pieces: SegmentedBuf::new(alloc),
            lossy: false,
        }
    }

    /// Makes it lossy: bytes that are no text become U+FFFD, as with `String::from_utf8_lossy`. Then
    /// each item is a text.
    pub fn lossy(self) -> Texts
        ensures { result ≡ record self { lossy = true } }
    {
        Texts {
            alloc: self.alloc,
            pieces: self.pieces,
            lossy: true,
        }
    }

    /// Appends `piece`, without a copy. Fails with `TooLong` if the number of held bytes would pass
    /// `usize::MAX`, and with `OutOfMemory` if memory is refused; then nothing has changed and
    /// `piece` comes back. An empty piece is never refused.
    pub fn push(&mut self, piece: Bytes) -> Result<(), Refused<Bytes>>
        ensures pushed { IsPush (concat self.old.pieces) piece result
            (reading_of_pieces self.new ≡ text_fed (reading_of_pieces self.old) piece)
            (self.new ≡ self.old) }
        ensures pieces { OnOk result
            (self.new.pieces ≡ self.old.pieces ++ unread_segments (piece ∷ [])) }
    {
        self.pieces.try_push(piece)
    }

    /// Returns the next item: a text of whole characters, up to where a piece ends or isn't UTF-8,
    /// or the character over a border; or bytes that are no text, as early as that is certain.
    /// Returns `None` while the held bytes are the beginning of a character, or none. Fails with
    /// `OutOfMemory` if memory is refused for an item that has come, never for a lossy U+FFFD. Then
    /// nothing has changed.
    pub fn next_item(&mut self) -> Result<Option<Item>, Reason>
        ensures item { IfOk result (λ next. IfSome next (λ item. TakesTextItem
            (reading_of_pieces self.old) item (reading_of_pieces self.new))) }
        ensures longest { IfOk result (λ next. IfSome next (λ item. IfOk item
            (λ text. utf8_valid_len (front_segment self.old.pieces) ≤ length text))) }
        ensures waits { IfOk result (λ next. IfNone next
            ((self.new ≡ self.old) × IsUnfinishedText (concat self.old.pieces))) }
        ensures err { OnErr result (self.new ≡ self.old) }
        ensures asks { OnErr result (asks_for_text (reading_of_pieces self.old)) }
        ensures reason { IfErr result (λ reason. reason ≡ Reason.OutOfMemory) }
    {
        match self.front() {
            Front::Text(len) => Ok(Some(Ok(self.take_text(len)?))),
            Front::Fault(len) => Ok(Some(self.take_fault(len)?)),
            Front::Unfinished => Ok(None),
        }
    }

    /// As `next_item`, at the end of the stream, where the bytes of a character that isn't whole are
    /// an item too: bytes that are no text. Returns `None` if no byte is held.
    pub fn last_item(&mut self) -> Result<Option<Item>, Reason>
        ensures item { IfOk result (λ next. IfSome next (λ item. TakesLastText
            (reading_of_pieces self.old) item (reading_of_pieces self.new))) }
        ensures longest { IfOk result (λ next. IfSome next (λ item. IfOk item
            (λ text. utf8_valid_len (front_segment self.old.pieces) ≤ length text))) }
        ensures none { IfOk result
            (λ next. IfNone next ((concat self.old.pieces ≡ []) × (self.new ≡ self.old))) }
        ensures err { OnErr result (self.new ≡ self.old) }
        ensures asks { OnErr result (asks_for_text_at_end (reading_of_pieces self.old)) }
        ensures reason { IfErr result (λ reason. reason ≡ Reason.OutOfMemory) }
    {
        if let Some(item) = self.next_item()? {
            return Ok(Some(item));
        }
        let held = self.remaining();
        if held == 0 {
            return Ok(None);
        }
        Ok(Some(self.take_fault(held)?))
    }

    /// Returns what the held bytes begin with.
    fn front(&self) -> Front
        ensures front { IsTextFront (concat self.now.pieces) result }
        ensures longest { (len : ℕ) → result ≡ Front.Text len
            → utf8_valid_len (front_segment self.now.pieces) ≤ len }
    {
        let len = text_front_len(self.first_piece());
        if len > 0 {
            return Front::Text(len);
        }
        let mut place = [0; 4];
        let count = self.pieces.peek(&mut place);
        text_front_of_few(&place[..count])
    }

    /// Returns the first held piece, or no bytes if none is held.
    fn first_piece(&self) -> &[u8]
        ensures { result.now ≡ front_segment self.now.pieces }
    {
        match self.pieces.segment(0) {
            Some(piece) => piece,
            None => &[],
        }
    }

    /// Takes the text of the first `len` bytes.
    fn take_text(&mut self, len: usize) -> Result<Str, Reason>
        requires within { len ≤ length (concat self.old.pieces) }
        requires utf8 { IsUtf8 (take len (concat self.old.pieces)) }
        ensures ok { IfOk result (λ text. text ≡ take len (concat self.old.pieces)) }
        ensures rest { OnOk result (reading_of_pieces self.new
            ≡ record (reading_of_pieces self.old) { held = drop len (concat self.old.pieces) }) }
        ensures err { OnErr result (self.new ≡ self.old) }
        ensures reason { IfErr result (λ reason. reason ≡ Reason.OutOfMemory) }
    {
        let text = self.pieces.peek_bytes(self.alloc, len)?;
        self.pieces.advance(len);
        Ok(Str::from_inner_unchecked(text))
    }

    /// Takes the first `len` bytes, which are no text, as they are or as U+FFFD.
    fn take_fault(&mut self, len: usize) -> Result<Item, Reason>
        requires within { len ≤ length (concat self.old.pieces) }
        requires no_text { ¬ IsUtf8 (take len (concat self.old.pieces)) }
        ensures item { IfOk result
            (λ item. IsTextFaultItem self.old.lossy item (take len (concat self.old.pieces))) }
        ensures rest { OnOk result (reading_of_pieces self.new
            ≡ record (reading_of_pieces self.old) { held = drop len (concat self.old.pieces) }) }
        ensures err { OnErr result (self.new ≡ self.old) }
        ensures strict { OnErr result (self.old.lossy ≡ false) }
        ensures reason { IfErr result (λ reason. reason ≡ Reason.OutOfMemory) }
    {
        if self.lossy {
            self.pieces.advance(len);
            return Ok(Ok(Str::from_static("\u{FFFD}")));
        }
        let fault = self.pieces.peek_bytes(self.alloc, len)?;
        self.pieces.advance(len);
        Ok(Str::from_inner(fault))
    }

    /// Returns the number of held bytes: those pushed and not yet taken.
    pub fn remaining(&self) -> usize
        ensures { result ≡ length (concat self.now.pieces) }
    {
        self.pieces.remaining()
    }

    /// Returns the held bytes. After `next_item` has returned `None` they are the beginning of a
    /// character, or none.
    pub fn finish(self) -> SegmentedBuf<Bytes>
        ensures { result.segments ≡ self.pieces }
    {
        let Texts { pieces, .. } = self;
        pieces
    }
}

/// Returns the number of bytes of the longest text at the start.
fn text_front_len(bytes: &[u8]) -> usize
    ensures value { result ≡ utf8_valid_len bytes.now }
    ensures within { result ≤ length bytes.now }
    ensures utf8 { IsUtf8 (take result bytes.now) }
{
    match str::from_utf8(bytes) {
        Ok(_) => bytes.len(),
        Err(fault) => fault.valid_up_to(),
    }
}

/// Returns the length of the first character, or 0 if the bytes begin with none.
fn text_character_len(bytes: &[u8]) -> usize
    ensures none { result ≡ 0 → utf8_valid_len bytes.now ≡ 0 }
    ensures within { result ≤ length bytes.now }
    ensures utf8 { IsUtf8 (take result bytes.now) }
{
    let front = &bytes[..text_front_len(bytes)];
    let text = unsafe { str::from_utf8_unchecked(front) };
    match first_end(text) {
        Some(end) => end,
        None => 0,
    }
}

/// Returns the number of bytes that one U+FFFD replaces, of bytes that begin with no character, or
/// `None` if they may go on to be one.
fn text_fault_len(bytes: &[u8]) -> Option<usize>
    requires { utf8_valid_len bytes.now ≡ 0 }
    ensures { result ≡ utf8_error_len bytes.now }
{
    match str::from_utf8(bytes) {
        Ok(_) => None,
        Err(fault) => fault.error_len(),
    }
}

/// Returns what the bytes begin with. Of a text it returns the first character alone.
fn text_front_of_few(bytes: &[u8]) -> Front
    ensures { IsTextFront bytes.now result }
{
    let len = text_character_len(bytes);
    if len > 0 {
        return Front::Text(len);
    }
    match text_fault_len(bytes) {
        Some(len) => Front::Fault(len),
        None => Front::Unfinished,
    }
}

/// The laws of a run of calls: what is given depends on the joined pieces alone, wherever these are
/// cut and whenever items are asked for. No byte is lost. Until bytes come that are no text, the
/// texts are the longest text at the start of the pieces. With U+FFFD for such bytes, all items are
/// the text that `String::from_utf8_lossy` makes of the pieces.
pub fn text_laws()
    ensures items { TextItemsLaw }
    ensures front { TextFrontLaw }
    ensures faulty { TextFaultLaw }
    ensures lossy { LossyTextLaw }
    ensures whole_lossy { WholeLossyTextLaw }
{}
