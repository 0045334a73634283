//! Bytes of a stream that wait for the next delimiter.
ghost use Rattle.std.specs.Prelude.{◌≡◌, ◌↔◌, ◌+◌, ◌-◌, ◌^◌, ◌<◌, ◌≤◌, [], ◌++◌, false, length, get_or, take, drop, IsOk, IsTrue, OnOk, OnErr, IfOk, IfErr, IfSome, IfNone};
ghost use Rattle.std.specs.List.{concat};
ghost use Rattle.bytes_utils.specs.Occurrence.{Occurs};
ghost use Rattle.bytes_utils_codec.specs.Frames.{TakesFrame};
ghost use Rattle.bytes_utils_codec.specs.Pushing.{IsPush};
ghost use Rattle.bytes_utils_protocols.specs.Headers.{is_header_blank};
ghost use Rattle.bytes_utils_protocols.specs.Multipart.{IsMultipartPadding};
ghost use Rattle.bytes_utils_protocols.specs.MultipartWaiting.{IsAheadOfNeedle, IsSearchWithin};

use crate::header::is_header_blank;
use bytes::{Buf, Bytes};
use bytes_utils::segmented::PackedBuf;
use bytes_utils::{Reason, Refused, SegmentedBuf};
use bytes_utils_codec::find::find;
use bytes_utils_codec::search::Search;
use std::alloc::Global;
use std::marker::Model;

/// A piece of at most this many bytes is copied to those before it.
const SMALL: usize = 512;

/// What follows a delimiter that closes a body.
pub(super) const DASHES: &[u8] = b"--";

/// What a search for the next delimiter found.
#[derive(Clone, Copy)]
pub(super) struct Ahead {
    /// How many bytes there are at the front in which no delimiter begins, whatever comes after them.
    pub(super) len: usize,
    /// Whether the delimiter comes after them.
    pub(super) has_come: bool,
}

/// Bytes that came in pieces, and the search in them for a delimiter.
#[derive(Debug, Drop)]
pub(super) struct Waiting {
    delimiter: Search,
    pieces: PackedBuf,
}

impl Model for Waiting {
    ghost use Rattle.std.specs.List.{concat};
    ghost use Rattle.bytes_utils_protocols.specs.MultipartWaiting.{IsSearchWithin, MultipartWaiting};

    ghost Value = { MultipartWaiting };

    ghost view = { λ w. record {
      delimiter = w.delimiter.needle;
      held = concat w.pieces.held.segments;
    } };

    ghost invariant = { λ w. IsSearchWithin w.delimiter (concat w.pieces.held.segments) };
}

impl Waiting {
    /// No bytes. Requires that `delimiter` is not empty.
    pub(super) fn new(alloc: Global, delimiter: &[u8]) -> Result<Waiting, Reason>
        requires { 0 < length delimiter.now }
        ensures ok { IfOk result (λ w. w ≡ record { delimiter = delimiter.now; held = [] }) }
        ensures reason { IfErr result (λ reason. reason ≡ Reason.OutOfMemory) }
    {
        Ok(Waiting {
            delimiter: Search::new(alloc, delimiter)?,
            pieces: PackedBuf::new(alloc, SMALL),
        })
    }

    /// Appends a piece, as `PackedBuf` does.
    pub(super) fn push(&mut self, alloc: Global, piece: Bytes) -> Result<(), Refused<Bytes>>
        ensures { IsPush self.old.held piece result
            (self.new ≡ record self.old { held = self.old.held ++ piece }) (self.new ≡ self.old) }
    {
        self.pieces.push(alloc, piece)
    }

    /// Appends a copy of `piece`, as `PackedBuf` does.
    pub(super) fn push_slice(&mut self, alloc: Global, piece: &[u8]) -> Result<(), Reason>
        ensures ok { OnOk result (self.new ≡ record self.old { held = self.old.held ++ piece.now }) }
        ensures err { OnErr result (self.new ≡ self.old) }
        ensures too_long { IfErr result (λ reason. (reason ≡ Reason.TooLong)
            ↔ (2 ^ 64 ≤ length self.old.held + length piece.now)) }
        ensures empty { piece.now ≡ [] → IsOk result }
    {
        self.pieces.push_slice(alloc, piece)
    }

    /// Returns how many bytes wait.
    pub(super) fn len(&self) -> usize
        ensures { result ≡ length self.now.held }
    {
        self.pieces.remaining()
    }

    /// Returns how many bytes a delimiter has.
    pub(super) fn delimiter_len(&self) -> usize
        ensures value { result ≡ length self.now.delimiter }
        ensures some { 0 < result }
    {
        self.delimiter.needle().len()
    }

    /// Drops `prefix` off the front, and returns whether the bytes began with it.
    pub(super) fn strip_prefix(&mut self, prefix: &[u8]) -> bool
        ensures began { IsTrue result ↔ (take (length prefix.now) self.old.held ≡ prefix.now) }
        ensures stripped { IsTrue result
            → self.new ≡ record self.old { held = drop (length prefix.now) self.old.held } }
        ensures same { result ≡ false → self.new ≡ self.old }
    {
        if !self.pieces.as_segmented().starts_with(prefix) {
            return false;
        }
        self.advance(prefix.len());
        true
    }

    /// Returns whether the first `len` bytes are padding, which is spaces and tabs. Requires that `len`
    /// is at most `len()`.
    pub(super) fn begins_with_padding(&self, len: usize) -> bool
        requires { len ≤ length self.now.held }
        ensures { IsTrue result ↔ IsMultipartPadding (take len self.now.held) }
    {
        for place in 0..len {
            if !self.has_blank_at(place) {
                return false;
            }
        }
        true
    }

    /// Returns whether the byte at `place` is a space or a tab. Requires that `place` is below `len()`.
    fn has_blank_at(&self, place: usize) -> bool
        requires { place < length self.now.held }
        ensures { result ≡ is_header_blank (get_or self.now.held place 0) }
    {
        match self.pieces.as_segmented().byte_at(place) {
            Some(byte) => is_header_blank(byte),
            None => false,
        }
    }

    /// Looks for the next delimiter, from where the last call stopped.
    pub(super) fn search(&mut self) -> Ahead
        ensures same { self.new ≡ self.old }
        ensures ahead { IsAheadOfNeedle self.old.delimiter self.old.held result }
    {
        look_ahead(&mut self.delimiter, &self.pieces)
    }

    /// Looks for the needle of another search, from where that stopped.
    pub(super) fn search_for(&self, search: &mut Search) -> Ahead
        requires { IsSearchWithin search.old self.now.held }
        ensures needle { search.new.needle ≡ search.old.needle }
        ensures within { IsSearchWithin search.new self.now.held }
        ensures ahead { IsAheadOfNeedle search.old.needle self.now.held result }
    {
        look_ahead(search, &self.pieces)
    }

    /// Returns the first place of `needle` in the first `len` bytes, or `None` if it isn't there.
    /// Requires that `needle` is not empty, and that `len` is at most `len()`.
    pub(super) fn find_before(&self, needle: &[u8], len: usize) -> Option<usize>
        requires some { 0 < length needle.now }
        requires come { len ≤ length self.now.held }
        ensures within { IfSome result (λ at. at + length needle.now ≤ len) }
        ensures frame { IfSome result (λ at. TakesFrame needle.now (take len self.now.held)
            (take at (take len self.now.held))
            (drop (at + length needle.now) (take len self.now.held))) }
        ensures none { IfNone result (¬ Occurs needle.now (take len self.now.held)) }
    {
        let Some(at) = find(self.pieces.as_segmented(), needle) else {
            return None;
        };
        if len.saturating_sub(at) < needle.len() {
            return None;
        }
        Some(at)
    }

    /// Takes bytes off the front: `most`, or those of the first segment if it has fewer. A piece that
    /// was held as it came is shared. Requires that `most` is not 0, and at most `len()`.
    pub(super) fn take(&mut self, alloc: Global, most: usize) -> Result<Bytes, Reason>
        requires some { 0 < most }
        requires within { most ≤ length self.old.held }
        ensures piece { IfOk result (λ piece. self.old.held ≡ piece ++ self.new.held) }
        ensures some { IfOk result (λ piece. 0 < length piece) }
        ensures most { IfOk result (λ piece. length piece ≤ most) }
        ensures delimiter { self.new.delimiter ≡ self.old.delimiter }
        ensures err { OnErr result (self.new ≡ self.old) }
        ensures reason { IfErr result (λ reason. reason ≡ Reason.OutOfMemory) }
    {
        let len = self.pieces.chunk().len().min(most);
        let piece = self.pieces.take_bytes(alloc, len)?;
        pass(&mut self.delimiter, len);
        Ok(piece)
    }

    /// Drops the first `len` bytes. Requires that `len` is at most `len()`.
    pub(super) fn advance(&mut self, len: usize)
        requires { len ≤ length self.old.held }
        ensures { self.new ≡ record self.old { held = drop len self.old.held } }
    {
        self.pieces.advance(len);
        pass(&mut self.delimiter, len);
    }

    /// Drops the first `len` bytes, and the delimiter after them. Requires that they have come.
    pub(super) fn pass_delimiter(&mut self, len: usize)
        requires { len + length self.old.delimiter ≤ length self.old.held }
        ensures { self.new ≡ record self.old {
          held = drop (len + length self.old.delimiter) self.old.held;
        } }
    {
        self.advance(len);
        self.advance(self.delimiter_len());
    }

    /// Takes the first `len` bytes, as `PackedBuf` does, and drops the delimiter after them. Requires
    /// that they have come.
    pub(super) fn split_at_delimiter(
        &mut self,
        alloc: Global,
        len: usize,
    ) -> Result<SegmentedBuf<Bytes>, Reason>
        requires { len + length self.old.delimiter ≤ length self.old.held }
        ensures front { IfOk result (λ front. concat front.segments ≡ take len self.old.held) }
        ensures ok { OnOk result (self.new ≡ record self.old {
          held = drop (len + length self.old.delimiter) self.old.held;
        }) }
        ensures err { OnErr result (self.new ≡ self.old) }
        ensures none { len ≡ 0 → IsOk result }
        ensures reason { IfErr result (λ reason. reason ≡ Reason.OutOfMemory) }
    {
        let front = self.pieces.split_to(alloc, len)?;
        self.pieces.advance(self.delimiter.needle().len());
        self.delimiter.restart();
        Ok(front)
    }

    /// Drops all bytes.
    pub(super) fn clear(&mut self, alloc: Global)
        ensures { self.new ≡ record self.old { held = [] } }
    {
        self.pieces = PackedBuf::new(alloc, SMALL);
        self.delimiter.restart();
    }

    /// Returns the first `len` bytes, which stay. Requires that `len` is at most `len()`.
    pub(super) fn peek(&self, alloc: Global, len: usize) -> Result<Bytes, Reason>
        requires { len ≤ length self.now.held }
        ensures value { IfOk result (λ front. front ≡ take len self.now.held) }
        ensures reason { IfErr result (λ reason. reason ≡ Reason.OutOfMemory) }
    {
        self.pieces.as_segmented().peek_bytes(alloc, len)
    }
}

/// Looks for the needle of a search, from where the last call stopped.
fn look_ahead(search: &mut Search, pieces: &PackedBuf) -> Ahead
    requires { IsSearchWithin search.old (concat pieces.now.held.segments) }
    ensures search { search.new ≡ record search.old { searched = result.len } }
    ensures ahead { IsAheadOfNeedle search.old.needle (concat pieces.now.held.segments) result }
{
    match search.find(pieces.as_segmented()) {
        Some(len) => {
            search.search_from(len);
            Ahead {
                len,
                has_come: true,
            }
        }
        None => Ahead {
            len: search.searched(),
            has_come: false,
        },
    }
}

/// Notes that the first `len` bytes were taken.
fn pass(search: &mut Search, len: usize)
    ensures { search.new ≡ record search.old { searched = search.old.searched - len } }
{
    search.search_from(search.searched().saturating_sub(len));
}
