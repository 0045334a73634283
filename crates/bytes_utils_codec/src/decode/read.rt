//! Items read from a reader.
ghost use Rattle.std.specs.Prelude.{◌≡◌, ◌⊎◌, None, Some, IfOk, IfErr, IfSome, IfNone, OnErr};
ghost use Rattle.std.specs.Bool.{OnFalse};
ghost use Rattle.std.specs.Io.KnownBytes.{IsAtEnd};
ghost use Rattle.bytes_utils_codec.specs.Decoding.{Decodes, DecodesAtEnd, IsFedBy, Item, Last};
ghost use Rattle.bytes_utils_codec.specs.ReadItem.{IsItemDue, IsReadItemErrorOfDecoder, IsReadDue, ReadItemsLaw, ReadSameLaw, ReadWholeLaw, ReadsMore, ReadsNext};

mod error;

use super::{Decoder, Framed};
pub use error::ReadItemError;
use std::io::{ErrorKind, Read};

/// The number of reads that one call makes at most.
const MOST_READS: usize = 65_536;

impl<D: Decoder> Framed<D> {
    /// Returns the next item: one that the held bytes have, or else what is read until there is one.
    /// At the end of the input it is the item that this end ends, or `None`. Each read is one of
    /// `read_from`, and is made again if it was interrupted. Fails with a [`ReadItemError`]; then
    /// only bytes that the decoder skips are gone, and the call can be made again.
    pub fn read_item<R: Read>(
        &mut self,
        input: &mut R,
    ) -> Result<Option<D::Item>, ReadItemError<D::Error>>
        ensures item { IfOk result (λ next. IfSome next (λ item.
            ReadsNext D.gives (R.remaining input.old) (R.remaining input.new) self.old (Item item) self.new
            ⊎ (IsAtEnd (R.remaining input.new) × ReadsNext D.gives
            (R.remaining input.old) (R.remaining input.new) self.old (Last (Some item)) self.new))) }
        ensures end { IfOk result (λ next. IfNone next (IsAtEnd (R.remaining input.new) × ReadsNext D.gives
            (R.remaining input.old) (R.remaining input.new) self.old (Last None) self.new)) }
        ensures none_lost { OnErr result (ReadsMore D.gives
            (R.remaining input.old) (R.remaining input.new) self.old self.new) }
        ensures due { IfErr result
            (IsItemDue D.waits D.fails D.fails_at_end D.keeps (R.remaining input.new) self.new) }

        // Unless the decoder waits for more bytes, nothing is read, and the only error is the
        // decoder's.
        ensures unread { (¬ D.waits self.old) → input.new ≡ input.old }
        ensures at_once { (¬ D.waits self.old) → IfErr result (IsReadItemErrorOfDecoder D.fails self.old) }
    {
        if let Some(held) = self.held_item()? {
            return Ok(Some(held));
        }
        for _ in 0..MOST_READS {
            if !self.read_more(input)? {
                return self.end_item();
            }
            if let Some(item) = self.held_item()? {
                return Ok(Some(item));
            }
        }
        Err(ReadItemError::TooManyReads)
    }

    /// Makes one read, and returns whether the input goes on. No byte comes of an interrupted read.
    fn read_more<R: Read>(&mut self, input: &mut R) -> Result<bool, ReadItemError<D::Error>>
        ensures read { IsFedBy (R.remaining input.old) (R.remaining input.new) self.old self.new }
        ensures end { IfOk result (λ goes_on. OnFalse goes_on (IsAtEnd (R.remaining input.new))) }
        ensures same { IfOk result (λ goes_on. OnFalse goes_on (self.new ≡ self.old)) }
        ensures err { OnErr result (self.new ≡ self.old) }
        ensures due { IfErr result IsReadDue }
    {
        match self.read_from(input) {
            Ok(count) => Ok(count > 0),
            Err(error) if error.kind() == ErrorKind::Interrupted => Ok(true),
            Err(error) => Err(ReadItemError::Io(error)),
        }
    }

    /// Returns the next item that the held bytes have.
    fn held_item(&mut self) -> Result<Option<D::Item>, ReadItemError<D::Error>>
        ensures { Decodes D.gives D.waits (IsReadItemErrorOfDecoder D.fails) D.keeps
            self.old result self.new }
    {
        match self.next_item() {
            Ok(next) => Ok(next),
            Err(error) => Err(ReadItemError::Decoder(error)),
        }
    }

    /// Returns the item that the end of the input ends.
    fn end_item(&mut self) -> Result<Option<D::Item>, ReadItemError<D::Error>>
        ensures { DecodesAtEnd D.gives (IsReadItemErrorOfDecoder D.fails)
            (IsReadItemErrorOfDecoder D.fails_at_end) D.keeps self.old result self.new }
    {
        match self.last_item() {
            Ok(last) => Ok(last),
            Err(error) => Err(ReadItemError::Decoder(error)),
        }
    }
}

/// The laws of a run of calls of `read_item`, of every decoder. Its items are those of the bytes that
/// were read, however these were divided into reads, and at the end of the input so is the last one.
pub fn read_item_laws<D: Decoder>()
    ensures run { ReadItemsLaw D.gives }
    ensures whole { ReadWholeLaw D.gives }
    ensures same { ReadSameLaw D.gives }
{}
