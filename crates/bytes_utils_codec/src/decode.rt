//! Items that a decoder takes off a stream that comes in pieces.
ghost use Rattle.std.specs.Prelude.{◌≡◌};
ghost use Rattle.bytes_utils_codec.specs.Decoding.{Decodes, DecodesAtEnd, DecoderAllLaw, DecoderRunLaw, DecoderWholeLaw, Decoding, IsSingle, IsStable, KeepsNext, Next, WaitsForItem, decoding};

mod delimited;
mod framed;
mod frames;
mod length_prefixed;
pub(crate) mod lines;
mod read;
mod too_long;
mod universal_lines;

use bytes_utils_buf::Reason;
use bytes_utils_buf::segmented::PackedBuf;
pub use delimited::{Delimited, delimited_laws};
pub use framed::Framed;
pub use frames::frame_laws;
pub use length_prefixed::LengthPrefixed;
pub use lines::{LineFault, Lines, line_laws};
pub use read::{ReadItemError, read_item_laws};
use std::alloc::Global;
pub use too_long::FrameTooLong;
pub use universal_lines::{UniversalLines, universal_line_laws};

/// A way to take items off the front of the bytes of a stream, such as frames of a protocol. Write
/// `decode` over the bytes that have come. [`Framed`] holds these, and makes a reader of it, whose
/// items don't depend on where the pieces were cut (`decoder_laws`).
///
/// The bytes are in a [`PackedBuf`]. Those that wait for more can be looked at before they are taken,
/// by `as_segmented` and the calls of `SegmentedBuf`.
///
/// The members that are ghosts say what a decoder does; the clauses and the last four are its laws.
/// If its state never changes but for the bytes that it holds, one relation and three facts give
/// them all: see `specs/Taking.antt`.
///
/// To try a decoder before it has laws (`rt try`), copy these members. They say that nothing ever
/// comes, so its laws hold, and no proof of its calls is found:
///
/// ```text
/// ghost gives = { λ old next new. ⊥ };
/// ghost waits = { λ old. ⊥ };
/// ghost fails = { λ old error. ⊥ };
/// ghost keeps = { λ old new. ⊥ };
/// ghost restarted = { λ decoder. decoder };
/// ghost stable = { λ old item new more given. given };
/// ghost single = { λ s next other x y one two. absurd one };
/// ghost awaits = { λ s waits item after given. given };
/// ghost same = { λ old new keeps. absurd keeps };
/// ```
pub trait Decoder: Sized + Drop {
    /// What is taken: a frame, or for a stream that goes on after a fault also the fault.
    type Item: Drop;

    /// Why no item is taken, other than that more bytes have to come.
    type Error: From<Reason> + Drop;

    // What comes next: of the decoder and the bytes before, and those after.
    ghost gives: { Decoding Self → Next Self.Item → Decoding Self → Type 0 };

    // What is true when more bytes have to come.
    ghost waits: { Decoding Self → Type 0 };

    // Why an error comes, at the end of the stream too.
    ghost fails: { Decoding Self → Self.Error → Type 0 };

    // Why an error comes at the end of the stream alone. By default none does.
    ghost fails_at_end: { Decoding Self → Self.Error → Type 0 } = { λ old error. ⊥ };

    // What a call that gives no item leaves: the state before it, and the one after it.
    ghost keeps: { Decoding Self → Decoding Self → Type 0 };

    // The decoder that begins at the front of the held bytes.
    ghost restarted: { Self → Self };

    /// Takes the next item, or returns `None` if more bytes have to come. If it returns `None` or an
    /// error, it may drop only bytes without which the same comes next. Requests for memory are made
    /// from `alloc`.
    fn decode(
        &mut self,
        alloc: Global,
        held: &mut PackedBuf,
    ) -> Result<Option<Self::Item>, Self::Error>
        ensures step { Decodes gives waits fails keeps (decoding self.old held.old) result
            (decoding self.new held.new) };

    /// Takes the next item at the end of the stream: also one that is ended by that alone. Returns
    /// `None` if there is none.
    fn decode_eof(
        &mut self,
        alloc: Global,
        held: &mut PackedBuf,
    ) -> Result<Option<Self::Item>, Self::Error>
        ensures step { DecodesAtEnd gives fails fails_at_end keeps (decoding self.old held.old) result
            (decoding self.new held.new) };

    /// Begins at the front of the held bytes, some of which the caller has taken.
    fn restart(&mut self)
        ensures { self.new ≡ restarted self.old };

    // Bytes that follow change no item that is there.
    ghost stable: { IsStable gives };

    // At most one thing comes next.
    ghost single: { IsSingle gives };

    // While it waits no item is there.
    ghost awaits: { WaitsForItem gives waits };

    // After a call that gave no item the same comes next.
    ghost same: { KeepsNext gives keeps };
}

/// The laws of a run of calls, of every decoder. Its items are the first of the joined pieces,
/// wherever these are cut and whenever items are asked for. Two runs over the same bytes after
/// which no item is left gave the same items, and at the end of the stream the same last one.
pub fn decoder_laws<D: Decoder>()
    ensures run { DecoderRunLaw D.Error D.gives D.waits D.fails D.keeps }
    ensures all { DecoderAllLaw D.gives }
    ensures whole { DecoderWholeLaw D.gives }
{}
