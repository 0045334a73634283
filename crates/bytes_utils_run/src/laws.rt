//! Laws: theorems about the definitions of parts, as functions to call.
//!
//! A law is a function without parameters that does nothing. Its contract is a statement about the
//! definitions that other contracts name. A caller that calls it can conclude more from those
//! contracts. A type parameter is the type of the elements. A law without one is about texts or
//! about splitters. Separators aren't empty, unless a law says so.
ghost use Rattle.bytes_utils_run.specs.Laws.{ExactlyOne, UniqueLaw, MirrorLaw, AgreeLaw};
ghost use Rattle.bytes_utils_run.specs.Laws.{LimitLaw, JoinLaw, OneToComeLaw};
ghost use Rattle.bytes_utils_run.specs.Laws.{ComeBackLaw, TextsComeBackLaw, PartPlacesLaw};
ghost use Rattle.std.specs.Prelude.{◌≡◌, ◌<◌, ℕ, Bool, List, length, reverse};
ghost use Rattle.std.specs.Str.{chars, IsAscii};
ghost use Rattle.bytes_utils.specs.Indices.{AreIndexedPartsToCome};
ghost use Rattle.bytes_utils.specs.Keeping.{AreInclusivePartsToCome};
ghost use Rattle.bytes_utils.specs.Lines.{AreLinesToCome};
ghost use Rattle.bytes_utils.specs.Parts.{AreForwardParts, AreBackwardParts, AreInclusiveParts};
ghost use Rattle.bytes_utils.specs.Parts.{ArePartsFromFront, ArePartsFromBack};
ghost use Rattle.bytes_utils.specs.Splitting.{AreForwardPartsToCome, AreBackwardPartsToCome};
ghost use Rattle.bytes_utils.specs.Words.{AreWordsToCome};
ghost use Rattle.bytes_utils_run.specs.LineEnds.{LineEndsLaw};
ghost use Rattle.bytes_utils_run.specs.WordRuns.{WordRunsLaw};

pub mod borrowed;

/// A text has exactly one list of parts from the front, with a limit of at least 1 or none. So all
/// runs of `split` or `splitn` that aren't refused give the same parts, in any implementation, even
/// if the separator overlaps itself.
pub fn unique_forward<X>()
    ensures { UniqueLaw X AreForwardParts }
{}

/// A text has exactly one list of parts from the back, with a limit of at least 1 or none. This is
/// the law of `rsplit` and `rsplitn`.
pub fn unique_backward<X>()
    ensures { UniqueLaw X AreBackwardParts }
{}

/// A text has exactly one list of parts that keep the separator at their ends. This is the law of
/// `split_inclusive`.
pub fn unique_inclusive<X>()
    ensures { (t p : List X) → 0 < length p → ExactlyOne (AreInclusiveParts t p) }
{}

/// The parts from the back are the parts from the front of the reversed text by the reversed
/// separator, each part reversed.
pub fn mirror<X>()
    ensures { MirrorLaw X }
{}

/// If no two occurrences of the separator overlap in the text, both ways to split give the same
/// parts, in opposite orders. In `ababa` two occurrences of `aba` overlap, and the parts differ.
pub fn agree<X>()
    ensures { AgreeLaw X }
{}

/// A limit `n` of at least 1 changes nothing if there are at most `n` parts. Otherwise it keeps the
/// first `n - 1` parts, and the last part is the rest of the text, not split.
pub fn limits<X>()
    ensures forward { LimitLaw X AreForwardParts (λ parts. parts) }
    ensures backward { LimitLaw X AreBackwardParts reverse }
{}

/// The parts between separators, joined by the separator, are the text: for every separator, even
/// the empty one, and a limit of at least 1 or none. Parts from the back are joined in reverse.
#[tactic(auto, using(bytes_utils::proofs::Rejoining::front_rejoins, bytes_utils::proofs::Rejoining::back_rejoins))]
pub fn rejoin<X>()
    ensures forward { JoinLaw X ArePartsFromFront (λ parts. parts) }
    ensures backward { JoinLaw X ArePartsFromBack reverse }
{}

/// Parts that are joined by a separator and split again from the front come back unchanged if and
/// only if they are separable (`AreSeparable`). It isn't enough that no part holds the separator:
/// `a-` and `b`, joined by `--`, come back as `a` and `-b`. It is enough for one part or more and a
/// separator of one element.
pub fn come_back<X>()
    ensures { ComeBackLaw X }
{}

/// The same for texts, joined by `join` and split by `split_bytes`.
#[tactic(auto, using(bytes_utils::proofs::Separable::texts_come_back))]
pub fn texts_come_back()
    ensures { TextsComeBackLaw }
{}

/// In each state of a splitter at most one list of parts is still to come. So the parts that a run
/// gave are the ones that were to come when it began.
#[tactic(auto, using(bytes_utils::proofs::ToCome::one_forward, bytes_utils::proofs::ToCome::one_indexed, bytes_utils::proofs::ToCome::one_backward, bytes_utils::proofs::ToCome::one_inclusive, bytes_utils::proofs::ToCome::one_of_lines, bytes_utils::proofs::ToCome::one_of_words))]
pub fn one_to_come()
    ensures forward { OneToComeLaw AreForwardPartsToCome }
    ensures indexed { OneToComeLaw AreIndexedPartsToCome }
    ensures backward { OneToComeLaw AreBackwardPartsToCome }
    ensures inclusive { OneToComeLaw AreInclusivePartsToCome }
    ensures lines { OneToComeLaw AreLinesToCome }
    ensures words { (is_space : ℕ → Bool) → OneToComeLaw (AreWordsToCome is_space) }
{}

/// Each part of a text occurs in the text at the place that `indices` pairs with it: for every
/// separator, even the empty one, and every limit.
#[tactic(auto, using(bytes_utils::proofs::IndicesLemmas::part_places))]
pub fn part_places()
    ensures { PartPlacesLaw }
{}

/// The characters of an ASCII text, such as a separator in source code, are its bytes.
pub fn ascii_characters()
    ensures { (bytes : List ℕ) → IsAscii bytes → chars bytes ≡ bytes }
{}

/// The words of a text are its maximal runs of characters that aren't white space.
#[tactic(auto, using(crate::proofs::WordRunsLemmas::words_law))]
pub fn words_are_runs()
    ensures { WordRunsLaw }
{}

/// The lines of a text, each followed by its line end, make up the text. No other lines do.
#[tactic(auto, using(crate::proofs::LineEndsLemmas::lines_law))]
pub fn lines_have_ends()
    ensures { LineEndsLaw }
{}
