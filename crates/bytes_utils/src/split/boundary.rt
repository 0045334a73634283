//! The law that a separator's bytes occur in a text's bytes exactly where its characters occur in
//! the text.
ghost use Rattle.bytes_utils.specs.Occurrence.{OccurrenceBoundariesLaw};

/// States, for a separator that isn't empty, that its bytes occur in a text's bytes exactly at the
/// places at which its characters occur in the text. Both are UTF-8, which is self-synchronizing
/// (RFC 3629). So a search among bytes finds each occurrence among characters, and no other. The
/// call does nothing.
#[tactic(auto, using(crate::proofs::Boundaries::boundaries_law))]
pub fn boundaries()
    ensures { OccurrenceBoundariesLaw }
{}
