//! The laws of frames.
ghost use Rattle.bytes_utils_codec.specs.Frames.{AllFramesLaw, FramePartsLaw, PutFramesLaw, SameFramesLaw, TextFramesLaw};

/// The laws of the frames of bytes, each ended by a separator. With the bytes after them they are
/// the parts between separators, as `str::split` has them. There is one list of them. Frames written
/// with a separator after each are taken out again, exactly if the first separator in each of them
/// is the one at its end.
#[tactic(auto, using(crate::proofs::FramesLemmas::frame_laws))]
pub fn frame_laws()
    ensures parts { FramePartsLaw }
    ensures text { TextFramesLaw }
    ensures same { SameFramesLaw }
    ensures all { AllFramesLaw }
    ensures put { PutFramesLaw }
{}
