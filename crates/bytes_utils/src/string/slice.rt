//! Parts of a `Str`, which leave it as it is.
ghost use Rattle.std.specs.Prelude.{◌≡◌, ◌≤◌, length, take, drop, slice_range, IsCharBoundary, IsOk, IfOk, IfErr};

use crate::string::{Str, StrInner};
use bytes::Bytes;
use bytes_utils_buf::Reason;
use std::ops::Range;

impl StrInner<Bytes> {
    /// Returns the text from byte `range.start` to byte `range.end`, sharing the bytes. Requires
    /// that the range is not reversed and that both are character boundaries (test:
    /// `as_str().is_char_boundary`). Fails with `OutOfMemory` if memory is refused, never for an
    /// empty range.
    #[tactic(auto, using(crate::proofs::Building::pieces))]
    pub fn slice(&self, range: Range<usize>) -> Result<Str, Reason>
        requires ordered { range.start ≤ range.end }
        requires start { IsCharBoundary self.now range.start }
        requires end { IsCharBoundary self.now range.end }
        ensures ok { IfOk result (λ part. part ≡ slice_range self.now range.start range.end) }
        ensures empty { range.start ≡ range.end → IsOk result }
        ensures reason { IfErr result (λ reason. reason ≡ Reason.OutOfMemory) }
    {
        match self.storage.slice(range) {
            Ok(storage) => Ok(StrInner { storage }),
            Err(_) => Err(Reason::OutOfMemory),
        }
    }

    /// As `slice`, from byte `start` to the end of the text.
    pub fn slice_from(&self, start: usize) -> Result<Str, Reason>
        requires { IsCharBoundary self.now start }
        ensures ok { IfOk result (λ part. part ≡ drop start self.now) }
        ensures empty { start ≡ length self.now → IsOk result }
        ensures reason { IfErr result (λ reason. reason ≡ Reason.OutOfMemory) }
    {
        self.slice(start..self.as_str().len())
    }

    /// As `slice`, from the start of the text to byte `end`.
    #[tactic(auto, using(crate::proofs::Building::start))]
    pub fn slice_to(&self, end: usize) -> Result<Str, Reason>
        requires { IsCharBoundary self.now end }
        ensures ok { IfOk result (λ part. part ≡ take end self.now) }
        ensures empty { end ≡ 0 → IsOk result }
        ensures reason { IfErr result (λ reason. reason ≡ Reason.OutOfMemory) }
    {
        // The contract of `as_str` says that the bytes are UTF-8.
        let _ = self.as_str();
        self.slice(0..end)
    }
}
