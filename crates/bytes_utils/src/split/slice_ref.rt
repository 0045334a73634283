//! An owned part of a text, for a borrowed one.
ghost use Rattle.std.specs.Prelude.{◌≡◌, [], MatchOption, IsOk, IfOk, IfErr, OnErr};
ghost use Rattle.bytes_utils.specs.Occurrence.{Occurs};

use super::search::search_alone;
use crate::string::{Str, StrInner};
use bytes::Bytes;
use bytes_utils_buf::Reason;

impl StrInner<Bytes> {
    /// Returns an owned text that is `part` and shares the bytes of this text, or `None` if `part`
    /// doesn't occur in it. It makes a part owned that a method of `str` returned:
    ///
    /// ```text
    /// let name = line.slice_ref(line.trim())?;
    /// ```
    ///
    /// It looks for the bytes of `part` from the start of the text, and not for their address: so
    /// it takes the time of a search, and any text that occurs may be `part`. Fails with
    /// `OutOfMemory` if memory is refused, never for an empty part.
    pub fn slice_ref(&self, part: &str) -> Result<Option<Str>, Reason>
        ensures ok { IfOk result (λ found. MatchOption found (¬ Occurs part.now self.now)
            (λ text. text ≡ part.now)) }
        ensures err { OnErr result (Occurs part.now self.now) }
        ensures empty { part.now ≡ [] → IsOk result }
        ensures reason { IfErr result (λ reason. reason ≡ Reason.OutOfMemory) }
    {
        let Some(start) = search_alone(self.as_str(), part) else {
            return Ok(None);
        };
        Ok(Some(self.slice(start..start + part.len())?))
    }
}
