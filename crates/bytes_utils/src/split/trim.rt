//! A text without the white space at its ends.
ghost use Rattle.std.specs.Prelude.{◌≡◌, ◌<◌, length, IfOk, IfErr, OnErr};
ghost use Rattle.std.specs.Str.{trim, trim_start, trim_end, IsTrimStart, IsTrimEnd};
ghost use Rattle.bytes_utils.specs.Ends.{IsBetweenSpaceAtEnds};

use super::cut::{cut_before, cut_front};
use crate::string::{Storage, StrInner};
use bytes_utils_buf::Reason;

impl<S: Storage> StrInner<S> {
    /// Returns the text without the white space at both ends, as `str::trim` does: the characters
    /// with Unicode's property White_Space. Of white space alone the empty text is left.
    ///
    /// ```text
    /// let value = value.trim_bytes()?;   // `text/html` of ` text/html\r\n`
    /// ```
    ///
    /// A [`Str`](crate::Str) or a `StrMut` doesn't fail here. Another storage may, for its own
    /// reason, and only if white space is cut off; then the text is dropped.
    pub fn trim_bytes(self) -> Result<Self, Reason>
        ensures part { IfOk result (λ part. part ≡ trim self) }
        ensures place { IfOk result (λ part. IsBetweenSpaceAtEnds part self) }
        ensures err { OnErr result (length (trim self) < length self) }
        ensures reason { IfErr result S.refuses }
        ensures side { IfErr result S.refuses_side }
    {
        let text = self.as_str();
        let following = text.trim_start();
        let start = text.len() - following.len();
        let end = start + following.trim_end().len();
        let front = cut_front(self, end)?;
        cut_before(front, start)
    }

    /// Returns the text without the white space at its start, as `str::trim_start` does. Fails as
    /// `trim_bytes` does.
    pub fn trim_start_bytes(self) -> Result<Self, Reason>
        ensures part { IfOk result (λ part. part ≡ trim_start self) }
        ensures place { IfOk result (λ part. IsTrimStart self part) }
        ensures err { OnErr result (length (trim_start self) < length self) }
        ensures reason { IfErr result S.refuses }
        ensures side { IfErr result S.refuses_side }
    {
        let text = self.as_str();
        let start = text.len() - text.trim_start().len();
        cut_before(self, start)
    }

    /// Returns the text without the white space at its end, as `str::trim_end` does. Fails as
    /// `trim_bytes` does.
    pub fn trim_end_bytes(self) -> Result<Self, Reason>
        ensures part { IfOk result (λ part. part ≡ trim_end self) }
        ensures place { IfOk result (λ part. IsTrimEnd self part) }
        ensures err { OnErr result (length (trim_end self) < length self) }
        ensures reason { IfErr result S.refuses }
        ensures side { IfErr result S.refuses_side }
    {
        let end = self.as_str().trim_end().len();
        cut_front(self, end)
    }
}
