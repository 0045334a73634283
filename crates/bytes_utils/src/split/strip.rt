//! A text without what it begins with, or without what it ends with.
ghost use Rattle.std.specs.Prelude.{◌≡◌, [], ◌++◌, MatchOption, IsOk, IfOk, IfErr, OnErr};
ghost use Rattle.bytes_utils.specs.Ends.{BeginsWith, EndsWith};

use super::cut::{cut_before, cut_front};
use crate::string::{Storage, StrInner};
use bytes_utils_buf::Reason;

impl<S: Storage> StrInner<S> {
    /// Returns the text after `prefix`, as `str::strip_prefix` does, or `None` if the text doesn't
    /// begin with it; then the text is dropped (test: `starts_with`).
    ///
    /// ```text
    /// let Some(name) = path.strip_prefix_bytes("/users/")? else { .. };
    /// ```
    ///
    /// A [`Str`](crate::Str) or a `StrMut` doesn't fail here. Another storage may, for its own
    /// reason, and only if the text begins with a prefix that isn't empty; then the text is dropped.
    pub fn strip_prefix_bytes(self, prefix: &str) -> Result<Option<Self>, Reason>
        ensures rest { IfOk result (λ cut. MatchOption cut (¬ BeginsWith prefix.now self)
            (λ following. prefix.now ++ following ≡ self)) }
        ensures err { OnErr result (BeginsWith prefix.now self) }
        ensures empty { prefix.now ≡ [] → IsOk result }
        ensures reason { IfErr result S.refuses }
        ensures side { IfErr result S.refuses_side }
    {
        let text = self.as_str();
        let Some(following) = text.strip_prefix(prefix) else {
            return Ok(None);
        };
        let start = text.len() - following.len();
        Ok(Some(cut_before(self, start)?))
    }

    /// Returns the text before `suffix`, as `str::strip_suffix` does, or `None` if the text doesn't
    /// end with it; then the text is dropped (test: `ends_with`). Fails as `strip_prefix_bytes`
    /// does, and only if the text ends with a suffix that isn't empty; then the text is dropped.
    pub fn strip_suffix_bytes(self, suffix: &str) -> Result<Option<Self>, Reason>
        ensures rest { IfOk result (λ cut. MatchOption cut (¬ EndsWith suffix.now self)
            (λ before. before ++ suffix.now ≡ self)) }
        ensures err { OnErr result (EndsWith suffix.now self) }
        ensures empty { suffix.now ≡ [] → IsOk result }
        ensures reason { IfErr result S.refuses }
        ensures side { IfErr result S.refuses_side }
    {
        let Some(before) = self.as_str().strip_suffix(suffix) else {
            return Ok(None);
        };
        let end = before.len();
        Ok(Some(cut_front(self, end)?))
    }
}
