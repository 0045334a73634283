//! Joining owned texts with a separator between them.
ghost use Rattle.std.specs.Prelude.{◌≡◌, [], IsOk, IfOk, IfErr};
ghost use Rattle.bytes_utils.specs.Parts.{join};

use crate::string::{Str, StrInner, StrMut};
use bytes::Bytes;
use bytes_utils_buf::Reason;
use std::alloc::Global;

impl StrInner<Bytes> {
    /// Joins texts with `separator` between neighbours, as `join` of a slice. One text is shared,
    /// and no texts give the empty text. Fails with `OutOfMemory` if memory is refused, never if the
    /// joined text is empty.
    ///
    /// ```text
    /// let parts = [Str::from_static("usr"), Str::from_static("bin")];
    /// let path = Str::join_texts(alloc, &parts, "/")?;     // `usr/bin`
    /// ```
    pub fn join_texts(alloc: Global, texts: &[Str], separator: &str) -> Result<Str, Reason>
        ensures ok { IfOk result (λ text. text ≡ join separator.now texts.now) }
        ensures none { join separator.now texts.now ≡ [] → IsOk result }
        ensures reason { IfErr result (λ reason. reason ≡ Reason.OutOfMemory) }
    {
        match texts {
            [] => Ok(Str::empty()),
            [text] => text.try_clone(),
            _ => copy_joined_texts(alloc, texts, separator),
        }
    }
}

/// Copies the texts, with the separator between neighbours, into a block of their own.
fn copy_joined_texts(alloc: Global, texts: &[Str], separator: &str) -> Result<Str, Reason>
    ensures ok { IfOk result (λ text. text ≡ join separator.now texts.now) }
    ensures none { join separator.now texts.now ≡ [] → IsOk result }
    ensures reason { IfErr result (λ reason. reason ≡ Reason.OutOfMemory) }
{
    let mut joined = StrMut::new(alloc)?;
    let mut between = "";
    for text in texts {
        joined.push_str(between)?;
        joined.push_str(text.as_str())?;
        between = separator;
    }
    StrInner::from_built(joined)
}
