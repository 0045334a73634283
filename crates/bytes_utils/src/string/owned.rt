//! Calls of `StrMut` alone.
ghost use Rattle.std.specs.Prelude.{◌≡◌, [], map, IsOk, IfOk, IfErr, OnOk, OnErr};
ghost use Rattle.std.specs.Char.{to_ascii_uppercase, to_ascii_lowercase};

use crate::string::{StrInner, StrMut};
use bytes::BytesMut;
use bytes_utils_buf::Reason;

impl StrInner<BytesMut> {
    /// Moves the text out and returns it; an empty text remains. Fails with `OutOfMemory` if memory
    /// is refused, never for an empty text; then nothing has changed.
    pub fn split_built(&mut self) -> Result<StrMut, Reason>
        ensures ok { IfOk result (λ built. built ≡ self.old) }
        ensures rest { OnOk result (self.new ≡ []) }
        ensures err { OnErr result (self.new ≡ self.old) }
        ensures empty { self.old ≡ [] → IsOk result }
        ensures reason { IfErr result (λ reason. reason ≡ Reason.OutOfMemory) }
    {
        match self.storage.split() {
            Ok(storage) => Ok(StrInner { storage }),
            Err(_) => Err(Reason::OutOfMemory),
        }
    }

    /// Replaces `a` to `z` by `A` to `Z`. It takes no memory and never fails.
    pub fn make_ascii_uppercase(&mut self) -> Result<(), Reason>
        ensures ok { self.new ≡ map to_ascii_uppercase self.old }
        ensures succeeds { IsOk result }
    {
        self.storage.as_mut_slice().make_ascii_uppercase();
        Ok(())
    }

    /// Replaces `A` to `Z` by `a` to `z`. It takes no memory and never fails.
    pub fn make_ascii_lowercase(&mut self) -> Result<(), Reason>
        ensures ok { self.new ≡ map to_ascii_lowercase self.old }
        ensures succeeds { IsOk result }
    {
        self.storage.as_mut_slice().make_ascii_lowercase();
        Ok(())
    }
}
