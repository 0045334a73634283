//! Bytes with one owner as a storage.
ghost use Rattle.std.specs.Prelude.{◌≡◌, ◌≤◌, [], ◌++◌, length, take, drop, IsOk, IfOk, IfErr, OnOk, OnErr};
ghost use Rattle.bytes_utils_buf.specs.declared.refused.Reason.TheVariants.{OutOfMemory};

use crate::string::{Storage, StorageMut};
use bytes::{Bytes, BytesMut};
use bytes_utils_buf::{Reason, Refused};
use std::alloc::{AllocError, Global};

impl Storage for BytesMut {
    type Creator = BytesMut;

    ghost stored = { λ s. s.items };

    ghost created = { λ c. c.items };

    ghost refuses = { λ reason. reason ≡ OutOfMemory };

    ghost refuses_empty = { λ _. ⊥ };

    ghost refuses_side = { λ _. ⊥ };

    fn empty(alloc: Global) -> Result<Self, Reason>
        ensures value { IfOk result (λ s. s.items ≡ []) }
        // It takes no memory.
        ensures succeeds { IsOk result }
    {
        Ok(BytesMut::new(alloc))
    }

    #[inline]
    fn as_bytes(&self) -> &[u8] {
        self.as_slice()
    }

    fn from_creator(creator: BytesMut) -> Result<Self, Refused<BytesMut>>
        ensures value { IfOk result (λ s. s ≡ creator) }
        // It takes no memory.
        ensures succeeds { IsOk result }
    {
        Ok(creator)
    }

    #[inline]
    fn split_at(mut self, at: usize) -> Result<(Self, Self), Refused<Self>> {
        if at == self.len() {
            // The room for more bytes stays with those that are there.
            let alloc = *self.allocator();
            return Ok((self, BytesMut::new(alloc)));
        }
        match self.split_to(at) {
            Ok(left) => Ok((left, self)),
            Err(_) => Err(Refused {
                reason: Reason::OutOfMemory,
                back: self,
            }),
        }
    }

    #[inline]
    fn into_front(mut self, at: usize) -> Result<Self, Refused<Self>>
        ensures value { IfOk result (λ front. front.items ≡ take at self.items) }
        // It takes no memory.
        ensures succeeds { IsOk result }
    {
        self.truncate(at);
        Ok(self)
    }

    #[inline]
    fn into_back(mut self, at: usize) -> Result<Self, Refused<Self>>
        requires { at ≤ length self.items }
        ensures value { IfOk result (λ back. back.items ≡ drop at self.items) }
        // It takes no memory.
        ensures succeeds { IsOk result }
    {
        self.advance(at);
        Ok(self)
    }
}

impl StorageMut for BytesMut {
    type Immutable = Bytes;

    #[inline]
    fn push_slice(&mut self, s: &[u8]) -> Result<(), Reason>
        ensures ok { OnOk result (self.new.items ≡ self.old.items ++ s.now) }
        ensures err { OnErr result (self.new.items ≡ self.old.items) }
        // It takes memory only for bytes that it has no room for.
        ensures room { length s.now ≤ self.old.spare → IsOk result }
        ensures empty { s.now ≡ [] → IsOk result }
        ensures reason { IfErr result (λ reason. reason ≡ OutOfMemory) }
    {
        match self.extend_from_slice(s) {
            Ok(()) => Ok(()),
            Err(AllocError) => Err(Reason::OutOfMemory),
        }
    }
}
