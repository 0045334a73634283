//! Shared bytes as a storage.
ghost use Rattle.std.specs.Prelude.{◌≡◌, ◌≤◌, [], length, take, drop, IsOk, IfOk};
ghost use Rattle.bytes_utils_buf.specs.declared.refused.Reason.TheVariants.{OutOfMemory};

use crate::string::Storage;
use bytes::{Bytes, BytesMut};
use bytes_utils_buf::{Reason, Refused};
use std::alloc::{AllocFailed, Global};

impl Storage for Bytes {
    type Creator = BytesMut;

    ghost stored = { λ s. s };

    ghost created = { λ c. c.items };

    ghost refuses = { λ reason. reason ≡ OutOfMemory };

    ghost refuses_empty = { λ _. ⊥ };

    ghost refuses_side = { λ _. ⊥ };

    fn empty(_alloc: Global) -> Result<Self, Reason>
        ensures value { IfOk result (λ s. s ≡ []) }
        // It takes no memory.
        ensures succeeds { IsOk result }
    {
        Ok(Bytes::new())
    }

    #[inline]
    fn as_bytes(&self) -> &[u8] {
        self.as_slice()
    }

    fn from_creator(creator: BytesMut) -> Result<Self, Refused<BytesMut>> {
        match creator.freeze() {
            Ok(bytes) => Ok(bytes),
            Err(AllocFailed { value }) => Err(Refused {
                reason: Reason::OutOfMemory,
                back: value,
            }),
        }
    }

    #[inline]
    fn split_at(mut self, at: usize) -> Result<(Self, Self), Refused<Self>> {
        match self.split_to(at) {
            Ok(left) => Ok((left, self)),
            Err(_) => Err(Refused {
                reason: Reason::OutOfMemory,
                back: self,
            }),
        }
    }

    #[inline(always)]
    fn into_front(mut self, at: usize) -> Result<Self, Refused<Self>>
        ensures value { IfOk result (λ front. front ≡ take at self) }
        // It takes no memory.
        ensures succeeds { IsOk result }
    {
        if at == 0 {
            // An empty piece keeps no block.
            return Ok(Bytes::new());
        }
        self.truncate(at);
        Ok(self)
    }

    #[inline]
    fn into_back(mut self, at: usize) -> Result<Self, Refused<Self>>
        requires { at ≤ length self }
        ensures value { IfOk result (λ back. back ≡ drop at self) }
        // It takes no memory.
        ensures succeeds { IsOk result }
    {
        if at == self.len() {
            // An empty piece keeps no block.
            return Ok(Bytes::new());
        }
        self.advance(at);
        Ok(self)
    }
}
