//! `try_clone`, and `Clone` for types that derive it.
ghost use Rattle.std.specs.Prelude.{◌≡◌, [], IsOk, IfOk, IfErr};

use crate::string::{Str, StrInner, StrMut};
use bytes::{Bytes, BytesMut};
use bytes_utils_buf::Reason;
use std::alloc::AllocError;

impl StrInner<Bytes> {
    /// Returns the same text, sharing the bytes. Fails with `OutOfMemory` if memory is refused, never
    /// for an empty text.
    pub fn try_clone(&self) -> Result<Str, Reason>
        ensures ok { IfOk result (λ copy. copy ≡ self.now) }
        ensures empty { self.now ≡ [] → IsOk result }
        ensures reason { IfErr result (λ reason. reason ≡ Reason.OutOfMemory) }
    {
        let Ok(storage) = self.storage.slice(0..self.storage.len()) else {
            return Err(Reason::OutOfMemory);
        };
        Ok(StrInner { storage })
    }
}

impl StrInner<BytesMut> {
    /// Copies the text. Fails with `OutOfMemory` if memory is refused, never for an empty text.
    pub fn try_clone(&self) -> Result<StrMut, Reason>
        ensures ok { IfOk result (λ copy. copy ≡ self.now) }
        ensures empty { self.now ≡ [] → IsOk result }
        ensures reason { IfErr result (λ reason. reason ≡ Reason.OutOfMemory) }
    {
        if self.storage.is_empty() {
            let alloc = *self.storage.allocator();
            return Ok(StrInner {
                storage: BytesMut::new(alloc),
            });
        }
        match self.storage.clone() {
            Ok(storage) => Ok(StrInner { storage }),
            Err(_) => Err(Reason::OutOfMemory),
        }
    }
}

/// Shares the bytes, as `try_clone`.
impl Clone for StrInner<Bytes> {
    ghost is_clone = { λ text copy. copy ≡ text };

    ghost is_infallible = { λ text. text ≡ [] };

    fn clone(&self) -> Result<Str, AllocError> {
        self.try_clone().map_err(|_| AllocError)
    }
}

/// Copies the text, as `try_clone`.
impl Clone for StrInner<BytesMut> {
    ghost is_clone = { λ text copy. copy ≡ text };

    ghost is_infallible = { λ text. text ≡ [] };

    fn clone(&self) -> Result<StrMut, AllocError> {
        self.try_clone().map_err(|_| AllocError)
    }
}
