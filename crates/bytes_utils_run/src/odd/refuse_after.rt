//! A storage that grants a limited number of splits.
ghost use Rattle.std.specs.Prelude.{◌≡◌, ◌⊎◌, ◌-◌, ◌^◌, ◌<◌, ◌≤◌, length, take, drop, [], IsErr, IsOk, IsOkAnd, IfOk, IfErr};
ghost use Rattle.bytes_utils_buf.specs.declared.refused.Reason.TheVariants.{OutOfMemory};

use bytes::{Bytes, BytesMut};
use bytes_utils::string::Storage;
use bytes_utils::{Reason, Refused};
use std::alloc::{AllocFailed, Global};
use std::marker::Model;

/// Shared bytes that grant a limited number of splits, and refuse the next as if memory were short.
///
/// With no split left, a split fails with [`Reason::OutOfMemory`], as it does if memory is refused.
/// Otherwise one at an end of the bytes never fails; the left piece grants one split less than before,
/// and the right piece two less, or none. So a splitter that makes two splits a step makes exactly as
/// many splits as were granted.
#[derive(Drop)]
pub struct RefuseAfter {
    bytes: Bytes,
    splits: usize,
}

impl Model for RefuseAfter {
    ghost use Rattle.bytes_utils_run.specs.Odd.{OddStorage};

    ghost Value = { OddStorage };

    ghost view = { λ s. record { stored = s.bytes; granted = s.splits } };
}

impl RefuseAfter {
    /// Makes a storage of these bytes that grants `splits` splits.
    pub fn new(bytes: Bytes, splits: usize) -> RefuseAfter
        ensures { result ≡ record { stored = bytes; granted = splits } }
    {
        RefuseAfter { bytes, splits }
    }
}

/// A storage made by `empty` or `from_creator` grants the greatest number of splits.
impl Storage for RefuseAfter {
    type Creator = BytesMut;

    ghost stored = { λ s. s.stored };

    ghost created = { λ c. c.items };

    ghost refuses = { λ reason. reason ≡ OutOfMemory };

    ghost refuses_empty = { λ reason. reason ≡ OutOfMemory };

    ghost refuses_side = { λ reason. reason ≡ OutOfMemory };

    fn empty(_alloc: Global) -> Result<Self, Reason>
        ensures value { IsOkAnd result (λ s. s ≡ record { stored = []; granted = 2 ^ 64 - 1 }) }
        ensures reason { IfErr result (λ reason. reason ≡ OutOfMemory) }
    {
        Ok(RefuseAfter::new(Bytes::new(), usize::MAX))
    }

    fn as_bytes(&self) -> &[u8] {
        self.bytes.as_slice()
    }

    fn from_creator(creator: BytesMut) -> Result<Self, Refused<BytesMut>>
        ensures ok { IfOk result
            (λ s. s ≡ record { stored = creator.items; granted = 2 ^ 64 - 1 }) }
        ensures err { IfErr result (λ e. e.back.items ≡ creator.items) }
        ensures none { creator.items ≡ [] → IsOk result }
        ensures reason { IfErr result (λ e. e.reason ≡ OutOfMemory) }
    {
        match creator.freeze() {
            Ok(bytes) => Ok(RefuseAfter::new(bytes, usize::MAX)),
            Err(AllocFailed { value }) => Err(Refused {
                reason: Reason::OutOfMemory,
                back: value,
            }),
        }
    }

    fn split_at(mut self, at: usize) -> Result<(Self, Self), Refused<Self>>
        requires { at ≤ length self.stored }
        ensures left { IfOk result (λ pieces. pieces.0
            ≡ record { stored = take at self.stored; granted = self.granted - 1 }) }
        ensures right { IfOk result (λ pieces. pieces.1
            ≡ record { stored = drop at self.stored; granted = self.granted - 2 }) }
        ensures none_left { self.granted ≡ 0 → IsErr result }
        ensures ends { 0 < self.granted → (at ≡ 0) ⊎ (at ≡ length self.stored) → IsOk result }
        ensures err { IfErr result (λ e. e.back ≡ self) }
        ensures reason { IfErr result (λ e. e.reason ≡ OutOfMemory) }
    {
        if self.splits == 0 {
            return Err(Refused {
                reason: Reason::OutOfMemory,
                back: self,
            });
        }
        match self.bytes.split_to(at) {
            Ok(left) => {
                let left = RefuseAfter::new(left, self.splits - 1);
                let right = RefuseAfter::new(self.bytes, self.splits.saturating_sub(2));
                Ok((left, right))
            }
            Err(_) => Err(Refused {
                reason: Reason::OutOfMemory,
                back: self,
            }),
        }
    }

    fn into_front(self, at: usize) -> Result<Self, Refused<Self>>
        requires { at ≤ length self.stored }
        ensures front { IfOk result (λ front. front
            ≡ record { stored = take at self.stored; granted = self.granted - 1 }) }
        ensures none_left { self.granted ≡ 0 → IsErr result }
        ensures ends { 0 < self.granted → (at ≡ 0) ⊎ (at ≡ length self.stored) → IsOk result }
        ensures err { IfErr result (λ e. e.back ≡ self) }
        ensures reason { IfErr result (λ e. e.reason ≡ OutOfMemory) }
    {
        let (front, _) = self.split_at(at)?;
        Ok(front)
    }

    fn into_back(self, at: usize) -> Result<Self, Refused<Self>>
        requires { at ≤ length self.stored }
        ensures back { IfOk result (λ back. back
            ≡ record { stored = drop at self.stored; granted = self.granted - 2 }) }
        ensures none_left { self.granted ≡ 0 → IsErr result }
        ensures ends { 0 < self.granted → (at ≡ 0) ⊎ (at ≡ length self.stored) → IsOk result }
        ensures err { IfErr result (λ e. e.back ≡ self) }
        ensures reason { IfErr result (λ e. e.reason ≡ OutOfMemory) }
    {
        let (_, back) = self.split_at(at)?;
        Ok(back)
    }
}
