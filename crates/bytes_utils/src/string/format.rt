//! Formatting into a text.
ghost use Rattle.std.specs.Prelude.{◌≡◌, [], ◌++◌, IsOk, IfOk, IfSome, OnErr};

use crate::string::{Storage, StorageMut, StrInner};
use std::alloc::Global;
use std::fmt;

/// Appends all of a string or nothing, and always an empty one. Any refusal of the storage is an
/// `fmt::Error`.
impl<S: StorageMut> fmt::Write for StrInner<S> {
    ghost write_str_gives = { λ text s after. after ≡ text ++ s };

    fn write_str(&mut self, s: &str) -> fmt::Result
        ensures ok { IsOk result → self.new ≡ self.old ++ s.now }
        ensures err { OnErr result (self.new ≡ self.old) }
        ensures empty { s.now ≡ [] → IsOk result }
    {
        match self.push_str(s) {
            Ok(()) => Ok(()),
            Err(_) => Err(fmt::Error),
        }
    }
}

impl<S: Storage> StrInner<S>
where
    S::Creator: StorageMut,
{
    /// Formats `value` into a new text, which is what `D` says that it writes, if it says so. The
    /// macros call it. Requires what `from_str` requires. Fails with `fmt::Error` if `value` does so
    /// or the storage refuses.
    pub fn format<D: fmt::Display + Drop>(alloc: Global, value: D) -> Result<Self, fmt::Error>
        requires creator { (c : S.Creator) → S.created c ≡ S.Creator.stored c }
        ensures ok { IfOk result (λ text. IfSome (D.output value) (λ written. text ≡ written)) }
    {
        let Ok(text) = StrInner::<S::Creator>::new(alloc) else {
            return Err(fmt::Error);
        };
        let mut f = fmt::Formatter::new(text);
        f.write(value)?;
        match StrInner::from_built(f.into_inner()) {
            Ok(text) => Ok(text),
            Err(_) => Err(fmt::Error),
        }
    }
}

/// Formats into a `Str`: `format_bytes!(alloc; "..", ..)`. Fails with `fmt::Error` if memory is
/// refused or an argument does so.
#[macro_export]
macro_rules! format_bytes {
    ($alloc:expr; $($arg:tt)+) => {
        $crate::Str::format($alloc, format_args!($($arg)+))
    };
}

/// As `format_bytes!`, into a `StrMut`.
#[macro_export]
macro_rules! format_bytes_mut {
    ($alloc:expr; $($arg:tt)+) => {
        $crate::StrMut::format($alloc, format_args!($($arg)+))
    };
}
