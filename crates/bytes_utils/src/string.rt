//! Text over a storage whose bytes are UTF-8.

mod borrow;
mod build;
mod byte_str;
mod clone;
mod collect;
mod compare;
mod convert;
mod extend;
mod format;
mod freeze;
mod join;
mod join_texts;
mod literal;
mod owned;
mod serialize;
mod show;
mod slice;
mod storage;
mod text;
mod utf8_error;

pub use crate::split::{BytesIter, Direction};
use bytes::{Bytes, BytesMut};
pub use storage::{Storage, StorageMut};
pub use text::StrInner;
pub use utf8_error::Utf8Error;

/// Immutable text over shared bytes.
pub type Str = StrInner<Bytes>;

/// Text that grows, in bytes with one owner.
pub type StrMut = StrInner<BytesMut>;
