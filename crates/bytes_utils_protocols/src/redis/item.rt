//! The items of replies.
ghost use Rattle.std.specs.Prelude.{◌≡◌};
ghost use Rattle.bytes_utils_protocols.specs.Redis.{redis_items_in};

use bytes::Bytes;

/// A part of a reply. A reply is one item, or an array and then its items, each of which may be an
/// array too.
#[derive(Debug, Drop)]
pub enum Item {
    /// A short text in one line, as `OK`.
    Simple(Bytes),
    /// An error, in one line.
    Error(Bytes),
    /// An integer.
    Integer(i64),
    /// Bytes of any kind, or null.
    Bulk(Option<Bytes>),
    /// An array, with the number of items that follow as its own, or null.
    Array(Option<usize>),
}

/// The number of items that follow as those of this one.
pub(super) fn redis_items_in(item: &Item) -> usize
    ensures { result ≡ redis_items_in item.now }
{
    match item {
        Item::Array(Some(count)) => *count,
        _ => 0,
    }
}
