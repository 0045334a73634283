//! Texts in the formats of `serde`: written as one text of the format, and read as it was written.
ghost use Rattle.std.specs.Prelude.{◌≡◌, IfOk};
ghost use Rattle.serde.specs.Event.{Logs, text};
ghost use Rattle.serde.specs.Steps.{Gives};

use crate::string::{Storage, Str, StrInner, StrMut};
use bytes::{Bytes, BytesMut};
use serde::{
    Described, Deserialize, DeserializeOwned, Deserializer, Format, Serialize, Serializer,
};
use std::alloc::Global;

impl<S: Storage> Described for StrInner<S> {
    ghost writes = { λ written old new. Logs old new (text written) };
}

/// Writes one text of the format.
impl<S: Storage> Serialize for StrInner<S> {
    fn serialize<W: Serializer>(&self, out: &mut W) -> Result<(), W::Error> {
        out.str(self.as_str())
    }
}

/// Reads the next text of the format, and keeps the block that the format read it into.
impl DeserializeOwned for StrInner<Bytes> {
    fn deserialize_owned<F: Format>(
        alloc: Global,
        from: &mut Deserializer<'_, '_, F>,
    ) -> Result<Str, F::Error>
        ensures { IfOk result (λ read. Gives F.gives from.old (text read) from.new) }
    {
        let read = from.string(alloc)?;
        Str::from_string(alloc, read).map_err(|_| from.no_memory())
    }
}

/// As `deserialize_owned`.
impl<'de> Deserialize<'de> for StrInner<Bytes> {
    fn deserialize<F: Format>(
        alloc: Global,
        from: &mut Deserializer<'de, '_, F>,
    ) -> Result<Str, F::Error>
        ensures { IfOk result (λ read. Gives F.gives from.old (text read) from.new) }
    {
        Str::deserialize_owned(alloc, from)
    }
}

/// Reads the next text of the format, and keeps the block that the format read it into.
impl DeserializeOwned for StrInner<BytesMut> {
    fn deserialize_owned<F: Format>(
        alloc: Global,
        from: &mut Deserializer<'_, '_, F>,
    ) -> Result<StrMut, F::Error>
        ensures { IfOk result (λ read. Gives F.gives from.old (text read) from.new) }
    {
        let read = from.string(alloc)?;
        Ok(StrMut::from(read))
    }
}

/// As `deserialize_owned`.
impl<'de> Deserialize<'de> for StrInner<BytesMut> {
    fn deserialize<F: Format>(
        alloc: Global,
        from: &mut Deserializer<'de, '_, F>,
    ) -> Result<StrMut, F::Error>
        ensures { IfOk result (λ read. Gives F.gives from.old (text read) from.new) }
    {
        StrMut::deserialize_owned(alloc, from)
    }
}
