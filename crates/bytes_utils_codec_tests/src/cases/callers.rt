//! Callers of several crates: messages off a reader, headers, bodies, and buffers that are written.
mod tests;

use bytes::{Buf, Bytes};
use bytes_utils::{Reason, SegmentedBuf, Str};
use bytes_utils_codec::decode::{FrameTooLong, Framed, LengthPrefixed, ReadItemError};
use std::alloc::Global;
use std::io::{self, Read, Write};

/// Reads the next message, which comes after its length, or returns `None` at the end of the input.
fn message<R: Read>(
    input: &mut R,
    messages: &mut Framed<LengthPrefixed>,
) -> Result<Option<Result<Bytes, FrameTooLong>>, ReadItemError<Reason>> {
    messages.read_item(input) // after an error the call can be made again: no byte is lost
}

/// Splits a line such as `Host: example.org` into name and value.
fn header(line: Str) -> Result<Option<(Str, Str)>, Reason> {
    let (name, value) = line.split_once_bytes(": ")?;
    Ok(value.map(|value| (name, value))) // owned: they outlive the line
}

/// Takes a body of `len` bytes out of `came`, or returns `None` until all of it has arrived.
fn body(
    alloc: Global,
    came: &mut SegmentedBuf<Bytes>,
    len: usize,
) -> Result<Option<Bytes>, Reason> {
    if came.remaining() < len {
        return Ok(None);
    }
    Ok(Some(came.copy_to_bytes(alloc, len)?)) // shared if in one piece; an error may lose it
}

/// Writes all of `came`, small pieces together. After an error, `came` holds what wasn't written.
fn send<W: Write>(out: &mut W, came: &mut SegmentedBuf<Bytes>) -> io::Result<()> {
    bytes_utils::write::write_all_of(out, came)?;
    out.flush()
}
