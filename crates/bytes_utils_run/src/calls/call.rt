//! Calls on a buffer, and what comes of them.
use bytes::Bytes;

/// A call that reads a buffer.
#[derive(Clone, Copy, Debug, Eq, PartialEq)]
pub enum ReadCall {
    /// Asks for the number of unread bytes.
    Remaining,
    /// Copies the first chunk, which is empty only if no byte is unread.
    Chunk,
    /// Skips this number of bytes.
    Advance(usize),
    /// Takes this number of bytes out.
    CopyOut(usize),
    /// Copies the slices that a table with this number of places is filled with.
    Chunks(usize),
}

/// A call on a [`SegmentedBuf`](bytes_utils::SegmentedBuf).
#[derive(Debug, Drop)]
pub enum Call<B> {
    /// Appends a buffer.
    Push(B),
    /// Asks for the number of segments that are held.
    Segments,
    /// Reads.
    Read(ReadCall),
}

/// The outcome of a call.
#[derive(Debug, Drop)]
pub enum Reply {
    /// The call was made.
    Done,
    /// The call asked for more bytes than are unread. Nothing has changed.
    PastEnd,
    /// With the buffer the length would pass `usize::MAX`. Nothing has changed, and the buffer is
    /// dropped.
    TooLong,
    /// Memory was refused. Nothing has changed, and a buffer to append is dropped.
    NoMemory,
    /// A copy was refused, and this number of bytes is lost.
    CopyStopped(usize),
    /// The number of bytes or segments.
    Number(usize),
    /// The bytes that were taken out.
    Piece(Bytes),
    /// A copy of a chunk.
    Shown(Vec<u8>),
    /// Copies of slices, none of them empty.
    Slices(Vec<Vec<u8>>),
}
