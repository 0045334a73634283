//! The example of the README, as it is there.
mod tests;

use bytes::Bytes;
use bytes_utils::{Reason, Str};
use bytes_utils_codec::decode::{Framed, LineFault, Lines};

/// A line, or why there is no text of it: it is too long, or not UTF-8.
type Line = Result<Str, LineFault>;

/// Adds a piece, and returns the next line, or `None` while its end hasn't come. For more call
/// `lines.next_item`. After an error of `push` the piece is lost.
fn next_line(lines: &mut Framed<Lines>, piece: Bytes) -> Result<Option<Line>, Reason> {
    lines.push(piece)?;
    lines.next_item()
}
