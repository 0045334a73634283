//! What each call returns if a request for memory is refused, and that the cursor stays then.
use super::assert_cursor_rows;
use crate::cases::fixtures::in_segments;

/// Bytes in two segments.
const PIECES: &[&[u8]] = &[b"0123456789", b"0123456789\nab"];

/// Rows of new cursors. A search asks for no memory, and what is before the needles of the last row is shared: of these
/// calls none is refused.
const ROWS: &str = "\
take 12 012345678901, at 12
take_until 9. 0123456789012345678, at 21
take_until_within 89. 18 012345678901234567, at 21
take_to . 01234567890123456789, at 20
read 12 012345678901, at 12
read_until 9. 0123456789012345678, at 21
read_until_within 89. 18 012345678901234567, at 21
find 12345678901234567 1, rest 01234567890123456789.ab in 2, take_segments 12 012345678901 in 2
line 01234567890123456789
take_until_within 12345678901234567 0 long, take_until_within 678901234567890.abc 100 none, \
    take_until_within 12345678901234567 1 0, at 18
";

#[test]
fn cursor_calls_if_memory_is_refused(rt: HostRuntime) {
    if let Some(buf) = in_segments(rt.alloc(), PIECES) {
        assert_cursor_rows(&rt, &buf, ROWS);
    }
}
