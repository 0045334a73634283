//! Places of needles, of which only a new search needs memory, and what is before a needle, which needs some if it is
//! copied.
use super::assert_find_rows;

/// The bytes in which needles are found, in two segments.
const PIECES: &[&[u8]] = &[b"xx0123456789", b"0123456789-"];

/// Places of needles of 16 and 17 bytes, and what is before a needle in one segment, and in both.
const ROWS: &str = "\
1234567890123456: find_from 3 3
01234567890123456: find 2, find_from 3 none, new, search 2, take_until xx, =789-
-: take_until xx01234567890123456789, =
";

#[test]
fn find_calls_if_memory_is_refused(rt: HostRuntime) {
    assert_find_rows(&rt, PIECES, ROWS);
}
