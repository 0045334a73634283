//! Places and ranges of a body, and its first bytes.
use super::rows::assert_segmented_rows;
use std::process::Abort;

// A range is borrowed if it is in one segment.
const SEEN: &str = "\
from_vec Hello||_||World Hello|_|World, keep Hello_World, holds_at 3/lo_W, byte_at 5/_
from_vec Hello|_|World Hello|_|World, peek Hello_W, segment 2/World
from_vec Hello|_|World Hello|_|World, read_range 1/ell . borrowed, read_range 3/lo_Wo . owned";

#[test]
fn ranges_of_segments(rt: HostRuntime) {
    assert_segmented_rows(&rt, SEEN);
}
