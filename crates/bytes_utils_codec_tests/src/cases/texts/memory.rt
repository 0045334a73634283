//! Texts out of pieces.
use super::is_texts_row_right;
use crate::cases::fixtures::assert_row;
use bytes::Bytes;

/// The character that is cut, or the fault, is given, or it is held.
const ROWS: &str = "\
push 0 1, push 1 2, next β, remaining 0
push 0 1, push 1 2, last β, remaining 0
";

#[test]
fn texts_calls_if_memory_is_refused(rt: HostRuntime) {
    let block = Bytes::from_static(b"\xCE\xB2");
    for row in ROWS.lines() {
        let holds = is_texts_row_right(&rt, "strict", &block, row);
        assert_row(&rt, row, holds);
    }
}

#[test]
fn texts_with_replacements_need_no_memory(rt: HostRuntime) {
    let row = "push 0 2, next \u{fffd}, next none, last \u{fffd}";
    let holds = is_texts_row_right(&rt, "lossy", &Bytes::from_static(b"\xFF\xE2"), row);
    assert_row(&rt, row, holds);
}
