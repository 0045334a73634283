//! Refused memory: rows of calls on a `SegmentedBuf`.
use crate::cases::segmented::rows::assert_segmented_rows;
use std::process::Abort;

// Six letters, each in a buffer of its own. A deque grows twice while they are appended.
const ACCEPTED: &str = "\
push a a, push b a|b, push c a|b|c, try_push d a|b|c|d, try_push e a|b|c|d|e, try_push f a|b|c|d|e|f
extend a|b|c|d|e|f a|b|c|d|e|f
from_iter a|b|c|d|e|f a|b|c|d|e|f
prepend f f, prepend e e|f, prepend d d|e|f, prepend c c|d|e|f, prepend b b|c|d|e|f, prepend a a|b|c|d|e|f
from_vec a|b a|b, append c|d|e|f a|b|c|d|e|f
from_vec a|b|c|d|e|f a|b|c|d|e|f, drain_into_queue abcdef -, from_vec - -, \
append_queue abcdef a|b|c|d|e|f";

const CUT_OFF: &str = "\
from_vec a|b|c|d|e|f a|b|c|d|e|f, split_off e|f a|b|c|d
from_vec a|b|c|d|e|f a|b|c|d|e|f, split_to a|b|c|d|e|f -";

const SHOWN: &str = "\
from_vec a|b|c|d|e|f a|b|c|d|e|f, prefix a|b|c|d|e|f, peek_bytes abcdef, try_clone a|b|c|d|e|f
from_vec a|b|c|d|e|f a|b|c|d|e|f, slice 2/c|d|e|f, copy_range 1/bcde, read_range 1/bcde";

#[test]
fn rows_of_segments_if_memory_is_refused(rt: HostRuntime) {
    assert_segmented_rows(&rt, ACCEPTED);
    assert_segmented_rows(&rt, CUT_OFF);
    assert_segmented_rows(&rt, SHOWN);
}

// The place for one segment.
#[test]
fn rows_of_a_long_segment_need_little_memory(rt: HostRuntime) {
    assert_segmented_rows(&rt, "push x*10000 #1, prefix x*10000 . few places");
}

// A block of their length.
#[test]
fn rows_of_copied_segments_need_memory_of_their_length(rt: HostRuntime) {
    assert_segmented_rows(&rt, "push x*10000 #1, push x*10000 #2, peek_bytes x*20000");
}

// Vectors and deques are held in their own memory, so this is never refused.
#[test]
fn rows_of_a_deque_need_no_memory(rt: HostRuntime) {
    assert_segmented_rows(
        &rt,
        "from_deque a|b|c|d|e|f a|b|c|d|e|f, push - ., advance abcde f",
    );
}
