//! Refused memory: bytes copied out of one buffer.
use crate::cases::fixtures::refusals::{
    copies_made_or_refusal, copies_out_or_refusal, following_copy_or_refusal,
};
use crate::cases::fixtures::{JOINED, assert_that};
use bytes::Bytes;
use bytes_utils_buf::parts::copy_out_of;
use std::process::Abort;

// It shares its bytes and allocates nothing, so it is never refused.
#[test]
fn buf_parts_of_bytes_need_no_memory(rt: HostRuntime) {
    let bytes = Bytes::copy_from_slice(rt.alloc(), JOINED.as_bytes()).ok();
    let holds = copies_made_or_refusal(&rt, rt.alloc(), "copy_out of Bytes", bytes, JOINED);
    assert_that(&rt, holds);
}

#[test]
fn buf_parts_of_slices_if_memory_is_refused(rt: HostRuntime) {
    let mut slice = JOINED.as_bytes();
    let holds = copies_out_or_refusal(&rt, rt.alloc(), "copy_out of &[u8]", &mut slice, JOINED);
    assert_that(&rt, holds);
    let mut slice = JOINED.as_bytes();
    let copy = copy_out_of(&mut slice, rt.alloc(), 5);
    let left = slice.len();
    let rest = following_copy_or_refusal(&rt, "copy_out_of", copy, 5, left, JOINED.as_bytes());
    assert_that(&rt, rest.is_some());
}
