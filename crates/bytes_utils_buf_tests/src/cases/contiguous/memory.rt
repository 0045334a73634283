//! Refused memory: the first bytes of one buffer, and a part.
use crate::cases::fixtures::refusals::gives_bytes_or_refusal;
use crate::cases::fixtures::{JOINED, assert_that};
use bytes::Bytes;
use bytes_utils_buf::contiguous::ContiguousBuf;
use std::process::Abort;

#[test]
fn contiguous_slices_if_memory_is_refused(rt: HostRuntime) {
    let slice = JOINED.as_bytes();
    let first = slice.prefix(rt.alloc(), 5);
    assert_that(
        &rt,
        gives_bytes_or_refusal(&rt, "first of &[u8]", first, "Hello"),
    );
    let part = slice.part(rt.alloc(), 6..11);
    assert_that(
        &rt,
        gives_bytes_or_refusal(&rt, "part of &[u8]", part, "World"),
    );
}

// It shares its bytes and allocates nothing, so it is never refused.
#[test]
fn contiguous_bytes_need_no_memory(rt: HostRuntime) {
    if let Ok(bytes) = Bytes::copy_from_slice(rt.alloc(), JOINED.as_bytes()) {
        let first = bytes.prefix(rt.alloc(), 5);
        assert_that(
            &rt,
            gives_bytes_or_refusal(&rt, "first of Bytes", first, "Hello"),
        );
    }
}
