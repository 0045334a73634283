//! Refused memory: the buffers of std and of the crate `bytes`.
use crate::cases::fixtures::refusals::{copies_made_or_refusal, copies_out_or_refusal};
use crate::cases::fixtures::{JOINED, assert_that};
use bytes::{Buf, Bytes, BytesMut, BytesQueue};
use bytes_utils_buf::EitherBuf;
use bytes_utils_buf::contiguous::ContiguousBuf;
use bytes_utils_buf::parts::BufParts;
use std::alloc::Global;
use std::collections::VecDeque;
use std::io::Cursor;
use std::process::Abort;

/// Fails the test unless a buffer of `JOINED` has one slice, and its bytes are copied out.
fn assert_buffer_copies_if_memory_allows<B: BufParts + ContiguousBuf>(
    rt: &(impl Abort + Print + Alloc<A = Global>),
    call: &str,
    buf: &mut B,
) {
    let is_whole = buf.as_contiguous() == JOINED.as_bytes();
    assert_that(
        rt,
        is_whole && copies_out_or_refusal(rt, rt.alloc(), call, buf, JOINED),
    );
}

#[test]
fn buffers_of_one_slice_if_memory_is_refused(rt: HostRuntime) {
    let mut cursor = Cursor::new(b"> Hello World".as_slice());
    cursor.set_position(2);
    assert_buffer_copies_if_memory_allows(&rt, "copy_out of Cursor", &mut cursor);
    let mut limited = b"Hello World, and more".as_slice().take(11);
    assert_buffer_copies_if_memory_allows(&rt, "copy_out of Take", &mut limited);
    let mut either: EitherBuf<&[u8], Bytes> = EitherBuf::Left(JOINED.as_bytes());
    assert_buffer_copies_if_memory_allows(&rt, "copy_out of EitherBuf", &mut either);
    if let Ok(mut buf) = BytesMut::copy_from_slice(rt.alloc(), JOINED.as_bytes()) {
        assert_buffer_copies_if_memory_allows(&rt, "copy_out of BytesMut", &mut buf);
    }
}

/// A deque of `JOINED` whose bytes lie in two slices.
fn wrapped_buffer_if_memory_allows(alloc: Global) -> Option<VecDeque<u8>> {
    let mut deque = VecDeque::with_capacity(alloc, 16).ok()?;
    for byte in b" World" {
        deque.push_back(*byte).ok()?;
    }
    for byte in b"olleH" {
        deque.push_front(*byte).ok()?;
    }
    Some(deque)
}

fn queued_buffer_if_memory_allows(alloc: Global) -> Option<BytesQueue> {
    let mut queue = BytesQueue::new(alloc);
    queue.push(Bytes::from_static(b"Hello")).ok()?;
    queue.push(Bytes::from_static(b" World")).ok()?;
    Some(queue)
}

#[test]
fn buffers_of_two_slices_if_memory_is_refused(rt: HostRuntime) {
    let (alloc, texts) = (rt.alloc(), "Hello| World");
    let chain = Bytes::from_static(b"Hello").chain(b" World".as_slice());
    let chain = copies_made_or_refusal(&rt, alloc, "copy_out of Chain", Some(chain), texts);
    let deque = copies_made_or_refusal(
        &rt,
        alloc,
        "copy_out of VecDeque",
        wrapped_buffer_if_memory_allows(alloc),
        texts,
    );
    let queue = copies_made_or_refusal(
        &rt,
        alloc,
        "copy_out of BytesQueue",
        queued_buffer_if_memory_allows(alloc),
        texts,
    );
    assert_that(&rt, chain && deque && queue);
}
