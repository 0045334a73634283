//! Long copies out of the buffers of std and of the crate `bytes`.
mod memory;

use crate::cases::fixtures::long;
use crate::cases::fixtures::reading::assert_reads;
use bytes::{Buf, Bytes, BytesMut, BytesQueue};
use bytes_utils_buf::EitherBuf;
use std::alloc::Global;
use std::collections::VecDeque;
use std::io::Cursor;
use std::process::Abort;

fn grown_buffer(rt: &(impl Abort + Alloc<A = Global>), bytes: &[u8]) -> BytesMut {
    BytesMut::copy_from_slice(rt.alloc(), bytes).expect(rt, "memory")
}

fn queued_buffer(rt: &(impl Abort + Alloc<A = Global>), bytes: &[u8]) -> BytesQueue {
    let mut queue = BytesQueue::new(rt.alloc());
    for part in bytes.chunks(50_000) {
        let chunk = Bytes::copy_from_slice(rt.alloc(), part).expect(rt, "memory");
        assert!(rt; queue.push(chunk).is_ok());
    }
    queue
}

// No copy of many bytes is refused while there is memory.
#[test]
fn long_copies_of_buffers(rt: HostRuntime) {
    let (all, bytes) = ("count 100000", long());
    let mut either: EitherBuf<&[u8], Bytes> = EitherBuf::Left(bytes);
    assert_reads(&rt, &mut either, all);
    assert_reads(&rt, &mut Cursor::new(bytes), all);
    assert_reads(&rt, &mut bytes.take(100_000), all);
    assert_reads(&rt, &mut b"x".as_slice().chain(bytes), all);
    assert_reads(&rt, &mut grown_buffer(&rt, bytes), all);
    assert_reads(&rt, &mut queued_buffer(&rt, bytes), all);
    let deque = bytes.to_vec(rt.alloc()).expect(&rt, "memory");
    assert_reads(&rt, &mut VecDeque::from_vec(deque), all);
}
