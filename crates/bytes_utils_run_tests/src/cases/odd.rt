//! What no clause says of the odd buffers and storages: that calls succeed, worked cases, and
//! counts.
mod memory;

use bytes::{Buf, Bytes, BytesMut};
use bytes_utils::string::Storage;
use bytes_utils_run::odd::{Asked, RefuseAfter};
use std::process::Abort;
use std::test::Fail;

#[test]
fn odd_buffer_counts_what_is_asked(rt: HostRuntime) {
    let mut buf = Asked::new(Bytes::from_static(b"abc"));
    assert!(rt; buf.looked() == 0 && buf.advances() == 0);
    assert!(rt; buf.remaining() == 3 && buf.chunk() == b"abc".as_slice() && buf.looked() == 2);
    buf.advance(2);
    assert!(rt; buf.looked() == 2 && buf.advances() == 1);
    assert!(rt; buf.remaining() == 1 && buf.chunk() == b"c".as_slice() && buf.looked() == 4);
}

// A storage that grants one split grants one side alone, and takes over a long creator.
#[test]
fn odd_refuse_after_grants_one_side_alone(rt: HostRuntime) -> Result<(), Fail> {
    let front = RefuseAfter::new(Bytes::from_static(b"a,b"), 1).into_front(1);
    assert!(rt; front.ok().ok_or("refused")?.as_bytes() == b"a".as_slice());
    let back = RefuseAfter::new(Bytes::from_static(b"a,b"), 1).into_back(1);
    assert!(rt; back.ok().ok_or("refused")?.as_bytes() == b",b".as_slice());
    assert!(rt;
        RefuseAfter::empty(rt.alloc())
            .ok()
            .ok_or("refused")?
            .as_bytes()
            .is_empty()
    );
    let creator = BytesMut::copy_from_slice(rt.alloc(), &[b'x'; 100_000])?;
    let made = RefuseAfter::from_creator(creator).ok();
    assert!(rt; made.ok_or("refused")?.as_bytes().len() == 100_000);
    Ok(())
}
