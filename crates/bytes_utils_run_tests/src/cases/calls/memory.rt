//! The state after a refused request for memory. With enough memory none is refused; a run that
//! refuses one prints a line for it.
use bytes::{Buf, Bytes};
use bytes_utils::{SegmentedBuf, SegmentedSlice};
use bytes_utils_run::{Call, ReadCall, Replies, Reply, drive, read_calls};
use std::io::Print;
use std::process::Abort;

/// Asserts that no byte is lost but those of the replies, of which there were `held`, and two in each
/// buffer that was pushed. Reports the call if memory was refused for the list of replies, or for
/// one of them.
fn assert_calls_stand_if_memory_is_refused<R: Abort + Print>(
    rt: &R,
    call: &str,
    replies: &Replies,
    held: usize,
    remaining: usize,
) {
    let (mut left, mut is_refused) = (held, replies.refused.is_some());
    for reply in &replies.given {
        is_refused |= matches!(reply, Reply::NoMemory | Reply::CopyStopped(_));
        left = match reply {
            Reply::Done => left.saturating_add(2),
            Reply::Piece(piece) => left.saturating_sub(piece.len()),
            Reply::CopyStopped(taken) => left.saturating_sub(*taken),
            _ => left,
        };
    }
    assert!(rt; left == remaining && (!is_refused || println!(rt; "refused {call}").is_ok()));
}

#[test]
fn read_calls_if_memory_is_refused(rt: HostRuntime) {
    let mut bufs: [&[u8]; 2] = [b"ab", b"cd"];
    assert!(rt; SegmentedSlice::total(&bufs).is_some());
    let mut all = SegmentedSlice::new(&mut bufs);
    let calls = vec![in rt.alloc(); ReadCall::Chunk, ReadCall::Chunks(2), ReadCall::CopyOut(4)];
    if let Ok(calls) = calls {
        let replies = read_calls(rt.alloc(), &mut all, calls);
        assert_calls_stand_if_memory_is_refused(&rt, "read_calls", &replies, 4, all.remaining());
    }
}

#[test]
fn push_calls_if_memory_is_refused(rt: HostRuntime) {
    let mut buf = SegmentedBuf::new(rt.alloc());
    let calls = vec![in rt.alloc();
        Call::Push(Bytes::from_static(b"ab")),
        Call::Push(Bytes::from_static(b"cd")),
        Call::Read(ReadCall::Chunk),
        Call::Read(ReadCall::Chunks(2)),
        Call::Read(ReadCall::CopyOut(4)),
    ];
    if let Ok(calls) = calls {
        let replies = drive(rt.alloc(), &mut buf, calls);
        assert_calls_stand_if_memory_is_refused(&rt, "drive", &replies, 0, buf.remaining());
    }
}
