//! Long bodies: no call is refused while there is memory.
use super::packed::rows::assert_packed_rows as assert_packed;
use super::rows::assert_segmented_rows;
use crate::cases::fixtures::lend;
use crate::cases::fixtures::reading::assert_reads;
use bytes::Bytes;
use std::alloc::Global;
use std::process::Abort;

/// A thousand pieces of a hundred bytes each.
fn pieces_of_long_body(rt: &(impl Abort + Alloc<A = Global>)) -> Vec<Bytes> {
    let mut pieces = Vec::with_capacity(rt.alloc(), 1_000).expect(rt, "memory");
    for _ in 0..1_000 {
        assert!(rt; pieces.push(Bytes::from_static(&[b'x'; 100])).is_ok());
    }
    pieces
}

#[test]
fn long_segments_are_copied(rt: HostRuntime) {
    assert_segmented_rows(&rt, "push*1000 x*100 #1000, copy_out x*100000 -");
    assert_reads(
        &rt,
        &mut lend(&rt, &mut pieces_of_long_body(&rt)),
        "count 100000",
    );
}

// The last of the first segments is cut, and both ends of a range are.
const SHARED: &str = "\
push*3000 x*30 #3000, keep x*90000, peek_bytes x*89985, prefix x*89985 . 3000 pieces, \
copy_range 15/x*89970, slice 15/x*89970 . 3000 pieces";

// It is cut within a segment, by either call.
const CUT: &str = "\
push*3000 x*30 #3000, try_clone x*90000 . 3000 pieces, \
split_off x*44985 #1501 1500 pieces, rejoin - #3001, keep x*90000
push*3000 x*30 #3000, split_to x*45015 #1500 1501 pieces, rejoin - #3001, keep x*90000";

const MOVED: &str = "\
push*1000 x*100 #1000, drain_into_queue x*100000 -, append_queue x*100000 #1000";

const MANY: &str = "prepend*1000 y #1000, push*1000 x #2000, prepend*1000 y #3000";

#[test]
fn long_segmented_bodies(rt: HostRuntime) {
    assert_segmented_rows(&rt, SHARED);
    assert_segmented_rows(&rt, CUT);
    assert_segmented_rows(&rt, MOVED);
    assert_segmented_rows(&rt, MANY);
}

#[test]
fn long_segmented_body_becomes_shared(rt: HostRuntime) {
    assert_packed(&rt, "99: push/100 x*100000 1000 = shared 1000 of 100000");
    assert_packed(
        &rt,
        "9: push/10 x*40000 4000, copy y 4001 = shared 4001 of 40001",
    );
}
