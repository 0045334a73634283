//! What a caller with a slice of borrowed buffers concludes from clauses alone.
ghost use Rattle.std.specs.Prelude.{◌≡◌, ℕ, ◌+◌, ◌^◌, ◌<◌, [], ◌++◌, length, map, drop, replicate};
ghost use Rattle.std.specs.List.{concat};
ghost use Rattle.bytes_utils_buf.specs.Segments.{cut_front_segment};

use crate::cases::fixtures::assert_that;
use bytes::Buf;
use bytes_utils_buf::segmented::SegmentedSlice;

// After a generic read too, the caller knows which bytes are left, what became of each buffer, and
// that they are the same buffers.
fn caller_skips<B: Buf>(bufs: &mut [B], cnt: usize) -> &mut [B]
    requires sum { length (concat (map B.unread bufs.old)) < 2 ^ 64 }
    requires fits { cnt < length (concat (map B.unread bufs.old)) }
    ensures bytes { concat (map B.unread result.now) ≡ drop (1 + cnt) (concat (map B.unread bufs.old)) }
    ensures lists { (place : ℕ) × (cut : ℕ) × (map B.unread result.now
        ≡ replicate place [] ++ cut_front_segment cut (drop place (map B.unread bufs.old))) }
    ensures name { result.ghost_name ≡ bufs.entry.ghost_name }
{
    let mut all = SegmentedSlice::new(bufs);
    let _ = all.get_u8();
    all.advance(cnt);
    all.into_lent()
}

// So the caller knows what the buffers hold after the borrow.
fn caller_skips_here<B: Buf>(bufs: &mut [B], cnt: usize)
    requires sum { length (concat (map B.unread bufs.old)) < 2 ^ 64 }
    requires fits { cnt < length (concat (map B.unread bufs.old)) }
    ensures { concat (map B.unread bufs.new) ≡ drop (1 + cnt) (concat (map B.unread bufs.old)) }
{
    let _ = caller_skips(bufs, cnt);
}

fn caller_skips_two<B: Buf>(bufs: &mut [B]) {
    if let Some(3..) = SegmentedSlice::total(bufs) {
        caller_skips_here(bufs, 2);
    }
}

#[test]
fn callers_know_their_buffers(rt: HostRuntime) {
    let mut bufs: [&[u8]; 3] = [b"ab", b"", b"cd"];
    caller_skips_two(&mut bufs);
    assert_that(&rt, bufs[0].is_empty());
    assert_that(&rt, bufs[2] == b"d".as_slice());
}
