//! Pieces of a `PackedBuf`: which become one segment, and how large a block is.
pub(super) mod rows;

use crate::cases::fixtures::reading::assert_reads;
use crate::cases::fixtures::{FOUR, assert_row, assert_that};
use bytes::{Buf, Bytes};
use bytes_utils_buf::segmented::PackedBuf;
use rows::{PackedRow, assert_packed_rows, packed_row_holds};
use std::alloc::Global;
use std::process::Abort;

/// The segments of `packed_hello`.
pub(super) const HELLO: &str = "Hello| |World";

const ROWS: &str = "\
0: push a 1, push b 2, push - 2, copy c 3, copy d 3, push e 4, take a 3, take bcd 1, advance e 0
1: push a 1, push b 1, push cd 2, push e 3, push f 3, push - 3, split abc 2, advance d 1, take ef 0
1: push ab 1, take a 1, copy c 2, take bc 0, push d 1, push e 1
2: push abc 1, split ab 1, push d 1, push e 1, take cde 0
2: push abc 1, advance a 1, push d 2, push e 2, split bcde 0
3: push abc 1, push def 1, push ghij 2, push klmn 3, push opq 4, push r 4, take abcdefg 3
3: copy abcd 1, copy efgh 1, push ijkl 2, take abcdefghijk 1, copy mn 1, push op 1
4: push Hello 1, push _ 2, push World 3, split Hello_W 1 3 pieces
512: push a 1, push bcd 1, push - 1, advance ab 1, push e 1, split cde 0, push f 1
0: read - 0, read a 1, read b 1, read - 1, take ab 0, read - 0, read c 1
3: push abcd 1, read e 2, copy f 2, push ghij 3, read k 4, split abcde 3, advance fghij 1, read l 1
5: push abcdef 1, take abcd 1, read - 1, read g 1, read h 1, push ijklmn 2, read o 3
18446744073709551615: push abcd 1, push e 1, take abc 1, push f 1, split def 0, push g 1";

#[test]
fn packed_pieces(rt: HostRuntime) {
    assert_packed_rows(&rt, ROWS);
}

const TEXT: &[u8] = b"abcdefg";

/// Pushes three pieces of the text, with a read of `len` bytes before the last one, and reads the
/// rest by `len` bytes. Returns whether each read was right.
fn is_packed_at_cut(
    rt: &(impl Print + Alloc<A = Global>),
    packed: &mut PackedRow,
    (first, second): (usize, usize),
    len: usize,
) -> bool {
    let early = len.min(second);
    first <= second
        && second <= TEXT.len()
        && packed.call(rt, ("push", &TEXT[..first]), "a cut")
        && packed.call(rt, ("push", &TEXT[first..second]), "a cut")
        && packed.call(rt, ("take", &TEXT[..early]), "a cut")
        && packed.call(rt, ("push", &TEXT[second..]), "a cut")
        && packed.calls(rt, ("take", &TEXT[early..]), "a cut", len)
        && packed.buf.segments() == 0
}

/// The thresholds of the cuts, and how many bytes a read has.
const CUTS: &str = "0 1,0 3,1 1,1 2,2 1,2 4,3 2,4 5,6 1,7 3,512 2,18446744073709551615 1";

/// Whether all reads are right, wherever the text is cut.
fn is_packed_at_every_cut(rt: &(impl Print + Alloc<A = Global>), row: &str) -> Option<bool> {
    let (threshold, len) = row.split_once(' ')?;
    let (threshold, len) = (threshold.parse().ok()?, len.parse().ok()?);
    for second in 0..=TEXT.len() {
        for first in 0..=second {
            let mut packed = PackedRow::new(rt.alloc(), threshold, Vec::new(rt.alloc()));
            if !is_packed_at_cut(rt, &mut packed, (first, second), len) {
                return Some(false);
            }
        }
    }
    Some(true)
}

// The cuts at the ends are those into two pieces.
#[test]
fn packed_text_at_every_cut(rt: HostRuntime) {
    for row in CUTS.split(',') {
        assert_row(&rt, row, is_packed_at_every_cut(&rt, row));
    }
}

/// As many bytes as all pieces of fewer than 1,101 bytes have together, and some more.
fn stream_to_pack(rt: &(impl Abort + Alloc<A = Global>)) -> Bytes {
    let mut bytes = Vec::with_capacity(rt.alloc(), 627_500).expect(rt, "memory");
    for _ in 0..2_500 {
        for byte in 0..251 {
            assert!(rt; bytes.push(byte).is_ok());
        }
    }
    Bytes::from_vec(bytes).expect(rt, "memory")
}

/// Pushes a piece, and takes the next bytes out, at most `len`. Returns how many, if they are the
/// first of `rest`.
fn takes_next_packed(
    alloc: Global,
    buf: &mut PackedBuf,
    piece: Bytes,
    len: usize,
    rest: &[u8],
) -> Option<usize> {
    if buf.push(alloc, piece).is_err() {
        return None;
    }
    let len = len.min(buf.remaining());
    let taken = buf.take_bytes(alloc, len).ok();
    matches!(&taken, Some(it) if Some(it.as_slice()) == rest.get(..len)).then_some(len)
}

/// Pushes pieces of 0 to 1,100 bytes of the stream, and takes `len` bytes out after each. Returns how
/// many segments are held then, if these bytes were right, and all that are left.
fn segments_packed(alloc: Global, stream: &Bytes, len: usize) -> Option<usize> {
    let mut buf = PackedBuf::new(alloc, 512);
    let (mut pushed, mut read) = (0_usize, 0_usize);
    for piece in 0..1_101 {
        let end = pushed.saturating_add(piece).min(stream.len());
        if pushed > end {
            return None;
        }
        let rest = stream.as_slice().get(read..)?;
        let taken = takes_next_packed(alloc, &mut buf, stream.slice(pushed..end).ok()?, len, rest)?;
        pushed = end;
        read = read.saturating_add(taken);
    }
    let is_right = packed_row_holds(&buf, stream.as_slice().get(read..pushed)?)
        && pushed == 605_550;
    is_right.then_some(buf.segments())
}

// The pieces of up to 512 bytes have 131,328 bytes. At least 3,585 of a block of 4,096 are used
// before a piece of at most 512 bytes has no room. So there are 33 to 37 blocks, and 588 pieces of
// more than 512 bytes: 621 to 625 segments.
#[test]
fn packed_pieces_of_all_lengths(rt: HostRuntime) {
    let stream = stream_to_pack(&rt);
    assert_that(
        &rt,
        matches!(segments_packed(rt.alloc(), &stream, 0), Some(621..=625)),
    );
    assert_that(&rt, segments_packed(rt.alloc(), &stream, 7).is_some());
}

// What is pushed at once, one by one, and read in turn. A block of 4,096 bytes or more doesn't grow.
const BLOCKS: &str = "\
512: push/1 x*3000 1 = blocks 3000 of 4096
512: push/1 x*10000 3 = blocks 4096 of 4096, 4096 of 4096, 1808 of 4096
0: copy x*3000 1 = blocks 3000 of 6000
512: copy x*3000 1, push/1 x*3001 2 = blocks 6000 of 6000, 1 of 4096
512: copy x*100000 1 = blocks 100000 of 200000
512: copy x*33000 1, copy/3300 x*33000 1 = blocks 66000 of 66000
18446744073709551615: push/1 x*5000 1 = blocks 5000 of 8194";

// Bytes are pushed one by one after a longer piece, which is shared.
const LATER_BLOCKS: &str = "\
10: push Hello_World 1, push/1 x 2, advance Hello_World 1 = blocks 1 of 64
10: push Hello_World 1, push/1 x*64 2, advance Hello_World 1 = blocks 64 of 64
10: push Hello_World 1, push/1 x*65 2, advance Hello_World 1 = blocks 65 of 128
10: push Hello_World 1, push/1 x*5000 3, advance Hello_World 2 = blocks 4096 of 4096, 904 of 4096
10: push/11 x*1100 100, push/1 x*5000 102, advance x*1100 2 = blocks 4096 of 4096, 904 of 4096
10000: push x*10001 1, push/1 x*5000 2, advance x*10001 1 = blocks 5000 of 8194";

// A read takes as many bytes as there is room for, if that is for at least 512, or for as many as were
// set before, whatever was called since.
const READ_BLOCKS: &str = "\
512: reads x*10000 3 = blocks 4096 of 4096, 4096 of 4096, 1808 of 4096
512: read/1 x*5000 2 = blocks 3585 of 4096, 1415 of 4096
512: read/1000 x*5000 2 = blocks 4000 of 4096, 1000 of 4096
512: wide x*9000 1, wide x*10500 1 = blocks 19500 of 20000
512: read x*9 1, wide y*10 1, wide x*9000 1 = blocks 9019 of 20018
512: wide x*9 1, push x*600 2, copy y*5 3, take x*9 2, split x*600 1, advance y*5 0, read x*9000 1";

// A short rest of a block moves to the next one.
const MOVED: &str = "512: push/1 x*4096 1, take x*3900 1, copy y*500 1";

#[test]
fn packed_blocks(rt: HostRuntime) {
    assert_packed_rows(&rt, BLOCKS);
    assert_packed_rows(&rt, LATER_BLOCKS);
    assert_packed_rows(&rt, READ_BLOCKS);
    assert_packed_rows(&rt, MOVED);
}

/// `Hello` and `World` as they came, and a block of one byte between them.
pub(super) fn packed_hello(alloc: Global) -> Option<PackedBuf> {
    let mut buf = PackedBuf::new(alloc, 4);
    for text in FOUR.split('|') {
        buf.push(alloc, Bytes::from_static(text.as_bytes())).ok()?;
    }
    Some(buf)
}

#[test]
fn packed_buf_reads_as_any_buffer(rt: HostRuntime) {
    let mut buf = packed_hello(rt.alloc()).expect(&rt, "memory");
    assert_that(&rt, buf.last_segment() == b"World".as_slice());
    assert_reads(
        &rt,
        &mut buf,
        "slices Hello| |World, copy Hello W, pass o, left 3 rld",
    );
}
