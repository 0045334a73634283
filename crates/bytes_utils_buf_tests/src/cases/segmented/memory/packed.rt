//! Refused memory: pieces of a `PackedBuf`, and bytes taken out of one.
use crate::cases::fixtures::assert_that;
use crate::cases::fixtures::refusals::copies_made_or_refusal;
use crate::cases::segmented::packed::rows::assert_packed_rows;
use crate::cases::segmented::packed::{HELLO, packed_hello};
use std::process::Abort;

// A small piece takes a block and a place. A large one has a place left, or takes one. A small one is
// joined with what is left of that, and the next one has room in the block.
const PUSHED: &str = "\
4: push abcd 1 PackedBuf::push of a small piece, push Hello 2, advance abcdHell 1, \
push ab 1 PackedBuf::push of a joined piece, push c 1
4: push Hello 1 PackedBuf::push of a large piece
4: copy Hello_World 1 PackedBuf::push_slice";

// The block has room for the 64 bytes alone, so that one more moves them to a new one.
const MOVED: &str = "\
1: push Hello 1 PackedBuf::push of a large piece, copy/1 x*64 2 PackedBuf::push_slice, \
advance Hello 1, push x 1 PackedBuf::push to a full block";

// Reads into a new block, and into one that begins with what is left of a large piece.
const READ: &str = "\
4: read ab 1 PackedBuf::read_from, read cd 1, push Hello 2, advance abcdHell 1, \
read ab 1 PackedBuf::read_from to a joined piece
4: wide ab 1 PackedBuf::read_from, wide cd 1";

const TAKEN: &str = "\
11: copy Hello_World 1 PackedBuf::push_slice, take Hel 1 PackedBuf::take_bytes in one segment
4: push Hello 1 PackedBuf::push of a large piece, push _ 2 PackedBuf::push of a small piece, \
push World 3, take Hello_W 1 PackedBuf::take_bytes across segments
4: push Hello 1 PackedBuf::push of a large piece, push _ 2 PackedBuf::push of a small piece, \
push World 3, split Hello_W 1 PackedBuf::split_to";

const SHARED: &str = "\
4: push Hello 1 PackedBuf::push of a large piece, push _ 2 PackedBuf::push of a small piece, \
push World 3 = shared Hello|_|World
4: push Hello 1 PackedBuf::push of a large piece, push _ 2 PackedBuf::push of a small piece, \
push World 3 = segments Hello|_|World";

#[test]
fn packed_pieces_if_memory_is_refused(rt: HostRuntime) {
    assert_packed_rows(&rt, PUSHED);
    assert_packed_rows(&rt, MOVED);
    assert_packed_rows(&rt, READ);
    assert_packed_rows(&rt, TAKEN);
    assert_packed_rows(&rt, SHARED);
}

#[test]
fn packed_copies_if_memory_is_refused(rt: HostRuntime) {
    let alloc = rt.alloc();
    let holds = copies_made_or_refusal(
        &rt,
        alloc,
        "copy_out of PackedBuf",
        packed_hello(alloc),
        HELLO,
    );
    assert_that(&rt, holds);
}

#[test]
fn packed_nothing_needs_no_memory(rt: HostRuntime) {
    assert_packed_rows(
        &rt,
        "512: push - 0, copy - 0, advance - 0, take - 0, split - 0 0 pieces = shared 0 of 0",
    );
}

// A block with room asks for nothing.
#[test]
fn packed_block_with_room_needs_no_memory(rt: HostRuntime) {
    assert_packed_rows(
        &rt,
        "512: copy Hello_World 1 PackedBuf::push_slice, push small 1, copy small 1",
    );
}
