//! Places of a needle in bytes that come in pieces, and how often these are looked at.
use super::find::assert_find_rows;
use super::fixtures::assert_that;
use bytes::{Buf, Bytes};
use bytes_utils::SegmentedBuf;
use bytes_utils::contiguous::ContiguousBuf;
use bytes_utils_codec::search::Search;
use std::alloc::Global;
use std::cell::Cell;

/// The place of the needle after each piece. In the last row the search goes on where it stopped, from a place that is
/// given, or from the front.
const ROWS: &str = "\
<.: new, +GET_/_HTTP/1-1<, search none, +.Host, search 14
--: new, +a-, search none, +b, search none, +-, search none, +-c, search 3
--: new, +-, search none, +, search none, +-, search 0
;: new, +ab, search none, +;c, search 2, +;, search 2
aab: new, +aaa, search none, +b, search 1, +aab, search 1
-+-+: new, +-+, search none, +-, search none, ++-, search 0
0123456789abcdef-: new, +xx0123456789, search none, +abcdef, search none, +-, search 2
--: new, +a--b--, search 1, search_from 2, search 4, search_from 5, search none, searched 5, \
    restart, searched 0, needle --, search 1
";

#[test]
fn search_places_after_each_piece(rt: HostRuntime) {
    assert_find_rows(&rt, &[], ROWS);
}

/// A byte that counts how often it is looked at.
#[derive(Drop)]
struct SearchedByte<'c> {
    byte: Bytes,
    looks: &'c Cell<usize>,
}

impl<'c> Buf for SearchedByte<'c> {
    ghost unread = { λ w. w.byte };

    fn remaining(&self) -> usize {
        self.byte.remaining()
    }

    fn chunk(&self) -> &[u8] {
        self.byte.chunk()
    }

    fn advance(&mut self, cnt: usize) {
        self.byte.advance(cnt);
    }
}

impl<'c> ContiguousBuf for SearchedByte<'c> {
    fn as_contiguous(&self) -> &[u8] {
        self.looks.set(self.looks.get().saturating_add(1));
        self.byte.as_slice()
    }
}

/// Searches after each of 1,000 bytes, in segments of their own. Returns whether all were pushed, and
/// the needle was never there.
fn search_finds_nothing<'c>(
    search: &mut Search,
    held: &mut SegmentedBuf<SearchedByte<'c>>,
    looks: &'c Cell<usize>,
) -> bool {
    for _ in 0..1_000 {
        let byte = Bytes::from_static(b"-");
        if held.try_push(SearchedByte { byte, looks }).is_err() || search.find(held).is_some() {
            return false;
        }
    }
    true
}

/// Returns how often these bytes are looked at, or `usize::MAX` if the needle is there.
fn looks_of_search(alloc: Global, search: &mut Search) -> usize {
    let looks = Cell::new(0);
    let mut held = SegmentedBuf::new(alloc);
    let finds_nothing = search_finds_nothing(search, &mut held, &looks);
    if finds_nothing {
        looks.get()
    } else {
        usize::MAX
    }
}

// A search that began at the front at each call would look 500,000 times.
#[test]
fn search_looks_at_no_byte_again(rt: HostRuntime) {
    let mut for_one = Search::new(rt.alloc(), b"+").expect(&rt, "no memory");
    let looks_for_one = looks_of_search(rt.alloc(), &mut for_one);
    let mut for_two = Search::new(rt.alloc(), b"-+").expect(&rt, "no memory");
    let looks_for_two = looks_of_search(rt.alloc(), &mut for_two);
    assert_that(&rt, looks_for_one <= 8_000 && looks_for_two <= 8_000);
}
