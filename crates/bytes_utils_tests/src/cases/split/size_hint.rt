//! `size_hint` of the splitters, which have none of their own: at each point of a run, bounds on
//! the items to come.
ghost use Rattle.std.specs.Prelude.{◌≤◌};

use bytes_utils::Str;
use bytes_utils::string::{BytesIter, Direction};
use std::process::Abort;

/// Whether the bounds allow `left` more items.
fn size_hint_allows<P: Iterator>(parts: &P, left: usize) -> bool {
    match parts.size_hint() {
        (least, Some(most)) => least <= left && left <= most,
        (least, None) => least <= left,
    }
}

/// Asserts the bounds at each point of a run of `count` items, and at its end.
fn assert_hints<P>(rt: &impl Abort, mut parts: P, count: usize)
where
    P: Iterator + Drop,
    P::Item: Drop,
    requires { P.can_next parts }
{
    for given in 0..count {
        assert!(rt; size_hint_allows(&parts, count - given) && parts.next().is_some());
    }
    assert!(rt; size_hint_allows(&parts, 0) && parts.next().is_none());
}

// Without a limit and with one, by a separator, also the empty one, and by a closure.
#[test]
fn size_hint_bounds(rt: HostRuntime) {
    assert_hints(&rt, Str::from_static("a,b,c").split_bytes(","), 3);
    assert_hints(&rt, Str::from_static("a,b,c").rsplit_bytes(","), 3);
    assert_hints(&rt, Str::from_static("a,β,c").split_bytes(",").indices(), 3);
    assert_hints(
        &rt,
        Str::from_static("a,b,c").splitn_bytes(2, ",").indices(),
        2,
    );
    assert_hints(&rt, Str::from_static("a,b,c").split_inclusive_bytes(","), 3);
    assert_hints(&rt, Str::from_static("one\ntwo\n").lines_bytes(), 2);
    let words = Str::from_static("a b c").split_whitespace_bytes();
    assert_hints(&rt, words, 3);
    let words = Str::from_static("a b c").split_ascii_whitespace_bytes();
    assert_hints(&rt, words, 3);
    assert_hints(&rt, Str::from_static("a,b,c").splitn_bytes(2, ","), 2);
    assert_hints(&rt, Str::from_static("a,b,c").rsplitn_bytes(2, ","), 2);
    assert_hints(&rt, Str::from_static("a,b,c").splitn_bytes(0, ","), 0);
    assert_hints(&rt, Str::from_static("aβ").split_bytes("").indices(), 4);
    assert_hints(&rt, Str::from_static("aβ").rsplit_bytes(""), 4);
    let chunks = BytesIter::new(Str::from_static("a,b,c"), Direction::Forward, |s: &str| {
        s.find(',').map(|at| (at, at + 1))
    });
    assert_hints(&rt, chunks, 3);
}
