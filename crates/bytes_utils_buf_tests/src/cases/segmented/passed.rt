//! What becomes of borrowed buffers that are passed.
use crate::cases::fixtures::odd::OddCounter;
use crate::cases::fixtures::{assert_that, hold, lend, skip, take_out};
use std::alloc::Global;
use std::process::Abort;

/// Buffers that can be distinguished: each starts with a thousand looks more than the one before.
fn numbered_to_be_passed(
    rt: &(impl Abort + Alloc<A = Global>),
    texts: &'static str,
) -> Vec<OddCounter> {
    let mut bufs = Vec::new(rt.alloc());
    for (place, text) in texts.split('|').enumerate() {
        let asked = OddCounter::of(text);
        asked.looks.set(place.saturating_mul(1000));
        assert!(rt; bufs.push(asked).is_ok());
    }
    bufs
}

fn are_passed_in_order(bufs: &[OddCounter]) -> bool {
    for (place, buf) in bufs.iter().enumerate() {
        if buf.looks.get() / 1000 != place {
            return false;
        }
    }
    true
}

/// Fails the test unless borrowed buffers come back in their order after some bytes are skipped, and
/// others copied.
fn assert_passed_come_back(
    rt: &(impl Abort + Alloc<A = Global>),
    texts: &'static str,
    cnt: usize,
    len: usize,
) {
    let mut bufs = numbered_to_be_passed(rt, texts);
    let mut all = lend(rt, &mut bufs);
    assert_that(rt, skip(&mut all, cnt));
    assert_that(rt, take_out(rt.alloc(), &mut all, len).is_some());
    assert_that(rt, are_passed_in_order(all.into_lent()));
}

#[test]
fn passed_segments_come_back_in_their_order(rt: HostRuntime) {
    assert_passed_come_back(&rt, "a|b|c|d", 3, 0);
    assert_passed_come_back(&rt, "a|b|c|d", 1, 3);
    assert_passed_come_back(&rt, "||c|d", 0, 1);
    assert_passed_come_back(&rt, "a||c|d", 0, 1);
}

// A segment is dropped unread: the buffers that it borrowed still have all of their bytes.
#[test]
fn passed_segments_are_not_advanced(rt: HostRuntime) {
    let mut bufs = [OddCounter::of("ab"), OddCounter::of("cd")];
    let mut held = hold(&rt, lend(&rt, &mut bufs));
    assert_that(&rt, skip(&mut held, 4));
    drop(held);
    assert_that(&rt, bufs[0].advanced == 0 && bufs[0].bytes.len() == 2);
    assert_that(&rt, bufs[1].advanced == 0 && bufs[1].bytes.len() == 2);
}
