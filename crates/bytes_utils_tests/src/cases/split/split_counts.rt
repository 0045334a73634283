//! How often a storage is split: once for each cut of a run, and never again after a refusal.
use super::ways::Way;
use crate::cases::fixtures::storage::{Splits, text_in_refusing_storage};
use std::alloc::Global;
use std::cell::Cell;
use std::process::Abort;

/// Whether a run over the text asks for the right number of splits: `cuts` if all are granted, and
/// none after a refused one.
fn split_counts_are_right(
    alloc: Global,
    (way, text, separator, cuts): (Way, &str, &str, usize),
    granted: usize,
) -> bool {
    let asked = Cell::new(0);
    let splits = Splits { asked, granted };
    let Some(counted) = text_in_refusing_storage(alloc, text, 0, &splits) else {
        return false;
    };
    let answer = way.beside(counted, separator, text);
    answer.is_err() == (granted < cuts)
        && answer != Ok(false)
        && splits.asked.get() == cuts.min(granted.saturating_add(1))
}

/// Asserts this where few splits are granted, and where all are.
fn assert_split_counts(rt: &impl Abort, alloc: Global, row: (Way, &str, &str, usize)) {
    for granted in 0..4 {
        assert!(rt;
            split_counts_are_right(alloc, row, granted),
            "{:?}, {granted}",
            row.0
        );
    }
}

/// A part that reaches to the end of the text needs no split.
#[test]
fn split_counts_one_for_each_cut(rt: HostRuntime) {
    for row in [
        (Way::Split, "a,b,c", ",", 2),
        (Way::RSplit, "a,b,c", ",", 2),
        (Way::SplitN(2), "a,b,c", ",", 1),
        (Way::RSplitN(2), "a,b,c", ",", 1),
        (Way::Fields, "a,b,c", ",", 2),
        (Way::Split, "αβ", "", 3),
        (Way::RSplit, "αβ", "", 3),
        (Way::SplitInclusive, "a,b,", ",", 1),
        (Way::SplitWhitespace, " a b", "", 1),
        (Way::SplitAsciiWhitespace, " a b", "", 1),
        (Way::Lines, "a\nb\n", "", 2),
    ] {
        assert_split_counts(&rt, rt.alloc(), row);
    }
}
