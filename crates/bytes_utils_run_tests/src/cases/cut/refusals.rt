//! Texts over storages that refuse their splits.
ghost use Rattle.bytes_utils_run.specs.Cutting.{IsCuttingAllowed};

use super::rows::{cut_row_of, is_cut_row_allowed};
use super::wanted_after_cut;
use crate::cases::fakes::fake_granting;
use bytes::Bytes;
use bytes_utils::string::{Storage, StrInner};
use bytes_utils::{Reason, Refused};
use bytes_utils_run::{How, cut_all};
use std::alloc::Global;

/// Returns whether the text is split into these parts, a bar after each, and after them an
/// exclamation mark if the next split is refused for this reason.
fn is_cut_till_refusal<S: Storage>(
    alloc: Global,
    text: Option<StrInner<S>>,
    how: How<'_>,
    wanted: &str,
    reason: Reason,
) -> bool
    requires { IsCuttingAllowed how }
{
    let Some(text) = text else {
        return false;
    };
    let parts = cut_all(alloc, text, how);
    let rest = wanted_after_cut(&parts, wanted);
    rest == Some("") && parts.refused.is_none()
        || rest == Some("!") && parts.refused == Some(reason)
}

// What comes with 0, 1, 2, .. splits granted. Each part but the last takes two splits, or one if it
// keeps its separator.
const ROWS: &str = "s;,;a,b,c;!/!/a|!/a|!/a|b|c|~\
    r;,;a,b,c;!/!/c|!/c|!/c|b|a|~\
    i;,;a,b,;!/a,|b,|";

#[test]
fn refusals_of_cuts_after_each_split(rt: HostRuntime) {
    for row in ROWS.split('~') {
        let (text, how, outcomes) = cut_row_of(row);
        assert!(rt; is_cut_row_allowed(how));
        for (splits, wanted) in outcomes.split('/').enumerate() {
            let granted = fake_granting(rt.alloc(), text, splits);
            assert!(rt;
                is_cut_till_refusal(rt.alloc(), granted, how, wanted, Reason::OutOfMemory),
                "{text:?}, {splits}"
            );
        }
    }
}

/// A storage that refuses each split, and reports another reason than `OutOfMemory`.
#[derive(Drop)]
struct RefusesAsLong(Bytes);

impl Storage for RefusesAsLong {
    type Creator = RefusesAsLong;

    ghost stored = { λ s. s.0 };

    ghost created = { λ s. s.0 };

    fn empty(_alloc: Global) -> Result<Self, Reason> {
        Ok(RefusesAsLong(Bytes::new()))
    }

    fn as_bytes(&self) -> &[u8] {
        self.0.as_slice()
    }

    fn from_creator(creator: RefusesAsLong) -> Result<Self, Refused<RefusesAsLong>> {
        Ok(creator)
    }

    fn split_at(self, _at: usize) -> Result<(Self, Self), Refused<Self>> {
        Err(Refused {
            reason: Reason::TooLong,
            back: self,
        })
    }

    fn into_front(self, at: usize) -> Result<Self, Refused<Self>> {
        let (front, _) = self.split_at(at)?;
        Ok(front)
    }

    fn into_back(self, at: usize) -> Result<Self, Refused<Self>> {
        let (_, back) = self.split_at(at)?;
        Ok(back)
    }
}

#[test]
fn refusals_of_cuts_report_the_reason(rt: HostRuntime) {
    let text = StrInner::from_inner(RefusesAsLong(Bytes::from_static(b"a,b,c"))).ok();
    assert!(rt; is_cut_till_refusal(rt.alloc(), text, How::Split(","), "!", Reason::TooLong));
}

/// More splits than any run below makes.
const MANY: usize = 64;

/// Returns whether each number of splits that is too small is refused, and only a text that stays
/// uncut needs no split.
fn are_refusals_of_cut_right(alloc: Global, text: &str, how: How<'_>) -> Option<bool>
    requires { IsCuttingAllowed how }
{
    for splits in 0..MANY {
        let parts = cut_all(alloc, fake_granting(alloc, text, splits)?, how);
        if parts.refused.is_none() {
            let is_uncut = parts.given.len() == 1 && parts.given[0].as_str() == text;
            return Some((splits == 0) == is_uncut);
        }
        if parts.refused != Some(Reason::OutOfMemory) {
            return None;
        }
    }
    None
}

const WAYS: &str = "w~a~l~i;,~i;β~s;,~s;β~s~s2;,~s2;β~s2~s3;,~s3;β~s3~\
    r;,~r;β~r~r2;,~r2;β~r2~r3;,~r3;β~r3";

#[test]
fn refusals_of_cuts_by_number_of_splits(rt: HostRuntime) {
    for way in WAYS.split('~') {
        let (_, how, _) = cut_row_of(way);
        assert!(rt; is_cut_row_allowed(how));
        for text in "a,b,c~αβα~ a\u{b}b\t😈 ~a\r\n\nb\n".split('~') {
            assert!(rt;
                are_refusals_of_cut_right(rt.alloc(), text, how) == Some(true),
                "{text:?}, {how:?}"
            );
        }
    }
}
