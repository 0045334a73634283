//! Shared helpers: the ways to split a text that `str` has a method for too.
use crate::cases::fixtures::{are_all, are_taken, is_text};
use bytes_utils::Reason;
use bytes_utils::split::SplitIndicesBytes;
use bytes_utils::string::{BytesIter, Direction, Storage, StrInner};

/// A way to split a text, or to cut it at its ends. Some ways are by a separator.
#[derive(Clone, Copy, Debug)]
pub(super) enum Way {
    Split,
    RSplit,
    /// Into at most this many parts.
    SplitN(usize),
    /// Into at most this many parts, from the end.
    RSplitN(usize),
    /// Each part with its place.
    Indices,
    SplitInclusive,
    SplitOnce,
    RSplitOnce,
    StripPrefix,
    StripSuffix,
    /// At this place.
    SplitAt(usize),
    Lines,
    SplitWhitespace,
    SplitAsciiWhitespace,
    /// By a closure that finds commas.
    Fields,
    Trim,
    TrimStart,
    TrimEnd,
}

impl Way {
    /// Whether exactly those parts of the text come that the method of `str` gives of `same`. Fails if
    /// a split is refused, and then the end comes. `SplitInclusive` needs a separator that isn't empty.
    pub(super) fn beside<S: Storage>(
        self,
        text: StrInner<S>,
        separator: &str,
        same: &str,
    ) -> Result<bool, Reason> {
        match self {
            Way::Split => are_all(text.split_bytes(separator), same.split(separator)),
            Way::RSplit => are_all(text.rsplit_bytes(separator), same.rsplit(separator)),
            Way::SplitN(most) => are_all(
                text.splitn_bytes(most, separator),
                same.splitn(most, separator),
            ),
            Way::RSplitN(most) => are_all(
                text.rsplitn_bytes(most, separator),
                same.rsplitn(most, separator),
            ),
            Way::SplitInclusive if !separator.is_empty() => are_all(
                text.split_inclusive_bytes(separator),
                same.split_inclusive(separator),
            ),
            _ => self.beside_once(text, (separator, same)),
        }
    }

    /// As `beside`, of the other ways that are by a separator.
    fn beside_once<S: Storage>(
        self,
        text: StrInner<S>,
        (separator, same): (&str, &str),
    ) -> Result<bool, Reason> {
        match self {
            Way::Indices => way_gives_indices(
                &mut text.split_bytes(separator).indices(),
                separator,
                same,
            ),
            Way::SplitOnce => way_splits_once(text, separator, same),
            Way::RSplitOnce => way_rsplits_once(text, separator, same),
            Way::StripPrefix => {
                let want = same.strip_prefix(separator);
                way_leaves(text.strip_prefix_bytes(separator), want)
            }
            Way::StripSuffix => {
                let want = same.strip_suffix(separator);
                way_leaves(text.strip_suffix_bytes(separator), want)
            }
            _ => self.beside_unseparated(text, same),
        }
    }

    /// As `beside`, of a way that is by no separator.
    fn beside_unseparated<S: Storage>(self, text: StrInner<S>, same: &str) -> Result<bool, Reason> {
        match self {
            Way::SplitAt(at) => way_splits_at(text, at, same),
            Way::Lines => are_all(text.lines_bytes(), same.lines()),
            Way::SplitWhitespace => are_all(text.split_whitespace_bytes(), same.split_whitespace()),
            Way::SplitAsciiWhitespace => are_all(
                text.split_ascii_whitespace_bytes(),
                same.split_ascii_whitespace(),
            ),
            Way::Fields => way_gives_fields(text, same),
            Way::Trim => way_leaves(text.trim_bytes().map(Some), Some(same.trim())),
            Way::TrimStart => way_leaves(
                text.trim_start_bytes().map(Some),
                Some(same.trim_start()),
            ),
            Way::TrimEnd => way_leaves(text.trim_end_bytes().map(Some), Some(same.trim_end())),
            _ => Ok(false),
        }
    }
}

/// Compares the chunks between commas.
fn way_gives_fields<S: Storage>(text: StrInner<S>, same: &str) -> Result<bool, Reason> {
    let mut chunks = BytesIter::new(text, Direction::Forward, |s: &str| {
        s.find(',').map(|at| (at, at + 1))
    });
    are_taken(&mut chunks, same.split(','))
}

/// Compares the parts and their places: each is after the part before it and a separator.
fn way_gives_indices<S: Storage>(
    parts: &mut SplitIndicesBytes<'_, S>,
    separator: &str,
    same: &str,
) -> Result<bool, Reason> {
    let mut place = 0_usize;
    for want in same.split(separator) {
        match parts.next() {
            Some(Ok((at, part))) => if at != place || !part.eq_str(want) {
                return Ok(false);
            },
            None => return Ok(false),
            Some(Err(reason)) => return if parts.next().is_none() {
                Err(reason)
            } else {
                Ok(false)
            },
        }
        place = place
            .saturating_add(want.len())
            .saturating_add(separator.len());
    }
    Ok(parts.next().is_none())
}

/// Compares the texts before and after the first separator.
fn way_splits_once<S: Storage>(
    text: StrInner<S>,
    separator: &str,
    same: &str,
) -> Result<bool, Reason> {
    let (before, following) = text.split_once_bytes(separator)?;
    Ok(match same.split_once(separator) {
        Some((first, second)) => before.eq_str(first) && is_text(following, second),
        None => before.eq_str(same) && following.is_none(),
    })
}

/// Compares the texts before and after the last separator.
fn way_rsplits_once<S: Storage>(
    text: StrInner<S>,
    separator: &str,
    same: &str,
) -> Result<bool, Reason> {
    let (before, following) = text.rsplit_once_bytes(separator)?;
    Ok(match same.rsplit_once(separator) {
        Some((first, second)) => is_text(before, first) && following.eq_str(second),
        None => before.is_none() && following.eq_str(same),
    })
}

/// Compares the texts before and from the place. It has to be a character boundary.
fn way_splits_at<S: Storage>(text: StrInner<S>, at: usize, same: &str) -> Result<bool, Reason> {
    if !text.as_str().is_char_boundary(at) {
        return Ok(false);
    }
    let (front, back) = text.split_at_bytes(at)?;
    Ok(same.get(..at) == Some(front.as_str()) && same.get(at..) == Some(back.as_str()))
}

/// Compares what is left of a text.
fn way_leaves<S: Storage>(
    left: Result<Option<StrInner<S>>, Reason>,
    wanted: Option<&str>,
) -> Result<bool, Reason> {
    let left = left?;
    Ok(match wanted {
        Some(wanted) => is_text(left, wanted),
        None => left.is_none(),
    })
}
