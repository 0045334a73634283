//! Readers of which rows name the limit and the kind: `4 text`, or `any text` for one without a limit.
use crate::cases::fixtures::rows::{Refusal, named_row_call, report_row_call};
use crate::cases::fixtures::signs::meant_by_signs;
use bytes::Bytes;
use bytes_utils::{Reason, Str};
use bytes_utils_codec::decode::{
    Decoder, Delimited, FrameTooLong, Framed, LengthPrefixed, LineFault, Lines, UniversalLines,
};
use std::alloc::Global;
use std::io::Print;
use std::process::Abort;
use std::str;

/// A decoder of which a row names the kind.
pub(super) trait Made: Decoder<Error = Reason> {
    /// Makes a decoder of this kind, within a limit if there is one. Returns it with its name where a refused call is
    /// reported. Fails with `NO_KIND` if there is no such kind.
    fn of_kind(
        alloc: Global,
        kind: &str,
        limit: Option<usize>,
    ) -> Result<(Self, &'static str), Refusal>;

    /// The bytes of an item, also those of a line that is not UTF-8; or `long` if it is over the limit.
    fn into_bytes(item: Self::Item) -> Bytes;
}

/// There is no such kind.
const NO_KIND: Refusal = Refusal {
    name: ("no such kind", ""),
    reason: Reason::TooLong,
};

/// What long separators begin with.
const HYPHENS: &[u8] = &[b'-'; 20_000];

/// Makes a decoder of frames that this separator ends.
fn made_delimited(
    alloc: Global,
    separator: &[u8],
    limit: Option<usize>,
) -> Result<(Delimited, &'static str), Refusal> {
    if separator.is_empty() {
        return Err(NO_KIND);
    }
    let (name, made) = match limit {
        None => ("new", Delimited::new(alloc, separator)),
        Some(limit) => ("with_limit", Delimited::with_limit(alloc, separator, limit)),
    };
    Ok((named_row_call("Delimited::", name, made)?, "Delimited"))
}

impl Made for Delimited {
    /// The kind is the separator; one of 300 hyphens is `-#300`.
    fn of_kind(
        alloc: Global,
        kind: &str,
        limit: Option<usize>,
    ) -> Result<(Delimited, &'static str), Refusal> {
        match kind.strip_prefix("-#") {
            Some(count) => {
                let separator = HYPHENS.get(..count.parse().unwrap_or(0));
                made_delimited(alloc, separator.unwrap_or(b""), limit)
            }
            None => made_delimited(alloc, meant_by_signs(kind).as_slice(), limit),
        }
    }

    fn into_bytes(frame: Result<Bytes, FrameTooLong>) -> Bytes {
        match frame {
            Ok(frame) => frame,
            Err(_) => Bytes::from_static(b"long"),
        }
    }
}

/// A decoder of lines of this kind, with its name.
fn lines_of_kind(lines: Lines, kind: &str) -> (Lines, &'static str) {
    match kind {
        "lossy" => (lines.lossy(), "lossy Lines"),
        _ => (lines, "Lines"),
    }
}

impl Made for Lines {
    /// The kind is `lossy` or `text`.
    fn of_kind(
        alloc: Global,
        kind: &str,
        limit: Option<usize>,
    ) -> Result<(Lines, &'static str), Refusal> {
        let (name, made) = match limit {
            None => ("new", Lines::new(alloc)),
            Some(limit) => ("with_limit", Lines::with_limit(alloc, limit)),
        };
        Ok(lines_of_kind(named_row_call("Lines::", name, made)?, kind))
    }

    /// The bytes are `text` if a line that is UTF-8 was reported as one that is not.
    fn into_bytes(line: Result<Str, LineFault>) -> Bytes {
        match line {
            Ok(line) => line.into_inner(),
            Err(LineFault::TooLong) => Bytes::from_static(b"long"),
            Err(LineFault::NotUtf8(fault)) => {
                let bytes = fault.into_inner();
                if str::from_utf8(bytes.as_slice()).is_ok() {
                    Bytes::from_static(b"text")
                } else {
                    bytes
                }
            }
        }
    }
}

impl Made for UniversalLines {
    /// The kind is `lossy` or `text`.
    fn of_kind(
        _alloc: Global,
        kind: &str,
        limit: Option<usize>,
    ) -> Result<(UniversalLines, &'static str), Refusal> {
        let lines = match limit {
            None => UniversalLines::new(),
            Some(limit) => UniversalLines::with_limit(limit),
        };
        Ok(if kind == "lossy" {
            (lines.lossy(), "lossy UniversalLines")
        } else {
            (lines, "UniversalLines")
        })
    }

    fn into_bytes(line: Result<Str, LineFault>) -> Bytes {
        Lines::into_bytes(line)
    }
}

/// The decoder with what one more word of its kind says, or `None` if there is no such word.
fn made_with(decoder: LengthPrefixed, word: &str) -> Option<LengthPrefixed> {
    let (what, number) = word.rsplit_once(' ').unwrap_or((word, ""));
    match (what, number.parse::<usize>(), number.parse::<isize>()) {
        ("at", Ok(offset), _) => Some(decoder.length_at(offset)),
        ("width", Ok(bytes), _) if 0 < bytes && bytes <= 8 => Some(decoder.width(bytes)),
        ("adjusted by", _, Ok(adjustment)) => Some(decoder.adjusted_by(adjustment)),
        ("dropping", Ok(bytes), _) => Some(decoder.dropping(bytes)),
        ("little", _, _) => Some(decoder.little_endian()),
        _ => None,
    }
}

impl Made for LengthPrefixed {
    /// The kind is words: `at`, `width`, `adjusted by` or `dropping` and a number, and `little
    /// endian`.
    fn of_kind(
        _alloc: Global,
        kind: &str,
        limit: Option<usize>,
    ) -> Result<(LengthPrefixed, &'static str), Refusal> {
        let mut decoder = LengthPrefixed::new(limit.unwrap_or(usize::MAX));
        for word in kind.split(", ") {
            decoder = match made_with(decoder, word) {
                Some(decoder) => decoder,
                None => return Err(NO_KIND),
            };
        }
        Ok((decoder, "LengthPrefixed"))
    }

    fn into_bytes(frame: Result<Bytes, FrameTooLong>) -> Bytes {
        Delimited::into_bytes(frame)
    }
}

/// The limit, if there is one, and the kind of a reader.
fn limit_and_kind(kind: &str) -> Option<(Option<usize>, &str)> {
    let (limit, kind) = kind.split_once(' ')?;
    match limit {
        "any" => Some((None, kind)),
        _ => Some((Some(limit.parse().ok()?), kind)),
    }
}

/// Makes a decoder, of its limit and its kind. If memory is refused, which is reported, it is made again.
fn made_decoder<D: Made, R: Abort + Print + AllocGlobal>(
    rt: &R,
    (limit, kind): (Option<usize>, &str),
) -> Option<(D, &'static str)> {
    match D::of_kind(rt.alloc(), kind, limit) {
        Ok(made) => Some(made),
        Err(refusal) => {
            report_row_call(rt, refusal);
            D::of_kind(rt.alloc(), kind, limit).ok()
        }
    }
}

/// Makes a reader, of its limit and its kind, and returns it with the name of its decoder. If memory is refused, which
/// is reported, it is made again. Returns `None` if there is no such kind.
pub(super) fn made_reader<D: Made, R: Abort + Print + AllocGlobal>(
    rt: &R,
    kind: &str,
) -> Option<(Framed<D>, &'static str)> {
    match made_decoder::<D, R>(rt, limit_and_kind(kind)?) {
        Some((decoder, name)) => Some((Framed::new(rt.alloc(), decoder), name)),
        None => None,
    }
}
