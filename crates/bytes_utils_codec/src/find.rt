//! A search for a needle in the bytes of many segments.
ghost use Rattle.std.specs.Prelude.{◌≡◌, ◌+◌, ◌-◌, ◌*◌, ◌^◌, ◌<◌, ◌≤◌, ◌++◌, length, min, take, drop, Some, IfOk, IfErr, IfSome, IfNone, OnErr};
ghost use Rattle.std.specs.List.{concat};
ghost use Rattle.memchr.specs.Find.{FindsNeedle, IsFirst, Nowhere, OccursAt};
ghost use Rattle.bytes_utils_buf.specs.Segments.{CountsPass, IsPaid, IsPlace, SkipsSegments};
ghost use Rattle.bytes_utils_codec.specs.Frames.{HasFrame, TakesFrame};
ghost use Rattle.bytes_utils.specs.Occurrence.{Occurs};

use bytes::{Buf, Bytes};
use bytes_utils::needle::{
    NEAR_LOOKS, find_by_first_byte, look_at_first_bytes, prefix_without_first_byte,
};
use bytes_utils_buf::Reason;
use bytes_utils_buf::contiguous::ContiguousBuf;
use bytes_utils_buf::segmented::SegmentedBuf;
use memchr::memmem::Finder;
use std::alloc::Global;

/// A longer needle is looked for by this number of its first bytes.
const SHORT: usize = 16;

/// Returns the byte place of the first occurrence of `needle`, also across segments, or `None` if
/// there is none, as `memmem::find` of the joined bytes. It asks for no memory.
///
/// ```text
/// body.push(first)?;                // a `Bytes` of `GET / HTTP/1.1\r`
/// body.push(second)?;               // one of `\nHost`
/// find(&body, b"\r\n")              // `Some(14)`
/// find_from(&body, 15, b"\r\n")     // `None`
/// ```
pub fn find<B: ContiguousBuf + Drop>(buf: &SegmentedBuf<B>, needle: &[u8]) -> Option<usize>
    ensures found { FindsNeedle (concat buf.now.segments) needle.now 0 result }
    ensures frame { IfSome result (λ at. TakesFrame needle.now
        (concat buf.now.segments) (take at (concat buf.now.segments))
        (drop (at + length needle.now) (concat buf.now.segments))) }
    ensures within { IfSome result
        (λ at. at + length needle.now ≤ length (concat buf.now.segments)) }
    ensures none { IfNone result (¬ Occurs needle.now (concat buf.now.segments)) }
{
    find_from(buf, 0, needle)
}

/// As `find`, from place `start` on. An empty needle is found at `start`, unless that is past the
/// end of the bytes. Segments before `start` are skipped. A needle of more than 16 bytes is compared
/// at each place where its first 16 are: if a peer can repeat these, a `Search` takes less time.
#[tactic(auto, using(crate::proofs::FoundLemmas::start_found, crate::proofs::FoundLemmas::within_found, crate::proofs::FoundLemmas::frame_found, crate::proofs::FoundLemmas::none_found))]
pub fn find_from<B: ContiguousBuf + Drop>(
    buf: &SegmentedBuf<B>,
    start: usize,
    needle: &[u8],
) -> Option<usize>
    ensures found { FindsNeedle (concat buf.now.segments) needle.now start result }
    ensures start { IfSome result (λ at. start ≤ at) }

    // What is before the needle, from `start` on, and what is after it.
    ensures frame { IfSome result (λ at. TakesFrame needle.now
        (drop start (concat buf.now.segments))
        (take (at - start) (drop start (concat buf.now.segments)))
        (drop (at + length needle.now) (concat buf.now.segments))) }
    ensures within { IfSome result
        (λ at. at + length needle.now ≤ length (concat buf.now.segments)) }
    ensures none { IfNone result (start ≤ length (concat buf.now.segments)
        → ¬ Occurs needle.now (drop start (concat buf.now.segments))) }
{
    match find_near(buf, start, needle) {
        Ok(at) => Some(at),
        Err(from) => find_far(buf, from, needle),
    }
}

/// Takes out what is before the first `needle`, as one `Bytes`, and drops the needle. Returns
/// `None`, and changes nothing, if the needle isn't there. What is before it is shared if the first
/// segment has it all and shares its own, as a `Bytes` does; otherwise it is copied into one block.
/// Requires that `needle` is not empty (test: `is_empty`). Fails with `OutOfMemory` if memory for the
/// bytes before the needle is refused, never if there are none; then nothing has changed.
///
/// ```text
/// body.push(first)?;                        // a `Bytes` of `GET / HTTP/1.1\r`
/// body.push(second)?;                       // one of `\nHost`
/// take_until(&mut body, alloc, b"\r\n")?    // `GET / HTTP/1.1`; `Host` is left
/// take_until(&mut body, alloc, b"\r\n")?    // `None`
/// ```
pub fn take_until<B: ContiguousBuf + Drop>(
    buf: &mut SegmentedBuf<B>,
    alloc: Global,
    needle: &[u8],
) -> Result<Option<Bytes>, Reason>
    requires { 0 < length needle.now }
    ensures front { IfOk result (λ taken. IfSome taken (λ front. TakesFrame needle.now
        (concat buf.old.segments) front (concat buf.new.segments))) }
    ensures skips { IfOk result (λ taken. IfSome taken
        (λ front. SkipsSegments (length front + length needle.now) buf.old.segments buf.new.segments)) }
    ensures none { IfOk result (λ taken. IfNone taken
        ((buf.new ≡ buf.old) × (¬ Occurs needle.now (concat buf.old.segments)))) }
    ensures err { OnErr result (buf.new ≡ buf.old) }
    ensures due { OnErr result (HasFrame needle.now (concat buf.old.segments)) }
    ensures reason { IfErr result (λ reason. reason ≡ Reason.OutOfMemory) }

    // Each passed segment counts one turn, on this value's own tally.
    ensures counts { IfOk result
        (λ taken. IfSome taken (λ front. CountsPass 1 buf.old buf.new)) }
    ensures paid { IsPaid buf.old buf.new }
{
    let Some(at) = find(buf, needle) else {
        return Ok(None);
    };
    let front = buf.peek_bytes(alloc, at)?;
    prove!(needle.len() <= buf.remaining() - at);
    buf.advance(at + needle.len());
    Ok(Some(front))
}

/// As `find_from`, for a needle that is prepared, with a window for the bytes on both sides of a
/// border between segments.
pub(crate) fn find_prepared<B: ContiguousBuf + Drop>(
    buf: &SegmentedBuf<B>,
    start: usize,
    finder: &Finder,
    window: &mut [u8],
) -> Option<usize>
    requires some { 0 < length finder.now }
    requires room { 2 * (length finder.now - 1) ≤ length window.old }
    ensures { FindsNeedle (concat buf.now.segments) finder.now start result }
{
    let from = match find_near(buf, start, finder.needle()) {
        Ok(at) => return Some(at),
        Err(from) => from,
    };
    if buf.remaining().saturating_sub(from) < finder.needle().len() {
        return None;
    }
    find_from_segment(buf, from, finder, buf.segment_of(from)?, window)
}

/// The first place of the needle from `start` on. A needle of more than 16 bytes is compared at each
/// place where its first 16 are.
fn find_far<B: ContiguousBuf + Drop>(
    buf: &SegmentedBuf<B>,
    start: usize,
    needle: &[u8],
) -> Option<usize>
    ensures { FindsNeedle (concat buf.now.segments) needle.now start result }
{
    if needle.is_empty() {
        return (start <= buf.remaining()).then_some(start);
    }
    if needle.len() <= SHORT {
        let finder = Finder::new(needle);
        return find_front(buf, start, &finder);
    }
    let finder = Finder::new(&needle[..SHORT]);
    let mut from = start;
    while let Some(at) = find_front(buf, from, &finder) {
        if buf.holds_at(at, needle) {
            return Some(at);
        }
        from = at + 1;
    }
    None
}

/// The first place from `start` on of a needle of at most 16 bytes.
fn find_front<B: ContiguousBuf + Drop>(
    buf: &SegmentedBuf<B>,
    start: usize,
    finder: &Finder,
) -> Option<usize>
    requires some { 0 < length finder.now }
    requires short { length finder.now ≤ 16 }
    ensures found { FindsNeedle (concat buf.now.segments) finder.now start result }
    ensures fits { length (concat buf.now.segments) < 2 ^ 64 }
{
    let first = buf.segment_of(start)?;
    find_from_segment(buf, start, finder, first, &mut [0; 2 * SHORT])
}

/// The first place of the needle from `start` on, if it is in the first segment and
/// `look_at_first_bytes` finds it. No `Finder` is made for it. If it isn't found, fails with the
/// place from which it is still to be looked for.
#[inline]
fn find_near<B: ContiguousBuf + Drop>(
    buf: &SegmentedBuf<B>,
    start: usize,
    needle: &[u8],
) -> Result<usize, usize>
    ensures found { IfOk result
        (λ at. FindsNeedle (concat buf.now.segments) needle.now start (Some at)) }
    ensures low { IfErr result (λ from. start ≤ from) }
    ensures none { IfErr result
        (λ from. Nowhere (OccursAt (concat buf.now.segments) needle.now) start from) }
{
    let Some(first) = buf.segment(0) else {
        return Err(start);
    };
    if needle.is_empty() || start > first.len() {
        return Err(start);
    }
    let rest = &first[start..];
    let from = prefix_without_first_byte(needle, rest);
    match look_at_first_bytes(needle, rest, from, NEAR_LOOKS) {
        Ok(at) => Ok(start + at),
        Err(left) => {
            let most = needle.len() - 1;
            Err(start + left.min(rest.len().saturating_sub(most)))
        }
    }
}

/// The first place of the needle from `start` on. The search begins in the segment that has the byte
/// at `start`, and looks at none before it: `first` is the index of that segment, and the index of
/// the byte in it.
fn find_from_segment<B: ContiguousBuf + Drop>(
    buf: &SegmentedBuf<B>,
    start: usize,
    finder: &Finder,
    first: (usize, usize),
    window: &mut [u8],
) -> Option<usize>
    requires some { 0 < length finder.now }
    requires room { 2 * (length finder.now - 1) ≤ length window.old }
    requires first { IsPlace start first.0 first.1 buf.now.segments }
    requires fits { length (concat buf.now.segments) < 2 ^ 64 }
    ensures { FindsNeedle (concat buf.now.segments) finder.now start result }
{
    let mut base = start - first.1;
    for index in first.0..buf.segments() {
        let segment = buf.segment(index)?;
        let from = start.saturating_sub(base);
        if let Some(at) = find_starting_in(finder, segment, buf, index + 1, from, window) {
            return Some(base + at);
        }
        base += segment.len();
    }
    None
}

/// The first place from `from` on at which the needle begins in `segment`. It may end in the
/// segments from index `next` on.
#[inline]
fn find_starting_in<B: ContiguousBuf + Drop>(
    finder: &Finder,
    segment: &[u8],
    buf: &SegmentedBuf<B>,
    next: usize,
    from: usize,
    window: &mut [u8],
) -> Option<usize>
    requires some { 0 < length finder.now }
    requires room { 2 * (length finder.now - 1) ≤ length window.old }
    ensures { IsFirst (OccursAt (segment.now ++ concat (drop next buf.now.segments)) finder.now)
        from (length segment.now) result }
{
    if from >= segment.len() {
        return None;
    }
    if let Some(at) = find_by_first_byte(finder, &segment[from..]) {
        return Some(from + at);
    }
    let most = finder.needle().len() - 1;
    if most == 0 || next >= buf.segments() {
        return None;
    }
    let tail = from.max(segment.len().saturating_sub(most));
    let window = &mut window[..segment.len() - tail + most];
    let count = fill_find_window(window, &segment[tail..], buf, next);
    let at = finder.find(&window[..count])?;
    Some(tail + at)
}

/// Copies the first bytes of `piece` and of the segments from index `next` on, until the window is
/// full. Returns the number of bytes.
fn fill_find_window<B: ContiguousBuf + Drop>(
    window: &mut [u8],
    piece: &[u8],
    buf: &SegmentedBuf<B>,
    next: usize,
) -> usize
    ensures within { result ≤ length window.old }
    ensures bytes { take result window.new ≡ take (length window.old)
        (piece.now ++ concat (drop next buf.now.segments)) }
{
    let mut filled = copy_to_find_window(window, 0, piece);
    for i in next..buf.segments() {
        if filled == window.len() {
            break;
        }
        let Some(segment) = buf.segment(i) else {
            break;
        };
        filled = copy_to_find_window(window, filled, segment);
    }
    filled
}

/// Copies the first bytes of `piece` into the window at `at`, until the window is full. Returns the
/// place at which they end.
#[inline]
fn copy_to_find_window(window: &mut [u8], at: usize, piece: &[u8]) -> usize
    requires { at ≤ length window.old }
    ensures end { result ≡ at + min (length piece.now) (length window.old - at) }
    ensures bytes { take result window.new
        ≡ take at window.old ++ take (length window.old - at) piece.now }
{
    let count = piece.len().min(window.len() - at);
    window[at..at + count].copy_from_slice(&piece[..count]);
    at + count
}
