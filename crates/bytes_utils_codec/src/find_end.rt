//! A search for the end of a line in the bytes of many segments.
ghost use Rattle.std.specs.Prelude.{◌≡◌, length};
ghost use Rattle.std.specs.List.{concat};
ghost use Rattle.memchr.specs.Find.{IsFirst};
ghost use Rattle.bytes_utils_codec.specs.UniversalLines.{FindsUniversalEnd, IsUniversalEndAt};

use bytes_utils_buf::contiguous::ContiguousBuf;
use bytes_utils_buf::segmented::SegmentedBuf;
use memchr::memchr2;

/// The first place from `start` on at which a line feed or a carriage return is. Segments before
/// `start` are skipped.
pub(crate) fn find_end<B: ContiguousBuf + Drop>(
    buf: &SegmentedBuf<B>,
    start: usize,
) -> Option<usize>
    ensures { FindsUniversalEnd (concat buf.now.segments) start result }
{
    let (first, offset) = buf.segment_of(start)?;
    let mut base = start - offset;
    for index in first..buf.segments() {
        let segment = buf.segment(index)?;
        if let Some(at) = find_end_in_segment(segment, start.saturating_sub(base)) {
            return Some(base + at);
        }
        base += segment.len();
    }
    None
}

/// The same in one segment.
#[inline]
fn find_end_in_segment(segment: &[u8], from: usize) -> Option<usize>
    ensures { FindsUniversalEnd segment.now from result }
{
    if from >= segment.len() {
        return None;
    }
    let at = memchr2(b'\r', b'\n', &segment[from..])?;
    Some(from + at)
}
