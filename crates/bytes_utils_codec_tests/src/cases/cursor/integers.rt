//! Integers and arrays at a cursor, wherever their bytes are cut.
use super::is_cursor_row_right;
use crate::cases::fixtures::assert_row;
use bytes_utils::SegmentedBuf;
use bytes_utils_buf::contiguous::ContiguousBuf;
use bytes_utils_codec::cursor::Cursor;
use std::alloc::Global;
use std::io::Print;
use std::process::Abort;

/// Takes the next integer or array. Returns `None` if the name is another one.
pub(super) fn is_next_integer<B: ContiguousBuf + Drop>(
    cursor: &mut Cursor<'_, B>,
    name: &str,
    want: &str,
) -> Option<bool> {
    let next = match name {
        "take_u8" => cursor.take_u8().map(u64::from),
        "take_u16" => cursor.take_u16().map(u64::from),
        "take_u16_le" => cursor.take_u16_le().map(u64::from),
        "take_u32" => cursor.take_u32().map(u64::from),
        "take_u32_le" => cursor.take_u32_le().map(u64::from),
        "take_u64" => cursor.take_u64(),
        "take_u64_le" => cursor.take_u64_le(),
        "take_array_3" => match cursor.take_array::<3>() {
            Some(bytes) => {
                let mut all = [0; 8];
                all[5..].copy_from_slice(&bytes);
                Some(u64::from_be_bytes(all))
            }
            None => None,
        },
        "take_array_8" => cursor.take_array::<8>().map(u64::from_be_bytes),
        _ => return None,
    };
    Some(match next {
        Some(number) => u64::from_str_radix(want, 16) == Ok(number),
        None => want == "none",
    })
}

/// The bytes from 1 to 32.
const BYTES: &[u8] = b"\x01\x02\x03\x04\x05\x06\x07\x08\x09\x0a\x0b\x0c\x0d\x0e\x0f\x10\
    \x11\x12\x13\x14\x15\x16\x17\x18\x19\x1a\x1b\x1c\x1d\x1e\x1f\x20";

/// Each call reads what the next of all bytes write.
const ALL: &str =
    "take_u8 01, take_u16 0203, take_u16_le 0504, take_u32 06070809, take_u32_le 0d0c0b0a, \
    take_u64 0e0f101112131415, take_u64_le 1d1c1b1a19181716, take_array_3 1e1f20, remaining 0";

/// Each call on the first seven bytes waits for its last byte, and takes none till then.
const SEVEN: &str =
    "take_u64 none, take_u64_le none, take_array_8 none, take_u32 01020304, take_u32 none, \
    take_u32_le none, take_u16 0506, take_u16 none, take_u16_le none, take_u8 07, take_u8 none, at 7";

/// The bytes in segments of `size` bytes, or `None` if memory is refused.
fn segments_of_integers(alloc: Global, bytes: &[u8], size: usize) -> Option<SegmentedBuf<&[u8]>> {
    let mut held = SegmentedBuf::new(alloc);
    let mut is_made = true;
    for segment in bytes.chunks(size.max(1)) {
        is_made &= held.try_push(segment).is_ok();
    }
    is_made.then_some(held)
}

/// Whether a row is right of the bytes in segments of `size` bytes.
fn is_row_right_at_size<R: Abort + Print + AllocGlobal>(
    rt: &R,
    bytes: &[u8],
    size: usize,
    row: &str,
) -> bool {
    match segments_of_integers(rt.alloc(), bytes, size) {
        Some(held) => is_cursor_row_right(rt, &held, row),
        None => false,
    }
}

#[test]
fn integers_cut_at_each_size(rt: HostRuntime) {
    for (bytes, row) in [(BYTES, ALL), (&BYTES[..7], SEVEN)] {
        for size in 1..=bytes.len() {
            let holds = is_row_right_at_size(&rt, bytes, size, row);
            assert_row(&rt, row, holds);
        }
    }
}
