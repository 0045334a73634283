//! Frames after their lengths, out of pieces: worked cases.
use super::cuts::assert_cuts;
use super::rows::assert_decode_rows;
use bytes_utils_codec::decode::LengthPrefixed;

/// Three frames, of which one is empty, and the beginning of a fourth; and what comes of them.
const STREAM: &str = "4 width 4: \0\0\0\x03abc\0\0\0\0\0\0\0\x01d\0\0\0\x04ef=abc||d|$\0\0\0\x04ef";

/// The layouts that tokio-util's documents show for its `LengthDelimitedCodec`. Where a head is
/// kept, its bytes are added to the length there, and here they are not.
const LAYOUTS: &str = "\
    99 width 2: \0\x0bHello world=Hello world|$\n\
    99 width 2, dropping 0: \0\x0bHello world=\0\x0bHello world|$\n\
    99 width 2, adjusted by -2: \0\x0dHello world=Hello world|$\n\
    99 width 3, adjusted by 2, dropping 0: \0\0\x0b@!Hello world=\0\0\x0b@!Hello world|$\n\
    99 at 1, width 2, adjusted by 1: @\0\x0b!Hello world=!Hello world|$\n\
    99 at 1, width 2, adjusted by -3: @\0\x0f!Hello world=!Hello world|$";

/// Lengths of each width, in both orders, that the adjustment makes 2.
const WIDTHS: &str = "\
    2 width 1, adjusted by 1: \x01ab=ab|$\n\
    2 width 1, adjusted by 1, little endian: \x01ab=ab|$\n\
    2 width 2, adjusted by -256: \x01\x02ab=ab|$\n\
    2 width 2, adjusted by -256, little endian: \x02\x01ab=ab|$\n\
    2 width 3, adjusted by -66049: \x01\x02\x03ab=ab|$\n\
    2 width 3, adjusted by -66049, little endian: \x03\x02\x01ab=ab|$\n\
    2 width 4, adjusted by -16909058: \x01\x02\x03\x04ab=ab|$\n\
    2 width 4, adjusted by -16909058, little endian: \x04\x03\x02\x01ab=ab|$\n\
    2 width 5, adjusted by -4328719363: \x01\x02\x03\x04\x05ab=ab|$\n\
    2 width 5, adjusted by -4328719363, little endian: \x05\x04\x03\x02\x01ab=ab|$\n\
    2 width 6, adjusted by -1108152157444: \x01\x02\x03\x04\x05\x06ab=ab|$\n\
    2 width 6, adjusted by -1108152157444, little endian: \x06\x05\x04\x03\x02\x01ab=ab|$\n\
    2 width 7, adjusted by -283686952306181: \x01\x02\x03\x04\x05\x06\x07ab=ab|$\n\
    2 width 7, adjusted by -283686952306181, little endian: \x07\x06\x05\x04\x03\x02\x01ab=ab|$\n\
    2 width 8, adjusted by -72623859790382854: \x01\x02\x03\x04\x05\x06\x07\x08ab=ab|$\n\
    2 width 8, adjusted by -72623859790382854, little endian: \x08\x07\x06\x05\x04\x03\x02\x01\
    ab=ab|$";

/// A frame of the limit is given, and one over it is reported once. The limit is on the bytes after
/// the head.
const LIMITS: &str = "\
    2 width 4: \0\0\0\x02ab\0\0\0\x03cde\0\0\0\x01f=ab|long|f|$\n\
    3 width 1, adjusted by 1: \x02abc\x03defg\0h=abc|long|h|$\n\
    2 width 1, adjusted by -1: \x03ab\x04cde\x01=ab|long||$\n\
    1 width 1, dropping 0: \x01a\x02bc\0=\x01a|long|\0|$";

/// A length that the adjustment makes less than zero: only the head is skipped.
const BELOW_ZERO: &str = "\
    9 width 1, adjusted by -2: \x01\x02\x03a=long||a|$\n\
    9 width 1, adjusted by -9223372036854775808: ~\0=long|long|$";

/// More bytes are dropped than a frame has.
const DROPPED: &str = "\
    9 width 1, dropping 3: \x01a\x02bc\x03def=||f|$\n\
    9 width 1, dropping 18446744073709551615: \x01a\x02bc=||$";

/// A frame over the limit, between two others, is skipped wherever it is cut.
const SKIPPED: &str = "4 width 4: \0\0\0\x01a\0\0\0\x05bcdef\0\0\0\x01g=a|long|g|$";

/// A frame within the limit, or a head, that can never come; and the greatest length, with something added to it.
const BEYOND: &str = "\
    any width 8: ~~~~~~~~abc=$~~~~~~~~abc\n\
    9 at 18446744073709551615: ~~~~~~~~abc=$~~~~~~~~abc\n\
    any width 8, adjusted by 9223372036854775807: ~~~~~~~~abc=long|$";

#[test]
fn length_prefixed_streams_cut_anywhere(rt: HostRuntime) {
    for rows in [
        STREAM, LAYOUTS, WIDTHS, LIMITS, BELOW_ZERO, DROPPED, SKIPPED, BEYOND,
    ] {
        assert_cuts::<LengthPrefixed, _>(&rt, rows);
    }
}

/// Many single bytes are held in few segments.
const SINGLE: &str =
    "4 width 4: 3 times: own \0, /1, -; own \x03, /1, -, own a, /1, -, own b, /1, -, own c, /1, abc, -; \
    3 times: own \0, /1, -; own \0, /1, empty, -; 3 times: own \0, /1, -; own \x01, /1, -, own d, /1, d, -; \
    3 times: own \0, /1, -; own \x04, /1, -, own e, /1, -, own f, /1, -";

/// What comes of a frame that never ends is dropped, and after the end of the stream another frame
/// comes. Its length is the greatest one.
const ENDLESS: &str = "18446744073709551614 width 8: \
    +~~~~~~~~abc, long, -, +defg, $-, =, +\0\0\0\0\0\0\0\x01a, a";

#[test]
fn length_prefixed_frames_after_each_piece(rt: HostRuntime) {
    for rows in [SINGLE, ENDLESS] {
        assert_decode_rows::<LengthPrefixed, _>(&rt, b"", rows);
    }
}
