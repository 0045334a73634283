//! Lines that end with a line feed, a carriage return, or both, out of pieces.
use super::cuts::assert_cuts;
use super::rows::{assert_decode_row_lets_go, assert_decode_rows};
use bytes_utils_codec::decode::UniversalLines;

/// A carriage return is in one piece, and its line feed in the next one, if it is cut there.
const ROWS: &str = "\
any text: =$
any text: a=$a|
any text: .=|$
any text: <=|$
any text: <.=|$
any text: .<=||$
any text: <<=||$
any text: ..=||$
any text: <<.=||$
any text: <.<=||$
any text: <..=||$
any text: .<.=||$
any text: <.<.=||$
any text: <<<=|||$
any text: <.a=|$a|
any text: a<.b<c.d=a|b|c|$d|
any text: a<<.b.<=a||b||$
any text: \u{e9}<.\u{20ac}<\u{1d11e}=\u{e9}|\u{20ac}|$\u{1d11e}|
";

/// Lines within a limit of two bytes, and over it.
const LIMITED: &str = "\
2 text: abc=long|$
2 text: abcd<.=long|$
2 text: ab<.abc<ab.=ab|long|ab|$
2 text: abcdefgh<abc.ab=long|long|$ab|
2 text: .abc.<.cd=|long||$cd|
2 text: abcdefghijkl=long|$
2 text: abc<<.a=long||$a|
";

#[test]
fn universal_lines_cut_at_every_two_places(rt: HostRuntime) {
    for rows in [ROWS, LIMITED] {
        assert_cuts::<UniversalLines, _>(&rt, rows);
    }
}

/// A line is there as soon as its carriage return is. The line feed that follows is no line, also
/// if empty pieces or none of its own come before it. A line that is not UTF-8 is returned in the item, and the
/// next one is after it. If it is lossy, U+FFFD is in the line for bytes that are no character.
const CALLS: &str = "\
any text: +a<, a, +, =, +, -, +., -, +, =, +., empty, +, =, +, $-
any text: +{}<, {}, +.\u{e9}<^, \u{e9}, $^
any lossy: +a{}<b^, a\u{fffd}, $b\u{fffd}
";

#[test]
fn universal_lines_after_each_piece(rt: HostRuntime) {
    assert_decode_rows::<UniversalLines, _>(&rt, b"", CALLS);
}

/// A line of 200,000 bytes in many pieces, many lines in a row, and a last one of the same length.
const LONG: &str = "any text: \
    2000 times: own aaaaaaaaaaaaaaaaaaaaaaaaaaaaaaaaaaaaaaaaaaaaaaaaaa\
    aaaaaaaaaaaaaaaaaaaaaaaaaaaaaaaaaaaaaaaaaaaaaaaaaa, -; +<, *#200000; &; 3000 times: empty; \
    2000 times: own aaaaaaaaaaaaaaaaaaaaaaaaaaaaaaaaaaaaaaaaaaaaaaaaaa\
    aaaaaaaaaaaaaaaaaaaaaaaaaaaaaaaaaaaaaaaaaaaaaaaaaa, -; $*#200000";

#[test]
fn long_universal_lines_and_many(rt: HostRuntime) {
    assert_decode_row_lets_go::<UniversalLines, _>(&rt, &[b'\r'; 3_000], LONG);
}
