//! Tests of the example of the README.
use super::{Line, next_line};
use crate::cases::fixtures::assert_that;
use bytes::Bytes;
use bytes_utils::Reason;
use bytes_utils_codec::decode::{Framed, LineFault, Lines};

/// Whether this line was returned, or for `-` none.
fn is_readme_line(line: &Option<Line>, want: &str) -> bool {
    match line {
        Some(Ok(line)) => line.eq_str(want),
        Some(Err(LineFault::TooLong)) => want == "long",
        Some(Err(LineFault::NotUtf8(_))) => want == "bytes",
        None => want == "-",
    }
}

/// Pieces, each with the line that comes with it, within a limit of eight bytes.
const PIECES: [(&[u8], &str); 5] = [
    (b"Host: a\r", "-"),
    (b"\nGET / HTTP", "Host: a"),
    (b"/1.1\r", "long"),
    (b"\n\xFF\n", "bytes"),
    (b"\r\nbody", ""),
];

/// Whether the lines of these pieces come.
fn are_readme_lines(lines: &mut Framed<Lines>) -> Result<bool, Reason> {
    for (piece, want) in PIECES {
        if !is_readme_line(&next_line(lines, Bytes::from_static(piece))?, want) {
            return Ok(false);
        }
    }
    Ok(true)
}

#[test]
fn readme_lines_across_pieces(rt: HostRuntime) {
    let decoder = Lines::with_limit(rt.alloc(), 8).expect(&rt, "no memory");
    let holds = are_readme_lines(&mut Framed::new(rt.alloc(), decoder)) == Ok(true);
    assert_that(&rt, holds);
}
