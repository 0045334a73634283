//! Requests in pieces.
use super::notation::bytes_of_notation;
use super::readers::Protocol;
use super::walks::assert_walks_of_rows;
use bytes_utils_protocols::requests::body_len;
use std::alloc::Global;

/// Heads, and the lengths of the bodies after them.
const LENGTHS: &str = r#"
# No line after the first has the name.
Content-Length: 5 => Ok(0)
x\r\nHost: a:5\r\nX-Content-Length: 5 => Ok(0)
# The case of the name is free, and so are the blanks around the value.
x\r\nHost: a\r\ncontent-LENGTH:007\r\nVia: b => Ok(7)
x\r\nContent-Length: \t 5 \t\r\nVia: b => Ok(5)
x\nContent-Length: 5\nVia: b => Ok(5)
# The greatest length, and the first that is too long.
x\r\nContent-Length: 18446744073709551615 => Ok(18446744073709551615)
x\r\nContent-Length: 18446744073709551616 => Err(NotANumber)
# Equal lengths are one, and others have none.
x\r\nContent-Length: 5\r\nContent-Length: 05 => Ok(5)
x\r\nContent-Length: 5\r\nContent-Length: 6 => Err(Unequal)
# A number is digits.
x\r\nContent-Length: 5, 5 => Err(NotANumber)
x\r\nContent-Length: +5 => Err(NotANumber)
x\r\nContent-Length: -0 => Err(NotANumber)
x\r\nContent-Length: 0x5 => Err(NotANumber)
x\r\nContent-Length: 5\f => Err(NotANumber)
x\r\nContent-Length: ٥ => Err(NotANumber)
x\r\nContent-Length: => Err(NotANumber)
# The framing isn't that of a length.
x\r\nTransfer-Encoding: chunked => Err(UnknownFraming)
x\r\nContent-Length: 5\r\ntransfer-encoding: => Err(UnknownFraming)
# A folded line, a space before the colon, no colon, no name, and an empty line.
x\r\nContent-Length: 5\r\n 6 => Err(NotAHeader)
x\r\nHost: a\r\n\tContent-Length: 5 => Err(NotAHeader)
x\r\nContent-Length : 5 => Err(NotAHeader)
x\r\nContent-Length 5 => Err(NotAHeader)
x\r\n: 5 => Err(NotAHeader)
x\n\nContent-Length: 5 => Err(NotAHeader)
# The first line at fault gives the error.
x\r\nContent-Length: a\r\nTransfer-Encoding: b => Err(NotANumber)
x\r\nTransfer-Encoding: b\r\nContent-Length: a => Err(UnknownFraming)"#;

/// Whether the length of the body after the head of a row is as written. An empty line and a comment
/// are no row.
fn is_request_row_right(alloc: Global, row: &str) -> Option<bool> {
    if row.is_empty() || row.starts_with('#') {
        return Some(true);
    }
    let (head, wanted) = row.split_once(" => ")?;
    let len = body_len(&bytes_of_notation(alloc, head)?);
    Some(format!(in alloc; "{len:?}").ok()?.as_str() == wanted)
}

// Worked by hand from RFC 9110, 5.1, 5.6.3 and 8.6, and RFC 9112, 2.2, 5.1, 5.2, 6.1 and 6.3.
#[test]
fn lengths_of_request_bodies(rt: HostRuntime) {
    for row in LENGTHS.lines() {
        assert!(rt;
            is_request_row_right(rt.alloc(), row) == Some(true),
            "{row}"
        );
    }
}

/// Heads of at most 20 bytes, and the bodies that they announce.
const REQUESTS: &str = r#"
# No body comes before its last byte, and an empty line may be in it.
P\r\nContent-Length: 5\r\n\r\n => Ok(b"P\r\nContent-Length: 5")
\r\n\r\nx => b"\r\n\r\nx"
GET\r\n\r\n => Ok(b"GET")

# A head over the limit is reported once, as soon as that is certain.
<21 x>\r\n\r => Err(FrameTooLong)
\n
GET\r\n\r\n => Ok(b"GET")
"#;

#[test]
fn request_heads_and_bodies(rt: HostRuntime) {
    assert_walks_of_rows(&rt, rt.alloc(), Protocol::Requests(20), "", REQUESTS);
}
