//! Parts in pieces.
use super::readers::Protocol;
use super::walks::{Way, assert_walk_of_row, assert_walks_of_rows};
use bytes_utils_protocols::multipart::Limits;

/// Limits that the good bodies below stay within.
pub(super) const LIMITS: Limits = Limits {
    head: 100,
    body: 90,
};

/// The example of RFC 2046, section 5.1.1: a preamble, a part without a header, one with a header,
/// and an epilogue.
pub(super) const MAIL: &str = r#"
This is the preamble.  It is to be ignored, though it\r\n
is a handy place for composition agents to include an\r\n
explanatory note to non-MIME conformant readers.\r\n
\r\n
--simple boundary\r\n
\r\n
This is implicitly typed plain US-ASCII text.\r\n
It does NOT end with a linebreak.\r\n
--simple boundary => "" None None
    b"This is implicitly typed plain US-ASCII text.\r\nIt does NOT end with a linebreak."
\r\n
Content-type: text/plain; charset=us-ascii\r\n
\r\n
This is explicitly typed plain US-ASCII text.\r\n
It DOES end with a linebreak.\r\n
\r\n
--simple boundary => "Content-type: text/plain; charset=us-ascii" None None
    b"This is explicitly typed plain US-ASCII text.\r\nIt DOES end with a linebreak.\r\n"
--\r\n
\r\n
This is the epilogue.  It is also to be ignored.\r\n
end: ended
"#;

/// A field as in RFC 7578, section 4.5, and a file. After a delimiter there are a space and a tab.
/// The file has a line that begins as a delimiter. After the end there is one more part.
pub(super) const FORM: &str = r#"
--AaB03x\r\n
content-disposition: form-data; name="field1"\r\n
content-type: text/plain;charset=UTF-8\r\n
\r\n
Joe owes =E2=82=AC100.\r\n
--AaB03x =>
    "content-disposition: form-data; name=\"field1\"\r\ncontent-type: text/plain;charset=UTF-8"
    Some("field1") None b"Joe owes =E2=82=AC100."
 \t\r\n
Content-Type: text/plain\r\n
Content-Disposition: form-data; filename="a%22.txt"; name="files"\r\n
\r\n
\r\n
--AaB03\r\n
\r\n
--AaB03x =>
    "Content-Type: text/plain\r\nContent-Disposition: form-data; filename=\"a%22.txt\"; name=\"files\""
    Some("files") Some("a%22.txt") b"\r\n--AaB03\r\n"
--
--AaB03x\r\n
\r\n
Joe owes =E2=82=AC100.\r\n
--AaB03x--
end: ended
"#;

/// A part comes with the last byte of the delimiter after it.
#[test]
fn multipart_bodies(rt: HostRuntime) {
    assert_walks_of_rows(
        &rt,
        rt.alloc(),
        Protocol::Multipart(b"simple boundary", LIMITS),
        "",
        MAIL,
    );
    assert_walks_of_rows(
        &rt,
        rt.alloc(),
        Protocol::Multipart(b"AaB03x", LIMITS),
        "",
        FORM,
    );
}

/// Bodies with the boundary `b`, which readers that wait for whole parts and others read alike.
pub(super) const ODD: &str = r#"
# no part at all, an empty part
--b--
end: ended

--b\r\n\r\n\r\n--b => "" None None b""
end: not ended

# no close delimiter, half of one
--b\r\n\r\na\r\n
end: not ended

--b\r\n\r\na\r\n--
end: not ended

--b-
end: not ended

# bytes that begin as a delimiter does
--b\r\n\r\n\r\n-\r\n--\r\r\n--a\r\n--b => "" None None b"\r\n-\r\n--\r\r\n--a"

# line feeds alone after a delimiter
--b\n\n\r\n--b => always Malformed
--

# a head without an empty line, of one line and of none, and one with half of an empty line
--b\r\nA: b\r\n--b => always Malformed
--

--b\r\n--b => always Malformed
--

--b\r\nA: b\r\n\r\n--b => always Malformed
--

# one whose empty line comes after the next delimiter, and after the limit
--b\r\nA: b\r\n--b => always Malformed
\r\nA: <92 1>\r\n\r\n

# a folded line of another field
--b\r\nX: y\r\n z\r\nContent-Disposition: form-data; name=a\r\n\r\n\r\n--b =>
    "X: y\r\n z\r\nContent-Disposition: form-data; name=a" Some("a") None b""

# a head of 100 bytes with its line ends, a body of 90
--b\r\nA: <91 1>\r\n\r\n\r\n--b => "A: <91 1>" None None b""

--b\r\n\r\n<90 1>\r\n--b => "" None None b"<90 1>"
"#;

/// Bodies whose faults are seen when the part has come.
const LATE: &str = r#"
# a boundary that only begins a line, other bytes after a delimiter
--bc\r\n\r\na\r\n--b => always Malformed
--

--b -\r\n\r\na\r\n--b => always Malformed
--

# a head that begins with a folded line
--b\r\n X: y\r\n\r\n\r\n--b => always Malformed
--

# a head that is not UTF-8
--b\r\n\F\r\n\r\n\r\n--b => always NotUtf8

# a head of 101 bytes with its line ends, a body of 91
--b\r\nA: <92 1>\r\n\r\n\r\n--b => always TooLarge

--b\r\n\r\n<91 1>\r\n--b => always TooLarge
"#;

#[test]
fn odd_multipart_bodies(rt: HostRuntime) {
    let protocol = Protocol::Multipart(b"b", LIMITS);
    for rows in [ODD, LATE] {
        assert_walks_of_rows(&rt, rt.alloc(), protocol, "", rows);
    }
}

/// Bytes that may wait for a delimiter. The limits allow 190, and five more while a delimiter may
/// begin among the last.
const ENDLESS: &str = r#"
# a preamble, after the line end that is held first, without and with the delimiter after it
<193 ->
end: not ended

<194 -> => always TooLarge

<188 ->\r\n--b
end: not ended

<189 ->\r\n--b => always TooLarge

# a head, a body, and a body after a preamble
--b\r\nA: <190 ->
end: not ended

--b\r\nA: <191 -> => always TooLarge

--b\r\n\r\n<191 ->
end: not ended

--b\r\n\r\n<192 -> => always TooLarge

a\r\n--b\r\n\r\n<191 ->
end: not ended

a\r\n--b\r\n\r\n<192 -> => always TooLarge
"#;

/// More bytes at the same places.
const MORE: &str = r#"
<600 -> => always TooLarge

<600 ->\r\n--b => always TooLarge

--b\r\nA: <600 -> => always TooLarge

--b\r\n\r\n<600 -> => always TooLarge

a\r\n--b\r\n\r\n<600 -> => always TooLarge
"#;

#[test]
fn endless_multipart_bodies(rt: HostRuntime) {
    let protocol = Protocol::Multipart(b"b", LIMITS);
    let whole = Way {
        first: usize::MAX,
        second: usize::MAX,
        by_slice: false,
        is_late: false,
    };
    assert_walks_of_rows(&rt, rt.alloc(), protocol, "", ENDLESS);
    for row in MORE.split("\n\n") {
        assert_walk_of_row(&rt, rt.alloc(), protocol, row, whole);
    }
}
