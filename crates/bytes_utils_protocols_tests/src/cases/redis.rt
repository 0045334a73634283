//! Replies in pieces.
use super::readers::Protocol;
use super::walks::{Way, assert_walk_of_row, assert_walks_of_rows};
use bytes_utils_protocols::redis::Limits;

/// Limits that the replies below stay within.
const REDIS: Protocol = Protocol::Redis(Limits {
    line: 70,
    bulk: 300,
    items: 8,
});

/// Replies of the protocol's own page (https://redis.io/docs/latest/develop/reference/protocol-spec/).
/// After those come one with an end of a line in it, integers with signs, and numbers with zeros
/// before them.
const REPLIES: &str = r#"
+OK\r\n => [Simple(b"OK")]

-Error message\r\n => [Error(b"Error message")]

-ERR unknown command 'asdf'\r\n => [Error(b"ERR unknown command 'asdf'")]

-WRONGTYPE Operation against a key holding the wrong kind of value\r\n =>
    [Error(b"WRONGTYPE Operation against a key holding the wrong kind of value")]

:0\r\n => [Integer(0)]

:1000\r\n => [Integer(1000)]

$5\r\nhello\r\n => [Bulk(Some(b"hello"))]

$0\r\n\r\n => [Bulk(Some(b""))]

$-1\r\n => [Bulk(None)]

*0\r\n => [Array(Some(0))]

*2\r\n$5\r\nhello\r\n$5\r\nworld\r\n => [Array(Some(2)), Bulk(Some(b"hello")), Bulk(Some(b"world"))]

*3\r\n:1\r\n:2\r\n:3\r\n => [Array(Some(3)), Integer(1), Integer(2), Integer(3)]

*5\r\n:1\r\n:2\r\n:3\r\n:4\r\n$5\r\nhello\r\n =>
    [Array(Some(5)), Integer(1), Integer(2), Integer(3), Integer(4), Bulk(Some(b"hello"))]

*-1\r\n => [Array(None)]

*2\r\n*3\r\n:1\r\n:2\r\n:3\r\n*2\r\n+Hello\r\n-World\r\n =>
    [Array(Some(2)), Array(Some(3)), Integer(1), Integer(2), Integer(3),
    Array(Some(2)), Simple(b"Hello"), Error(b"World")]

*3\r\n$5\r\nhello\r\n$-1\r\n$5\r\nworld\r\n =>
    [Array(Some(3)), Bulk(Some(b"hello")), Bulk(None), Bulk(Some(b"world"))]

*2\r\n*0\r\n*-1\r\n => [Array(Some(2)), Array(Some(0)), Array(None)]

$4\r\na\r\nb\r\n => [Bulk(Some(b"a\r\nb"))]

:-7\r\n => [Integer(-7)]

:+7\r\n => [Integer(7)]

:-000000000000000000009223372036854775808\r\n => [Integer(-9223372036854775808)]

*02\r\n$0003\r\n\r\n\r\r\n:00\r\n => [Array(Some(2)), Bulk(Some(b"\r\n\r")), Integer(0)]
"#;

/// A reply comes with its last byte.
#[test]
fn redis_replies(rt: HostRuntime) {
    assert_walks_of_rows(&rt, rt.alloc(), REDIS, "", REPLIES);
}

/// All replies come in one stream: each comes with its own last byte, and with its own items.
#[test]
fn redis_replies_of_one_stream(rt: HostRuntime) {
    let way = Way {
        first: 1,
        second: 1,
        by_slice: true,
        is_late: false,
    };
    assert_walk_of_row(&rt, rt.alloc(), REDIS, REPLIES, way);
}

/// What is no reply, whatever comes after it, or none within the limits.
const BAD: &str = r#"
# a byte that begins no item, and an empty line
? => always Malformed
\r\n

\r => always Malformed
\n

# a part of the end of a line in a text
+a\rb => always Malformed
\r\n

-a\n => always Malformed
b\r\n

-\r\r => always Malformed

# integers without a digit, with other bytes, above the greatest and below the least
:\r => always Malformed
\n

:-\r => always Malformed
\n

:1a => always Malformed
\r\n

:12a => always Malformed

:+- => always Malformed
1

:9223372036854775808 => always Malformed
\r\n

:-0009223372036854775809 => always Malformed

# lengths below none, with a sign, without a digit, with other bytes, and above the greatest
$-2 => always Malformed
\r\n

$-0 => always Malformed
1

$+ => always Malformed
1\r\n

$\r => always Malformed
\n

$x => always Malformed

$1\r1 => always Malformed

*-2 => always Malformed
\r\n

*-10 => always Malformed

*+ => always Malformed

*a => always Malformed
\r\n

*18 => always TooLarge
446744073709551616 => always Malformed

# bytes without an end of a line after them, and what is wrong within arrays
$1\r\nab => always Malformed

$0\r\n\n => always Malformed

$0\r\r => always Malformed

*2\r\n:1\r\n:b => always Malformed
\r\n

*1\r\n*1\r\n! => always Malformed
\r\n

# too long a line, whether it ends or not
+<70 1> => always TooLarge
\r\n

+<70 1> => always TooLarge
1

:<70 0> => always TooLarge

# too many bytes, and too many items
$301 => always TooLarge
\r\n

*8 => always TooLarge
\r\n

*2\r\n:1\r\n$999 => always TooLarge
99999999\r\n

*2\r\n*18 => always TooLarge
446744073709551615\r\n
"#;

/// Each bad input is refused as soon as that is certain, and from then on: alone, and after a bulk
/// item of 300 bytes in the same array.
#[test]
fn bad_redis_input(rt: HostRuntime) {
    assert_walks_of_rows(&rt, rt.alloc(), REDIS, "", BAD);
    assert_walks_of_rows(&rt, rt.alloc(), REDIS, r"*2\r\n$300\r\n<300 a>\r\n", BAD);
}

/// A line of many pieces, shared and copied ones in turn, comes when its end has come.
#[test]
fn long_redis_line_of_pieces(rt: HostRuntime) {
    let limits = Limits {
        line: 4_112,
        bulk: 0,
        items: 1,
    };
    let way = Way {
        first: 1,
        second: 513,
        by_slice: false,
        is_late: false,
    };
    let row = r#"+<4111 a>\r\n => [Simple(b"<4111 a>")]"#;
    assert_walk_of_row(&rt, rt.alloc(), Protocol::Redis(limits), row, way);
}
