//! Each call whose request for memory is refused. With enough memory none is; a run that refuses one
//! prints a line for it. The same call is then made again, and all comes as if none had been refused.
use super::readers::Protocol;
use super::walks::{Way, assert_walk_of_row};
use bytes::{Buf, Bytes};
use bytes_utils::{Reason, SegmentedBuf};
use bytes_utils_protocols::netstrings::netstring;
use bytes_utils_protocols::redis::{ReplyReader, command};
use bytes_utils_protocols::{events, multipart, redis};
use std::alloc::Global;

const LIMITS: redis::Limits = redis::Limits {
    line: 9,
    bulk: 9,
    items: 9,
};

const REDIS: Protocol = Protocol::Redis(LIMITS);

const EVENTS: Protocol = Protocol::Events(events::Limits { line: 9, data: 9 });

const PARTS: Protocol = Protocol::Multipart(
    b"b",
    multipart::Limits {
        head: 99,
        body: 9_000,
    },
);

const PART_STREAM: Protocol = Protocol::PartStream(
    b"b",
    multipart::Limits {
        head: 99,
        body: 9_000,
    },
);

const REPLY: &str = r#"*1\r\n$5\r\nHello\r\n => [Array(Some(1)), Bulk(Some(b"Hello"))]"#;

const EVENT: &str = r#"
id: 1\nevent: a\ndata: b\n
data: c\n\n => Event { name: Some("a"), data: "b\nc", id: Some("1") }
"#;

const PART: &str = r#"
--b\r\n
Content-Disposition: form-data; name="a"\r\n
\r\n
Hello\r\n
--b => "Content-Disposition: form-data; name=\"a\"" Some("a") None b"Hello"
--
end: ended
"#;

/// A part in two blocks.
const LARGE_PART: &str = r#"--b\r\n\r\n<4608 a>\r\n--b => "" None None b"<4608 a>""#;

const RECORD: &str = r#"Hello\r\n\r\n => Ok("Hello")"#;

const REQUEST: &str = r#"
P\r\nContent-Length: 5\r\n\r\n => Ok(b"P\r\nContent-Length: 5")
World => b"World"
"#;

#[test]
fn protocols_with_pieces_if_memory_is_refused(rt: HostRuntime) {
    let way = Way {
        first: 10,
        second: 10,
        by_slice: false,
        is_late: false,
    };
    for (protocol, row) in [
        (REDIS, REPLY),
        (EVENTS, EVENT),
        (PARTS, PART),
        (PART_STREAM, PART),
        (Protocol::Records(9), RECORD),
        (Protocol::Requests(20), REQUEST),
    ] {
        assert_walk_of_row(&rt, rt.alloc(), protocol, row, way);
    }
    let way = Way {
        first: 512,
        second: 512,
        is_late: true,
        ..way
    };
    for protocol in [PARTS, PART_STREAM] {
        assert_walk_of_row(&rt, rt.alloc(), protocol, LARGE_PART, way);
    }
}

#[test]
fn protocols_with_slices_if_memory_is_refused(rt: HostRuntime) {
    let way = Way {
        first: usize::MAX,
        second: usize::MAX,
        by_slice: true,
        is_late: true,
    };
    for (protocol, row) in [
        (REDIS, REPLY),
        (EVENTS, EVENT),
        (PARTS, LARGE_PART),
        (PART_STREAM, LARGE_PART),
    ] {
        assert_walk_of_row(&rt, rt.alloc(), protocol, row, way);
    }
}

/// Whether the reader waits for the last byte of this bulk string, if memory for its bytes is there.
fn waits_for_bulk_end(replies: &mut ReplyReader) -> bool {
    replies.push_slice(b"$5\r\nHello\r").is_err()
        || (matches!(replies.next_reply(), Ok(None)) && matches!(replies.next_reply(), Ok(None)))
}

#[test]
fn redis_bulk_without_its_last_byte_needs_no_memory(rt: HostRuntime) {
    assert!(rt; waits_for_bulk_end(&mut ReplyReader::new(rt.alloc(), LIMITS)));
}

/// Whether a message has this number of bytes and begins with these, or `None` if memory was refused.
fn begins_written(
    written: Result<SegmentedBuf<Bytes>, Reason>,
    front: &[u8],
    len: usize,
) -> Option<bool> {
    match written {
        Ok(whole) => {
            let is_so = whole.starts_with(front) & (whole.remaining() == len);
            drop(whole);
            Some(is_so)
        }
        Err(Reason::OutOfMemory) => None,
        Err(Reason::TooLong) => Some(false),
    }
}

const LONG: &[u8] = &[b'v'; 513];

/// Whether the netstring or the command of a long text has its length and begins right, or `None` if
/// memory was refused.
fn is_long_written(alloc: Global, call: &str) -> Option<bool> {
    if call == "netstring" {
        return begins_written(netstring(alloc, Bytes::from_static(LONG)), b"513:vv", 518);
    }
    let words = [Bytes::from_static(b"SET"), Bytes::from_static(LONG)];
    let front = b"*2\r\n$3\r\nSET\r\n$513\r\nvv";
    begins_written(command(alloc, &words), front, 534)
}

#[test]
fn written_messages_if_memory_is_refused(rt: HostRuntime) {
    for call in ["netstring", "command"] {
        let mut holds = is_long_written(rt.alloc(), call);
        if holds.is_none() {
            assert!(rt; println!(rt; "refused {call}").is_ok());
            holds = is_long_written(rt.alloc(), call);
        }
        assert!(rt; holds == Some(true), "{call}");
    }
}
