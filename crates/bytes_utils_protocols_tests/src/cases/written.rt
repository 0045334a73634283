//! Messages that are written: netstrings, and commands for Redis.
//!
//! A text or words are written as `notation` says, with a bar after each. The bytes were worked out by
//! hand; a reader is taken along them as along any row.
use super::notation::bytes_of_notation;
use super::readers::Protocol;
use super::rows::Row;
use super::walks::{Way, assert_walk_of_row};
use bytes::Bytes;
use bytes_utils::SegmentedBuf;
use bytes_utils_protocols::netstrings::netstring;
use bytes_utils_protocols::redis::{Limits, command};
use std::alloc::Global;

/// The words, or `None` if memory is refused.
fn words_to_write(alloc: Global, written: &str) -> Option<Vec<Bytes>> {
    let mut words = Vec::new(alloc);
    for word in written.split_terminator('|') {
        let word = Bytes::from_vec(bytes_of_notation(alloc, word)?).ok()?;
        words.push(word).ok()?;
    }
    Some(words)
}

/// The netstring of the first word, or the command.
fn written_message(
    alloc: Global,
    protocol: Protocol,
    words: &[Bytes],
) -> Option<SegmentedBuf<Bytes>> {
    match protocol {
        Protocol::Netstrings(_) => netstring(alloc, words.first()?.clone().ok()?).ok(),
        _ => command(alloc, words).ok(),
    }
}

/// Whether the message has these bytes.
fn has_written_bytes(alloc: Global, protocol: Protocol, words: &[Bytes], wanted: &[u8]) -> bool {
    match written_message(alloc, protocol, words) {
        Some(whole) => {
            let is_so = whole.eq_bytes(wanted);
            drop(whole);
            is_so
        }
        None => false,
    }
}

/// Whether the message is the stream of a row.
fn is_written_as(alloc: Global, protocol: Protocol, words: &[Bytes], row: &str) -> bool {
    match Row::of(alloc, "", row) {
        Some(row) => {
            let is_so = has_written_bytes(alloc, protocol, words, &row.stream);
            drop(row);
            is_so
        }
        None => false,
    }
}

/// The same of words that are written so.
fn are_written_as(alloc: Global, protocol: Protocol, written: &str, row: &str) -> bool {
    match words_to_write(alloc, written) {
        Some(words) => is_written_as(alloc, protocol, &words, row),
        None => false,
    }
}

const NETSTRINGS: Protocol = Protocol::Netstrings(1_000);

/// The least limits at which `command` says that the commands below are read again.
const REDIS: Protocol = Protocol::Redis(Limits {
    line: 21,
    bulk: 513,
    items: 11,
});

/// The first netstrings are those of their definition, and the first command is that of the protocol's
/// own page (https://redis.io/docs/latest/develop/reference/protocol-spec/).
const MESSAGES: [(Protocol, &str, &str); 10] = [
    (
        NETSTRINGS,
        "hello world!|",
        r#"12:hello world!, => b"hello world!""#,
    ),
    (NETSTRINGS, "|", r#"0:, => b"""#),
    (NETSTRINGS, "5:a,|", r#"4:5:a,, => b"5:a,""#),
    (NETSTRINGS, "<1000 a>|", r#"1000:<1000 a>, => b"<1000 a>""#),
    (
        REDIS,
        "LLEN|mylist|",
        r#"*2\r\n$4\r\nLLEN\r\n$6\r\nmylist\r\n => [Array(Some(2)), Bulk(Some(b"LLEN")), Bulk(Some(b"mylist"))]"#,
    ),
    (REDIS, "", r"*0\r\n => [Array(Some(0))]"),
    (
        REDIS,
        "|",
        r#"*1\r\n$0\r\n\r\n => [Array(Some(1)), Bulk(Some(b""))]"#,
    ),
    (
        REDIS,
        r"a\r\nb|",
        r#"*1\r\n$4\r\na\r\nb\r\n => [Array(Some(1)), Bulk(Some(b"a\r\nb"))]"#,
    ),
    (
        REDIS,
        "x|x|x|x|x|x|x|x|x|x|",
        r#"*10\r\n<10 $1\r\nx\r\n> => [Array(Some(10))<10 , Bulk(Some(b"x"))>]"#,
    ),
    (
        REDIS,
        "<513 k>|<512 v>|<513 v>|",
        r#"*3\r\n$513\r\n<513 k>\r\n$512\r\n<512 v>\r\n$513\r\n<513 v>\r\n =>
    [Array(Some(3)), Bulk(Some(b"<513 k>")), Bulk(Some(b"<512 v>")), Bulk(Some(b"<513 v>"))]"#,
    ),
];

const PIECES: Way = Way {
    first: 3,
    second: 600,
    by_slice: false,
    is_late: false,
};

#[test]
fn written_messages(rt: HostRuntime) {
    for (protocol, words, row) in MESSAGES {
        let holds = are_written_as(rt.alloc(), protocol, words, row);
        assert!(rt; holds, "{words}");
        assert_walk_of_row(&rt, rt.alloc(), protocol, row, PIECES);
    }
}
