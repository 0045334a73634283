//! Netstrings in pieces, and from a reader. The first two are the examples of their definition.
use super::readers::Protocol;
use super::walks::assert_walks_of_rows;
use bytes_utils_codec::decode::Framed;
use bytes_utils_protocols::netstrings::Netstrings;

const ROWS: &str = r#"
12:hello world!, => b"hello world!"
0:, => b""
5:hello, => b"hello"
5:hel
end: 5 held

1:a, => b"a"

1:a
end: 3 held

12:

13: => always Refused(TooLong)

70000: => always Refused(TooLong)

# no colon among the first 21 bytes
123456789012345678901 => always Refused(TooLong)

1:a; => always Malformed

+1: => always Malformed
a,

: => always Malformed
,
"#;

#[test]
fn netstrings_of_streams(rt: HostRuntime) {
    assert_walks_of_rows(&rt, rt.alloc(), Protocol::Netstrings(12), "", ROWS);
}

/// Whether the next text is this one. A dash is none: the input has ended.
fn is_next_netstring(input: &mut &[u8], texts: &mut Framed<Netstrings>, wanted: &str) -> bool {
    match texts.read_item(input) {
        Ok(Some(text)) => text.as_slice() == wanted.as_bytes(),
        Ok(None) => wanted == "-",
        Err(_) => false,
    }
}

/// Whether all texts are read, and then the end, after which five bytes are left.
fn are_netstrings_read(texts: &mut Framed<Netstrings>) -> bool {
    let mut input = "12:hello world!,0:,5:hello,5:hel".as_bytes();
    for wanted in ["hello world!", "", "hello", "-"] {
        if !is_next_netstring(&mut input, texts, wanted) {
            return false;
        }
    }
    texts.remaining() == 5
}

#[test]
fn netstrings_from_a_reader(rt: HostRuntime) {
    let decoder = Netstrings { max_length: 12 };
    assert!(rt; are_netstrings_read(&mut Framed::new(rt.alloc(), decoder)));
}
