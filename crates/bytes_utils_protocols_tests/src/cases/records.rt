//! Records in pieces.
use super::readers::Protocol;
use super::walks::assert_walks_of_rows;

/// A record of as many bytes as the limit allows, one that is longer, one that is not UTF-8, an empty
/// one, and a part of another.
const STREAM: &str = r#"
Grüße\r\n\r\n => Ok("Grüße")
alle, die\r\n => Err(TooLong)
\r\n
a\Fb\r\n\r\n => Err(NotUtf8(b"a\xffb"))
\r\n\r\n => Ok("")
rest
end: 4 held
"#;

#[test]
fn records_of_a_stream(rt: HostRuntime) {
    assert_walks_of_rows(&rt, rt.alloc(), Protocol::Records(7), "", STREAM);
}
