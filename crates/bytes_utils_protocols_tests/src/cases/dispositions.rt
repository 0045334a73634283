//! The names in the heads of parts.
use super::notation::bytes_of_notation;
use bytes_utils_protocols::multipart::{Limits, Part, PartError, PartReader};
use std::alloc::Global;

/// Limits that the heads below stay within.
const LIMITS: Limits = Limits { head: 200, body: 1 };

/// Heads, and the name and the file name in them, or why they are in no part.
const HEADS: &str = r#"
# A name in a string that looks as if it were the other one.
form-data; name="a; filename="; filename="real.txt" => Some("a; filename=") Some("real.txt")
form-data; filename="x; name="; name="real" => Some("real") Some("x; name=")
# Folded lines, outside of a string and in one.
form-data; name="a";\r\n filename="f" => Some("a") Some("f")
form-data;\r\n name="a" => Some("a") None
form-data; name="a";\r\n\tfilename="f"\r\nX: y => Some("a") Some("f")
form-data; name="a\r\n b" => Some("a b") None
# Tokens, blanks, and names in any case.
form-data; name=a => Some("a") None
form-data;name="a" => Some("a") None
form-data; \t name="a" => Some("a") None
form-data; NAME="a"; FileName=f => Some("a") Some("f")
form-data; name = "a" => Some("a") None
form-data ; name="a" ; filename=f  => Some("a") Some("f")
form-data; name="" => Some("") None
form-data; name="é" => Some("é") None
attachment; name="a" => Some("a") None
# Nothing between two semicolons, or after the last one.
form-data; name="a";; filename=f => Some("a") Some("f")
form-data; name="a"; => Some("a") None
# A backslash before a quote, a backslash or another byte, and what browsers write for a quote.
form-data; name="q\\"uote" => Some("q\"uote") None
form-data; name="back\\\\slash" => Some("back\\slash") None
form-data; name="a\\\\"; filename="\\\\\\"" => Some("a\\") Some("\\\"")
form-data; name="C:\\dir\\a.txt" => Some("C:\\dir\\a.txt") None
form-data; name="a%22b" => Some("a%22b") None
# Another name is not read. A name that comes twice is `None`.
form-data; filename*=UTF-8''x.txt; name="a" => Some("a") None
form-data; name="a"; name="b"; filename=f => None Some("f")
# No parameter, no type, no value, no end of a string, no semicolon, and bytes that no token has.
form-data => None None
; name="a" => None None
form-data; name => None None
form-data; name= => None None
form-data; name="a => None None
form-data; name="a\\" => None None
form-data; name="f"; filename="x\\" => None None
form-data name="a" => None None
form-data; name="a"x => None None
form-data; name=a b => None None
form-data; name=é => None None
# Of two such fields the first one alone is read.
form-data; name=a\r\ncontent-disposition: form-data; name=b => Some("a") None
form-data\r\nContent-Disposition: form-data; name=b => None None
# Lines that are no header fields.
form-data; name=a\r\n: x => Malformed
form-data; name=a\r\nX => Malformed
form-data; name=a\r\nX : y => Malformed
form-data; name=a\r\nX\ry: z => Malformed
form-data; name=a\r\nX: y\rz => Malformed
form-data; name=a\r\nX: y\0 => Malformed
form-data; name=a\r\n\r => Malformed"#;

/// What comes next: both names of a part, or an error.
fn names_text(alloc: Global, next: &Result<Option<Part>, PartError>) -> Option<String> {
    match next {
        Ok(Some(part)) => format!(in alloc; "{:?} {:?}", part.name, part.file_name).ok(),
        Ok(None) => None,
        Err(error) => format!(in alloc; "{error:?}").ok(),
    }
}

/// Whether the names in the head of a row are as written. An empty line and a comment are no row.
fn is_disposition_row_right(alloc: Global, row: &str) -> Option<bool> {
    if row.is_empty() || row.starts_with('#') {
        return Some(true);
    }
    let (written, wanted) = row.split_once(" => ")?;
    let head = bytes_of_notation(alloc, written)?;
    let mut parts = PartReader::new(alloc, b"b", LIMITS).ok()?;
    parts.push_slice(b"--b\r\nContent-Disposition: ").ok()?;
    parts.push_slice(&head).ok()?;
    parts.push_slice(b"\r\n\r\n\r\n--b").ok()?;
    Some(names_text(alloc, &parts.next_part())?.as_str() == wanted)
}

// Python's `email` and `werkzeug` read most rows in the same way. They differ where a name comes
// twice, where the value isn't in the grammar, and in `filename*`; `werkzeug` also reads `%22` as a
// quote, and allows no blanks at an equals sign.
#[test]
fn names_in_dispositions(rt: HostRuntime) {
    for row in HEADS.lines() {
        assert!(rt;
            is_disposition_row_right(rt.alloc(), row) == Some(true),
            "{row}"
        );
    }
}
