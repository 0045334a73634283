//! Events in pieces.
use super::readers::Protocol;
use super::walks::{Way, assert_walk_of_row, assert_walks_of_rows};
use bytes_utils_protocols::events::Limits;

/// Limits that most streams below stay within.
const EVENTS: Protocol = Protocol::Events(Limits { line: 23, data: 14 });

/// Streams of the HTML standard, section 9.2.6.
const STANDARD: &str = r#"
# three lines of data
data: YHOO\n
data: +2\n
data: 10\n\n => Event { name: None, data: "YHOO\n+2\n10", id: None }

# four blocks, of which the last one has no end
: test stream\n\n
data: first event\nid: 1\n\n => Event { name: None, data: "first event", id: Some("1") }
data:second event\nid\n\n => Event { name: None, data: "second event", id: Some("") }
data:  third event\n

# and of which it has one
: test stream\n\n
data: first event\nid: 1\n\n => Event { name: None, data: "first event", id: Some("1") }
data:second event\nid\n\n => Event { name: None, data: "second event", id: Some("") }
data:  third event\n\n => Event { name: None, data: " third event", id: Some("") }

# three blocks, of which the last one has no end
data\n\n => Event { name: None, data: "", id: None }
data\ndata\n\n => Event { name: None, data: "\n", id: None }
data:\n

# two values that are the same
data:test\n\n => Event { name: None, data: "test", id: None }
data: test\n\n => Event { name: None, data: "test", id: None }

# named events
event: add\ndata: 73857293\n\n => Event { name: Some("add"), data: "73857293", id: None }
event: remove\ndata: 2153\n\n => Event { name: Some("remove"), data: "2153", id: None }
event: add\ndata: 113411\n\n => Event { name: Some("add"), data: "113411", id: None }
end: 0 held
"#;

/// Other streams.
const OTHERS: &str = r#"
# a byte order mark at the start, on a later line, and in a value
\Mdata: a\n\n => Event { name: None, data: "a", id: None }
\Mdata: b\n\n
data: \Mc\n\n => Event { name: None, data: "\u{feff}c", id: None }

# each kind of end, one after another
data: a\r\ndata: b\rid: 1\n\r => Event { name: None, data: "a\nb", id: Some("1") }
\ndata: c\r\r => Event { name: None, data: "c", id: Some("1") }
data: d\n\r => Event { name: None, data: "d", id: Some("1") }

# a name that an empty line takes back, and one that an empty name does
event: a\n\n
data: b\n\n => Event { name: None, data: "b", id: None }
event: a\nevent\n
data: b\nid: 7\n
# an identifier with a zero, a name in capitals, a space before a name
id: 1\0\nDATA: c\n data: c\n\n => Event { name: None, data: "b", id: Some("7") }

# data that passes its limit: one line of it, and two together
data: 123456789012345\n => always TooLarge

data: 123456\n
data: 12345678\n => always TooLarge
"#;

/// An event comes with the end of the empty line after it.
#[test]
fn events_of_streams(rt: HostRuntime) {
    assert_walks_of_rows(&rt, rt.alloc(), EVENTS, "", STANDARD);
    assert_walks_of_rows(&rt, rt.alloc(), EVENTS, "", OTHERS);
}

/// Streams of a line that is passed over, and of an event. The line passes its limit, as a text and
/// as bytes that are none, with each end; or it is within the limit, and not UTF-8.
const FAULTS: &str = r#"
: 3456789012345678901234 => TooLarge
\ndata: a\n\n => Event { name: None, data: "a", id: None }

: 34567890123456789012\F\F => TooLarge
\r\ndata: a\r\n\r => Event { name: None, data: "a", id: None }
\n

\F34567890123456789012345 => TooLarge
6789012345678901234567890\r
data: a\r\r => Event { name: None, data: "a", id: None }

: 34567890123456789012\F\n => NotUtf8
data: a\n\n => Event { name: None, data: "a", id: None }

\F\r => NotUtf8
\ndata: a\r\n\r => Event { name: None, data: "a", id: None }
\n
end: 0 held
"#;

/// A line over its limit is an error once, in its place, as soon as that is certain, and so is one
/// that is not UTF-8, at its end.
#[test]
fn events_after_lines_that_are_passed_over(rt: HostRuntime) {
    assert_walks_of_rows(&rt, rt.alloc(), EVENTS, "", FAULTS);
}

/// Comments and empty lines, of which nothing is held.
const COMMENTS: &str = r#"
<1000 : a\n:\n\n>
end: 0 held
"#;

/// The same, and an event.
const LONG: &str = r#"
<1000 : a\n:\n\n>
retry: 1\ndata: abc\n
\n => Event { name: None, data: "abc", id: None }
end: 0 held, 1 to wait
"#;

#[test]
fn events_of_a_long_stream(rt: HostRuntime) {
    let by_comments = Way {
        first: 7,
        second: 7,
        by_slice: false,
        is_late: false,
    };
    let by_bytes = Way {
        first: 1,
        second: 1,
        ..by_comments
    };
    assert_walk_of_row(&rt, rt.alloc(), EVENTS, COMMENTS, by_comments);
    assert_walk_of_row(&rt, rt.alloc(), EVENTS, LONG, by_bytes);
}
