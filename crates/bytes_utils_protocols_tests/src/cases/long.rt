//! Long streams: no call is refused while there is memory.
use super::readers::Protocol;
use super::walks::{Way, assert_walk_of_row};

/// Pieces of 100 bytes. The reader is asked when all have come.
const PIECES: Way = Way {
    first: 100,
    second: 100,
    by_slice: false,
    is_late: true,
};

const RECORD: &str = r#"<100000 x>\r\n\r\n => Ok("<100000 x>")"#;

const REQUEST: &str = r#"
<100000 x>\r\nContent-Length: 100000\r\n\r\n => Ok(b"<100000 x>\r\nContent-Length: 100000")
<100000 x> => b"<100000 x>"
"#;

#[test]
fn long_record_and_long_request(rt: HostRuntime) {
    let most = usize::MAX;
    assert_walk_of_row(&rt, rt.alloc(), Protocol::Records(most), RECORD, PIECES);
    assert_walk_of_row(&rt, rt.alloc(), Protocol::Requests(most), REQUEST, PIECES);
}
