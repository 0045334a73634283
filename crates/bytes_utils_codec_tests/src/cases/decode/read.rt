//! Items from readers that are slow, are interrupted, fail or never end.
use super::rows::assert_decode_row_reads;
use crate::cases::fixtures::readers::SlowReader;
use crate::cases::fixtures::{assert_that, debugs, says, styled};
use bytes_utils::Reason;
use bytes_utils_codec::decode::{Delimited, Lines, ReadItemError, read_item_laws};
use std::alloc::Global;
use std::io::{self, ErrorKind};

/// After the last item comes the end of the input, which stays.
const FRAMES: &str =
    "any <.: read_item GET_/, read_item empty, read_item a<b; 2 times: read_item -, =rest";

/// The last line has no end.
const LINES: &str =
    "any text: read_item ab, read_item empty, read_item cd; 2 times: read_item -, =";

// The first input has 18 bytes. With one read at the end and one interrupted read there are at most 20.
// The second has 7. With the reads at the end and one interrupted read there are at most 11.
#[test]
fn read_items_of_slow_and_interrupted_readers(rt: HostRuntime) {
    read_item_laws::<Delimited>();
    for most in 1..=5 {
        for at in 0..=20 {
            let input = SlowReader::new(b"GET /\r\n\r\na\rb\r\nrest", most);
            let input = input.failing((at, at), ErrorKind::Interrupted);
            assert_decode_row_reads::<Delimited, _>(&rt, input, FRAMES);
            let input = SlowReader::new(b"ab\r\n\ncd", most);
            let input = input.failing((at, at), ErrorKind::Interrupted);
            assert_decode_row_reads::<Lines, _>(&rt, input, LINES);
        }
    }
}

/// Errors after which the next call reads on.
const KINDS: [ErrorKind; 4] = [
    ErrorKind::BrokenPipe,
    ErrorKind::ConnectionReset,
    ErrorKind::TimedOut,
    ErrorKind::WouldBlock,
];

// The third read has the end of the frame.
#[test]
fn read_error_is_handed_on_and_the_next_call_reads_on(rt: HostRuntime) {
    for kind in KINDS {
        for at in 1..=4 {
            let input = SlowReader::new(b"abc\r\nd", 2).failing((at, at), kind);
            let row = if at < 4 {
                "any <.: read_item fails, read_item abc, read_item -, =d"
            } else {
                "any <.: read_item abc, read_item fails, read_item -, =d"
            };
            assert_decode_row_reads::<Delimited, _>(&rt, input, row);
        }
    }
}

/// The second of five reads fails.
const SINGLE_READS: &str =
    "any -: read_from 2, =ab, input c-d, read_from fails, =ab, /1, input c-d, \
    read_from 2, =abc-, abc, read_from 1, =d, read_from 0, =d, /1, reads 5";

#[test]
fn single_reads_of_a_reader(rt: HostRuntime) {
    for kind in [ErrorKind::Interrupted, ErrorKind::WouldBlock] {
        let input = SlowReader::new(b"abc-d", 2).failing((2, 2), kind);
        assert_decode_row_reads::<Delimited, _>(&rt, input, SINGLE_READS);
    }
}

// A block that is made for a read has twice the room. The second read goes to what is left of it.
#[test]
fn single_reads_with_room(rt: HostRuntime) {
    let input = SlowReader::new(&[b'a'; 30_000], usize::MAX).failing((3, 3), ErrorKind::TimedOut);
    let row = "any -: room 10000 20000, =#20000, /1, room 1 4096, =#24096, /2, room 5000 fails, \
        rooms 4096 20000, room 5000 5904, =#30000, room 1 0, reads 5";
    assert_decode_row_reads::<Delimited, _>(&rt, input, row);
}

// The frame and the rest fill 26 blocks but for one byte, which is too little room for the last read. Reads of one
// byte go to one block, while it has room for 512 more.
#[test]
fn read_item_and_rest_longer_than_a_block(rt: HostRuntime) {
    let mut bytes = [b'a'; 106_495];
    bytes[10_000] = b'-';
    let row = "any -: read_item a#10000, read_item -, =#96494, rooms 4096 4096";
    assert_decode_row_reads::<Delimited, _>(&rt, SlowReader::new(&bytes, usize::MAX), row);
    let row = "any -: read_item -, =#4097, /2";
    assert_decode_row_reads::<Delimited, _>(&rt, SlowReader::new(&bytes[..4_097], 1), row);
}

// The line fills many blocks, without its line feed and with it.
#[test]
fn read_item_is_a_long_line(rt: HostRuntime) {
    let mut bytes = [b'a'; 300_001];
    bytes[300_000] = b'\n';
    for input in [&bytes[..300_000], &bytes] {
        let input = SlowReader::new(input, usize::MAX);
        assert_decode_row_reads::<Lines, _>(&rt, input, "any text: read_item a#300000");
    }
}

// A read has three bytes: no more is read than the first frame needs.
#[test]
fn read_item_leaves_the_next_one(rt: HostRuntime) {
    let input = SlowReader::new(b"ab-cd-", 3);
    assert_decode_row_reads::<Delimited, _>(&rt, input, "any -: read_item ab, input cd-");
}

// An interrupted read counts.
#[test]
fn read_item_gives_up_after_too_many_reads(rt: HostRuntime) {
    let input = SlowReader::new(b"", 1).failing((1, usize::MAX), ErrorKind::Interrupted);
    assert_decode_row_reads::<Delimited, _>(&rt, input, "any -: read_item gives up, reads 65536");
}

/// The longest message that an error of a reader may have.
const MESSAGE: &str =
    "the eighty bytes of this message are as many as the kit keeps of any one, and no";

/// Whether the error prints what the reader's own does.
fn read_error_says_the_same(alloc: Global, error: io::Error) -> bool {
    let want = styled(alloc, &error);
    let of_item: ReadItemError<Reason> = ReadItemError::from(error);
    match (want, styled(alloc, &of_item)) {
        (Ok(want), Ok(said)) => said.as_str() == want.as_str(),
        _ => false,
    }
}

#[test]
fn read_error_of_the_reader_says_why(rt: HostRuntime) {
    let reset = io::Error::from(ErrorKind::ConnectionReset);
    assert_that(&rt, read_error_says_the_same(rt.alloc(), reset));
    assert_that(
        &rt,
        read_error_says_the_same(rt.alloc(), io::Error::other(MESSAGE)),
    );
}

#[test]
fn other_read_errors_say_why(rt: HostRuntime) {
    let too_many: ReadItemError<Reason> = ReadItemError::TooManyReads;
    let of_decoder = ReadItemError::Decoder(Reason::TooLong);
    let holds = says(rt.alloc(), &too_many, "too many reads")
        && debugs(rt.alloc(), &too_many, "TooManyReads")
        && says(rt.alloc(), &of_decoder, "too long");
    assert_that(&rt, holds);
}
