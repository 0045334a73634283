//! What errors print.
use bytes::Bytes;
use bytes_utils::Reason;
use bytes_utils_protocols::events::EventError;
use bytes_utils_protocols::multipart::PartError;
use bytes_utils_protocols::netstrings::NetstringError;
use bytes_utils_protocols::records::RecordFault;
use bytes_utils_protocols::redis::ReplyError;
use bytes_utils_protocols::requests::LengthError;
use std::alloc::Global;
use std::error::Error;
use std::process::Abort;

/// Whether an error prints this text, in every style, or `None` if memory is refused.
fn says<E: Error>(alloc: Global, error: &E, text: &str) -> Option<bool> {
    let said = format!(in alloc; "{error}|{error:#}|{error:>99}").ok()?;
    let wanted = format!(in alloc; "{text}|{text}|{text}").ok()?;
    Some(said == wanted)
}

/// Fails the test unless an error prints this text.
fn assert_says<E: Error>(rt: &impl Abort, alloc: Global, error: &E, text: &str) {
    assert!(rt; says(alloc, error, text) == Some(true), "{text}");
}

#[test]
fn errors_of_readers_say_why(rt: HostRuntime) {
    let refused = Reason::OutOfMemory;
    for (error, text) in [
        (EventError::Refused(refused), "out of memory"),
        (EventError::NotUtf8, "the line is not UTF-8"),
        (EventError::TooLarge, "the line or the data is too large"),
    ] {
        assert_says(&rt, rt.alloc(), &error, text);
    }
    for (error, text) in [
        (PartError::Refused(refused), "out of memory"),
        (PartError::Malformed, "the part is malformed"),
        (PartError::NotUtf8, "the head is not UTF-8"),
        (PartError::TooLarge, "the part is too large"),
    ] {
        assert_says(&rt, rt.alloc(), &error, text);
    }
    for (error, text) in [
        (ReplyError::Refused(refused), "out of memory"),
        (ReplyError::Malformed, "the reply is malformed"),
        (ReplyError::TooLarge, "the reply is too large"),
    ] {
        assert_says(&rt, rt.alloc(), &error, text);
    }
}

#[test]
fn other_errors_of_protocols_say_why(rt: HostRuntime) {
    for (error, text) in [
        (LengthError::NotAHeader, "a line is no header"),
        (LengthError::NotANumber, "a length is no number"),
        (LengthError::Unequal, "two lengths differ"),
        (LengthError::UnknownFraming, "the framing is unknown"),
    ] {
        assert_says(&rt, rt.alloc(), &error, text);
    }
    for (error, text) in [
        (NetstringError::Refused(Reason::TooLong), "too long"),
        (NetstringError::Malformed, "the netstring is malformed"),
    ] {
        assert_says(&rt, rt.alloc(), &error, text);
    }
    let not_utf8 = RecordFault::NotUtf8(Bytes::from_static(b"\xff"));
    assert_says(
        &rt,
        rt.alloc(),
        &RecordFault::TooLong,
        "the record is too long",
    );
    assert_says(&rt, rt.alloc(), &not_utf8, "the record is not UTF-8");
}
