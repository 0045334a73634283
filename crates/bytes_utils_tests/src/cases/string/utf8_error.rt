//! Bytes that are not UTF-8: they come back, with what is wrong.
use crate::cases::fixtures::{assert_that, says};
use bytes::{Bytes, BytesMut};
use bytes_utils::string::{Storage, StrInner, Utf8Error};
use bytes_utils::{Str, StrMut};
use std::alloc::{AllocError, Global};
use std::fmt::Debug;

/// Whether the bytes come back, and the error reports that the last of them is at fault, and its
/// debug text has both of its fields.
fn utf8_error_gives_back<S: Storage + Debug>(
    alloc: Global,
    error: Utf8Error<S>,
    bytes: &[u8],
) -> Result<bool, AllocError> {
    let place = error.utf8_error().valid_up_to();
    let text = format!(in alloc; "invalid utf-8 sequence of 1 bytes from index {place}")?;
    let is_said = says(alloc, &error, text.as_str())?;
    let debugged = format!(in alloc; "{error:?}")?;
    let storage = error.into_inner();
    let fault = format!(in alloc; "Utf8Error {{ valid_up_to: {place}, error_len: Some(1) }}")?;
    let want = format!(in alloc; "Utf8Error {{ storage: {storage:?}, fault: {fault} }}")?;
    Ok(
        is_said
            && debugged == want
            && storage.as_bytes() == bytes
            && place.checked_add(1) == Some(bytes.len()),
    )
}

/// The same of the text that was to be made of the bytes.
fn utf8_error_of_text<S: Storage + Debug>(
    alloc: Global,
    made: Result<StrInner<S>, Utf8Error<S>>,
    bytes: &[u8],
) -> bool {
    match made {
        Ok(_) => false,
        Err(error) => utf8_error_gives_back(alloc, error, bytes) == Ok(true),
    }
}

// The last of three, and of 100,001 bytes, is not UTF-8.
#[test]
fn utf8_error_gives_bytes_back(rt: HostRuntime) {
    for count in [2, 100_000] {
        let mut want = vec![in rt.alloc(); b'a'; count].expect(&rt, "no memory");
        want.push(255).expect(&rt, "no memory");
        let growing = BytesMut::copy_from_slice(rt.alloc(), &want).expect(&rt, "no memory");
        assert_that(
            &rt,
            utf8_error_of_text(rt.alloc(), StrMut::try_from(growing), &want),
        );
        let shared = Bytes::copy_from_slice(rt.alloc(), &want).expect(&rt, "no memory");
        assert_that(
            &rt,
            utf8_error_of_text(rt.alloc(), Str::from_inner(shared), &want),
        );
    }
}
