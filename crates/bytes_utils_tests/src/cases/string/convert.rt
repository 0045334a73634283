//! A text turned into what it is made of, and back, and what std's traits borrow of it.
use crate::cases::fixtures::assert_that;
use bytes::{ByteStr, Bytes, BytesMut};
use bytes_utils::Str;
use bytes_utils::string::{Storage, StrInner};
use std::convert::{AsSlice, AsStr};

/// Whether the storage becomes a text, and that text these bytes.
fn converts<S, E>(storage: S, want: &[u8]) -> bool
where
    S: Storage,
    StrInner<S>: TryFrom<S, Error = E>,
    S: From<StrInner<S>>,
    E: Drop,
{
    match StrInner::try_from(storage) {
        Ok(text) => S::from(text).as_bytes() == want,
        Err(_) => false,
    }
}

/// Whether a `ByteStr` of the text keeps the block of the text and its only owner, and so does the
/// text of that.
fn convert_keeps_block(text: Str, want: &str) -> bool {
    let bytes = Str::from(ByteStr::from(text)).into_inner();
    bytes.as_slice() == want.as_bytes() && bytes.is_unique()
}

/// Whether generic code sees this text, and its bytes.
fn is_seen_if_converted<T: AsStr + AsSlice<u8>>(text: &T, want: &str) -> bool {
    text.as_str() == want && text.as_slice() == want.as_bytes()
}

#[test]
fn texts_convert_both_ways(rt: HostRuntime) {
    let want = "aβ".as_bytes();
    let bytes = BytesMut::copy_from_slice(rt.alloc(), want).expect(&rt, "no memory");
    assert_that(&rt, converts(bytes, want));
    assert_that(&rt, converts(Bytes::from_static(want), want));
    let text = Str::from_str(rt.alloc(), "aβ").expect(&rt, "no memory");
    assert_that(&rt, convert_keeps_block(text, "aβ"));
}

#[test]
fn converted_text_reads_as_its_storage(rt: HostRuntime) {
    let text = Str::from_inner(Bytes::from_static("aβ".as_bytes())).expect(&rt, "UTF-8");
    let bytes = text.inner().as_slice();
    assert_that(
        &rt,
        is_seen_if_converted(&text, "aβ") && bytes == "aβ".as_bytes(),
    );
    let text = Str::from_inner_unchecked(text.into_inner());
    let str: &str = &text;
    assert_that(&rt, str == "aβ" && text.as_str() == "aβ" && text.len() == 3);
}
