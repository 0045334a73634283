//! The laws, on lists of characters and on texts. Runs that show them are in `runs.txt` of the crate
//! `bytes_utils_demo`.
use bytes_utils_run::laws::borrowed::{
    lines, once_as_borrowed, rsplit, rsplit_once, rsplitn, split, split_ascii_whitespace,
    split_character, split_inclusive, split_once, split_tested, split_whitespace, splitn,
};
use bytes_utils_run::laws::{
    agree, come_back, limits, mirror, texts_come_back, unique_backward, unique_forward,
    unique_inclusive,
};

// A law is proved from its bounds alone. The proof of this test takes each at a type, and nothing of
// it is done at run time.
#[test]
fn laws_of_characters_and_texts() {
    unique_forward::<char>();
    unique_backward::<char>();
    unique_inclusive::<char>();
    mirror::<char>();
    agree::<char>();
    limits::<char>();
    come_back::<char>();
    texts_come_back();
    once_as_borrowed();
}

// The last part that each function gives, as the documentation of `str` has it.
#[test]
fn laws_of_last_parts(rt: HostRuntime) {
    assert!(rt; split_whitespace(" a\u{b}b ").last() == Some("b"));
    assert!(rt; split_ascii_whitespace(" a\u{b}b ").last() == Some("a\u{b}b"));
    assert!(rt; lines("a\r\n\nb\n").last() == Some("b"));
    assert!(rt; split("a,b,,c", ",").last() == Some("c"));
    assert!(rt; splitn("a,b,,c", 2, ",").last() == Some("b,,c"));
    assert!(rt; split_inclusive("a,b,", ",").last() == Some("b,"));
    assert!(rt; rsplit("ababa", "aba").last() == Some("ab"));
    assert!(rt; rsplitn("a,b,,c", 2, ",").last() == Some("a,b,"));
    assert!(rt; split_character("αβα", 'β').last() == Some("α"));
    assert!(rt; split_tested("αβα", |c| c == 'β').last() == Some("α"));
    assert!(rt; split_once("ababa", "aba") == Some(("", "ba")));
    assert!(rt; rsplit_once("ababa", "aba") == Some(("ab", "")));
}
