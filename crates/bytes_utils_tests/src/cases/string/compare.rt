//! Equality, order and hash of texts, worked cases.
use bytes_utils::Str;
use std::cmp::Ordering;
use std::hash::{DefaultHasher, Hash, Hasher};

fn hash_to_compare<T: Hash>(value: &T) -> u64 {
    let mut hasher = DefaultHasher::new();
    value.hash(&mut hasher);
    hasher.finish()
}

/// Whether one value is greater than the other, by each of their traits.
fn is_greater<T: Ord>(one: &T, other: &T) -> bool {
    let greater = Ordering::Greater;
    one != other
        && one.cmp(other) == greater
        && one.partial_cmp(other) == Some(greater)
        && one > other
}

#[test]
fn compare_texts(rt: HostRuntime) {
    let (one, other) = (Str::from_static("Ä"), Str::from_static("z"));
    assert!(rt; one.cmp_str("z") == Ordering::Greater && !one.eq_str("z"));
    assert!(rt; Str::empty().cmp_str("") == Ordering::Equal);
    assert!(rt; is_greater(&one, &other) && hash_to_compare(&one) == hash_to_compare(&"Ä"));
}
