use super::*;
use std::cmp::Ordering;

#[test]
fn order_of_strings(rt: HostRuntime) {
    assert_eq!(rt; compare_bytes(&[0x7F], &[0x80]), Ordering::Less);
    assert_eq!(rt; compare_bytes(b"a", b"ab"), Ordering::Less);
    assert_eq!(rt; compare_bytes(b"b", b"ab"), Ordering::Greater);
    assert!(rt; is_prefix(b"a", b"ab"));
    assert!(rt; !is_prefix(b"ab", b"a"));
}

#[test]
fn shortest_prefixes(rt: HostRuntime) {
    assert_eq!(rt; unique_len(Some(b"aa"), b"abc", Some(b"abd")), 3);
    assert_eq!(rt; unique_len(None, b"abc", None), 1);
    assert_eq!(rt;
        unique_len(None, b"0123456789abc", Some(b"0123456789abd")),
        13
    );
    assert_eq!(rt; separator_len(b"a", b"ab"), 2);
    assert_eq!(rt; separator_len(b"0123456789abc", b"0123456789b"), 11);
}
