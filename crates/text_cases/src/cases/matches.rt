// Expected values are lua5.4's.
use lua_pattern::PatternFault;
use std::test::Fail;
use text_match::{Hit, find_plain, next_hit, search};

/// The places of a match, and how many captures it has.
fn places(
    hit: Result<Option<Hit>, PatternFault>,
) -> Result<Option<(usize, usize, usize)>, PatternFault> {
    match hit? {
        Some(hit) => Ok(Some((hit.start, hit.end, hit.captures.len()))),
        None => Ok(None),
    }
}

#[test]
fn the_first_match_is_found(rt: HostRuntime) -> Result<(), Fail> {
    let word = search(rt.alloc(), b"hello world", b"(o)%s*(w)", 0);
    assert_eq!(rt; places(word)?, Some((4, 7, 2)));
    let anchored = search(rt.alloc(), b"hello", b"^l", 2);
    assert_eq!(rt; places(anchored)?, Some((2, 3, 0)));
    let elsewhere = search(rt.alloc(), b"hello", b"^o", 2);
    assert_eq!(rt; places(elsewhere)?, None);
    let plain = search(rt.alloc(), b"hello wow", b"wow", 2);
    assert_eq!(rt; places(plain)?, Some((6, 9, 0)));
    let broken = search(rt.alloc(), b"hello", b"[", 0);
    assert!(rt; matches!(broken, Err(PatternFault::Malformed(2))));
    Ok(())
}

#[test]
fn an_empty_match_is_given_once(rt: HostRuntime) -> Result<(), Fail> {
    let first = next_hit(rt.alloc(), b"ab", b"a*", 0, 0, true);
    assert_eq!(rt; places(first)?, Some((0, 1, 0)));
    let second = next_hit(rt.alloc(), b"ab", b"a*", 1, 2, true);
    assert_eq!(rt; places(second)?, Some((2, 2, 0)));
    let third = next_hit(rt.alloc(), b"ab", b"a*", 2, 3, true);
    assert_eq!(rt; places(third)?, None);
    Ok(())
}

#[test]
fn plain_texts_are_found(rt: HostRuntime) {
    assert_eq!(rt; find_plain(b"a.b.c", b".", 2), Some(3));
    assert_eq!(rt; find_plain(b"abc", b"", 3), Some(3));
    assert_eq!(rt; find_plain(b"abc", b"cd", 0), None);
}
