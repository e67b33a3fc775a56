// Expected values are lua5.4's.
use integer_functions::{absolute, greater, is_below, lesser, read_in_base, remainder};

#[test]
fn integers_wrap_and_divide_towards_zero(rt: HostRuntime) {
    assert_eq!(rt; absolute(-7), 7);
    assert_eq!(rt; absolute(i64::MIN), i64::MIN);
    assert_eq!(rt; remainder(-7, 3), Some(-1));
    assert_eq!(rt; remainder(7, -3), Some(1));
    assert_eq!(rt; remainder(i64::MIN, -1), Some(0));
    assert_eq!(rt; remainder(1, 0), None);
    assert!(rt; is_below(1, -1));
    assert_eq!(rt; greater(-2, 3), 3);
    assert_eq!(rt; lesser(-2, 3), -2);
}

#[test]
fn digits_are_below_their_base(rt: HostRuntime) {
    assert_eq!(rt; read_in_base(b" -zZ ", 36), Some(-1295));
    assert_eq!(rt; read_in_base(b"7fffffffffffffff", 16), Some(i64::MAX));
    assert_eq!(rt; read_in_base(b"18446744073709551617", 10), Some(1));
    assert_eq!(rt; read_in_base(b"8", 8), None);
    assert_eq!(rt; read_in_base(b"- 1", 10), None);
    assert_eq!(rt; read_in_base(b"", 2), None);
}
