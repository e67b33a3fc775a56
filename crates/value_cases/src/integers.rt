// Values from outside: the Lua 5.4 manual's rules at the edges of 64 bits, and the texts of integers.
use int_core::{add, floor_div, floor_mod, mul, neg, read_integer, shl, shr, sub, write_integer};

const MAX: i64 = i64::MAX;

const MIN: i64 = i64::MIN;

#[test]
fn arithmetic_wraps_and_rounds_to_the_floor(rt: HostRuntime) {
    let cases = [
        (add(MAX, 1), MIN),
        (sub(MIN, 1), MAX),
        (mul(MAX, 2), -2),
        (neg(MIN), MIN),
        (floor_div(7, -2), -4),
        (floor_div(-7, 2), -4),
        (floor_div(-7, -2), 3),
        (floor_div(-6, 2), -3),
        (floor_div(MIN, -1), MIN),
        (floor_mod(7, -2), -1),
        (floor_mod(-7, 2), 1),
        (floor_mod(-7, -2), -1),
        (floor_mod(MIN, -1), 0),
        (floor_mod(5, MIN), -9223372036854775803),
        (shl(1, 63), MIN),
        (shl(1, 64), 0),
        (shl(3, MIN), 0),
        (shl(8, -2), 2),
        (shr(-1, 1), MAX),
        (shr(-1, 63), 1),
        (shr(-1, 64), 0),
        (shr(3, -2), 12),
    ];
    for (got, want) in cases {
        assert_eq!(rt; got, want);
    }
}

#[test]
fn texts_spell_integers(rt: HostRuntime) {
    let cases = [
        (b"10".as_slice(), Some(10)),
        (b" \t\n\x0B\x0C\r-7 ".as_slice(), Some(-7)),
        (b"+0012".as_slice(), Some(12)),
        (b"9223372036854775807".as_slice(), Some(MAX)),
        (b"9223372036854775808".as_slice(), None),
        (b"-9223372036854775808".as_slice(), Some(MIN)),
        (b"-9223372036854775809".as_slice(), None),
        (b"99999999999999999999999".as_slice(), None),
        (b"0xA".as_slice(), Some(10)),
        (b"-0Xff".as_slice(), Some(-255)),
        (b"0xffffffffffffffff".as_slice(), Some(-1)),
        (b"-0x1ffffffffffffffff".as_slice(), Some(1)),
        (b"0x".as_slice(), None),
        (b"0xg".as_slice(), None),
        (b"".as_slice(), None),
        (b" - ".as_slice(), None),
        (b"- 1".as_slice(), None),
        (b"1 2".as_slice(), None),
        (b"1e1".as_slice(), None),
        (b"12a".as_slice(), None),
    ];
    for (text, want) in cases {
        assert_eq!(rt; read_integer(text), want);
    }
}

#[test]
fn integers_print_in_decimal(rt: HostRuntime) {
    let cases = [
        (0, b"0".as_slice()),
        (-7, b"-7".as_slice()),
        (MAX, b"9223372036854775807".as_slice()),
        (MIN, b"-9223372036854775808".as_slice()),
    ];
    for (n, want) in cases {
        let mut out = [0; 20];
        let len = write_integer(n, &mut out);
        assert_eq!(rt; &out[..len], want);
    }
}
