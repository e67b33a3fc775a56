// Expected values are lua5.4's.
use crate::cases::answers::{error_of, integers, string};
use lib_utf8::{char, codepoint, codes, len, offset, walk_on};
use library_arguments::{Results, Shape};
use std::test::Fail;

#[test]
fn sequences_are_counted(rt: HostRuntime) -> Result<(), Fail> {
    let text = Shape::String(b"a\xc3\xa4\xe2\x82\xac");
    let all = integers(rt.alloc(), len(rt.alloc(), &[text]))?;
    assert_eq!(rt; all.as_slice(), [3].as_slice());
    let numbers = codepoint(rt.alloc(), &[text, Shape::Integer(1), Shape::Integer(-1)]);
    let numbers = integers(rt.alloc(), numbers)?;
    assert_eq!(rt; numbers.as_slice(), [97, 228, 8364].as_slice());
    let broken = integers(rt.alloc(), len(rt.alloc(), &[Shape::String(b"ab\xff")]))?;
    assert_eq!(rt; broken.as_slice(), [-1, 3].as_slice());
    let back = integers(rt.alloc(), offset(&[text, Shape::Integer(-1)]))?;
    assert_eq!(rt; back.as_slice(), [4].as_slice());
    Ok(())
}

#[test]
fn numbers_become_sequences(rt: HostRuntime) -> Result<(), Fail> {
    let text = char(rt.alloc(), &[Shape::Integer(228), Shape::String(b"0x20ac")]);
    assert_eq!(rt; string(&text), b"\xc3\xa4\xe2\x82\xac".as_slice());
    let large = char(rt.alloc(), &[Shape::Integer(97), Shape::Integer(-1)]);
    let error = error_of(rt.alloc(), large)?;
    assert_eq!(rt;
        error.as_slice(),
        b"bad argument #2 to 'char' (value out of range)".as_slice()
    );
    Ok(())
}

#[test]
fn a_walk_gives_places_and_numbers(rt: HostRuntime) -> Result<(), Fail> {
    let text = Shape::String(b"a\xc3\xa4");
    let start = codes(rt.alloc(), &[text]);
    assert!(rt; matches!(start, Ok(Results::Many(_))));
    let second = integers(
        rt.alloc(),
        walk_on(rt.alloc(), false, &[text, Shape::Integer(1)]),
    )?;
    assert_eq!(rt; second.as_slice(), [2, 228].as_slice());
    let end = integers(
        rt.alloc(),
        walk_on(rt.alloc(), false, &[text, Shape::Integer(2)]),
    )?;
    assert_eq!(rt; end.len(), 0);
    let outside = offset(&[text, Shape::Integer(1), Shape::Integer(5)]);
    let error = error_of(rt.alloc(), outside)?;
    assert_eq!(rt;
        error.as_slice(),
        b"bad argument #3 to 'offset' (position out of bounds)".as_slice()
    );
    Ok(())
}
