// Expected values are lua5.4's.
use crate::cases::answers::{error_of, integers, string};
use lib_string::{
    byte, char, expand, find, kinds, layout, len, match_pattern, rep, seek, sub, tonumber,
};
use library_arguments::Shape;
use std::test::Fail;

#[test]
fn texts_are_made(rt: HostRuntime) -> Result<(), Fail> {
    let text = Shape::String(b"hello");
    let part = sub(rt.alloc(), &[text, Shape::Integer(2), Shape::Integer(-2)]);
    assert_eq!(rt; string(&part), b"ell".as_slice());
    let digits = sub(rt.alloc(), &[Shape::Integer(-120), Shape::Integer(2)]);
    assert_eq!(rt; string(&digits), b"120".as_slice());
    let copies = rep(rt.alloc(), &[text, Shape::Integer(2), Shape::String(b", ")]);
    assert_eq!(rt; string(&copies), b"hello, hello".as_slice());
    let bytes = char(rt.alloc(), &[Shape::Integer(72), Shape::String(b"105")]);
    assert_eq!(rt; string(&bytes), b"Hi".as_slice());
    let codes = byte(rt.alloc(), &[text, Shape::Integer(-2), Shape::Integer(-1)]);
    let codes = integers(rt.alloc(), codes)?;
    assert_eq!(rt; codes.as_slice(), [108, 111].as_slice());
    let size = integers(rt.alloc(), len(&[text]))?;
    assert_eq!(rt; size.as_slice(), [5].as_slice());
    let number = tonumber(&[Shape::String(b" -zZ "), Shape::Integer(36)]);
    let number = integers(rt.alloc(), number)?;
    assert_eq!(rt; number.as_slice(), [-1295].as_slice());
    Ok(())
}

#[test]
fn patterns_are_found(rt: HostRuntime) -> Result<(), Fail> {
    let text = Shape::String(b"hello world");
    let places = find(rt.alloc(), &[text, Shape::String(b"()o%s")]);
    let places = integers(rt.alloc(), places)?;
    assert_eq!(rt; places.as_slice(), [5, 6, 5].as_slice());
    let plain = [
        text,
        Shape::String(b"o w"),
        Shape::Nil,
        Shape::Boolean(true),
    ];
    let places = integers(rt.alloc(), find(rt.alloc(), &plain))?;
    assert_eq!(rt; places.as_slice(), [5, 7].as_slice());
    let word = match_pattern(
        rt.alloc(),
        &[text, Shape::String(b"%a+"), Shape::Integer(-3)],
    );
    assert_eq!(rt; string(&word), b"rld".as_slice());
    let broken = find(rt.alloc(), &[text, Shape::String(b"[a")]);
    let error = error_of(rt.alloc(), broken)?;
    assert_eq!(rt;
        error.as_slice(),
        b"malformed pattern (missing ']')".as_slice()
    );
    let next = [
        Shape::String(b"ab"),
        Shape::String(b"a*"),
        Shape::Integer(1),
        Shape::Integer(0),
        Shape::Boolean(true),
    ];
    if let Ok(Some(sought)) = seek(rt.alloc(), &next) {
        assert_eq!(rt; (sought.start, sought.next, sought.values.len()), (1, 2, 2));
    }
    let captures = [Shape::String(b"ab"), Shape::Integer(3)];
    let text = expand(rt.alloc(), b"<%1:%0%%>", &captures);
    assert_eq!(rt; string(&text), b"<3:ab%>".as_slice());
    Ok(())
}

#[test]
fn formats_are_filled_in(rt: HostRuntime) -> Result<(), Fail> {
    let format = Shape::String(b"%05d|%-4s|%5.2s|%%|%#x|%q");
    let shapes = [
        format,
        Shape::Integer(-42),
        Shape::String(b"ab"),
        Shape::String(b"xyz"),
        Shape::String(b"255"),
        Shape::String(b"\x011"),
    ];
    let text = layout(rt.alloc(), &shapes);
    assert_eq!(rt;
        string(&text),
        b"-0042|ab  |   xy|%|0xff|\"\\0011\"".as_slice()
    );
    let letters = kinds(rt.alloc(), &[format]);
    assert_eq!(rt; string(&letters), b"dssxq".as_slice());
    let shapes = [
        Shape::String(b"%d %d"),
        Shape::Integer(1),
        Shape::String(b"x"),
    ];
    let error = error_of(rt.alloc(), layout(rt.alloc(), &shapes))?;
    assert_eq!(rt;
        error.as_slice(),
        b"bad argument #3 to 'format' (number expected, got string)".as_slice()
    );
    let flags = error_of(rt.alloc(), layout(rt.alloc(), &[Shape::String(b"%0s")]))?;
    assert_eq!(rt;
        flags.as_slice(),
        b"invalid conversion to 'format'".as_slice()
    );
    Ok(())
}
