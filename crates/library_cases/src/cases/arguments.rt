// Expected values are lua5.4's; `got nil` is this profile's own.
use library_arguments::{
    Plain, Refusal, Results, Shape, argument, integer_argument, integer_or, text_argument, text_or,
};
use std::alloc::{AllocError, Global};
use std::test::Fail;

/// The text of an error, and an empty one where there is none.
fn error_of(alloc: Global, read: Result<i64, Refusal>) -> Result<Vec<u8>, AllocError> {
    match read {
        Ok(_) => Ok(Vec::new(alloc)),
        Err(why) => why.text(alloc),
    }
}

#[test]
fn arguments_are_read(rt: HostRuntime) -> Result<(), Fail> {
    let shapes = [Shape::Integer(-70), Shape::String(b" 0x10 ")];
    let number = integer_argument(b"sub", 2, argument(&shapes, 2));
    assert!(rt; matches!(number, Ok(16)));
    let usual = integer_or(-1, b"sub", 3, argument(&shapes, 3));
    assert!(rt; matches!(usual, Ok(-1)));
    if let Ok(digits) = text_argument(b"len", 1, argument(&shapes, 1)) {
        assert_eq!(rt; digits.as_slice(), b"-70".as_slice());
    }
    if let Ok(empty) = text_or(b"", b"rep", 3, argument(&shapes, 3)) {
        assert_eq!(rt; empty.as_slice(), b"".as_slice());
    }
    Ok(())
}

#[test]
fn errors_name_the_argument(rt: HostRuntime) -> Result<(), Fail> {
    let missing = error_of(rt.alloc(), integer_argument(b"char", 12, Shape::Nil))?;
    assert_eq!(rt;
        missing.as_slice(),
        b"bad argument #12 to 'char' (number expected, got nil)".as_slice()
    );
    let range = Refusal::BadArgument {
        place: 2,
        function: b"char",
        what: b"value out of range",
    };
    let text = range.text(rt.alloc())?;
    assert_eq!(rt;
        text.as_slice(),
        b"bad argument #2 to 'char' (value out of range)".as_slice()
    );
    Ok(())
}

#[test]
fn strings_have_a_limit(rt: HostRuntime) -> Result<(), Fail> {
    let mut text = Vec::with_capacity(rt.alloc(), 16_777_217)?;
    text.resize(16_777_216, b'x')?;
    let mut longer = text.clone()?;
    longer.push(b'x')?;
    assert!(rt; Results::string(text).is_ok());
    let mut values = Vec::new(rt.alloc());
    values.push(Plain::Nil)?;
    values.push(Plain::String(longer))?;
    assert!(rt; Results::many(values).is_err());
    Ok(())
}
