// Each call that takes memory, with enough of it. Expected values are lua5.4's.
use std::test::Fail;
use text_functions::{
    Builder, StringFault, byte_of, join, lowered, part, repeated, reversed, uppered,
};

#[test]
fn copies_have_the_separator_between_them(rt: HostRuntime) -> Result<(), Fail> {
    let text = repeated(rt.alloc(), b"ab", b", ", 3)?;
    assert_eq!(rt; text.as_slice(), b"ab, ab, ab".as_slice());
    let nothing = repeated(rt.alloc(), b"ab", b", ", -1)?;
    assert_eq!(rt; nothing.len(), 0);
    let endless = repeated(rt.alloc(), b"", b"", i64::MAX)?;
    assert_eq!(rt; endless.len(), 0);
    let whole = repeated(rt.alloc(), b"x", b"", 16_777_216)?;
    assert_eq!(rt; whole.len(), 16_777_216);
    let large = repeated(rt.alloc(), b"x", b"", 16_777_217);
    assert!(rt; large.is_err());
    Ok(())
}

#[test]
fn cases_change_letters_alone(rt: HostRuntime) -> Result<(), Fail> {
    let small = lowered(rt.alloc(), b"[Az\xc9]")?;
    assert_eq!(rt; small.as_slice(), b"[az\xc9]".as_slice());
    let large = uppered(rt.alloc(), b"{Az\xe9}")?;
    assert_eq!(rt; large.as_slice(), b"{AZ\xe9}".as_slice());
    let back = reversed(rt.alloc(), b"abc")?;
    assert_eq!(rt; back.as_slice(), b"cba".as_slice());
    Ok(())
}

#[test]
fn parts_count_from_both_ends(rt: HostRuntime) {
    assert_eq!(rt; part(b"hello", 2, -2), b"ell".as_slice());
    assert_eq!(rt; part(b"hello", -3, -1), b"llo".as_slice());
    assert_eq!(rt; part(b"hello", 4, 2), b"".as_slice());
    assert_eq!(rt; part(b"hello", i64::MIN, i64::MAX), b"hello".as_slice());
    assert_eq!(rt; byte_of(256), None);
}

#[test]
fn all_pieces_are_joined(rt: HostRuntime) -> Result<(), Fail> {
    let text = join(rt.alloc(), &[b"ab", b"", b"c"])?;
    assert_eq!(rt; text.as_slice(), b"abc".as_slice());
    Ok(())
}

#[test]
fn a_text_has_a_limit(rt: HostRuntime) -> Result<(), Fail> {
    let half = repeated(rt.alloc(), b"x", b"", 8_388_608)?;
    let mut text = Builder::new(rt.alloc());
    text.push(half.as_slice())?;
    text.push(half.as_slice())?;
    assert_eq!(rt; text.len(), 16_777_216);
    assert!(rt; text.push(b"x") == Err(StringFault::TooLarge));
    assert_eq!(rt; text.finish().len(), 16_777_216);
    Ok(())
}
