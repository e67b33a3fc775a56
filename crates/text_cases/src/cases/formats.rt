// Expected values are lua5.4's.
use std::test::Fail;
use text_format::{
    Base, Conversion, append_byte, append_quoted, append_quoted_integer, append_signed,
    append_text, append_unsigned,
};

fn conversion(flags: &[u8], width: Option<usize>, precision: Option<usize>) -> Conversion<'_> {
    Conversion {
        flags,
        width,
        precision,
        letter: b'd',
    }
}

#[test]
fn zeros_stand_behind_the_sign(rt: HostRuntime) -> Result<(), Fail> {
    let mut text = Vec::new(rt.alloc());
    append_signed(&mut text, &conversion(b"0", Some(5), None), -42)?;
    append_signed(&mut text, &conversion(b"+", Some(5), Some(3)), 7)?;
    append_signed(&mut text, &conversion(b"-", Some(4), None), 7)?;
    append_signed(&mut text, &conversion(b"", None, Some(0)), 0)?;
    assert_eq!(rt; text.as_slice(), b"-0042 +0077   ".as_slice());
    Ok(())
}

#[test]
fn integers_are_written_in_all_bases(rt: HostRuntime) -> Result<(), Fail> {
    let mut text = Vec::new(rt.alloc());
    append_unsigned(&mut text, &conversion(b"#", None, None), Base::Octal, 8)?;
    append_unsigned(
        &mut text,
        &conversion(b"#0", Some(8), None),
        Base::Hexadecimal,
        255,
    )?;
    append_unsigned(
        &mut text,
        &conversion(b"", None, Some(4)),
        Base::UpperHexadecimal,
        255,
    )?;
    assert_eq!(rt; text.as_slice(), b"0100x0000ff00FF".as_slice());
    Ok(())
}

#[test]
fn literals_are_read_again(rt: HostRuntime) -> Result<(), Fail> {
    let mut text = Vec::new(rt.alloc());
    append_quoted(&mut text, b"a\0b\x019\"\n")?;
    append_quoted_integer(&mut text, i64::MIN)?;
    append_text(&mut text, &conversion(b"", Some(4), Some(2)), b"abc")?;
    append_byte(&mut text, &conversion(b"-", Some(2), None), 321)?;
    assert_eq!(rt;
        text.as_slice(),
        b"\"a\\0b\\0019\\\"\\\n\"0x8000000000000000  abA ".as_slice()
    );
    Ok(())
}
