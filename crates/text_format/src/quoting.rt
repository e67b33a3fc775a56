// Literals, by `%q`.
ghost use Rattle.std.specs.Prelude.{◌≡◌, ◌++◌, ◌∷◌, ◌-◌, [], codes, decimal, length, OnOk, if◌then◌else◌};
ghost use Rattle.std.specs.List.{repeat};
ghost use Rattle.library_rows.specs.Formats.{before_digit, is_control, is_decimal, quoted_bytes, quoted_integer};
ghost use Rattle.text_format.specs.Told.{quoted_byte};

use crate::padding::append_repeated;
use itoa::Buffer;
use std::alloc::AllocError;

/// A text as a literal between quotes.
pub fn append_quoted(out: &mut Vec<u8>, text: &[u8]) -> Result<(), AllocError>
    ensures { OnOk result (out.new.items ≡ out.old.items ++ (codes "\"" ++ quoted_bytes text.now ++ codes "\"")) }
{
    out.push(b'"')?;
    append_quoted_bytes(out, text)?;
    out.push(b'"')?;
    Ok(())
}

fn append_quoted_bytes(out: &mut Vec<u8>, text: &[u8]) -> Result<(), AllocError>
    ensures { OnOk result (out.new.items ≡ out.old.items ++ quoted_bytes text.now) }
{
    let mut rest = text;
    while let Some((byte, behind)) = rest.split_first() {
        append_quoted_byte(out, *byte, begins_with_digit(behind))?;
        rest = behind;
    }
    Ok(())
}

fn begins_with_digit(text: &[u8]) -> bool
    ensures { result ≡ before_digit text.now }
{
    match text.first() {
        Some(byte) => is_decimal(*byte),
        None => false,
    }
}

fn is_decimal(byte: u8) -> bool
    ensures { result ≡ is_decimal byte }
{
    48 <= byte && byte <= 57
}

fn is_control(byte: u8) -> bool
    ensures { result ≡ is_control byte }
{
    byte < 32 || byte == 127
}

/// What stands for a byte, where it is known whether a digit comes next.
fn append_quoted_byte(out: &mut Vec<u8>, byte: u8, digit: bool) -> Result<(), AllocError>
    ensures { OnOk result (out.new.items ≡ out.old.items ++ quoted_byte digit byte) }
{
    if byte == b'"' || byte == b'\\' || byte == b'\n' {
        out.push(b'\\')?;
        out.push(byte)?;
    } else if !is_control(byte) {
        out.push(byte)?;
    } else {
        append_control(out, byte, digit)?;
    }
    Ok(())
}

/// A `\` and the byte's number, which has three digits where a digit comes next.
fn append_control(out: &mut Vec<u8>, byte: u8, digit: bool) -> Result<(), AllocError>
    ensures { OnOk result (out.new.items ≡ out.old.items ++ (if digit then (92 ∷ repeat (3 - length (decimal byte)) (48 ∷ []) ++ decimal byte) else (92 ∷ decimal byte))) }
{
    let mut buffer = Buffer::new();
    let number = buffer.format(byte).as_bytes();
    out.push(b'\\')?;
    if digit {
        append_repeated(out, b'0', 3usize.saturating_sub(number.len()))?;
    }
    out.extend_from_slice(number)?;
    Ok(())
}

/// An integer as a literal.
pub fn append_quoted_integer(out: &mut Vec<u8>, n: i64) -> Result<(), AllocError>
    ensures { OnOk result (out.new.items ≡ out.old.items ++ quoted_integer n) }
{
    if n == i64::MIN {
        out.extend_from_slice(b"0x8000000000000000")?;
        return Ok(());
    }
    let mut buffer = Buffer::new();
    out.extend_from_slice(buffer.format(n).as_bytes())?;
    Ok(())
}
