// Integers in decimal, octal and hexadecimal digits.
ghost use Rattle.std.specs.Prelude.{◌≡◌, ◌≤◌, ◌++◌, ◌-◌, length, OnOk};
ghost use Rattle.std.specs.List.{repeat};
ghost use Rattle.library_rows.specs.Formats.{or_zero, signed_text, unsigned_text, sign_before};
ghost use Rattle.text_format.specs.Told.{base_of, is_upper, mark_before, shown_digits, told_conversion, zeros_in};

use crate::conversion::{Conversion, has, in_zeros, or_zero};
use crate::digits::{behind, write_digits};
use crate::padding::append_padded;
use itoa::Buffer;
use std::alloc::AllocError;

/// In which digits an integer without a sign is written.
#[derive(Clone, Copy, Debug, PartialEq, Eq)]
pub enum Base {
    /// `%u`
    Decimal,
    /// `%o`
    Octal,
    /// `%x`
    Hexadecimal,
    /// `%X`
    UpperHexadecimal,
}

/// An integer in decimal digits, by `%d` or `%i`.
pub fn append_signed(out: &mut Vec<u8>, conversion: &Conversion, n: i64) -> Result<(), AllocError>
    ensures { OnOk result (out.new.items ≡ out.old.items ++ signed_text (told_conversion conversion.now) n) }
{
    let mut buffer = Buffer::new();
    let size = n.unsigned_abs();
    let digits = shown(conversion, buffer.format(size).as_bytes(), size);
    let zeros = zeros_before(conversion, digits);
    append_padded(
        out,
        conversion,
        in_zeros(conversion),
        sign_before(conversion, n),
        zeros,
        digits,
    )?;
    Ok(())
}

/// The sign before an integer, or the space in its place.
fn sign_before(conversion: &Conversion, n: i64) -> &'static [u8]
    ensures { result.now ≡ sign_before (told_conversion conversion.now) n }
{
    if n < 0 {
        b"-"
    } else if has(conversion.flags, b'+') {
        b"+"
    } else if has(conversion.flags, b' ') {
        b" "
    } else {
        b""
    }
}

/// The digits that are shown: 0 has none at a precision of 0.
fn shown<'a>(conversion: &Conversion, digits: &'a [u8], n: u64) -> &'a [u8]
    ensures { result.now ≡ shown_digits conversion.now.precision digits.now n }
{
    match conversion.precision {
        Some(0) if n == 0 => &[],
        _ => digits,
    }
}

/// How many zeros stand before digits, so that there are as many as the precision says.
fn zeros_before(conversion: &Conversion, digits: &[u8]) -> usize
    ensures { result ≡ or_zero conversion.now.precision - length digits.now }
{
    or_zero(conversion.precision).saturating_sub(digits.len())
}

/// An integer as a number from 0 to 2^64 - 1, by `%u`, `%o`, `%x` or `%X`.
pub fn append_unsigned(
    out: &mut Vec<u8>,
    conversion: &Conversion,
    base: Base,
    n: u64,
) -> Result<(), AllocError>
    ensures { OnOk result (out.new.items ≡ out.old.items ++ unsigned_text (told_conversion conversion.now) (base_of base) (is_upper base) n) }
{
    let mut buffer = [0; 64];
    let start = write_digits(n, radix(base), is_upper(base), &mut buffer);
    let digits = shown(conversion, behind(&buffer, start), n);
    let zeros = zeros_in(conversion, base, digits);
    let mark = mark_before(conversion, base, n);
    append_padded(out, conversion, in_zeros(conversion), mark, zeros, digits)?;
    Ok(())
}

/// How many digits there are.
fn radix(base: Base) -> u64
    ensures value { result ≡ base_of base }
    ensures least { 2 ≤ result }
    ensures most { result ≤ 16 }
{
    match base {
        Base::Decimal => 10,
        Base::Octal => 8,
        Base::Hexadecimal => 16,
        Base::UpperHexadecimal => 16,
    }
}

/// Whether the digits above 9 are capitals.
fn is_upper(base: Base) -> bool
    ensures { result ≡ is_upper base }
{
    match base {
        Base::Decimal => false,
        Base::Octal => false,
        Base::Hexadecimal => false,
        Base::UpperHexadecimal => true,
    }
}

/// How many zeros stand before digits in a base: by `#` octal digits begin with one.
fn zeros_in(conversion: &Conversion, base: Base, digits: &[u8]) -> usize
    ensures { result ≡ zeros_in (told_conversion conversion.now) (base_of base) digits.now }
{
    let zeros = zeros_before(conversion, digits);
    if base == Base::Octal
        && has(conversion.flags, b'#')
        && zeros == 0
        && digits.first() != Some(&b'0')
    {
        1
    } else {
        zeros
    }
}

/// The mark before digits in base 16.
fn mark_before(conversion: &Conversion, base: Base, n: u64) -> &'static [u8]
    ensures { result.now ≡ mark_before (told_conversion conversion.now) (base_of base) (is_upper base) n }
{
    if !has(conversion.flags, b'#') {
        return b"";
    }
    match base {
        Base::Octal => b"",
        _ if n == 0 => b"",
        Base::UpperHexadecimal => b"0X",
        Base::Decimal => b"0x",
        Base::Hexadecimal => b"0x",
    }
}
