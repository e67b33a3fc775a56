// The integer that digits spell in a base (Lua 5.4 manual, 6.1, `tonumber`).
ghost use Rattle.std.specs.Prelude.{◌≡◌, ◌≤◌, ◌<◌, ◌%◌, ◌^◌, drop};
ghost use Rattle.std.specs.Char.{is_digit, digit_value};
ghost use Rattle.std.specs.List.{AllPass};
ghost use Rattle.int_core.specs.Numeral.{digits_value};
ghost use Rattle.int_core.specs.Value.{is_known, string};
ghost use Rattle.library_rows.specs.Strings.{in_base, signed_in, unsigned_in};

use int_core::{digits_of, space_len, with_sign};

/// The integer that a text spells in a base from 2 to 36, modulo 2^64: white space, a `-` or none, digits, and white space.
pub fn read_in_base(text: &[u8], base: u32) -> Option<i64>
    requires least { 2 ≤ base }
    requires most { base ≤ 36 }
    ensures { result ≡ in_base base (is_known (string text.now)) }
{
    let (_, rest) = text.split_at(space_len(text));
    signed_in(rest, base)
}

fn signed_in(text: &[u8], base: u32) -> Option<i64>
    requires least { 2 ≤ base }
    requires most { base ≤ 36 }
    ensures { result ≡ signed_in base text.now }
{
    match text {
        [] => None,
        [b'-', rest @ ..] => unsigned_in(rest, base, true),
        _ => unsigned_in(text, base, false),
    }
}

fn unsigned_in(text: &[u8], base: u32, negative: bool) -> Option<i64>
    requires least { 2 ≤ base }
    requires most { base ≤ 36 }
    ensures { result ≡ unsigned_in base negative text.now }
{
    let digits = digits_of(text, base)?;
    Some(with_sign(wrapped_value(digits, base), negative))
}

/// The value of a digit, and 0 for another byte.
fn digit_value(byte: u8) -> u64
    ensures value { digit_value byte < 36 → result ≡ digit_value byte }
    ensures small { result < 36 }
{
    u64::from(char::from(byte).to_digit(36).unwrap_or(0))
}

/// What digits spell in a base, modulo 2^64.
fn wrapped_value(digits: &[u8], base: u32) -> u64
    requires most { base ≤ 36 }
    requires digits { AllPass (λ c. is_digit c base) digits.now }
    ensures { result ≡ digits_value base digits.now % 2 ^ 64 }
{
    let mut value = 0u64;
    for digit in digits {
        value = value
            .wrapping_mul(u64::from(base))
            .wrapping_add(digit_value(*digit));
    }
    value
}
