// The texts of integers: the numerals that arithmetic on strings reads, and decimal printing.
ghost use Rattle.std.specs.Prelude.{◌≡◌, ◌++◌, ◌≤◌, ◌<◌, ◌-◌, ◌%◌, ◌^◌, ℤ, Some, min, length, drop, IfSome};
ghost use Rattle.std.specs.Char.{is_digit, digit_value};
ghost use Rattle.std.specs.Fmt.{signed_decimal};
ghost use Rattle.std.specs.List.{AllPass, list_all, prefix_len};
ghost use Rattle.std.specs.Option.{option_map};
ghost use Rattle.int_core.specs.Arithmetic.{wrapped};
ghost use Rattle.int_core.specs.Numeral.{signed, is_space, is_x, digits_len, digits_of, digits_value, SpellsInteger, integer_of, spaceless_of, unsigned_of, decimal_of, hexadecimal_of, integer_within};

use crate::arithmetic::neg;
use itoa::Buffer;

/// The integer that a text spells: white space, a sign, decimal digits of a value within 64 bits or `0x` and
/// hexadecimal digits that wrap around, and white space (Lua 5.4 manual, 3.1 and 3.4.3).
pub fn read_integer(text: &[u8]) -> Option<i64>
    ensures found { IfSome result (SpellsInteger text.now) }
    ensures only { (n : ℤ) → SpellsInteger text.now n → result ≡ Some n }

    // The same, as callers compute it.
    ensures value { result ≡ integer_of text.now }
{
    let (_, rest) = text.split_at(space_len(text));
    spaceless(rest)
}

fn spaceless(text: &[u8]) -> Option<i64>
    ensures { result ≡ spaceless_of text.now }
{
    match text {
        [] => None,
        [b'-', rest @ ..] => unsigned(rest, true),
        [b'+', rest @ ..] => unsigned(rest, false),
        _ => unsigned(text, false),
    }
}

fn unsigned(text: &[u8], negative: bool) -> Option<i64>
    ensures { result ≡ unsigned_of negative text.now }
{
    match text {
        [first, mark, digits @ ..] if is_x(*first, *mark) => hexadecimal(digits, negative),
        _ => decimal(text, negative),
    }
}

fn hexadecimal(text: &[u8], negative: bool) -> Option<i64>
    ensures { result ≡ hexadecimal_of negative text.now }
{
    Some(with_sign(wrapped_value(digits_of(text, 16)?), negative))
}

fn decimal(text: &[u8], negative: bool) -> Option<i64>
    ensures { result ≡ decimal_of negative text.now }
{
    within_range(capped_value(digits_of(text, 10)?), negative)
}

/// Writes an integer in decimal to the front, and answers how many bytes it took.
pub fn write_integer(n: i64, out: &mut [u8; 20]) -> usize
    ensures written { out.new ≡ signed_decimal n ++ drop result out.old }
    ensures len { result ≡ length (signed_decimal n) }
    ensures short { result ≤ 20 }
{
    let mut buffer = Buffer::new();
    let text = buffer.format(n).as_bytes();
    out[..text.len()].copy_from_slice(text);
    text.len()
}

fn is_space(byte: u8) -> bool
    ensures { result ≡ is_space byte }
{
    matches!(byte, b' ' | b'\t'..=b'\r')
}

/// How many bytes of white space a text begins with.
pub fn space_len(text: &[u8]) -> usize
    ensures value { result ≡ prefix_len is_space text.now }
    ensures within { result ≤ length text.now }
{
    text.iter().take_while(|byte| is_space(**byte)).count()
}

fn is_blank(text: &[u8]) -> bool
    ensures { result ≡ list_all is_space text.now }
{
    text.iter().all(|byte| is_space(*byte))
}

/// How many digits a text begins with.
fn digits_len(text: &[u8], radix: u32) -> usize
    requires least { 2 ≤ radix }
    requires most { radix ≤ 36 }
    ensures value { result ≡ digits_len radix text.now }
    ensures within { result ≤ length text.now }
{
    text.iter()
        .take_while(|byte| char::from(**byte).is_digit(radix))
        .count()
}

/// The digits of a text that is digits and white space.
pub fn digits_of(text: &[u8], radix: u32) -> Option<&[u8]>
    requires least { 2 ≤ radix }
    requires most { radix ≤ 36 }
    ensures value { option_map (λ digits. digits.now) result ≡ digits_of radix text.now }
    ensures digits { IfSome result (λ digits. AllPass (λ c. is_digit c radix) digits.now) }
{
    let (digits, rest) = text.split_at(digits_len(text, radix));
    if digits.is_empty() || !is_blank(rest) {
        None
    } else {
        Some(digits)
    }
}

fn is_x(first: u8, mark: u8) -> bool
    ensures { result ≡ is_x first mark }
{
    first == b'0' && (mark == b'x' || mark == b'X')
}

/// The value of a digit, and 0 for another byte.
fn digit_value(byte: u8) -> u64
    ensures value { digit_value byte < 16 → result ≡ digit_value byte }
    ensures small { result < 16 }
{
    u64::from(char::from(byte).to_digit(16).unwrap_or(0))
}

/// What decimal digits spell, or the greatest number of 64 bits where it is more.
fn capped_value(digits: &[u8]) -> u64
    requires { AllPass (λ c. is_digit c 10) digits.now }
    ensures { result ≡ min (digits_value 10 digits.now) (2 ^ 64 - 1) }
{
    let mut value = 0u64;
    for digit in digits {
        value = value.saturating_mul(10).saturating_add(digit_value(*digit));
    }
    value
}

/// What hexadecimal digits spell, modulo 2^64.
fn wrapped_value(digits: &[u8]) -> u64
    requires { AllPass (λ c. is_digit c 16) digits.now }
    ensures { result ≡ digits_value 16 digits.now % 2 ^ 64 }
{
    let mut value = 0u64;
    for digit in digits {
        value = value.wrapping_mul(16).wrapping_add(digit_value(*digit));
    }
    value
}

/// The number with its sign, where it is an integer of 64 bits.
fn within_range(value: u64, negative: bool) -> Option<i64>
    ensures { result ≡ integer_within negative value }
{
    if negative {
        if value <= 1 << 63 {
            Some(with_sign(value, negative))
        } else {
            None
        }
    } else {
        i64::try_from(value).ok()
    }
}

/// The integer of a number modulo 2^64, with its sign.
pub fn with_sign(value: u64, negative: bool) -> i64
    ensures { result ≡ wrapped (signed negative value) }
{
    let bits = value.cast_signed();
    if negative { neg(bits) } else { bits }
}
