// The value of digits.
ghost use Rattle.std.specs.Prelude.{◌≡◌, ◌<◌, ◌≤◌, IfSome, IfNone};
ghost use Rattle.std.specs.Char.{digit_value};
ghost use Rattle.std.specs.Str.Parse.{digits_value};

/// The value of digits in a base, if it is below the limit.
pub fn value_below(digits: &[u8], radix: u64, limit: u64) -> Option<u64>
    requires { 1 ≤ radix }
    ensures found { IfSome result (λ value. (value ≡ digits_value radix digits.now) × (value < limit)) }
    ensures none { IfNone result (limit ≤ digits_value radix digits.now) }
{
    let mut value: u64 = 0;
    for byte in digits {
        value = value
            .checked_mul(radix)?
            .checked_add(u64::from(digit_value(*byte)))?;
    }
    if value < limit { Some(value) } else { None }
}

/// The value of a digit below 36, or 36 where the byte is none.
pub fn digit_value(byte: u8) -> u8
    ensures value { result ≡ digit_value byte }
    ensures bound { result ≤ 36 }
{
    match byte {
        b'0'..=b'9' => byte - b'0',
        b'a'..=b'z' => byte - b'a' + 10,
        b'A'..=b'Z' => byte - b'A' + 10,
        _ => 36,
    }
}
