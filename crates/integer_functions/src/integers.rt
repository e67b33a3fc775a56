// Functions of one or two integers (Lua 5.4 manual, 6.7).
ghost use Rattle.std.specs.Prelude.{◌≡◌, nat_lt, int_lt};
ghost use Rattle.std.specs.Int.{w64, cast_unsigned};
ghost use Rattle.library_rows.specs.Integers.{absolute, remainder};
ghost use Rattle.integer_functions.specs.Told.{better_of, told_remainder};

use int_core::neg;

/// The integer without its sign. The least integer has no opposite, and stays.
pub fn absolute(n: i64) -> i64
    ensures { result ≡ absolute n }
{
    if n < 0 { neg(n) } else { n }
}

/// What is left of a division that rounds towards 0; none where the divisor is 0.
pub fn remainder(a: i64, b: i64) -> Option<i64>
    ensures { remainder a b ≡ told_remainder result }
{
    if b == 0 {
        None
    } else {
        Some(a.wrapping_rem(b))
    }
}

/// Whether the first is below the second, both read as numbers from 0 to 2^64 - 1.
pub fn is_below(a: i64, b: i64) -> bool
    ensures { result ≡ nat_lt (cast_unsigned w64 a) (cast_unsigned w64 b) }
{
    a.cast_unsigned() < b.cast_unsigned()
}

/// The greater of the best so far and the next one.
pub fn greater(best: i64, next: i64) -> i64
    ensures { result ≡ better_of (λ m n. int_lt n m) best next }
{
    if best < next { next } else { best }
}

/// The lesser of the best so far and the next one.
pub fn lesser(best: i64, next: i64) -> i64
    ensures { result ≡ better_of (λ m n. int_lt m n) best next }
{
    if next < best { next } else { best }
}
