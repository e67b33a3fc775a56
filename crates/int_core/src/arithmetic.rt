// The arithmetic of the language's integers, which wrap around (Lua 5.4 manual, 3.4.1 and 3.4.2).
ghost use Rattle.std.specs.Prelude.{◌≡◌, ◌≢◌, pos};
ghost use Rattle.int_core.specs.Arithmetic.{add, sub, mul, neg, floor_div, floor_mod, shl, shr, moved_up, moved_down};

/// `a + b`.
pub fn add(a: i64, b: i64) -> i64
    ensures { result ≡ add a b }
{
    a.wrapping_add(b)
}

/// `a - b`.
pub fn sub(a: i64, b: i64) -> i64
    ensures { result ≡ sub a b }
{
    a.wrapping_sub(b)
}

/// `a * b`.
pub fn mul(a: i64, b: i64) -> i64
    ensures { result ≡ mul a b }
{
    a.wrapping_mul(b)
}

/// `-a`.
pub fn neg(a: i64) -> i64
    ensures { result ≡ neg a }
{
    a.wrapping_neg()
}

/// `a << count`: zeros come in, 64 places or more leave 0, and a negative count shifts to the right.
pub fn shl(a: i64, count: i64) -> i64
    ensures { result ≡ shl a count }
{
    let places = count.unsigned_abs();
    if count < 0 {
        moved_down(a, places)
    } else {
        moved_up(a, places)
    }
}

/// `a >> count`: zeros come in, 64 places or more leave 0, and a negative count shifts to the left.
pub fn shr(a: i64, count: i64) -> i64
    ensures { result ≡ shr a count }
{
    let places = count.unsigned_abs();
    if count >= 0 {
        moved_down(a, places)
    } else {
        moved_up(a, places)
    }
}

fn moved_up(a: i64, places: u64) -> i64
    ensures { result ≡ moved_up a places }
{
    if places < 64 { a << places } else { 0 }
}

fn moved_down(a: i64, places: u64) -> i64
    ensures { result ≡ moved_down a places }
{
    if places < 64 {
        (a.cast_unsigned() >> places).cast_signed()
    } else {
        0
    }
}

/// `a // b`, the floor of the quotient.
pub fn floor_div(a: i64, b: i64) -> i64
    requires { b ≢ pos 0 }
    ensures { result ≡ floor_div a b }
{
    let (dividend, divisor) = (a.unsigned_abs(), b.unsigned_abs());
    if (a < 0) == (b < 0) {
        (dividend / divisor).cast_signed()
    } else {
        neg(dividend.div_ceil(divisor).cast_signed())
    }
}

/// `a % b`, what is left of `a` beside `a // b` times `b`.
pub fn floor_mod(a: i64, b: i64) -> i64
    requires { b ≢ pos 0 }
    ensures { result ≡ floor_mod a b }
{
    sub(a, mul(b, floor_div(a, b)))
}
