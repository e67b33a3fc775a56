// The digits of a number in a base, which take no memory of their own.
ghost use Rattle.std.specs.Prelude.{◌≡◌, ◌≤◌, ◌<◌, drop, length};
ghost use Rattle.std.specs.Fmt.{digit_glyph, digits};

/// Writes the digits of a number to the end of `out`, and tells where they begin. 64 bytes are enough for any base.
pub(crate) fn write_digits(n: u64, base: u64, upper: bool, out: &mut [u8; 64]) -> usize
    requires lower_bound { 2 ≤ base }
    requires upper_bound { base ≤ 16 }
    ensures bound { result ≤ 64 }
    ensures value { drop result out.new ≡ digits base upper n }
{
    // A numeral lets the compiler take shifts for divisions.
    if base == 16 {
        write_in_base(n, 16, upper, out)
    } else {
        write_in_base(n, base, upper, out)
    }
}

#[inline(always)]
fn write_in_base(n: u64, base: u64, upper: bool, out: &mut [u8; 64]) -> usize
    requires lower_bound { 2 ≤ base }
    requires upper_bound { base ≤ 16 }
    ensures bound { result ≤ 64 }
    ensures value { drop result out.new ≡ digits base upper n }
{
    let mut i = 64;
    let mut rest = n;
    while i > 0 {
        i -= 1;
        out[i] = ascii_digit(rest % base, upper);
        rest /= base;
        if rest == 0 {
            break;
        }
    }
    i
}

/// The byte of a digit below 16.
fn ascii_digit(d: u64, upper: bool) -> u8
    ensures { d < 16 → result ≡ digit_glyph upper d }
{
    let low = (d % 16) as u8;
    if low < 10 {
        b'0' + low
    } else if upper {
        b'A' + (low - 10)
    } else {
        b'a' + (low - 10)
    }
}

/// What stands behind so many bytes.
pub(crate) fn behind(text: &[u8], at: usize) -> &[u8]
    requires { at ≤ length text.now }
    ensures { result.now ≡ drop at text.now }
{
    let (_, rest) = text.split_at(at);
    rest
}
