// The bytes of a number.
ghost use Rattle.std.specs.Prelude.{◌≡◌, ◌++◌, ◌+◌, ◌<◌, ◌≤◌, ◌%◌, length, OnOk, OnErr};
ghost use Rattle.library_rows.specs.Codepoints.{encode};
ghost use Rattle.text_functions.specs.Made.{IsFaultOf};

use text_functions::{Bounded, Builder};

/// Puts the bytes of a number at the end of a text: one to six.
///
/// # Errors
///
/// `TooLarge` where the text has no room for them, else `Memory`; then the text stays as it was.
pub fn push_code(text: &mut Builder, code: u32) -> Bounded<()>
    requires { code < 2147483648 }
    ensures joined { OnOk result (text.new ≡ text.old ++ encode code) }
    ensures refused { OnErr result (IsFaultOf (length text.old + length (encode code)) result) }
    ensures kept { OnErr result (text.new ≡ text.old) }
{
    if code < 128 {
        text.push(&[code as u8])?;
    } else if code < 2048 {
        text.push(&[192 + (code / 64) as u8, last(code)])?;
    } else if code < 65_536 {
        text.push(&[224 + (code / 4096) as u8, last(code / 64), last(code)])?;
    } else {
        push_long(text, code)?;
    }
    Ok(())
}

/// A number of at least four bytes.
fn push_long(text: &mut Builder, code: u32) -> Bounded<()>
    requires small { code < 2147483648 }
    requires long { 65536 ≤ code }
    ensures joined { OnOk result (text.new ≡ text.old ++ encode code) }
    ensures refused { OnErr result (IsFaultOf (length text.old + length (encode code)) result) }
    ensures kept { OnErr result (text.new ≡ text.old) }
{
    let third = last(code / 64 / 64);
    if code < 2_097_152 {
        let first = 240 + (code / 262_144) as u8;
        text.push(&[first, third, last(code / 64), last(code)])?;
    } else if code < 67_108_864 {
        let first = 248 + (code / 16_777_216) as u8;
        let fourth = last(code / 64 / 64 / 64);
        text.push(&[first, fourth, third, last(code / 64), last(code)])?;
    } else {
        let first = 252 + (code / 1_073_741_824) as u8;
        let fourth = last(code / 64 / 64 / 64);
        let fifth = last(code / 64 / 64 / 64 / 64);
        text.push(&[first, fifth, fourth, third, last(code / 64), last(code)])?;
    }
    Ok(())
}

/// The byte of a number's last six bits.
fn last(code: u32) -> u8
    ensures { result ≡ 128 + code % 64 }
{
    128 + (code % 64) as u8
}
