// What is put at the end of a text, in its width.
ghost use Rattle.std.specs.Prelude.{◌≡◌, ◌++◌, ◌∷◌, [], ◌+◌, ◌-◌, length, OnOk};
ghost use Rattle.std.specs.List.{repeat};
ghost use Rattle.library_rows.specs.Formats.{in_width, or_zero};
ghost use Rattle.text_format.specs.Told.{told_conversion};

use crate::conversion::{Conversion, has, or_zero};
use std::alloc::AllocError;

/// So many times the same byte.
pub(crate) fn append_repeated(out: &mut Vec<u8>, byte: u8, count: usize) -> Result<(), AllocError>
    ensures { OnOk result (out.new.items ≡ out.old.items ++ repeat count (byte ∷ [])) }
{
    for _ in 0..count {
        out.push(byte)?;
    }
    Ok(())
}

/// A sign or a mark, zeros and digits in the width: to the left with `-`, else behind zeros or spaces.
pub(crate) fn append_padded(
    out: &mut Vec<u8>,
    conversion: &Conversion,
    in_zeros: bool,
    before: &[u8],
    zeros: usize,
    digits: &[u8],
) -> Result<(), AllocError>
    ensures { OnOk result (out.new.items ≡ out.old.items ++ in_width (told_conversion conversion.now) in_zeros before.now (repeat zeros (48 ∷ []) ++ digits.now)) }
{
    let len = before
        .len()
        .saturating_add(zeros)
        .saturating_add(digits.len());
    let fill = or_zero(conversion.width).saturating_sub(len);
    if has(conversion.flags, b'-') {
        append_number(out, before, zeros, digits)?;
        append_repeated(out, b' ', fill)?;
    } else if in_zeros {
        out.extend_from_slice(before)?;
        append_repeated(out, b'0', fill)?;
        append_number(out, &[], zeros, digits)?;
    } else {
        append_repeated(out, b' ', fill)?;
        append_number(out, before, zeros, digits)?;
    }
    Ok(())
}

/// A sign or a mark, zeros and digits.
fn append_number(
    out: &mut Vec<u8>,
    before: &[u8],
    zeros: usize,
    digits: &[u8],
) -> Result<(), AllocError>
    ensures { OnOk result (out.new.items ≡ out.old.items ++ (before.now ++ (repeat zeros (48 ∷ []) ++ digits.now))) }
{
    out.extend_from_slice(before)?;
    append_repeated(out, b'0', zeros)?;
    out.extend_from_slice(digits)?;
    Ok(())
}
