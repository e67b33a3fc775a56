// Bytes and texts.
ghost use Rattle.std.specs.Prelude.{◌≡◌, ◌++◌, ◌∷◌, [], false, OnOk};
ghost use Rattle.std.specs.Int.{w64, cast_unsigned};
ghost use Rattle.library_rows.specs.Formats.{byte_text, in_width, shortened};
ghost use Rattle.text_format.specs.Told.{told_conversion};

use crate::conversion::Conversion;
use crate::padding::append_padded;
use std::alloc::AllocError;

/// An integer modulo 256 as one byte, by `%c`.
pub fn append_byte(out: &mut Vec<u8>, conversion: &Conversion, n: i64) -> Result<(), AllocError>
    ensures { OnOk result (out.new.items ≡ out.old.items ++ in_width (told_conversion conversion.now) false [] (byte_text n)) }
{
    let byte = (n.cast_unsigned() % 256) as u8;
    append_padded(out, conversion, false, &[], 0, &[byte])?;
    Ok(())
}

/// A text, by `%s`: of a precision at most so many bytes.
pub fn append_text(
    out: &mut Vec<u8>,
    conversion: &Conversion,
    text: &[u8],
) -> Result<(), AllocError>
    ensures { OnOk result (out.new.items ≡ out.old.items ++ in_width (told_conversion conversion.now) false [] (shortened conversion.now.precision text.now)) }
{
    let text = shortened(conversion, text);
    append_padded(out, conversion, false, &[], 0, text)?;
    Ok(())
}

fn shortened<'a>(conversion: &Conversion, text: &'a [u8]) -> &'a [u8]
    ensures { result.now ≡ shortened conversion.now.precision text.now }
{
    match conversion.precision {
        Some(most) if most < text.len() => &text[..most],
        _ => text,
    }
}
