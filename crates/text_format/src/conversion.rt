// A conversion of a format: `%`, flags, a width, a precision and a letter.
ghost use Rattle.std.specs.Prelude.{◌≡◌, ◌&&◌};
ghost use Rattle.library_rows.specs.Formats.{has, in_zeros, or_zero};
ghost use Rattle.text_format.specs.Told.{told_conversion};

/// A conversion as it is read. A width or precision of no digits is 0.
#[derive(Clone, Copy, Debug)]
pub struct Conversion<'a> {
    /// The flags, as they stand.
    pub flags: &'a [u8],
    /// The least number of bytes, where one is written.
    pub width: Option<usize>,
    /// The number behind the dot, where there is a dot.
    pub precision: Option<usize>,
    /// What kind of conversion it is.
    pub letter: u8,
}

/// Whether a flag is there.
pub(crate) fn has(flags: &[u8], flag: u8) -> bool
    ensures { result ≡ has flags.now flag }
{
    flags.iter().any(|f| *f == flag)
}

/// Whether the width is filled with zeros: `0` counts for nothing beside a precision.
pub(crate) fn in_zeros(conversion: &Conversion) -> bool
    ensures { result ≡ in_zeros (told_conversion conversion.now) }
{
    has(conversion.flags, b'0') && conversion.precision.is_none()
}

/// A width or precision, or 0 where none is written.
pub(crate) fn or_zero(number: Option<usize>) -> usize
    ensures { result ≡ or_zero number }
{
    number.unwrap_or(0)
}
