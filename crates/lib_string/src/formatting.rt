// One argument by one conversion.
ghost use Rattle.std.specs.Prelude.{◌≡◌, Some};
ghost use Rattle.std.specs.List.{list_all};
ghost use Rattle.library_rows.specs.Formats.{allowed, converted, converts, has, invalid, is_allowed, no_literal, quote, sort_of};
ghost use Rattle.text_format.specs.Told.{told_conversion};
ghost use Rattle.library_arguments.specs.Refusals.{refusal_text, fault_text};
ghost use Rattle.library_arguments.specs.Shapes.{shape_of};
ghost use Rattle.lib_string.specs.Pieces.{IsText, sort_told, told_sort, with_more};

use library_arguments::{Fault, Refusal, Shape, integer_argument, text_argument};
use text_format::{
    Base, Conversion, append_byte, append_quoted, append_quoted_integer, append_signed,
    append_text, append_unsigned,
};

/// What a conversion's letter converts.
#[derive(Clone, Copy)]
pub(crate) enum Sort {
    /// `%d` and `%i`
    Decimal,
    /// `%u`, `%o`, `%x` and `%X`
    InBase(Base),
    /// `%c`
    Byte,
    /// `%s`
    Text,
    /// `%q`
    Quoted,
}

/// Puts an argument at the end of a text, by a conversion.
///
/// # Errors
///
/// There is no such letter, it has not these flags, width or precision, or the argument is of another type; or memory runs out.
pub(crate) fn append_converted(
    text: &mut Vec<u8>,
    conversion: &Conversion,
    place: usize,
    shape: Shape,
) -> Result<(), Fault>
    ensures { IsText result text.new.items (with_more text.old.items (converts (told_conversion conversion.now) place (shape_of shape.entry))) }
{
    let Some(sort) = sort_of(conversion.letter) else {
        return Err(Fault::Refused(invalid()));
    };
    if !is_allowed(sort, conversion) {
        return Err(Fault::Refused(invalid()));
    }
    append_sorted(text, sort, conversion, place, shape)?;
    Ok(())
}

/// The error of a conversion that is none.
pub(crate) fn invalid() -> Refusal
    ensures { refusal_text result ≡ invalid }
{
    Refusal::Text(b"invalid conversion to 'format'")
}

fn sort_of(letter: u8) -> Option<Sort>
    ensures { told_sort result ≡ sort_of letter }
{
    match letter {
        b'd' => Some(Sort::Decimal),
        b'i' => Some(Sort::Decimal),
        b'u' => Some(Sort::InBase(Base::Decimal)),
        b'o' => Some(Sort::InBase(Base::Octal)),
        b'x' => Some(Sort::InBase(Base::Hexadecimal)),
        b'X' => Some(Sort::InBase(Base::UpperHexadecimal)),
        b'c' => Some(Sort::Byte),
        b's' => Some(Sort::Text),
        b'q' => Some(Sort::Quoted),
        _ => None,
    }
}

/// Whether a conversion has only what its letter allows.
fn is_allowed(sort: Sort, conversion: &Conversion) -> bool
    ensures { result ≡ is_allowed (allowed (sort_told sort)) (told_conversion conversion.now) }
{
    let flags = has_only(allowed_flags(sort), conversion.flags);
    flags
        && (has_width(sort) || conversion.width.is_none())
        && (has_precision(sort) || conversion.precision.is_none())
}

/// The flags that a letter takes.
fn allowed_flags(sort: Sort) -> &'static [u8]
    ensures { result.now ≡ (allowed (sort_told sort)).flags }
{
    match sort {
        Sort::Decimal => b"-+0 ",
        Sort::InBase(Base::Decimal) => b"-0",
        Sort::InBase(_) => b"-#0",
        Sort::Byte => b"-",
        Sort::Text => b"-",
        Sort::Quoted => b"",
    }
}

fn has_width(sort: Sort) -> bool
    ensures { result ≡ (allowed (sort_told sort)).width }
{
    !matches!(sort, Sort::Quoted)
}

fn has_precision(sort: Sort) -> bool
    ensures { result ≡ (allowed (sort_told sort)).precision }
{
    !matches!(sort, Sort::Byte | Sort::Quoted)
}

/// Whether all flags are among those that are allowed.
fn has_only(allowed: &[u8], flags: &[u8]) -> bool
    ensures { result ≡ list_all (λ f. has allowed.now f) flags.now }
{
    flags.iter().all(|flag| has(allowed, *flag))
}

fn has(flags: &[u8], flag: u8) -> bool
    ensures { result ≡ has flags.now flag }
{
    flags.iter().any(|f| *f == flag)
}

fn append_sorted(
    text: &mut Vec<u8>,
    sort: Sort,
    conversion: &Conversion,
    place: usize,
    shape: Shape,
) -> Result<(), Fault>
    ensures { IsText result text.new.items (with_more text.old.items (converted (sort_told sort) (told_conversion conversion.now) place (shape_of shape.entry))) }
{
    match sort {
        Sort::Decimal => {
            let n = integer_argument(b"format", place, shape)?;
            append_signed(text, conversion, n)?;
            Ok(())
        }
        Sort::InBase(base) => {
            let n = integer_argument(b"format", place, shape)?;
            append_unsigned(text, conversion, base, n.cast_unsigned())?;
            Ok(())
        }
        Sort::Byte => {
            let n = integer_argument(b"format", place, shape)?;
            append_byte(text, conversion, n)?;
            Ok(())
        }
        Sort::Text => {
            let piece = text_argument(b"format", place, shape)?;
            append_text(text, conversion, piece.as_slice())?;
            Ok(())
        }
        Sort::Quoted => {
            append_literal(text, shape)?;
            Ok(())
        }
    }
}

/// Puts a value at the end as a literal, by `%q`.
fn append_literal(text: &mut Vec<u8>, shape: Shape) -> Result<(), Fault>
    ensures { IsText result text.new.items (with_more text.old.items (quote (shape_of shape.entry))) }
{
    match shape {
        Shape::Nil => {
            text.extend_from_slice(b"nil")?;
            Ok(())
        }
        Shape::Boolean(true) => {
            text.extend_from_slice(b"true")?;
            Ok(())
        }
        Shape::Boolean(false) => {
            text.extend_from_slice(b"false")?;
            Ok(())
        }
        Shape::Integer(n) => {
            append_quoted_integer(text, n)?;
            Ok(())
        }
        Shape::String(bytes) => {
            append_quoted(text, bytes)?;
            Ok(())
        }
        Shape::Primitive(_) => Err(no_literal()),
        Shape::Object(_) => Err(no_literal()),
    }
}

fn no_literal() -> Fault
    ensures { fault_text result ≡ Some no_literal }
{
    Fault::Refused(Refusal::Text(b"value has no literal form"))
}
