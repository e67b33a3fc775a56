// What functions of the bytes of a text give where their arguments are of the usual types: no list is made, and no text is copied.
ghost use Rattle.std.specs.Prelude.{◌≡◌, ◌∷◌, [], IfSome};
ghost use Rattle.library_rows.specs.Plainly.{results};
ghost use Rattle.library_rows.specs.Strings.{byte_row, codes_of, sub_row};
ghost use Rattle.library_arguments.specs.Shapes.{shape_of};
ghost use Rattle.lib_string.specs.Quick.{IsQuick, span_seen};

use library_arguments::Shape;
use text_functions::part;

/// Results that take no memory.
#[derive(Debug, Clone, Copy)]
pub enum Quick<'a> {
    /// Nil.
    Nothing,
    Integer(i64),
    /// A part of an argument.
    Text(&'a [u8]),
    /// Two places, from 1.
    Places(i64, i64),
}

/// Arguments of the usual types: a text, a place, and a second place or none.
#[derive(Debug, Clone, Copy)]
struct Span<'a> {
    bytes: &'a [u8],
    first: i64,
    last: Option<i64>,
}

/// The arguments, where they are of the usual types.
#[inline(always)]
fn span_of<'a>(text: Shape<'a>, first: Shape, last: Shape) -> Option<Span<'a>>
    ensures { IfSome result (λ span. shape_of text.entry ∷ shape_of first.entry ∷ shape_of last.entry ∷ [] ≡ span_seen span) }
{
    match (text, first, last) {
        (Shape::String(bytes), Shape::Integer(first), Shape::Nil) => Some(Span {
            bytes,
            first,
            last: None,
        }),
        (Shape::String(bytes), Shape::Integer(first), Shape::Integer(last)) => Some(Span {
            bytes,
            first,
            last: Some(last),
        }),
        _ => None,
    }
}

/// `string.byte` of one place of a text. `None` says nothing.
pub fn quick_byte<'a>(text: Shape<'a>, place: Shape, last: Shape) -> Option<Quick<'a>>
    ensures { IsQuick result (byte_row (shape_of text.entry ∷ shape_of place.entry ∷ shape_of last.entry ∷ [])) }
{
    let span = span_of(text, place, last)?;
    match span.last {
        None => only_byte(part(span.bytes, span.first, span.first)),
        Some(_) => None,
    }
}

/// One byte as an integer.
fn only_byte(bytes: &[u8]) -> Option<Quick<'_>>
    ensures { IsQuick result (results (codes_of bytes.now)) }
{
    if let [byte] = bytes {
        return Some(Quick::Integer(i64::from(*byte)));
    }
    None
}

/// `string.sub` of a text. `None` says nothing.
pub fn quick_sub<'a>(text: Shape<'a>, first: Shape, last: Shape) -> Option<Quick<'a>>
    ensures { IsQuick result (sub_row (shape_of text.entry ∷ shape_of first.entry ∷ shape_of last.entry ∷ [])) }
{
    let span = span_of(text, first, last)?;
    let last = span.last.unwrap_or(-1);
    Some(Quick::Text(part(span.bytes, span.first, last)))
}
