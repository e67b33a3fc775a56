// The text of a string or an integer.
ghost use Rattle.std.specs.Prelude.{◌≡◌};
ghost use Rattle.std.specs.Option.{option_map};
ghost use Rattle.int_core.specs.Operations.{integer_text};
ghost use Rattle.library_rows.specs.Arguments.{bytes_of};
ghost use Rattle.library_arguments.specs.Shapes.{bytes_in, shape_of};

use crate::shape::Shape;
use int_core::write_integer;
use std::marker::Model;

/// The decimal digits of an integer, with its sign. Contracts see these bytes.
#[derive(Debug, Drop)]
pub struct Digits {
    bytes: [u8; 20],
    len: usize,
}

impl Model for Digits {
    ghost use Rattle.std.specs.Prelude.{List, ℕ, ◌≤◌, take};

    ghost Value = { List ℕ };

    ghost view = { λ digits. take digits.len digits.bytes };

    ghost invariant = { λ digits. digits.len ≤ 20 };
}

impl Digits {
    /// The digits of an integer.
    pub fn of(n: i64) -> Digits
        ensures { result ≡ integer_text n }
    {
        let mut bytes = [0; 20];
        let len = write_integer(n, &mut bytes);
        Digits { bytes, len }
    }

    /// The digits, to read.
    pub fn as_slice(&self) -> &[u8]
        ensures { result.now ≡ self.now }
    {
        &self.bytes[..self.len]
    }
}

/// A text that is read: the bytes of a string as they stand, or the digits of an integer.
#[derive(Debug, Drop)]
pub enum Text<'a> {
    Bytes(&'a [u8]),
    Digits(Digits),
}

impl<'a> Text<'a> {
    /// The bytes, to read.
    pub fn as_slice(&self) -> &[u8]
        ensures { result.now ≡ bytes_in self.now }
    {
        match self {
            Text::Bytes(bytes) => bytes,
            Text::Digits(digits) => digits.as_slice(),
        }
    }
}

/// The text of a string or an integer; other values have none.
pub fn text_of<'a>(shape: Shape<'a>) -> Option<Text<'a>>
    ensures { option_map bytes_in result ≡ bytes_of (shape_of shape.entry) }
{
    match shape {
        Shape::String(bytes) => Some(Text::Bytes(bytes)),
        Shape::Integer(n) => Some(Text::Digits(Digits::of(n))),
        _ => None,
    }
}
