// Classes of bytes, and the longest run of one.
ghost use Rattle.std.specs.Prelude.{◌≡◌, ◌≤◌, ◌==◌, ◌<◌, length, slice_index};
ghost use Rattle.std.specs.List.{prefix_len};
ghost use Rattle.int_core.specs.Numeral.{is_space};
ghost use Rattle.lua_lex.specs.Classes.{is_line_end, is_name_start, is_name_byte, is_hex_digit, is_in_mark};
ghost use Rattle.lua_lex.specs.Inner.{is_in};

use crate::digits::digit_value;

/// The bytes that a run is made of.
#[derive(Clone, Copy, Debug, PartialEq, Eq)]
pub enum Class {
    /// White space.
    Space,
    /// What a name goes on with.
    Name,
    /// What a numeral goes on with.
    Numeral,
    /// Decimal digits.
    Digit,
    /// Hexadecimal digits.
    HexDigit,
    /// The sign `=` of a long bracket.
    Equals,
    /// What a mark of more bytes than one goes on with.
    InMark,
}

/// How many bytes of the class stand at the front.
pub fn run_len(text: &[u8], class: Class) -> usize
    ensures run { result ≡ prefix_len (is_in class) text.now }
    ensures bound { result ≤ length text.now }
{
    let mut len = 0;
    while len < text.len() && class.holds(text[len]) {
        len += 1;
    }
    len
}

/// Whether this byte, which is not 0, stands at the place.
pub fn is_byte_at(text: &[u8], at: usize, byte: u8) -> bool
    requires { 0 < byte }
    ensures { result ≡ (slice_index text.now at == byte) }
{
    at < text.len() && text[at] == byte
}

/// Whether a byte of the class, which 0 is not of, stands at the place.
pub fn is_class_at(text: &[u8], at: usize, class: Class) -> bool
    ensures { result ≡ is_in class (slice_index text.now at) }
{
    at < text.len() && class.holds(text[at])
}

/// Whether the byte is `\n` or `\r`.
pub fn is_line_end(byte: u8) -> bool
    ensures { result ≡ is_line_end byte }
{
    byte == b'\n' || byte == b'\r'
}

/// Whether the byte is white space.
pub fn is_space(byte: u8) -> bool
    ensures { result ≡ is_space byte }
{
    byte == b' ' || (b'\t' <= byte && byte <= b'\r')
}

/// Whether a name may begin with the byte.
pub fn is_name_start(byte: u8) -> bool
    ensures { result ≡ is_name_start byte }
{
    byte.is_ascii_alphabetic() || byte == b'_'
}

impl Class {
    /// Whether the byte is of the class.
    pub fn holds(self, byte: u8) -> bool
        ensures { result ≡ is_in self byte }
    {
        match self {
            Class::Space => is_space(byte),
            Class::Name => is_name_byte(byte),
            Class::Numeral => is_name_byte(byte) || byte == b'.',
            Class::Digit => byte.is_ascii_digit(),
            Class::HexDigit => digit_value(byte) < 16,
            Class::Equals => byte == b'=',
            Class::InMark => is_in_mark(byte),
        }
    }
}

fn is_name_byte(byte: u8) -> bool
    ensures { result ≡ is_name_byte byte }
{
    is_name_start(byte) || byte.is_ascii_digit()
}

fn is_in_mark(byte: u8) -> bool
    ensures { result ≡ is_in_mark byte }
{
    matches!(byte, b'.' | b'/' | b':' | b'<' | b'=' | b'>')
}
