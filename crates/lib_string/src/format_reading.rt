// The pieces of a format (Lua 5.4 manual, 6.4, `string.format`).
ghost use Rattle.std.specs.Prelude.{◌≡◌, ◌≤◌, ◌<◌, ◌+◌, ◌^◌, drop, length, map, take, IfSome, IsTrue};
ghost use Rattle.std.specs.List.{prefix_len};
ghost use Rattle.lua_pattern.specs.Bytes.{begins_with};
ghost use Rattle.library_rows.specs.Formats.{is_decimal, is_flag, literal, number_at, number_len, read_conversion, with_letter, with_precision, with_width};
ghost use Rattle.lib_string.specs.Pieces.{IsNext, first_digit, is_literal, parts_of, told_read};

use text_format::Conversion;

/// A piece of a format.
#[derive(Clone, Copy)]
pub(crate) enum Piece<'a> {
    /// A byte for itself.
    Literal(u8),
    /// Bytes for themselves.
    Literals(&'a [u8]),
    /// `%`, flags, a width, a precision and a letter.
    Conversion(Conversion<'a>),
    /// A `%` that no letter ends.
    Broken,
}

/// A piece, and what follows it.
#[derive(Clone, Copy)]
pub(crate) struct Next<'a> {
    pub piece: Piece<'a>,
    pub rest: &'a [u8],
}

/// A conversion, and how many bytes it takes behind its `%`.
#[derive(Clone, Copy)]
pub(crate) struct Read<'a> {
    pub conversion: Conversion<'a>,
    pub size: usize,
}

/// A number of at most two digits; one of no digits is 0.
#[derive(Clone, Copy)]
struct Number {
    value: usize,
    len: usize,
}

/// The first piece of a format; nothing follows a broken one.
pub(crate) fn next_piece(format: &[u8]) -> Option<Next<'_>>
    ensures { IsNext result format.now }
{
    let (byte, behind) = format.split_first()?;
    if *byte != b'%' {
        let next = literals(format);
        return Some(next);
    }
    if begins_with_percent(behind) {
        let (_, rest) = behind.split_at(1);
        return Some(Next {
            piece: Piece::Literal(b'%'),
            rest,
        });
    }
    let Some(read) = read_conversion(behind) else {
        return Some(Next {
            piece: Piece::Broken,
            rest: &[],
        });
    };
    let (_, rest) = behind.split_at(read.size);
    Some(Next {
        piece: Piece::Conversion(read.conversion),
        rest,
    })
}

/// The bytes in front of the first `%`, or all where there is none.
fn literals(format: &[u8]) -> Next<'_>
    ensures piece { parts_of result.piece ≡ map literal (take (prefix_len is_literal format.now) format.now) }
    ensures rest { result.rest.now ≡ drop (prefix_len is_literal format.now) format.now }
{
    let size = literals_len(format);
    let (bytes, rest) = format.split_at(size);
    Next {
        piece: Piece::Literals(bytes),
        rest,
    }
}

/// How many bytes stand in front of the first `%`.
fn literals_len(format: &[u8]) -> usize
    ensures value { result ≡ prefix_len is_literal format.now }
    ensures within { result ≤ length format.now }
{
    format.iter().take_while(|byte| **byte != b'%').count()
}

fn begins_with_percent(text: &[u8]) -> bool
    ensures told { result ≡ begins_with 37 text.now }
    ensures some { IsTrue result → 0 < length text.now }
{
    match text.first() {
        Some(byte) => *byte == b'%',
        None => false,
    }
}

/// The conversion that stands behind a `%`.
fn read_conversion(text: &[u8]) -> Option<Read<'_>>
    ensures value { told_read result ≡ read_conversion text.now }
    ensures inside { IfSome result (λ read. read.size ≤ length text.now) }
{
    let size = flags_len(text);
    let (flags, rest) = text.split_at(size);
    let read = with_width(flags, size, rest)?;
    Some(read)
}

/// How many flags a text begins with.
fn flags_len(text: &[u8]) -> usize
    ensures value { result ≡ prefix_len is_flag text.now }
    ensures within { result ≤ length text.now }
{
    text.iter().take_while(|byte| is_flag(**byte)).count()
}

fn is_flag(byte: u8) -> bool
    ensures { result ≡ is_flag byte }
{
    byte == b'-' || (byte == b'+' || (byte == b' ' || (byte == b'#' || byte == b'0')))
}

fn with_width<'a>(flags: &'a [u8], size: usize, text: &[u8]) -> Option<Read<'a>>
    requires { size + length text.now < 2 ^ 64 }
    ensures value { told_read result ≡ with_width flags.now size text.now }
    ensures inside { IfSome result (λ read. read.size ≤ size + length text.now) }
{
    let number = number_at(text);
    if number.len == 0 {
        let read = with_precision(flags, None, size, text)?;
        return Some(read);
    }
    let (_, rest) = text.split_at(number.len);
    let read = with_precision(flags, Some(number.value), size + number.len, rest)?;
    Some(read)
}

fn with_precision<'a>(
    flags: &'a [u8],
    width: Option<usize>,
    size: usize,
    text: &[u8],
) -> Option<Read<'a>>
    requires { size + length text.now < 2 ^ 64 }
    ensures value { told_read result ≡ with_precision flags.now width size text.now }
    ensures inside { IfSome result (λ read. read.size ≤ size + length text.now) }
{
    let (byte, behind) = text.split_first()?;
    if *byte != b'.' {
        let read = with_letter(flags, width, None, size, text)?;
        return Some(read);
    }
    let number = number_at(behind);
    let (_, rest) = behind.split_at(number.len);
    let read = with_letter(
        flags,
        width,
        Some(number.value),
        size + 1 + number.len,
        rest,
    )?;
    Some(read)
}

fn with_letter<'a>(
    flags: &'a [u8],
    width: Option<usize>,
    precision: Option<usize>,
    size: usize,
    text: &[u8],
) -> Option<Read<'a>>
    requires { size + length text.now < 2 ^ 64 }
    ensures value { told_read result ≡ with_letter flags.now width precision size text.now }
    ensures inside { IfSome result (λ read. read.size ≤ size + length text.now) }
{
    let (letter, _) = text.split_first()?;
    Some(Read {
        conversion: Conversion {
            flags,
            width,
            precision,
            letter: *letter,
        },
        size: size + 1,
    })
}

/// The number that a text begins with.
fn number_at(text: &[u8]) -> Number
    ensures value { result.value ≡ number_at text.now }
    ensures len { result.len ≡ number_len text.now }
    ensures inside { result.len ≤ length text.now }
{
    let Some(first) = digit_at(text, 0) else {
        return Number { value: 0, len: 0 };
    };
    match digit_at(text, 1) {
        Some(second) => Number {
            value: first * 10 + second,
            len: 2,
        },
        None => Number {
            value: first,
            len: 1,
        },
    }
}

/// The digit at a place of a text, where one stands there.
fn digit_at(text: &[u8], at: usize) -> Option<usize>
    ensures digit { result ≡ first_digit (drop at text.now) }
    ensures small { IfSome result (λ digit. digit < 10) }
{
    let byte = *text.get(at)?;
    if is_decimal(byte) {
        Some(usize::from(byte - 48))
    } else {
        None
    }
}

fn is_decimal(byte: u8) -> bool
    ensures told { result ≡ is_decimal byte }
    ensures least { IsTrue result → 48 ≤ byte }
    ensures most { IsTrue result → byte ≤ 57 }
{
    48 <= byte && byte <= 57
}
