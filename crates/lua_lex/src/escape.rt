// Escapes in literal strings.
ghost use Rattle.std.specs.Prelude.{◌≡◌, ◌≤◌, ◌<◌, ℕ, List, length, drop, IfSome, IfNone, Option};
ghost use Rattle.lua_lex.specs.declared.escape.Meaning.{Meaning};
ghost use Rattle.lua_lex.specs.declared.escape.Escape.TheVariants as escape;
ghost use Rattle.lua_lex.specs.Strings.{escape_of, letter_value, IsEscape, IsEscapeOf};

use crate::class::{Class, is_byte_at, is_class_at, is_line_end, run_len};
use crate::digits::{digit_value, value_below};
use crate::line::{behind, end_len};

/// What a byte behind a backslash begins.
#[derive(Clone, Copy, Debug, PartialEq, Eq)]
pub enum Escape {
    /// A letter or a mark that stands for this byte.
    Letter(u8),
    /// An end of line.
    LineEnd,
    /// `z`, which skips white space.
    Space,
    /// `x` and two hexadecimal digits.
    Hexadecimal,
    /// One to three decimal digits.
    Decimal,
    /// `u{`, hexadecimal digits and `}`.
    Unicode,
    /// Nothing that is accepted.
    Unknown,
}

/// What an escape stands for.
#[derive(Clone, Copy, Debug, PartialEq, Eq)]
pub enum Meaning {
    /// No byte.
    Nothing,
    /// A byte.
    Byte(u8),
    /// A number below 2 ^ 31 in UTF-8.
    Character(u32),
}

/// The meaning of the escape that the text behind a backslash begins with, and how many bytes
/// it has, if there is one (Lua 5.4 manual, 3.1).
pub fn escape_at(text: &[u8]) -> Option<(Meaning, usize)>
    ensures found { IfSome result (λ found. IsEscape text.now found.0 (drop found.1 text.now)) }
    ensures bound { IfSome result (λ found. found.1 ≤ length text.now) }
    ensures none { IfNone result ((meaning : Meaning) (rest : List ℕ) → IsEscape text.now meaning rest → ⊥) }
{
    let first = *text.first()?;
    match escape_of(first) {
        Escape::Letter(value) => Some((Meaning::Byte(value), 1)),
        Escape::LineEnd => Some((Meaning::Byte(b'\n'), end_len(text, 0))),
        Escape::Space => Some((Meaning::Nothing, 1 + run_len(behind(text, 1), Class::Space))),
        Escape::Hexadecimal => hexadecimal(text),
        Escape::Decimal => decimal(text),
        Escape::Unicode => unicode(text),
        Escape::Unknown => None,
    }
}

#[tactic(auto, unfolding(crate::specs::Strings::escape_of))]
fn escape_of(byte: u8) -> Escape
    ensures { result ≡ escape_of byte }
{
    if let Some(value) = letter_value(byte) {
        return Escape::Letter(value);
    }
    match byte {
        b'\n' | b'\r' => Escape::LineEnd,
        b'z' => Escape::Space,
        b'x' => Escape::Hexadecimal,
        b'0'..=b'9' => Escape::Decimal,
        b'u' => Escape::Unicode,
        _ => Escape::Unknown,
    }
}

// The byte that a letter or a mark stands for.
fn letter_value(byte: u8) -> Option<u8>
    ensures { result ≡ letter_value byte }
{
    match byte {
        b'a' => Some(0x07),
        b'b' => Some(0x08),
        b'f' => Some(0x0c),
        b'n' => Some(b'\n'),
        b'r' => Some(b'\r'),
        b't' => Some(b'\t'),
        b'v' => Some(0x0b),
        b'\\' | b'"' | b'\'' => Some(byte),
        _ => None,
    }
}

fn hexadecimal(text: &[u8]) -> Option<(Meaning, usize)>
    ensures found { IfSome result (λ found. IsEscapeOf escape.Hexadecimal text.now found.0 (drop found.1 text.now)) }
    ensures bound { IfSome result (λ found. found.1 ≤ length text.now) }
    ensures none { IfNone result ((meaning : Meaning) (rest : List ℕ) → IsEscapeOf escape.Hexadecimal text.now meaning rest → ⊥) }
{
    if is_class_at(text, 1, Class::HexDigit) && is_class_at(text, 2, Class::HexDigit) {
        let value = digit_value(text[1]) * 16 + digit_value(text[2]);
        Some((Meaning::Byte(value), 3))
    } else {
        None
    }
}

fn decimal(text: &[u8]) -> Option<(Meaning, usize)>
    ensures found { IfSome result (λ found. IsEscapeOf escape.Decimal text.now found.0 (drop found.1 text.now)) }
    ensures bound { IfSome result (λ found. found.1 ≤ length text.now) }
    ensures none { IfNone result ((meaning : Meaning) (rest : List ℕ) → IsEscapeOf escape.Decimal text.now meaning rest → ⊥) }
{
    let len = run_len(text, Class::Digit).min(3);
    let value = value_below(&text[..len], 10, 256)?;
    Some((Meaning::Byte(value as u8), len))
}

fn unicode(text: &[u8]) -> Option<(Meaning, usize)>
    requires { 0 < length text.now }
    ensures found { IfSome result (λ found. IsEscapeOf escape.Unicode text.now found.0 (drop found.1 text.now)) }
    ensures bound { IfSome result (λ found. found.1 ≤ length text.now) }
    ensures none { IfNone result ((meaning : Meaning) (rest : List ℕ) → IsEscapeOf escape.Unicode text.now meaning rest → ⊥) }
{
    if !is_byte_at(text, 1, b'{') {
        return None;
    }
    let digits = behind(text, 2);
    let len = run_len(digits, Class::HexDigit);
    if len == 0 || !is_byte_at(text, 2 + len, b'}') {
        return None;
    }
    let value = value_below(&digits[..len], 16, 1 << 31)?;
    Some((Meaning::Character(value as u32), 3 + len))
}
