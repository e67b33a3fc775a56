// Character classes: which bytes one place of a pattern takes (Lua 5.4 manual, 6.4.1, "Character Class").
ghost use Rattle.std.specs.Prelude.{◌≡◌};
ghost use Rattle.lua_pattern.specs.Classes.{kind_of, part_named, kind_has, part_has};
ghost use Rattle.lua_pattern.specs.Sets.{is_named};

use std::marker::Model;

/// A kind of bytes that has a letter of its own. Bytes of 128 and more are of no kind.
#[derive(Clone, Copy)]
pub enum Kind {
    Letter,
    Control,
    Digit,
    Graphic,
    Lower,
    Punctuation,
    Space,
    Upper,
    Alphanumeric,
    Hexadecimal,
}

impl Kind {
    /// The kind that a lower-case letter behind `%` names.
    pub fn named(letter: u8) -> Option<Kind>
        ensures { result ≡ kind_of letter }
    {
        match letter {
            b'a' => Some(Kind::Letter),
            b'c' => Some(Kind::Control),
            b'd' => Some(Kind::Digit),
            b'g' => Some(Kind::Graphic),
            b'l' => Some(Kind::Lower),
            b'p' => Some(Kind::Punctuation),
            b's' => Some(Kind::Space),
            b'u' => Some(Kind::Upper),
            b'w' => Some(Kind::Alphanumeric),
            b'x' => Some(Kind::Hexadecimal),
            _ => None,
        }
    }

    /// Whether a byte is of the kind.
    #[tactic(auto, unfolding(crate::specs::Classes::kind_has))]
    pub fn contains(self, byte: u8) -> bool
        ensures { result ≡ kind_has self byte }
    {
        match self {
            Kind::Letter => matches!(byte, b'a'..=b'z' | b'A'..=b'Z'),
            Kind::Control => matches!(byte, 0..=31 | 127),
            Kind::Digit => matches!(byte, b'0'..=b'9'),
            Kind::Graphic => matches!(byte, b'!'..=b'~'),
            Kind::Lower => matches!(byte, b'a'..=b'z'),
            Kind::Punctuation => {
                matches!(byte, b'!'..=b'/' | b':'..=b'@' | b'['..=b'`' | b'{'..=b'~')
            }
            Kind::Space => matches!(byte, b'\t'..=b'\r' | b' '),
            Kind::Upper => matches!(byte, b'A'..=b'Z'),
            Kind::Alphanumeric => matches!(byte, b'0'..=b'9' | b'a'..=b'z' | b'A'..=b'Z'),
            Kind::Hexadecimal => matches!(byte, b'0'..=b'9' | b'a'..=b'f' | b'A'..=b'F'),
        }
    }
}

/// A part of a set, or a class that stands alone.
#[derive(Clone, Copy)]
pub enum Part {
    Byte(u8),
    /// The bytes from the first to the second.
    Range(u8, u8),
    Of(Kind),
    NotOf(Kind),
}

impl Part {
    /// The part that a byte behind `%` stands for, which is the byte itself where it names no kind.
    pub fn named(byte: u8) -> Part
        ensures { result ≡ part_named byte }
    {
        if let Some(kind) = Kind::named(byte) {
            return Part::Of(kind);
        }
        if !byte.is_ascii_uppercase() {
            return Part::Byte(byte);
        }
        match Kind::named(byte + 32) {
            Some(kind) => Part::NotOf(kind),
            None => Part::Byte(byte),
        }
    }

    /// Whether a byte is in the part.
    #[inline(always)]
    pub fn contains(self, byte: u8) -> bool
        ensures { result ≡ part_has self byte }
    {
        match self {
            Part::Byte(own) => own == byte,
            Part::Range(low, high) => low <= byte && byte <= high,
            Part::Of(kind) => kind.contains(byte),
            Part::NotOf(kind) => !kind.contains(byte),
        }
    }
}

/// A set in square brackets. Contracts see its parts, and whether it begins with `^`.
#[derive(Drop)]
pub struct ByteSet {
    pub parts: Vec<Part>,
    pub inverted: bool,
}

impl Model for ByteSet {
    ghost use Rattle.lua_pattern.specs.Sets.{ByteSet as Shown};

    ghost Value = { Shown };

    ghost view = { λ set. record { parts = set.parts.items; inverted = set.inverted } };
}

impl ByteSet {
    ghost use Rattle.lua_pattern.specs.Sets.{set_has};

    /// Whether a byte is in the set.
    pub fn contains(&self, byte: u8) -> bool
        ensures { result ≡ set_has self.now byte }
    {
        let named = is_named(&self.parts, byte);
        if self.inverted { !named } else { named }
    }
}

/// Whether one of the parts takes a byte in.
fn is_named(parts: &[Part], byte: u8) -> bool
    ensures { result ≡ is_named parts.now byte }
{
    parts.iter().any(|part| part.contains(byte))
}

/// A class of bytes.
#[derive(Drop)]
pub enum Class {
    /// `.`
    Any,
    /// A byte, or a kind behind `%`.
    Alone(Part),
    /// A set in square brackets.
    Among(ByteSet),
}

impl Class {
    ghost use Rattle.lua_pattern.specs.ClassBytes.{class_has};

    /// Whether a byte is in the class.
    #[inline(always)]
    pub fn contains(&self, byte: u8) -> bool
        ensures { result ≡ class_has self.now byte }
    {
        match self {
            Class::Any => true,
            Class::Alone(part) => part.contains(byte),
            Class::Among(set) => set.contains(byte),
        }
    }
}
