// The bytes of a pattern that are still to be read.
ghost use Rattle.std.specs.Prelude.{◌≡◌, ◌≤◌, ◌∷◌, List, [], drop, length, slice_get, MatchOption, if◌then◌else◌};
ghost use Rattle.lua_pattern.specs.Bytes.{begins_with};

use std::marker::Model;

/// The bytes of a pattern from a place on. Contracts see the list of them.
#[derive(Drop)]
pub(crate) struct Cursor<'a> {
    rest: &'a [u8],
}

impl<'a> Model for Cursor<'a> {
    ghost use Rattle.std.specs.Prelude.{List, ℕ};

    ghost Value = { List ℕ };

    ghost view = { λ cursor. cursor.rest.now };
}

impl<'a> Cursor<'a> {
    /// All the bytes of a pattern.
    pub fn new(pattern: &'a [u8]) -> Cursor<'a>
        ensures { result ≡ pattern.now }
    {
        Cursor { rest: pattern }
    }

    /// Takes the next byte, if there is one.
    pub fn next_byte(&mut self) -> Option<u8>
        ensures { MatchOption result ((self.old ≡ []) × (self.new ≡ []))
            (λ byte. self.old ≡ byte ∷ self.new) }
    {
        match self.rest.split_first() {
            Some((byte, rest)) => {
                self.rest = rest;
                Some(*byte)
            }
            None => None,
        }
    }

    /// The byte that is so many places ahead, if there is one.
    pub fn ahead(&self, places: usize) -> Option<u8>
        ensures { result ≡ slice_get self.now places }
    {
        self.rest.get(places).copied()
    }

    /// Takes so many bytes, which must be there.
    pub fn skip(&mut self, count: usize)
        requires { count ≤ length self.old }
        ensures { self.new ≡ drop count self.old }
    {
        self.rest = &self.rest[count..];
    }

    /// Takes the next byte where it is this one.
    pub fn take_if(&mut self, byte: u8) -> bool
        ensures told { result ≡ begins_with byte self.old }
        ensures left { self.new ≡ (if result then drop 1 self.old else self.old) }
    {
        match self.rest.split_first() {
            Some((first, rest)) if *first == byte => {
                self.rest = rest;
                true
            }
            _ => false,
        }
    }
}
