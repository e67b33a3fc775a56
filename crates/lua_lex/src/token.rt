// What a token is, and the list of a source's tokens with their lines.
ghost use Rattle.std.specs.Prelude.{◌≡◌, ◌<◌, length, slice_get, slice_set, Some};
ghost use Rattle.std.specs.Option.{option_map};
ghost use Rattle.lua_lex.specs.declared.token.Token.TheVariants.{End};

use int_core::Bytes;
use std::marker::Model;
use std::mem;

/// A token (Lua 5.4 manual, 3.1).
#[derive(Debug, PartialEq, Eq, Drop)]
pub enum Token {
    /// An identifier.
    Name(Bytes),
    /// An integer numeral.
    Int(i64),
    /// A literal string, by the bytes that it stands for.
    Str(Bytes),
    /// A keyword, by its place in `KEYWORDS`.
    Keyword(u8),
    /// Any other token, by its place in `MARKS`.
    Mark(u8),
    /// The end of the source.
    End,
}

/// The tokens of a source in their order, each with the line of its first byte.
/// Contracts see a list of pairs (token, line).
#[derive(Debug, Drop)]
pub struct Tokens {
    items: Vec<(Token, u32)>,
}

impl Model for Tokens {
    ghost use Rattle.std.specs.Prelude.{List, ℕ};
    ghost use Rattle.lua_lex.specs.declared.token.Token.{Token};

    ghost Value = { List (Token × ℕ) };

    ghost view = { λ tokens. tokens.items.items };
}

impl Tokens {
    /// The list of these tokens.
    pub fn of(items: Vec<(Token, u32)>) -> Tokens
        ensures { result ≡ items.items }
    {
        Tokens { items }
    }

    /// How many tokens there are, the end token included.
    pub fn len(&self) -> usize
        ensures { result ≡ length self.now }
    {
        self.items.len()
    }

    /// The token at a place.
    pub fn token(&self, at: usize) -> &Token
        requires { at < length self.now }
        ensures { option_map (λ pair. pair.0) (slice_get self.now at) ≡ Some result.now }
    {
        &self.items[at].0
    }

    /// The line of the token at a place.
    pub fn line(&self, at: usize) -> u32
        requires { at < length self.now }
        ensures { option_map (λ pair. pair.1) (slice_get self.now at) ≡ Some result }
    {
        self.items[at].1
    }

    /// Takes the token at a place with its line. The end on line 0 stands there then.
    pub fn take(&mut self, at: usize) -> (Token, u32)
        requires { at < length self.old }
        ensures is { slice_get self.old at ≡ Some result }
        ensures left { self.new ≡ slice_set self.old at (End, 0) }
    {
        mem::replace(&mut self.items[at], (Token::End, 0))
    }
}
