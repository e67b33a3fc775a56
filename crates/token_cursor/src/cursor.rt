// A place in the list of tokens.
ghost use Rattle.std.specs.Prelude.{◌≡◌, ◌<◌, ◌^◌, ◌∷◌, length, drop, false, is_some, if◌then◌else◌};
ghost use Rattle.lua_lex.specs.Lexical.{EndsOnce, is_end};
ghost use Rattle.token_cursor.specs.Words.{first, is_word, name_of};

use crate::token;
use crate::word::Word;
use int_core::Bytes;
use lua_lex::{Token, Tokens};
use std::marker::Model;

/// The tokens from a place on, the last of which is the end.
#[derive(Drop)]
pub struct Cursor {
    tokens: Tokens,
    at: usize,
}

impl Model for Cursor {
    ghost use Rattle.std.specs.Prelude.{◌<◌, ◌^◌, ℕ, List, length, drop};
    ghost use Rattle.lua_lex.specs.declared.token.Token.{Token};
    ghost use Rattle.lua_lex.specs.Lexical.{EndsOnce};

    ghost Value = { List (Token × ℕ) };

    ghost view = { λ c. drop c.at c.tokens };

    ghost invariant = { λ c. EndsOnce (drop c.at c.tokens) × (length c.tokens < 2 ^ 32) };
}

impl Cursor {
    /// All the tokens.
    pub fn new(tokens: Tokens) -> Cursor
        requires ends { EndsOnce tokens }
        requires short { length tokens < 2 ^ 32 }
        ensures { result ≡ tokens }
    {
        Cursor { tokens, at: 0 }
    }

    /// The token that comes next.
    pub fn peek(&self) -> &Token
        ensures is { result.now ≡ (first self.now).0 }
        ensures more { self.now ≡ first self.now ∷ drop 1 self.now }
    {
        self.tokens.token(self.at)
    }

    /// The line of the token that comes next.
    pub fn line(&self) -> u32
        ensures is { result ≡ (first self.now).1 }
        ensures more { self.now ≡ first self.now ∷ drop 1 self.now }
    {
        self.tokens.line(self.at)
    }

    /// Whether the word comes next.
    pub fn is(&self, word: Word) -> bool
        ensures is { result ≡ is_word word (first self.now).0 }
        ensures more { self.now ≡ first self.now ∷ drop 1 self.now }
    {
        token::is_word(self.peek(), word)
    }

    /// Passes a token other than the end.
    pub fn skip(&mut self)
        requires { is_end (first self.old).0 ≡ false }
        ensures { self.new ≡ drop 1 self.old }
    {
        self.at += 1;
    }

    /// Passes the word where it comes next, and says whether it did.
    pub fn take(&mut self, word: Word) -> bool
        ensures is { result ≡ is_word word (first self.old).0 }
        ensures more { self.old ≡ first self.old ∷ drop 1 self.old }
        ensures passed { self.new ≡ (if result then drop 1 self.old else self.old) }
    {
        let comes = self.is(word);
        if comes {
            self.skip();
        }
        comes
    }

    /// Passes the name that comes next and answers its bytes, where one comes.
    pub fn take_name(&mut self) -> Option<Bytes>
        ensures is { result ≡ name_of (first self.old).0 }
        ensures more { self.old ≡ first self.old ∷ drop 1 self.old }
        ensures passed { self.new ≡ (if is_some (name_of (first self.old).0) then drop 1 self.old else self.old) }
    {
        if !token::is_name(self.peek()) {
            return None;
        }
        let (token, _) = self.tokens.take(self.at);
        self.at += 1;
        token::into_name(token)
    }

    /// How many tokens are left.
    pub fn left(&self) -> u32
        ensures { result ≡ length self.now }
    {
        (self.tokens.len() - self.at) as u32
    }
}
