// Long brackets, in which literal strings and comments stand.
ghost use Rattle.std.specs.Prelude.{◌≡◌, ◌+◌, ◌≤◌, ◌<◌, ℕ, List, length, drop, true, IfSome, IfNone};
ghost use Rattle.lua_lex.specs.Brackets.{level_of, opens_long, LongBracket};
ghost use Rattle.lua_lex.specs.Inner.{IsContent, closes};

use crate::class::{Class, is_byte_at, run_len};
use crate::line::behind;
use memchr::memchr;

/// Whether the text begins with an opening long bracket.
pub fn opens_long(text: &[u8]) -> bool
    ensures { result ≡ opens_long text.now }
{
    is_byte_at(text, 0, b'[') && is_byte_at(text, 1 + level_of(text), b'[')
}

/// What stands in the long bracket that the text begins with, and how many bytes the whole has,
/// if it is closed.
pub fn long_bracket(text: &[u8]) -> Option<(&[u8], usize)>
    requires { opens_long text.now ≡ true }
    ensures found { IfSome result (λ found. LongBracket text.now found.0.now (drop found.1 text.now)) }
    ensures bound { IfSome result (λ found. (0 < found.1) × (found.1 ≤ length text.now)) }
    ensures none { IfNone result ((content rest : List ℕ) → LongBracket text.now content rest → ⊥) }
{
    let level = level_of(text);
    let inside = behind(text, 2 + level);
    let len = content_len(inside, level)?;
    Some((&inside[..len], 2 + level + len + (2 + level)))
}

// How many `=` stand behind the first byte.
fn level_of(text: &[u8]) -> usize
    requires { 0 < length text.now }
    ensures value { result ≡ level_of text.now }
    ensures bound { result < length text.now }
{
    run_len(behind(text, 1), Class::Equals)
}

// How many bytes stand in front of the first closing bracket of the level.
fn content_len(text: &[u8], level: usize) -> Option<usize>
    ensures found { IfSome result (IsContent text.now level) }
    ensures bound { IfSome result (λ len. len + (2 + level) ≤ length text.now) }
    ensures none { IfNone result ((at : ℕ) → closes level (drop at text.now) ≡ true → ⊥) }
{
    let mut at = 0;
    while let Some(next) = memchr(b']', behind(text, at)) {
        at += next;
        if closes(behind(text, at), level) {
            return Some(at);
        }
        at += 1;
    }
    None
}

// Whether the text begins with the closing bracket of the level.
fn closes(text: &[u8], level: usize) -> bool
    requires { 0 < length text.now }
    ensures { result ≡ closes level text.now }
{
    is_byte_at(text, 0, b']') && level_of(text) == level && is_byte_at(text, 1 + level, b']')
}
