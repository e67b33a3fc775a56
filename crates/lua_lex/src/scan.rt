// The token at the front of a text.
ghost use Rattle.std.specs.Prelude.{◌≡◌, ◌≤◌, ◌<◌, ℕ, List, length, drop, take, true, IfOk, IfSome, IfNone};
ghost use Rattle.lua_lex.specs.declared.kind.Kind.TheVariants as kind;
ghost use Rattle.lua_lex.specs.declared.token.Token.{Token};
ghost use Rattle.lua_lex.specs.Brackets.{opens_long};
ghost use Rattle.lua_lex.specs.Inner.{NoneFrom};
ghost use Rattle.lua_lex.specs.Lexical.{kind_of, IsToken, IsTokenOf, IsMark};

use crate::bracket::long_bracket;
use crate::class::{Class, is_byte_at, is_class_at, run_len};
use crate::kind::{Kind, kind_of};
use crate::line::{behind_line_end, read_lines};
use crate::quoted::quoted;
use crate::token::Token;
use crate::words::{LONGEST_MARK, keyword_number, mark_number};
use int_core::{Bytes, read_integer};
use std::alloc::{AllocError, Global};

/// The token at the front of the text with how many bytes it has, if one stands there.
pub fn token_at(alloc: Global, text: &[u8]) -> Result<Option<(Token, usize)>, AllocError>
    ensures found { IfOk result (λ answer. IfSome answer (λ found. IsToken text.now found.0 (drop found.1 text.now))) }
    ensures bound { IfOk result (λ answer. IfSome answer (λ found. (0 < found.1) × (found.1 ≤ length text.now))) }
    ensures none { IfOk result (λ answer. IfNone answer ((token : Token) (rest : List ℕ) → IsToken text.now token rest → ⊥)) }
{
    match kind_of(text) {
        Kind::Word => Ok(Some(word(alloc, text)?)),
        Kind::Numeral => Ok(numeral(text)),
        Kind::ShortString => short_string(alloc, text),
        Kind::LongString => long_string(alloc, text),
        Kind::Symbol => Ok(mark(text)),
        _ => Ok(None),
    }
}

// The keyword or the name at the front.
#[tactic(auto, unfolding(crate::specs::Lexical::kind_of))]
fn word(alloc: Global, text: &[u8]) -> Result<(Token, usize), AllocError>
    requires { kind_of text.now ≡ kind.Word }
    ensures found { IfOk result (λ found. IsTokenOf kind.Word text.now found.0 (drop found.1 text.now)) }
    ensures bound { IfOk result (λ found. (0 < found.1) × (found.1 ≤ length text.now)) }
{
    let len = run_len(text, Class::Name);
    let spelling = &text[..len];
    let token = match keyword_number(spelling) {
        Some(number) => Token::Keyword(number),
        None => Token::Name(Bytes::of(spelling.to_vec(alloc)?)),
    };
    Ok((token, len))
}

// The numeral at the front, if it is accepted.
#[tactic(auto, unfolding(crate::specs::Lexical::kind_of))]
fn numeral(text: &[u8]) -> Option<(Token, usize)>
    requires { kind_of text.now ≡ kind.Numeral }
    ensures found { IfSome result (λ found. IsTokenOf kind.Numeral text.now found.0 (drop found.1 text.now)) }
    ensures bound { IfSome result (λ found. (0 < found.1) × (found.1 ≤ length text.now)) }
    ensures none { IfNone result ((token : Token) (rest : List ℕ) → IsTokenOf kind.Numeral text.now token rest → ⊥) }
{
    let len = run_len(text, Class::Numeral);
    let value = read_integer(&text[..len])?;
    Some((Token::Int(value), len))
}

// The string between quotes at the front, if there is one.
fn short_string(alloc: Global, text: &[u8]) -> Result<Option<(Token, usize)>, AllocError>
    requires { 0 < length text.now }
    ensures found { IfOk result (λ answer. IfSome answer (λ found. IsTokenOf kind.ShortString text.now found.0 (drop found.1 text.now))) }
    ensures bound { IfOk result (λ answer. IfSome answer (λ found. (0 < found.1) × (found.1 ≤ length text.now))) }
    ensures none { IfOk result (λ answer. IfNone answer ((token : Token) (rest : List ℕ) → IsTokenOf kind.ShortString text.now token rest → ⊥)) }
{
    let Some((content, len)) = quoted(alloc, text)? else {
        return Ok(None);
    };
    Ok(Some((Token::Str(Bytes::of(content)), len)))
}

// The string between long brackets at the front, if it is closed.
fn long_string(alloc: Global, text: &[u8]) -> Result<Option<(Token, usize)>, AllocError>
    requires { opens_long text.now ≡ true }
    ensures found { IfOk result (λ answer. IfSome answer (λ found. IsTokenOf kind.LongString text.now found.0 (drop found.1 text.now))) }
    ensures bound { IfOk result (λ answer. IfSome answer (λ found. (0 < found.1) × (found.1 ≤ length text.now))) }
    ensures none { IfOk result (λ answer. IfNone answer ((token : Token) (rest : List ℕ) → IsTokenOf kind.LongString text.now token rest → ⊥)) }
{
    let Some((content, len)) = long_bracket(text) else {
        return Ok(None);
    };
    let bytes = read_lines(alloc, behind_line_end(content))?;
    Ok(Some((Token::Str(Bytes::of(bytes)), len)))
}

// How many bytes the mark at the front has at most, by its second and third byte: few marks have so many.
#[tactic(auto, using(crate::proofs::WordLemmas::none_longer_than_one, crate::proofs::WordLemmas::none_longer_than_two))]
fn most_bytes(text: &[u8]) -> usize
    ensures bound { result ≤ length text.now }
    ensures enough { NoneFrom text.now result }
{
    let most = if !is_class_at(text, 1, Class::InMark) {
        1
    } else if is_byte_at(text, 2, b'.') {
        LONGEST_MARK
    } else {
        2
    };
    text.len().min(most)
}

// The longest mark at the front, if there is one.
fn mark(text: &[u8]) -> Option<(Token, usize)>
    ensures found { IfSome result (λ found. IsTokenOf kind.Symbol text.now found.0 (drop found.1 text.now)) }
    ensures bound { IfSome result (λ found. (0 < found.1) × (found.1 ≤ length text.now)) }
    ensures none { IfNone result ((token : Token) (rest : List ℕ) → IsTokenOf kind.Symbol text.now token rest → ⊥) }
{
    let mut len = most_bytes(text);
    while len > 0 {
        if let Some(number) = mark_number(&text[..len]) {
            return Some((Token::Mark(number), len));
        }
        len -= 1;
    }
    None
}
