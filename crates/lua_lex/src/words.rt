// The keywords and the other fixed tokens, numbered by their places in two lists.
ghost use Rattle.std.specs.Prelude.{◌≡◌, ◌<◌, [], ◌∷◌, length, nat_eq};
ghost use Rattle.std.specs.List.{position_from};
ghost use Rattle.std.specs.Cmp.Lexicographic.{pointwise};
ghost use Rattle.lua_lex.specs.Inner.{begins_keyword, may_be_keyword};
ghost use Rattle.lua_lex.specs.Words.{keywords, marks, place_of};

use crate::mark;

/// The keywords (Lua 5.4 manual, 3.1).
pub const KEYWORDS: [&[u8]; 22] = [
    b"and",
    b"break",
    b"do",
    b"else",
    b"elseif",
    b"end",
    b"false",
    b"for",
    b"function",
    b"goto",
    b"if",
    b"in",
    b"local",
    b"nil",
    b"not",
    b"or",
    b"repeat",
    b"return",
    b"then",
    b"true",
    b"until",
    b"while",
];

/// The other fixed tokens.
pub const MARKS: [&[u8]; 31] = [
    b"+", b"-", b"*", b"%", b"//", b"&", b"~", b"|", b"<<", b">>", b"#", b"==", b"~=", b"<=",
    b">=", b"<", b">", b"=", b"(", b")", b"{", b"}", b"[", b"]", b"::", b";", b":", b",", b".",
    b"..", b"...",
];

/// How many bytes the longest mark has.
pub const LONGEST_MARK: usize = 3;

/// The place of a word among the keywords.
#[tactic(auto, unfolding(crate::specs::Words::keywords), using(crate::proofs::WordLemmas::no_keyword))]
pub fn keyword_number(word: &[u8]) -> Option<u8>
    ensures { result ≡ place_of keywords word.now }
{
    if !may_be_keyword(word) {
        return None;
    }
    place_of(&KEYWORDS, word)
}

/// Whether a keyword begins by the first two bytes of a word. Few names do, so most are not looked for in the list.
fn may_be_keyword(word: &[u8]) -> bool
    ensures { result ≡ may_be_keyword word.now }
{
    word.len() > 1 && begins_keyword(word[0], word[1])
}

fn begins_keyword(first: u8, second: u8) -> bool
    ensures { result ≡ begins_keyword first second }
{
    match first {
        b'a' | b'u' => second == b'n',
        b'b' | b'o' => second == b'r',
        b'd' | b'g' | b'l' => second == b'o',
        b'e' => matches!(second, b'l' | b'n'),
        b'f' => matches!(second, b'a' | b'o' | b'u'),
        b'i' => matches!(second, b'f' | b'n'),
        b'n' => matches!(second, b'i' | b'o'),
        b'r' => second == b'e',
        b't' => matches!(second, b'h' | b'r'),
        b'w' => second == b'h',
        _ => false,
    }
}

/// The place of a spelling among the marks.
pub fn mark_number(spelling: &[u8]) -> Option<u8>
    ensures { result ≡ place_of marks spelling.now }
{
    match spelling {
        [byte] => byte_number(*byte),
        _ => listed_number(spelling),
    }
}

/// The place of one byte among the marks: most marks have one, so these are not looked for in the list.
#[tactic(auto, unfolding(crate::specs::Words::marks))]
fn byte_number(byte: u8) -> Option<u8>
    ensures { result ≡ place_of marks (byte ∷ []) }
{
    let number = match byte {
        b'+' => mark::PLUS,
        b'-' => mark::MINUS,
        b'*' => mark::STAR,
        b'%' => mark::PERCENT,
        b'&' => mark::AMPERSAND,
        b'~' => mark::TILDE,
        b'|' => mark::BAR,
        b'#' => mark::LENGTH,
        b'<' => mark::LESS,
        b'>' => mark::GREATER,
        b'=' => mark::ASSIGN,
        b'(' => mark::OPEN_ROUND,
        b')' => mark::CLOSE_ROUND,
        b'{' => mark::OPEN_CURLY,
        b'}' => mark::CLOSE_CURLY,
        b'[' => mark::OPEN_SQUARE,
        b']' => mark::CLOSE_SQUARE,
        b';' => mark::SEMICOLON,
        b':' => mark::COLON,
        b',' => mark::COMMA,
        b'.' => mark::DOT,
        _ => return None,
    };
    Some(number)
}

/// The place of a spelling among the marks, looked for in their list.
#[tactic(auto, unfolding(crate::specs::Words::marks))]
fn listed_number(spelling: &[u8]) -> Option<u8>
    ensures { result ≡ place_of marks spelling.now }
{
    place_of(&MARKS, spelling)
}

fn place_of(words: &[&[u8]], word: &[u8]) -> Option<u8>
    requires { length words.now < 256 }
    ensures { result ≡ position_from (λ other. pointwise nat_eq other.now word.now) 0 words.now }
{
    let place = words.iter().position(|other| *other == word)?;
    Some(place as u8)
}
