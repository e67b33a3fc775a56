// What stands at the front of a text, by its first bytes.
ghost use Rattle.std.specs.Prelude.{◌≡◌, ◌≤◌, length};
ghost use Rattle.std.specs.Char.{is_ascii_digit};
ghost use Rattle.lua_lex.specs.Inner.{Begins};
ghost use Rattle.lua_lex.specs.Lexical.{kind_of, begins_numeral, begins_comment, comment_kind};

use crate::bracket::opens_long;
use crate::class::{Class, is_byte_at, is_class_at, is_name_start, is_space};
use crate::line::behind;

/// What stands at the front of a text.
#[derive(Clone, Copy, Debug, PartialEq, Eq)]
pub enum Kind {
    /// The end of the text.
    End,
    /// A byte of white space.
    Space,
    /// A comment up to the end of its line.
    Comment,
    /// A comment between long brackets.
    LongComment,
    /// A keyword or a name.
    Word,
    /// A numeral.
    Numeral,
    /// A literal string between quotes.
    ShortString,
    /// A literal string between long brackets.
    LongString,
    /// Any other token, or a byte that is refused.
    Symbol,
}

/// What stands at the front of the text.
#[tactic(auto, unfolding(crate::specs::Lexical::kind_of))]
pub fn kind_of(text: &[u8]) -> Kind
    ensures value { result ≡ kind_of text.now }
    ensures begins { Begins result text.now }
{
    if text.is_empty() {
        return Kind::End;
    }
    let first = text[0];
    if is_space(first) {
        Kind::Space
    } else if is_name_start(first) {
        Kind::Word
    } else if begins_numeral(text) {
        Kind::Numeral
    } else if first == b'"' || first == b'\'' {
        Kind::ShortString
    } else if begins_comment(text) {
        comment_kind(text)
    } else if opens_long(text) {
        Kind::LongString
    } else {
        Kind::Symbol
    }
}

// What the comment is that the text begins with.
fn comment_kind(text: &[u8]) -> Kind
    requires { 2 ≤ length text.now }
    ensures value { result ≡ comment_kind text.now }
    ensures begins { Begins result text.now }
{
    if opens_long(behind(text, 2)) {
        Kind::LongComment
    } else {
        Kind::Comment
    }
}

// Whether the text begins with a digit, or with `.` and a digit.
fn begins_numeral(text: &[u8]) -> bool
    ensures { result ≡ begins_numeral text.now }
{
    is_class_at(text, 0, Class::Digit)
        || (is_byte_at(text, 0, b'.') && is_class_at(text, 1, Class::Digit))
}

fn begins_comment(text: &[u8]) -> bool
    ensures { result ≡ begins_comment text.now }
{
    is_byte_at(text, 0, b'-') && is_byte_at(text, 1, b'-')
}
