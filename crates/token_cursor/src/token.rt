// What a token is for the grammar.
ghost use Rattle.std.specs.Prelude.{◌≡◌, ◌||◌, is_some};
ghost use Rattle.lua_lex.specs.Lexical.{is_end};
ghost use Rattle.token_cursor.specs.declared.level.Level.TheVariants.{Comparison, Shift, Sum, Product};
ghost use Rattle.token_cursor.specs.Words.{is_word, is_string, name_of, ends_block, begins_suffix, is_separator, may_join, operator_of, unary_of, start_of};

use crate::level::Level;
use crate::start::Start;
use crate::word::{
    AMPERSAND, AND, BAR, BREAK, COLON, COMMA, CONCAT, DO, DOT, ELSE, ELSEIF, END, EQUAL,
    FLOOR_DIVISION, FOR, FUNCTION, GOTO, GREATER, GREATER_EQUAL, IF, LABEL, LENGTH, LESS,
    LESS_EQUAL, LOCAL, MINUS, NOT, NOT_EQUAL, OPEN_CURLY, OPEN_ROUND, OPEN_SQUARE, OR, PERCENT,
    PLUS, REPEAT, RETURN, SEMICOLON, SHIFT_LEFT, SHIFT_RIGHT, STAR, TILDE, UNTIL, WHILE, Word,
};
use int_core::Bytes;
use lua_lex::{Token, keyword, mark};
use tree_core::{BinOp, UnOp};
use tree_making::Infix;

/// Whether the token spells the word.
pub fn is_word(token: &Token, word: Word) -> bool
    ensures { result ≡ is_word word token.now }
{
    match (word, token) {
        (Word::Keyword(number), Token::Keyword(own)) => *own == number,
        (Word::Mark(number), Token::Mark(own)) => *own == number,
        _ => false,
    }
}

/// Whether this is the end of the source.
pub fn is_end(token: &Token) -> bool
    ensures { result ≡ is_end token.now }
{
    matches!(token, Token::End)
}

/// Whether this is a literal string.
pub fn is_string(token: &Token) -> bool
    ensures { result ≡ is_string token.now }
{
    matches!(token, Token::Str(_))
}

/// Whether this is a name.
pub fn is_name(token: &Token) -> bool
    ensures { result ≡ is_some (name_of token.now) }
{
    matches!(token, Token::Name(_))
}

/// The bytes of the token, where it is a name.
pub fn into_name(token: Token) -> Option<Bytes>
    ensures { result ≡ name_of token }
{
    match token {
        Token::Name(text) => Some(text),
        _ => None,
    }
}

/// Whether a block ends before this.
pub fn ends_block(token: &Token) -> bool
    ensures { result ≡ ends_block token.now }
{
    is_end(token)
        || is_word(token, END)
        || is_word(token, ELSE)
        || is_word(token, ELSEIF)
        || is_word(token, UNTIL)
}

/// Whether the statements of a block end before this.
pub fn ends_stats(token: &Token) -> bool
    ensures { result ≡ is_word RETURN token.now || ends_block token.now }
{
    is_word(token, RETURN) || ends_block(token)
}

/// Whether an expression goes on by a suffix here.
pub fn begins_suffix(token: &Token) -> bool
    ensures { result ≡ begins_suffix token.now }
{
    is_word(token, DOT)
        || is_word(token, OPEN_SQUARE)
        || is_word(token, COLON)
        || is_word(token, OPEN_ROUND)
        || is_word(token, OPEN_CURLY)
        || is_string(token)
}

/// Whether this separates the fields of a table.
pub fn is_separator(token: &Token) -> bool
    ensures { result ≡ is_separator token.now }
{
    is_word(token, COMMA) || is_word(token, SEMICOLON)
}

/// The operator of the level that this is (Lua 5.4 manual, 3.4.8).
#[tactic(auto, using(crate::proofs::OperatorLemmas::none_joins))]
pub fn operator(token: &Token, level: Level) -> Option<Infix>
    ensures { result ≡ operator_of level token.now }
{
    if !may_join(token) {
        return None;
    }
    let (word, infix) = match level {
        Level::Comparison => return comparison(token),
        Level::Shift => return shift(token),
        Level::Sum => return sum(token),
        Level::Product => return product(token),
        Level::Or => (OR, Infix::Or),
        Level::And => (AND, Infix::And),
        Level::BitOr => (BAR, Infix::Binary(BinOp::Bor)),
        Level::BitXor => (TILDE, Infix::Binary(BinOp::Bxor)),
        Level::BitAnd => (AMPERSAND, Infix::Binary(BinOp::Band)),
        Level::Concat => (CONCAT, Infix::Binary(BinOp::Concat)),
    };
    is_word(token, word).then_some(infix)
}

/// Whether the token may be an operator of some level. Most that stand behind an operand are none.
pub fn may_join(token: &Token) -> bool
    ensures { result ≡ may_join token.now }
{
    match token {
        Token::Keyword(number) => *number == keyword::AND || *number == keyword::OR,
        Token::Mark(number) => *number <= mark::GREATER || *number == mark::CONCAT,
        _ => false,
    }
}

fn comparison(token: &Token) -> Option<Infix>
    ensures { result ≡ operator_of Comparison token.now }
{
    let operator = if is_word(token, LESS) {
        BinOp::Lt
    } else if is_word(token, GREATER) {
        BinOp::Gt
    } else if is_word(token, LESS_EQUAL) {
        BinOp::Le
    } else if is_word(token, GREATER_EQUAL) {
        BinOp::Ge
    } else if is_word(token, NOT_EQUAL) {
        BinOp::Ne
    } else if is_word(token, EQUAL) {
        BinOp::Eq
    } else {
        return None;
    };
    Some(Infix::Binary(operator))
}

fn shift(token: &Token) -> Option<Infix>
    ensures { result ≡ operator_of Shift token.now }
{
    let operator = if is_word(token, SHIFT_LEFT) {
        BinOp::Shl
    } else if is_word(token, SHIFT_RIGHT) {
        BinOp::Shr
    } else {
        return None;
    };
    Some(Infix::Binary(operator))
}

fn sum(token: &Token) -> Option<Infix>
    ensures { result ≡ operator_of Sum token.now }
{
    let operator = if is_word(token, PLUS) {
        BinOp::Add
    } else if is_word(token, MINUS) {
        BinOp::Sub
    } else {
        return None;
    };
    Some(Infix::Binary(operator))
}

fn product(token: &Token) -> Option<Infix>
    ensures { result ≡ operator_of Product token.now }
{
    let operator = if is_word(token, STAR) {
        BinOp::Mul
    } else if is_word(token, FLOOR_DIVISION) {
        BinOp::Idiv
    } else if is_word(token, PERCENT) {
        BinOp::Mod
    } else {
        return None;
    };
    Some(Infix::Binary(operator))
}

/// The operator before an operand that this is.
pub fn unary_operator(token: &Token) -> Option<UnOp>
    ensures { result ≡ unary_of token.now }
{
    if is_word(token, NOT) {
        Some(UnOp::Not)
    } else if is_word(token, LENGTH) {
        Some(UnOp::Len)
    } else if is_word(token, MINUS) {
        Some(UnOp::Neg)
    } else if is_word(token, TILDE) {
        Some(UnOp::BitNot)
    } else {
        None
    }
}

/// What a statement is that begins with this.
pub fn start(token: &Token) -> Start
    ensures { result ≡ start_of token.now }
{
    if is_word(token, SEMICOLON) {
        Start::Empty
    } else if is_word(token, LABEL) {
        Start::Label
    } else if is_word(token, BREAK) {
        Start::Break
    } else if is_word(token, GOTO) {
        Start::Goto
    } else if is_word(token, DO) {
        Start::Do
    } else if is_word(token, WHILE) {
        Start::While
    } else if is_word(token, REPEAT) {
        Start::Repeat
    } else if is_word(token, IF) {
        Start::If
    } else if is_word(token, FOR) {
        Start::For
    } else if is_word(token, FUNCTION) {
        Start::Function
    } else if is_word(token, LOCAL) {
        Start::Local
    } else {
        Start::Prefix
    }
}
