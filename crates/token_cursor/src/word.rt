// The keywords and the other marks, as words that a token may spell.
use lua_lex::{keyword, mark};

/// A keyword, or any other token that spells only itself, by its number in `lua_lex`
/// (Lua 5.4 manual, 3.1).
#[derive(Debug, Clone, Copy)]
pub enum Word {
    /// The number of a keyword.
    Keyword(u8),
    /// The number of any other mark.
    Mark(u8),
}

/// `and`
pub const AND: Word = Word::Keyword(keyword::AND);

/// `break`
pub const BREAK: Word = Word::Keyword(keyword::BREAK);

/// `do`
pub const DO: Word = Word::Keyword(keyword::DO);

/// `else`
pub const ELSE: Word = Word::Keyword(keyword::ELSE);

/// `elseif`
pub const ELSEIF: Word = Word::Keyword(keyword::ELSEIF);

/// `end`
pub const END: Word = Word::Keyword(keyword::END);

/// `false`
pub const FALSE: Word = Word::Keyword(keyword::FALSE);

/// `for`
pub const FOR: Word = Word::Keyword(keyword::FOR);

/// `function`
pub const FUNCTION: Word = Word::Keyword(keyword::FUNCTION);

/// `goto`
pub const GOTO: Word = Word::Keyword(keyword::GOTO);

/// `if`
pub const IF: Word = Word::Keyword(keyword::IF);

/// `in`
pub const IN: Word = Word::Keyword(keyword::IN);

/// `local`
pub const LOCAL: Word = Word::Keyword(keyword::LOCAL);

/// `nil`
pub const NIL: Word = Word::Keyword(keyword::NIL);

/// `not`
pub const NOT: Word = Word::Keyword(keyword::NOT);

/// `or`
pub const OR: Word = Word::Keyword(keyword::OR);

/// `repeat`
pub const REPEAT: Word = Word::Keyword(keyword::REPEAT);

/// `return`
pub const RETURN: Word = Word::Keyword(keyword::RETURN);

/// `then`
pub const THEN: Word = Word::Keyword(keyword::THEN);

/// `true`
pub const TRUE: Word = Word::Keyword(keyword::TRUE);

/// `until`
pub const UNTIL: Word = Word::Keyword(keyword::UNTIL);

/// `while`
pub const WHILE: Word = Word::Keyword(keyword::WHILE);

/// `+`
pub const PLUS: Word = Word::Mark(mark::PLUS);
/// `-`
pub const MINUS: Word = Word::Mark(mark::MINUS);
/// `*`
pub const STAR: Word = Word::Mark(mark::STAR);
/// `%`
pub const PERCENT: Word = Word::Mark(mark::PERCENT);
/// `//`
pub const FLOOR_DIVISION: Word = Word::Mark(mark::FLOOR_DIVISION);
/// `&`
pub const AMPERSAND: Word = Word::Mark(mark::AMPERSAND);
/// `~`
pub const TILDE: Word = Word::Mark(mark::TILDE);
/// `|`
pub const BAR: Word = Word::Mark(mark::BAR);
/// `<<`
pub const SHIFT_LEFT: Word = Word::Mark(mark::SHIFT_LEFT);
/// `>>`
pub const SHIFT_RIGHT: Word = Word::Mark(mark::SHIFT_RIGHT);
/// `#`
pub const LENGTH: Word = Word::Mark(mark::LENGTH);
/// `==`
pub const EQUAL: Word = Word::Mark(mark::EQUAL);
/// `~=`
pub const NOT_EQUAL: Word = Word::Mark(mark::NOT_EQUAL);
/// `<=`
pub const LESS_EQUAL: Word = Word::Mark(mark::LESS_EQUAL);
/// `>=`
pub const GREATER_EQUAL: Word = Word::Mark(mark::GREATER_EQUAL);
/// `<`
pub const LESS: Word = Word::Mark(mark::LESS);
/// `>`
pub const GREATER: Word = Word::Mark(mark::GREATER);
/// `=`
pub const ASSIGN: Word = Word::Mark(mark::ASSIGN);
/// `(`
pub const OPEN_ROUND: Word = Word::Mark(mark::OPEN_ROUND);
/// `)`
pub const CLOSE_ROUND: Word = Word::Mark(mark::CLOSE_ROUND);
/// `{`
pub const OPEN_CURLY: Word = Word::Mark(mark::OPEN_CURLY);
/// `}`
pub const CLOSE_CURLY: Word = Word::Mark(mark::CLOSE_CURLY);
/// `[`
pub const OPEN_SQUARE: Word = Word::Mark(mark::OPEN_SQUARE);
/// `]`
pub const CLOSE_SQUARE: Word = Word::Mark(mark::CLOSE_SQUARE);
/// `::`
pub const LABEL: Word = Word::Mark(mark::LABEL);
/// `;`
pub const SEMICOLON: Word = Word::Mark(mark::SEMICOLON);
/// `:`
pub const COLON: Word = Word::Mark(mark::COLON);
/// `,`
pub const COMMA: Word = Word::Mark(mark::COMMA);
/// `.`
pub const DOT: Word = Word::Mark(mark::DOT);
/// `..`
pub const CONCAT: Word = Word::Mark(mark::CONCAT);
/// `...`
pub const DOTS: Word = Word::Mark(mark::DOTS);
