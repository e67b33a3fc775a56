// The number of each token that is neither a word nor a literal: its place in `MARKS`.

/// `+`
pub const PLUS: u8 = 0;

/// `-`
pub const MINUS: u8 = 1;

/// `*`
pub const STAR: u8 = 2;

/// `%`
pub const PERCENT: u8 = 3;

/// `//`
pub const FLOOR_DIVISION: u8 = 4;

/// `&`
pub const AMPERSAND: u8 = 5;

/// `~`
pub const TILDE: u8 = 6;

/// `|`
pub const BAR: u8 = 7;

/// `<<`
pub const SHIFT_LEFT: u8 = 8;

/// `>>`
pub const SHIFT_RIGHT: u8 = 9;

/// `#`
pub const LENGTH: u8 = 10;

/// `==`
pub const EQUAL: u8 = 11;

/// `~=`
pub const NOT_EQUAL: u8 = 12;

/// `<=`
pub const LESS_EQUAL: u8 = 13;

/// `>=`
pub const GREATER_EQUAL: u8 = 14;

/// `<`
pub const LESS: u8 = 15;

/// `>`
pub const GREATER: u8 = 16;

/// `=`
pub const ASSIGN: u8 = 17;

/// `(`
pub const OPEN_ROUND: u8 = 18;

/// `)`
pub const CLOSE_ROUND: u8 = 19;

/// `{`
pub const OPEN_CURLY: u8 = 20;

/// `}`
pub const CLOSE_CURLY: u8 = 21;

/// `[`
pub const OPEN_SQUARE: u8 = 22;

/// `]`
pub const CLOSE_SQUARE: u8 = 23;

/// `::`
pub const LABEL: u8 = 24;

/// `;`
pub const SEMICOLON: u8 = 25;

/// `:`
pub const COLON: u8 = 26;

/// `,`
pub const COMMA: u8 = 27;

/// `.`
pub const DOT: u8 = 28;

/// `..`
pub const CONCAT: u8 = 29;

/// `...`
pub const DOTS: u8 = 30;
