// The number of each keyword: its place in `KEYWORDS`.

/// `and`
pub const AND: u8 = 0;

/// `break`
pub const BREAK: u8 = 1;

/// `do`
pub const DO: u8 = 2;

/// `else`
pub const ELSE: u8 = 3;

/// `elseif`
pub const ELSEIF: u8 = 4;

/// `end`
pub const END: u8 = 5;

/// `false`
pub const FALSE: u8 = 6;

/// `for`
pub const FOR: u8 = 7;

/// `function`
pub const FUNCTION: u8 = 8;

/// `goto`
pub const GOTO: u8 = 9;

/// `if`
pub const IF: u8 = 10;

/// `in`
pub const IN: u8 = 11;

/// `local`
pub const LOCAL: u8 = 12;

/// `nil`
pub const NIL: u8 = 13;

/// `not`
pub const NOT: u8 = 14;

/// `or`
pub const OR: u8 = 15;

/// `repeat`
pub const REPEAT: u8 = 16;

/// `return`
pub const RETURN: u8 = 17;

/// `then`
pub const THEN: u8 = 18;

/// `true`
pub const TRUE: u8 = 19;

/// `until`
pub const UNTIL: u8 = 20;

/// `while`
pub const WHILE: u8 = 21;
