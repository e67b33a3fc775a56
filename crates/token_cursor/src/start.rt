// What a statement begins with.

/// The kinds of statement, told by the first token (Lua 5.4 manual, 3.3).
#[derive(Debug, Clone, Copy)]
pub enum Start {
    /// `;`
    Empty,
    /// `::`
    Label,
    /// `break`
    Break,
    /// `goto`
    Goto,
    /// `do`
    Do,
    /// `while`
    While,
    /// `repeat`
    Repeat,
    /// `if`
    If,
    /// `for`
    For,
    /// `function`
    Function,
    /// `local`
    Local,
    /// Any other token: a call or an assignment.
    Prefix,
}
