// How tightly the operators between two operands bind.
ghost use Rattle.std.specs.Prelude.{◌≡◌, nat_lt};
ghost use Rattle.token_cursor.specs.Words.{rank, looser};

/// The operators that bind equally, from those that bind least on (Lua 5.4 manual, 3.4.8).
#[derive(Debug, Clone, Copy)]
pub enum Level {
    /// `or`
    Or,
    /// `and`
    And,
    /// `<`, `>`, `<=`, `>=`, `~=` and `==`
    Comparison,
    /// `|`
    BitOr,
    /// `~`
    BitXor,
    /// `&`
    BitAnd,
    /// `<<` and `>>`
    Shift,
    /// `..`
    Concat,
    /// `+` and `-`
    Sum,
    /// `*`, `//` and `%`
    Product,
}

impl Level {
    /// The place among the levels, from 0 for those that bind least.
    fn rank(self) -> u8
        ensures { result ≡ rank self }
    {
        match self {
            Level::Or => 0,
            Level::And => 1,
            Level::Comparison => 2,
            Level::BitOr => 3,
            Level::BitXor => 4,
            Level::BitAnd => 5,
            Level::Shift => 6,
            Level::Concat => 7,
            Level::Sum => 8,
            Level::Product => 9,
        }
    }

    /// Whether this level binds more than the other one.
    pub fn binds_more(self, other: Level) -> bool
        ensures { result ≡ nat_lt (rank other) (rank self) }
    {
        other.rank() < self.rank()
    }

    /// The next level of those that bind less, or the first one.
    pub fn looser(self) -> Level
        ensures { result ≡ looser self }
    {
        match self {
            Level::Or | Level::And => Level::Or,
            Level::Comparison => Level::And,
            Level::BitOr => Level::Comparison,
            Level::BitXor => Level::BitOr,
            Level::BitAnd => Level::BitXor,
            Level::Shift => Level::BitAnd,
            Level::Concat => Level::Shift,
            Level::Sum => Level::Concat,
            Level::Product => Level::Sum,
        }
    }
}
