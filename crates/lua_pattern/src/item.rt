// The items of a pattern (Lua 5.4 manual, 6.4.1, "Pattern Item").
use crate::class::{ByteSet, Class};

/// How often the class before a quantifier matches, and whether many or few bytes are tried first.
#[derive(Clone, Copy)]
pub enum Repeat {
    /// `?`: once or not at all, once first.
    Optional,
    /// `*`: any number of times, the longest run first.
    ZeroOrMore,
    /// `+`: at least once, the longest run first.
    OneOrMore,
    /// `-`: any number of times, the shortest run first.
    Lazy,
}

/// An item that matches in one way at most and captures nothing.
#[derive(Drop)]
pub enum Plain {
    /// One byte of a class.
    Single(Class),
    /// `%b` and two bytes: a text from the first to the second with as many of each.
    Balanced(u8, u8),
    /// `%f` and a set: the place before a byte in the set and behind one that is not.
    Frontier(ByteSet),
    /// `%1` to `%9`: the text of the capture of this number, counted from 0.
    Reference(usize),
    /// `$` at the pattern's end: the end of the subject.
    AtEnd,
}

/// An item of a pattern.
#[derive(Drop)]
pub enum Item {
    Plain(Plain),
    Repeated(Class, Repeat),
    /// `(`: the next capture begins.
    Open,
    /// `)`: the capture of this number, counted from 0, ends.
    Close(usize),
    /// `()`: the place is captured.
    Place,
}

impl Item {
    ghost use Rattle.std.specs.Prelude.{◌≡◌};
    ghost use Rattle.lua_pattern.specs.Answer.{is_counted};
    ghost use Rattle.lua_pattern.specs.Begins.{is_capture};

    /// Whether it is one of the captures and quantifiers of which a pattern has at most 200.
    pub(crate) fn is_counted(&self) -> bool
        ensures { result ≡ is_counted self.now }
    {
        matches!(self, Item::Repeated(..) | Item::Open | Item::Place)
    }

    /// Whether a capture begins or ends, which takes no byte.
    pub(crate) fn is_capture(&self) -> bool
        ensures { result ≡ is_capture self.now }
    {
        matches!(self, Item::Open | Item::Close(_) | Item::Place)
    }
}
