// What a match gives: where it ends and what it captured, or why the pattern is refused.
ghost use Rattle.std.specs.Prelude.{◌≡◌};
ghost use Rattle.lua_pattern.specs.declared.answer.PatternFault.TheVariants.{Memory};

use std::alloc::{AllocError, AllocFailed};

/// A match of a pattern at a given place of a subject.
#[derive(Debug, Drop)]
pub struct Match {
    /// The place behind the match.
    pub end: usize,
    /// The captures, in the order of their opening brackets.
    pub captures: Vec<Capture>,
}

/// A capture of a match (Lua 5.4 manual, 6.4.1, "Captures"), by places of the subject, from 0.
#[derive(Clone, Copy, Debug, PartialEq, Eq)]
pub enum Capture {
    /// The bytes from `start` on, up to `end`.
    Text { start: usize, end: usize },
    /// The place that `()` stands at.
    Position(usize),
}

/// Why there is no answer.
#[derive(Clone, Copy, Debug, PartialEq, Eq)]
pub enum PatternFault {
    /// The pattern breaks the rule of this number, one of those in `rule`.
    Malformed(u8),
    /// The pattern breaks no rule, and has more than 200 captures and quantifiers.
    TooComplex,
    /// Memory ran out.
    Memory,
}

impl<T: Drop> From<AllocFailed<T>> for PatternFault {
    ghost from_gives = { λ _ fault. fault ≡ Memory };

    fn from(_: AllocFailed<T>) -> PatternFault {
        PatternFault::Memory
    }
}

impl From<AllocError> for PatternFault {
    ghost from_gives = { λ _ fault. fault ≡ Memory };

    fn from(_: AllocError) -> PatternFault {
        PatternFault::Memory
    }
}
