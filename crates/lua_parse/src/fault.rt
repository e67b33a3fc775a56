// What reading a part answers.
ghost use Rattle.std.specs.Prelude.{◌≡◌};
ghost use Rattle.lua_parse.specs.declared.fault.Fault.TheVariants.{Memory};

use std::alloc::{AllocError, AllocFailed};
use tree_core::{Exp, Name};
use tree_making::Found;

/// The name of a function that is assigned to.
#[derive(Drop)]
pub struct Target {
    /// What is assigned to.
    pub exp: Box<Exp>,
    /// The parameter `self`, where the function is written as a method.
    pub own: Vec<Name>,
}

/// What reading a part answers.
pub type Parsed<T> = Result<Found<T>, Fault>;

/// An expression that was read.
pub type FoundExp = Found<Box<Exp>>;

/// Why a part wasn't read.
#[derive(Clone, Copy)]
pub enum Fault {
    /// The next token can't stand there.
    Refused,
    /// Memory is short.
    Memory,
}

impl From<AllocError> for Fault {
    ghost from_gives = { λ _ e. e ≡ Memory };

    fn from(_: AllocError) -> Fault {
        Fault::Memory
    }
}

impl<T: Drop> From<AllocFailed<T>> for Fault {
    ghost from_gives = { λ _ e. e ≡ Memory };

    fn from(_: AllocFailed<T>) -> Fault {
        Fault::Memory
    }
}

/// Why tokens have no tree.
#[derive(Debug, Clone, Copy, PartialEq, Eq)]
pub enum ParseFault {
    /// A token can't stand where it does.
    Refused {
        /// The token's line.
        line: u32,
    },
    /// Memory is short.
    Memory,
}
