// What the static rules answer.
use tree_core::Body;

/// A source that keeps the static rules, as the body of its main function.
#[derive(Drop)]
pub struct Resolved {
    /// The same tree with the place of every variable's name and the upvalues of every body.
    pub main: Body,
}

/// Why a source has no places.
#[derive(Debug, PartialEq, Eq, Drop)]
pub enum ScopeFault {
    /// It breaks a static rule: the least of its violations by line, then by the rule's number.
    Refused {
        /// The number of the rule, from 1 to 12.
        rule: u8,
        /// The line of the violation.
        line: u32,
    },
    /// The memory was not there.
    Memory,
}
