// Why code may not run.

/// Why code was not kept as checked.
#[derive(Clone, Copy, Debug, PartialEq, Eq)]
pub enum CheckFault {
    /// The least function, numbered from main 0 as functions begin, then its least place and there the least rule that is broken.
    Refused { function: u32, pc: u32, rule: u8 },
    /// Memory was wanting.
    Memory,
}
