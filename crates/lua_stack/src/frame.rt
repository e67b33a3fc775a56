// The frames of a stack, and the cells that are open in it.
use table_core::{CellId, FuncId, Value};

/// How many frames a stack may have.
pub const GREATEST_DEPTH: usize = 100000;

/// For what a Lua frame waits.
#[derive(Clone, Copy, Debug)]
pub enum Wait {
    /// It runs.
    Running,
    ForCall,
    ForIterator,
    ForValue,
    ForTruth,
    /// What comes is dropped.
    Dropped,
    /// So many operands are left.
    ForConcat(usize),
    ForClose,
    /// It returns so many results.
    Returning(usize),
    /// It is left by an error.
    Leaving(Value),
}

/// A cell that is open: its variable still stands in a register of a frame.
#[derive(Clone, Copy, Debug)]
pub struct OpenCell {
    pub cell: CellId,
    pub frame: usize,
    pub register: usize,
}

/// What a call needs to know of a function's code.
#[derive(Clone, Copy)]
pub struct Shape {
    pub params: usize,
    pub vararg: bool,
    /// How many registers it has.
    pub stack: usize,
}

/// A Lua frame without its values.
#[derive(Clone, Copy)]
pub struct LuaState {
    pub function: FuncId,
    pub wait: Wait,
    pub pc: usize,
    /// How many registers it has.
    pub size: usize,
}

/// What frame is on top.
#[derive(Clone, Copy, Debug)]
pub enum Top {
    Missing,
    Lua,
    Pcall,
    Xpcall(Value),
    Handler,
    Closing,
}

/// Which part of the stack's values a frame has.
#[derive(Clone, Copy)]
pub(crate) struct Window {
    /// Where its values begin: the arguments beyond the parameters come first.
    pub(crate) start: usize,
    /// Where its registers begin.
    pub(crate) base: usize,
    /// How many of them are its own. The others are nil.
    pub(crate) kept: usize,
    pub(crate) size: usize,
    /// Where its pending registers begin, and how many there are.
    pub(crate) marks: usize,
    pub(crate) marked: usize,
}

/// Where the values of a frame that begins stand, and its registers among them.
#[derive(Clone, Copy)]
pub(crate) struct Layout {
    pub(crate) start: usize,
    pub(crate) base: usize,
}

/// How a frame waits for a call: it keeps what its registers in front of `keeps` have, and what is pending among them.
#[derive(Clone, Copy)]
pub(crate) struct Pause {
    pub(crate) wait: Wait,
    pub(crate) keeps: usize,
    /// How many registers stay its own.
    pub(crate) kept: usize,
    pub(crate) size: usize,
}

/// A function that is called, and where its arguments stand.
#[derive(Clone, Copy)]
pub(crate) struct Callee {
    pub(crate) function: FuncId,
    pub(crate) shape: Shape,
    pub(crate) place: usize,
    pub(crate) given: usize,
}

/// What a Lua frame runs, and where it goes on. Of another frame nothing here is read.
#[derive(Clone, Copy)]
pub(crate) struct Running {
    pub(crate) function: FuncId,
    pub(crate) wait: Wait,
    pub(crate) pc: usize,
    /// How many values the open list in front of pc has.
    pub(crate) opened: usize,
}

#[derive(Clone, Copy)]
pub(crate) enum Kind {
    /// There is no frame.
    Missing,
    Lua,
    Pcall,
    Xpcall(Value),
    Handler,
    /// Its values are those that are left to be closed.
    Closing(Option<Value>),
}

#[derive(Clone, Copy)]
pub(crate) struct Record {
    pub(crate) kind: Kind,
    pub(crate) running: Running,
    pub(crate) window: Window,
}
