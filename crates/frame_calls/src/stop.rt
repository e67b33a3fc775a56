// Where a frame stops, with what a call or a return there wants to know.
use code_core::Instruction;
use lua_heap::{Codes, Func};
use object_pool::Pool;

/// The functions of a world, and the code that they run.
#[derive(Clone, Copy)]
pub struct Functions<'a> {
    pub funcs: &'a Pool<Func>,
    pub codes: &'a Codes,
}

/// An instruction at which the frame on top of a stack stops, and the frame's code around it.
#[derive(Clone, Copy)]
pub struct Stop<'a> {
    pub functions: Functions<'a>,
    pub words: &'a [Instruction],
    /// How many registers the code wants.
    pub size: usize,
    pub pc: usize,
    pub word: Instruction,
    /// From which register on nothing of the frame is open or to be closed, where that is known.
    pub closed: Option<usize>,
}
