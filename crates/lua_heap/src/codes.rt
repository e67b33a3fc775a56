// The code of functions, as it is kept beside its prototypes.
ghost use Rattle.std.specs.Prelude.{◌≡◌, ◌<◌, ◌≤◌, [], Some, length, take, slice_get};
ghost use Rattle.lua_heap.specs.Codes.{functions, AreFirsts};

use crate::trees::find;
use code_core::{Checked, Instruction, Proto, UpDesc};
use std::alloc::Global;
use table_core::{ProtoId, Value};

/// The code of one function, ready to run: what the loop over instructions reads, with constants as values.
#[derive(Drop)]
pub struct Code {
    /// Its instructions.
    pub words: Vec<Instruction>,
    /// Its constants.
    pub constants: Vec<Value>,
    /// How many registers it needs.
    pub stack: u8,
    /// How many parameters it has.
    pub params: u8,
    /// Whether it takes extra arguments.
    pub vararg: bool,
    /// Where a function that is made of it finds its upvalues.
    pub upvalues: Vec<UpDesc>,
    /// The numbers of the functions that are defined in it.
    pub inner: Vec<ProtoId>,
}

/// A prototype that was added, with the number of its function.
#[derive(Drop)]
pub(crate) struct Tree {
    pub(crate) first: usize,
    pub(crate) code: Checked,
}

/// The code of all functions, numbered from 0: each prototype's own first, then those that are defined in it, in the order of the text.
#[derive(Drop)]
pub struct Codes {
    /// The prototypes that were added, each with all that are defined in it.
    pub(crate) trees: Vec<Tree>,
    /// The code of each function.
    pub(crate) list: Vec<Code>,
}

impl Codes {
    /// No code. It takes no memory.
    pub fn new(alloc: Global) -> Codes
        ensures trees { result.trees.items ≡ [] }
        ensures list { result.list.items ≡ [] }
    {
        Codes {
            trees: Vec::new(alloc),
            list: Vec::new(alloc),
        }
    }

    /// The prototype of a function, with all that are defined in it.
    pub fn proto(&self, id: ProtoId) -> &Proto
        requires { id.0 < length (functions self.now) }
        ensures { slice_get (functions self.now) id.0 ≡ Some result.now }
    {
        let mut at = 0;
        let mut left = id.0;
        'trees: loop {
            match find(self.trees[at].code.proto(), left) {
                Ok(found) => return found,
                Err(rest) => {
                    left = rest;
                    at += 1;
                }
            }
        }
    }

    /// How many prototypes were added, to be come back to.
    pub(crate) fn mark(&self) -> usize
        ensures { result ≡ length self.now.trees.items }
    {
        self.trees.len()
    }

    /// Keeps the prototypes that were added first, with their functions.
    pub(crate) fn release_to(&mut self, mark: usize)
        requires within { mark ≤ length self.old.trees.items }
        requires firsts { AreFirsts self.old.trees.items }
        requires count { length self.old.list.items ≡ length (functions self.old) }
        ensures trees { self.new.trees.items ≡ take mark self.old.trees.items }
        ensures list { self.new.list.items ≡ take (length (functions self.new)) self.old.list.items }
    {
        if let Some(tree) = self.trees.get(mark) {
            self.list.truncate(tree.first);
            self.trees.truncate(mark);
        }
    }

    /// The code of a function.
    #[inline(always)]
    pub fn get(&self, id: ProtoId) -> &Code
        requires { id.0 < length self.now.list.items }
        ensures { slice_get self.now.list.items id.0 ≡ Some result.now }
    {
        &self.list[id.0]
    }
}
