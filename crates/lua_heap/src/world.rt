// The world of the machine in memory (lstate.h of Lua 5.4).

use crate::codes::Codes;
use crate::strings::Strings;
use lua_stack::Stack;
use object_pool::Pool;
use std::alloc::Global;
use table_core::{CellId, CoroId, FuncId, ProtoId, StrId, Table, TableId, Value};

/// All objects, coroutines and printed bytes at one moment. Every id is a number in the list of its kind.
#[derive(Drop)]
pub struct World {
    pub alloc: Global,
    pub strings: Strings,
    pub codes: Codes,
    pub tables: Pool<Table>,
    pub funcs: Pool<Func>,
    pub cells: Pool<Cell>,
    pub coros: Pool<Coro>,
    /// The table of globals.
    pub globals: TableId,
    /// The metatable that all strings share.
    pub string_meta: Option<TableId>,
    pub prelude: Prelude,
    /// The field of a metatable that says how its table is saved.
    pub spkey: StrId,
    /// A number that scripts may set; it bounds nothing.
    pub maxrec: i64,
    /// The main coroutine.
    pub main: Option<CoroId>,
    /// The coroutines that resumed each other, from the main one to the running one.
    pub chain: Vec<CoroId>,
    /// The values on their way: arguments, results or one error.
    pub moving: Vec<Value>,
    pub printed: Vec<u8>,
}

/// The library functions that are Lua text.
#[derive(Drop)]
pub struct Prelude {
    /// The table in which they find their own variables.
    pub env: TableId,
    /// The functions, in the order of the text.
    pub funcs: Vec<FuncId>,
}

/// A Lua function: its code and the cells of its upvalues.
#[derive(Drop)]
pub struct Func {
    pub code: ProtoId,
    pub cells: Vec<CellId>,
}

/// A variable that functions share.
#[derive(Debug, Clone, Copy, PartialEq, Eq)]
pub enum Cell {
    /// Its value.
    Closed(Value),
    /// The register where it still stands, with the frame's number from the bottom.
    Open {
        coro: CoroId,
        frame: u32,
        register: u32,
    },
}

/// A coroutine (Lua 5.4 manual, 2.6).
#[derive(Drop)]
pub enum Coro {
    /// Not resumed yet, with its body.
    Fresh(Value),
    Suspended(Stack),
    Running(Stack),
    /// It resumed another.
    Normal(Stack),
    /// It returned, or was closed.
    Dead,
    /// An error ended it, with the values that are still to be closed.
    Failed { error: Value, pending: Vec<Value> },
}

/// How many objects of each kind there were, and how many prototypes were added.
#[derive(Debug, Clone, Copy, PartialEq, Eq)]
pub struct Mark {
    pub strings: usize,
    pub codes: usize,
    pub tables: usize,
    pub funcs: usize,
    pub cells: usize,
    pub coros: usize,
}
