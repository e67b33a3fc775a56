// What an image holds, as it is read: texts are those of its bytes.
use code_core::Checked;

/// The name of a permanent.
#[derive(Debug, Clone, Copy, PartialEq, Eq, Hash)]
pub enum Key<'a> {
    Number(i64),
    Text(&'a [u8]),
}

/// What sort of object a value is.
#[derive(Debug, Clone, Copy, PartialEq, Eq)]
pub enum Kind {
    Table,
    Function,
    Coroutine,
}

impl Kind {
    ghost use Rattle.std.specs.Prelude.{◌≡◌};
    ghost use Rattle.int_core.specs.Value.{same_kind};
    ghost use Rattle.image_records.specs.Views.{kind};

    /// Whether both are one.
    pub fn is(self, other: Kind) -> bool
        ensures { result ≡ same_kind (kind other) (kind self) }
    {
        matches!(
            (self, other),
            (Kind::Table, Kind::Table)
                | (Kind::Function, Kind::Function)
                | (Kind::Coroutine, Kind::Coroutine)
        )
    }
}

/// What sort of object a record is of.
#[derive(Debug, Clone, Copy, PartialEq, Eq)]
pub enum Sort {
    Table,
    Function,
    Cell,
    Coroutine,
}

/// A value as it stands in an image.
#[derive(Debug, Clone, Copy)]
pub enum Item<'a> {
    Nil,
    Bool(bool),
    Int(i64),
    Str(&'a [u8]),
    /// The object of a record, by its number.
    Numbered(u32),
    Permanent(Kind, Key<'a>),
    /// The table of the prelude's own variables.
    Environment,
}

/// For what a Lua function's frame waits.
#[derive(Debug, Clone, Copy)]
pub enum Wait<'a> {
    ForCall,
    ForIterator,
    ForValue,
    ForTruth,
    Dropped,
    /// So many operands are left.
    ForConcat(u8),
    ForClose,
    /// It returns so many results.
    Returning(u32),
    /// It is left by an error.
    Leaving(Item<'a>),
}

/// A Lua function's frame, which waits.
#[derive(Debug, Drop)]
pub struct LuaFrame<'a> {
    pub function: Item<'a>,
    pub pc: u32,
    pub wait: Wait<'a>,
    /// The arguments beyond the parameters.
    pub varargs: Vec<Item<'a>>,
    pub registers: Vec<Item<'a>>,
    /// The registers whose values are to be closed.
    pub pending: Vec<u32>,
}

/// A frame of a coroutine.
#[derive(Debug, Drop)]
pub enum Frame<'a> {
    Lua(LuaFrame<'a>),
    Pcall,
    /// With the message handler.
    Xpcall(Item<'a>),
    Handler,
    /// Of `coroutine.close`, with the values that are left to be closed.
    Closing {
        error: Option<Item<'a>>,
        left: Vec<Item<'a>>,
    },
}

/// An object of an image, which names others by the numbers of their records.
#[derive(Drop)]
pub enum Record<'a> {
    Table {
        rows: Vec<(Item<'a>, Item<'a>)>,
        metatable: Item<'a>,
    },
    Function {
        code: Checked,
        /// The numbers of its cells' records.
        cells: Vec<u32>,
    },
    Closed(Item<'a>),
    /// A cell whose variable stands in a register of a frame, which is numbered from the bottom.
    Open {
        coroutine: u32,
        frame: u32,
        register: u32,
    },
    /// A coroutine that has not begun, with its body.
    Fresh(Item<'a>),
    /// With its frames from the bottom.
    Suspended(Vec<Frame<'a>>),
    Dead,
    Failed {
        error: Item<'a>,
        /// The values that are still to be closed.
        pending: Vec<Item<'a>>,
    },
}

/// An image that was read.
#[derive(Drop)]
pub struct Image<'a> {
    pub roots: Vec<Item<'a>>,
    pub records: Vec<Record<'a>>,
}
