// The events for which a metatable may have a handler (Lua 5.4 manual, 2.4).
ghost use Rattle.std.specs.Prelude.{◌≡◌, ◌≤◌, length};
ghost use Rattle.int_core.specs.Operations.{event_name, is_bitwise};
ghost use Rattle.int_core.specs.Value.{greatest_string};
ghost use Rattle.meta_ops.specs.Events.{event_of};

/// An operation that a metatable may have a handler for, by the name of its field.
#[derive(Debug, Clone, Copy, PartialEq, Eq)]
pub enum Event {
    Add,
    Sub,
    Mul,
    Mod,
    IDiv,
    BAnd,
    BOr,
    BXor,
    Shl,
    Shr,
    Unm,
    BNot,
    Concat,
    Len,
    Eq,
    Lt,
    Le,
    Index,
    NewIndex,
    Call,
    Close,
}

impl Event {
    /// The name of the handler's field.
    pub fn name(self) -> &'static [u8]
        ensures name { result.now ≡ event_name (event_of self) }
        ensures short { length result.now ≤ greatest_string }
    {
        match self {
            Event::Add => b"__add",
            Event::Sub => b"__sub",
            Event::Mul => b"__mul",
            Event::Mod => b"__mod",
            Event::IDiv => b"__idiv",
            Event::BAnd => b"__band",
            Event::BOr => b"__bor",
            Event::BXor => b"__bxor",
            Event::Shl => b"__shl",
            Event::Shr => b"__shr",
            Event::Unm => b"__unm",
            Event::BNot => b"__bnot",
            Event::Concat => b"__concat",
            Event::Len => b"__len",
            Event::Eq => b"__eq",
            Event::Lt => b"__lt",
            Event::Le => b"__le",
            Event::Index => b"__index",
            Event::NewIndex => b"__newindex",
            Event::Call => b"__call",
            Event::Close => b"__close",
        }
    }

    /// Whether it is a bitwise operator.
    pub(crate) fn is_bitwise(self) -> bool
        ensures { result ≡ is_bitwise (event_of self) }
    {
        matches!(
            self,
            Event::BAnd | Event::BOr | Event::BXor | Event::Shl | Event::Shr | Event::BNot
        )
    }
}
