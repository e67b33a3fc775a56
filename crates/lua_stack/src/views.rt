// The frames of a stack, read one by one.
ghost use Rattle.std.specs.Prelude.{◌≡◌, ◌+◌, ◌≤◌, length, slice_get};
ghost use Rattle.std.specs.Option.{option_map};
ghost use Rattle.lua_stack.specs.View.{IsWithin, frame_at, lua_at, part};
ghost use Rattle.lua_stack.specs.Reading.{viewed, viewed_lua};

use crate::frame::{Kind, Record, Running, Wait, Window};
use crate::frames::record_at;
use crate::stack::Stack;
use table_core::{FuncId, Value};

/// What stands in a frame.
#[derive(Clone, Copy)]
pub enum FrameView<'a> {
    Lua(LuaView<'a>),
    Pcall,
    /// With its message handler.
    Xpcall(Value),
    Handler,
    /// With its error, and the values that are left to be closed.
    Closing(Option<Value>, &'a [Value]),
}

/// What stands in the frame of a Lua function.
#[derive(Clone, Copy)]
pub struct LuaView<'a> {
    pub function: FuncId,
    pub wait: Wait,
    pub pc: usize,
    /// The arguments beyond the parameters.
    pub varargs: &'a [Value],
    /// Its registers, but for the last ones.
    pub registers: &'a [Value],
    /// How many registers there are behind these, which are nil.
    pub nils: usize,
    /// The registers whose values are to be closed.
    pub pending: &'a [usize],
    /// How many values its open list has.
    pub opened: usize,
}

impl Stack {
    /// What stands in a frame, by its number from the bottom.
    pub fn frame_at(&self, frame: usize) -> Option<FrameView<'_>>
        ensures { option_map viewed result ≡ slice_get self.now.frames frame }
    {
        let found = record_at(&self.below, self.top, frame)?;
        Some(view(found, &self.values, &self.pending))
    }
}

/// What a record says of a frame.
fn view<'a>(frame: Record, values: &'a [Value], pending: &'a [usize]) -> FrameView<'a>
    requires { IsWithin (length values.now) (length pending.now) frame.window }
    ensures { viewed result ≡ frame_at values.now pending.now frame }
{
    match frame.kind {
        Kind::Lua => FrameView::Lua(lua_view(frame.running, frame.window, values, pending)),
        Kind::Closing(error) => FrameView::Closing(
            error,
            part(values, frame.window.base, frame.window.kept),
        ),
        Kind::Xpcall(handler) => FrameView::Xpcall(handler),
        Kind::Handler => FrameView::Handler,
        Kind::Pcall => FrameView::Pcall,
        Kind::Missing => FrameView::Pcall,
    }
}

/// What a record says of a Lua function's frame.
fn lua_view<'a>(
    running: Running,
    window: Window,
    values: &'a [Value],
    pending: &'a [usize],
) -> LuaView<'a>
    requires { IsWithin (length values.now) (length pending.now) window }
    ensures { viewed_lua result ≡ lua_at values.now pending.now running window }
{
    LuaView {
        function: running.function,
        wait: running.wait,
        pc: running.pc,
        varargs: part(values, window.start, window.base - window.start),
        registers: part(values, window.base, window.kept),
        nils: window.size - window.kept,
        pending: part(pending, window.marks, window.marked),
        opened: running.opened,
    }
}

/// So many items from a place on.
fn part<T>(items: &[T], from: usize, count: usize) -> &[T]
    requires { from + count ≤ length items.now }
    ensures { result.now ≡ part from count items.now }
{
    &items[from..from + count]
}
