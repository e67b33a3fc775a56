// Frames that are pushed and popped, and those that are found by their numbers.
ghost use Rattle.std.specs.Prelude.{◌≡◌, ◌+◌, ◌<◌, ◌≤◌, [], ◌∷◌, ◌++◌, true, length, slice_get, OnOk, OnErr};
ghost use Rattle.int_core.specs.Value.{last, without_last};
ghost use Rattle.lua_stack.specs.Frames.{OnTop, NoneFrom, kept_pcall, kept_xpcall, kept_handler, kept_place, kept_state};
ghost use Rattle.lua_stack.specs.View.{tops, is_missing, is_plain, plain_frame, record_behind, state_by};

use crate::frame::{Kind, LuaState, Record, Running, Window};
use crate::stack::Stack;
use crate::values::{clear, item_at, place_of};
use crate::views::FrameView;
use std::alloc::AllocError;
use table_core::{FuncId, Value};

impl Stack {
    /// Puts the frame of a `pcall` on top.
    pub fn push_pcall(&mut self) -> Result<(), AllocError>
        ensures frames { OnOk result (self.new.frames ≡ self.old.frames ++ kept_pcall ∷ []) }
        ensures cells { self.new.open_cells ≡ self.old.open_cells }
        ensures err { OnErr result (self.new ≡ self.old) }
    {
        self.push(Kind::Pcall)
    }

    /// Puts the frame of an `xpcall` on top, with its message handler.
    pub fn push_xpcall(&mut self, handler: Value) -> Result<(), AllocError>
        ensures frames { OnOk result (self.new.frames ≡ self.old.frames ++ kept_xpcall handler ∷ []) }
        ensures cells { self.new.open_cells ≡ self.old.open_cells }
        ensures err { OnErr result (self.new ≡ self.old) }
    {
        self.push(Kind::Xpcall(handler))
    }

    /// Puts the frame over which a message handler is called on top.
    pub fn push_handler(&mut self) -> Result<(), AllocError>
        ensures frames { OnOk result (self.new.frames ≡ self.old.frames ++ kept_handler ∷ []) }
        ensures cells { self.new.open_cells ≡ self.old.open_cells }
        ensures err { OnErr result (self.new ≡ self.old) }
    {
        self.push(Kind::Handler)
    }

    /// Puts a frame without values on top.
    fn push(&mut self, kind: Kind) -> Result<(), AllocError>
        requires { is_plain kind ≡ true }
        ensures frames { OnOk result (self.new.frames ≡ self.old.frames ++ plain_frame kind ∷ []) }
        ensures cells { self.new.open_cells ≡ self.old.open_cells }
        ensures err { OnErr result (self.new ≡ self.old) }
    {
        push_top(&mut self.below, self.top)?;
        self.top = behind(self.top, kind, self.values.len(), self.pending.len());
        Ok(())
    }

    /// Takes the frame on top away, once its cells are closed.
    #[inline]
    pub fn pop(&mut self)
        requires there { 0 < length self.old.frames }
        requires closed { OnTop self.old (λ f t. NoneFrom self.old 0) }
        ensures frames { self.new.frames ≡ without_last self.old.frames }
        ensures cells { self.new.open_cells ≡ self.old.open_cells }
    {
        let Some(record) = self.below.pop() else {
            self.top.kind = Kind::Missing;
            return;
        };
        // First, so that the record is copied from where it stood.
        self.top = record;
        let window = record.window;
        self.top.window.kept = window.size;
        let from = place_of(window.base, window.kept, self.values.len());
        clear(&mut self.values, from, window.size - window.kept);
    }

    /// The function of a frame, and where it is in its code, if it is a Lua frame.
    pub fn place_at(&self, frame: usize) -> Option<(FuncId, usize)>
        ensures { result ≡ kept_place (slice_get self.now.frames frame) }
    {
        match self.frame_at(frame)? {
            FrameView::Lua(lua) => Some((lua.function, lua.pc)),
            _ => None,
        }
    }

    /// The frame below the one on top, if it is a Lua frame.
    #[inline]
    pub fn below_top(&self) -> Option<LuaState>
        ensures { result ≡ kept_state (last (without_last self.now.frames)) }
    {
        let count = self.below.len();
        if count == 0 {
            return None;
        }
        let record = item_at(&self.below, count - 1);
        state(record.kind, record.running, record.window)
    }
}

/// Whether there is no frame.
#[inline(always)]
fn is_missing(kind: Kind) -> bool
    ensures { result ≡ is_missing kind }
{
    matches!(kind, Kind::Missing)
}

/// Puts the frame on top, if there is one, on those below.
#[inline]
pub(crate) fn push_top(below: &mut Vec<Record>, top: Record) -> Result<(), AllocError>
    ensures ok { OnOk result (below.new.items ≡ below.old.items ++ tops top) }
    ensures err { OnErr result (below.new.items ≡ below.old.items) }
{
    if is_missing(top.kind) {
        return Ok(());
    }
    below.reserve(1)?;
    below.push_reserved(top);
    Ok(())
}

/// A frame behind another, without values.
#[inline]
pub(crate) fn behind(top: Record, kind: Kind, values: usize, marks: usize) -> Record
    requires values { top.window.base + top.window.size ≤ values }
    requires marks { top.window.marks + top.window.marked ≤ marks }
    ensures { result ≡ record_behind top kind }
{
    let _rooms = (values, marks);
    let start = top.window.base + top.window.size;
    Record {
        kind,
        running: top.running,
        window: Window {
            start,
            base: start,
            kept: 0,
            size: 0,
            marks: top.window.marks + top.window.marked,
            marked: 0,
        },
    }
}

/// The frame with a number.
pub(crate) fn record_at(below: &[Record], top: Record, frame: usize) -> Option<Record>
    ensures { result ≡ slice_get (below.now ++ tops top) frame }
{
    if frame < below.len() {
        return Some(below[frame]);
    }
    if frame > below.len() {
        return None;
    }
    if is_missing(top.kind) {
        return None;
    }
    Some(top)
}

/// What is told of a Lua frame.
#[inline(always)]
fn state(kind: Kind, running: Running, window: Window) -> Option<LuaState>
    ensures { result ≡ state_by kind running window }
{
    match kind {
        Kind::Lua => Some(LuaState {
            function: running.function,
            wait: running.wait,
            pc: running.pc,
            size: window.size,
        }),
        Kind::Missing => None,
        Kind::Pcall => None,
        Kind::Xpcall(_) => None,
        Kind::Handler => None,
        Kind::Closing(_) => None,
    }
}
