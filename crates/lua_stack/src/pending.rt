// The pending registers of the Lua frame on top: those of its variables that are still to be closed.
ghost use Rattle.std.specs.Prelude.{◌≡◌, ◌+◌, ◌≤◌, [], ◌∷◌, ◌++◌, None, filter, length, nat_lt, take, true, flat_map, IfNone, IfOk, IfSome, OnErr, OnOk};
ghost use Rattle.machine_core.specs.Text.{last_pending, without_pending};
ghost use Rattle.lua_stack.specs.Frames.{ArePending, HasLuaTop, HasRegisters, NoneFrom, OnTop, TopBecomes, with_pending};
ghost use Rattle.lua_stack.specs.View.{AreStacked, IsLastFrom, kept_at, marked_values, part, registers_at};

use crate::cells::is_open_from;
use crate::closing::is_lua;
use crate::frame::{Record, Window};
use crate::stack::Stack;
use crate::values::{item_at, place_of};
use std::alloc::{AllocError, Global};
use table_core::Value;

impl Stack {
    /// Marks a register as one whose variable is to be closed.
    pub fn mark_pending(&mut self, register: usize) -> Result<(), AllocError>
        requires { HasRegisters self.old (register + 1) }
        ensures ok { OnOk result (TopBecomes self.old self.new (λ f t. with_pending (t.own.pending ++ register ∷ []) t)) }
        ensures err { OnErr result (self.new ≡ self.old) }
    {
        let window = self.top.window;
        let end = place_of(window.marks, window.marked, self.pending.len());
        put_mark(&mut self.pending, end, register)?;
        self.top.window.marked += 1;
        Ok(())
    }

    /// Whether no cell of the frame on top is open and nothing of it is to be closed, as it is most often.
    #[inline]
    pub fn is_bare(&self) -> bool
        ensures cells { result ≡ true → NoneFrom self.now 0 }
        ensures pending { result ≡ true → OnTop self.now (λ f t. last_pending 0 t.own.pending ≡ None) }
    {
        if is_open_from(&self.open_cells, self.below.len(), 0) {
            return false;
        }
        if self.top.window.marked > 0 {
            return false;
        }
        true
    }

    /// The last pending register from one on.
    pub fn last_pending(&self, register: usize) -> Option<usize>
        requires { HasLuaTop self.now }
        ensures { OnTop self.now (λ f t. result ≡ last_pending register t.own.pending) }
    {
        let window = self.top.window;
        let end = place_of(window.marks, window.marked, self.pending.len());
        last_in(&self.pending[window.marks..end], register)
    }

    /// Takes the last pending register from one on away.
    pub fn take_pending(&mut self, register: usize)
        requires { HasLuaTop self.old }
        ensures { TopBecomes self.old self.new (λ f t. with_pending (without_pending register t.own.pending) t) }
    {
        let window = self.top.window;
        let end = place_of(window.marks, window.marked, self.pending.len());
        let Some(at) = last_from(&self.pending[window.marks..end], register) else {
            return;
        };
        self.pending.remove(window.marks + at);
        self.top.window.marked = window.marked - 1;
    }

    /// Takes the pending registers from one on away.
    pub fn drop_pending(&mut self, register: usize)
        requires { HasLuaTop self.old }
        ensures { TopBecomes self.old self.new (λ f t. with_pending (filter (λ q. nat_lt q register) t.own.pending) t) }
    {
        let window = self.top.window;
        self.top.window.marked = keep_below(
            &mut self.pending,
            window.marks,
            window.marked,
            register,
        );
    }

    /// The values of the pending registers of all frames, from the bottom, each frame's in the order in which they were marked.
    pub fn pending_values(&self, alloc: Global) -> Result<Vec<Value>, AllocError>
        ensures { IfOk result (λ found. ArePending self.now found.items) }
    {
        let mut found = Vec::new(alloc);
        add_all_pending(&mut found, &self.below, &self.values, &self.pending)?;
        add_pending(&mut found, self.top, &self.values, &self.pending)?;
        Ok(found)
    }
}

/// Puts a register at a place, and drops what was behind.
fn put_mark(pending: &mut Vec<usize>, at: usize, register: usize) -> Result<(), AllocError>
    requires { at ≤ length pending.old.items }
    ensures ok { OnOk result (pending.new.items ≡ take at pending.old.items ++ register ∷ []) }
    ensures err { OnErr result (pending.new.items ≡ pending.old.items) }
{
    pending.reserve(1)?;
    pending.truncate(at);
    pending.push_reserved(register);
    Ok(())
}

/// The place of the last register from one on.
fn last_from(marks: &[usize], register: usize) -> Option<usize>
    ensures there { IfSome result (λ at. IsLastFrom register marks.now at) }
    ensures none { IfNone result (last_pending register marks.now ≡ None) }
{
    let mut count = marks.len();
    'back: while count > 0 {
        if register <= item_at(marks, count - 1) {
            return Some(count - 1);
        }
        count -= 1;
    }
    None
}

/// The last register from one on.
fn last_in(marks: &[usize], register: usize) -> Option<usize>
    ensures { result ≡ last_pending register marks.now }
{
    let at = last_from(marks, register)?;
    Some(item_at(marks, at))
}

/// Leaves of so many registers those below one, in their order, and says how many they are.
pub(crate) fn keep_below(
    pending: &mut Vec<usize>,
    from: usize,
    count: usize,
    register: usize,
) -> usize
    requires { from + count ≤ length pending.old.items }
    ensures kept { part from result pending.new.items ≡ filter (λ q. nat_lt q register) (part from count pending.old.items) }
    ensures front { take from pending.new.items ≡ take from pending.old.items }
    ensures size { length pending.new.items ≡ length pending.old.items }
    ensures fewer { result ≤ count }
{
    let _size = pending.len();
    let mut kept = 0;
    for k in 0..count {
        let mark = item_at(pending, from + k);
        if mark >= register {
            continue;
        }
        pending[from + kept] = mark;
        kept += 1;
    }
    kept
}

/// The value of a frame's register.
fn register_of(values: &[Value], window: Window, register: usize) -> Value
    requires { window.base + window.kept ≤ length values.now }
    ensures { result ≡ kept_at (registers_at values.now window) register }
{
    if register >= window.kept {
        return Value::Nil;
    }
    let at = place_of(window.base, register, values.len());
    item_at(values, at)
}

/// Adds the values of a frame's pending registers, if it is a Lua frame.
fn add_pending(
    found: &mut Vec<Value>,
    frame: Record,
    values: &[Value],
    pending: &[usize],
) -> Result<(), AllocError>
    requires marks { frame.window.marks + frame.window.marked ≤ length pending.now }
    requires kept { frame.window.base + frame.window.kept ≤ length values.now }
    ensures { OnOk result (found.new.items ≡ found.old.items ++ marked_values values.now pending.now frame) }
{
    if !is_lua(frame.kind) {
        return Ok(());
    }
    let _size = pending.len();
    for k in 0..frame.window.marked {
        let mark = item_at(pending, frame.window.marks + k);
        found.push(register_of(values, frame.window, mark))?;
    }
    Ok(())
}

/// Adds those of some frames.
fn add_all_pending(
    found: &mut Vec<Value>,
    frames: &[Record],
    values: &[Value],
    pending: &[usize],
) -> Result<(), AllocError>
    requires { AreStacked (length values.now) (length pending.now) frames.now }
    ensures { OnOk result (found.new.items ≡ found.old.items ++ flat_map (marked_values values.now pending.now) frames.now) }
{
    for k in 0..frames.len() {
        add_pending(found, item_at(frames, k), values, pending)?;
    }
    Ok(())
}
