// Frames of functions that are called. The arguments become their first registers where they stand, and those beyond the parameters stay in
// front of the registers.
ghost use Rattle.std.specs.Prelude.{◌≡◌, ◌+◌, ◌-◌, ◌<◌, ◌≤◌, cond, length, vec_len, vec_capacity, OnOk, OnErr};
ghost use Rattle.lua_stack.specs.Frames.{Calls, CallsBehind, Enters, HasRegisters, NoneFrom, Replaces};
ghost use Rattle.lua_stack.specs.View.{IsLaidOut, begun_at};
ghost use Rattle.lua_stack.specs.Handing.{IsHandedOver};

use crate::cells::is_open_from;
use crate::frame::{Callee, Kind, Layout, Pause, Record, Running, Shape, Wait, Window};
use crate::frames::{behind, push_top};
use crate::pending::keep_below;
use crate::stack::Stack;
use crate::values::{clear, copy, end_of, grow, place_of, put};
use std::alloc::AllocError;
use table_core::{FuncId, Value};

impl Stack {
    /// Puts a function's frame on top, with these arguments.
    pub fn enter(
        &mut self,
        function: FuncId,
        shape: Shape,
        arguments: &[Value],
    ) -> Result<(), AllocError>
        requires { shape.params ≤ shape.stack }
        ensures frames { OnOk result (Enters self.old self.new function shape arguments.now) }
        ensures err { OnErr result (self.new ≡ self.old) }
    {
        let next = behind(self.top, Kind::Lua, self.values.len(), self.pending.len()).window;
        let end = end_of(end_of(next.start, arguments.len())?, shape.stack)?;
        grow(&mut self.values, end)?;
        push_top(&mut self.below, self.top)?;
        put(&mut self.values, next.start, arguments);
        let layout = lay_out(&mut self.values, next.start, arguments.len(), shape);
        self.top = begun(function, shape.stack, layout, next.marks);
        Ok(())
    }

    /// Calls a function with the values behind a register. The frame on top waits, with the `stack` registers of its code, and keeps those in
    /// front of the register, and what is pending among them.
    #[inline]
    pub fn call(
        &mut self,
        register: usize,
        given: usize,
        wait: Wait,
        stack: usize,
        function: FuncId,
        shape: Shape,
    ) -> Result<(), AllocError>
        requires arguments { HasRegisters self.old (register + 1 + given) }
        requires size { HasRegisters self.old stack }
        requires within { register ≤ stack }
        requires closed { NoneFrom self.old stack }
        requires params { shape.params ≤ shape.stack }
        ensures frames { OnOk result (Calls self.old self.new register given wait stack function shape) }
        ensures err { OnErr result (self.new ≡ self.old) }
    {
        if is_open_from(&self.open_cells, self.below.len(), register) {
            return self.call_apart(register, given, wait, stack, function, shape);
        }
        self.call_in_place(register, given, wait, stack, function, shape)
    }

    /// Calls a function with the values behind a register, where no cell of the frame on top is open at that register or above: the callee's first registers are
    /// the arguments where they stand. The frame on top waits and keeps what it keeps in `call`.
    #[inline(always)]
    pub fn call_in_place(
        &mut self,
        register: usize,
        given: usize,
        wait: Wait,
        stack: usize,
        function: FuncId,
        shape: Shape,
    ) -> Result<(), AllocError>
        requires arguments { HasRegisters self.old (register + 1 + given) }
        requires size { HasRegisters self.old stack }
        requires within { register ≤ stack }
        requires free { NoneFrom self.old register }
        requires params { shape.params ≤ shape.stack }
        ensures frames { OnOk result (Calls self.old self.new register given wait stack function shape) }
        ensures err { OnErr result (self.new ≡ self.old) }
    {
        let place = place_of(self.top.window.base, register, self.values.len()) + 1;
        let end = end_of(end_of(place, given)?, shape.stack)?;
        self.below.reserve(1)?;
        grow(&mut self.values, end)?;
        let pause = Pause {
            wait,
            keeps: register,
            kept: register,
            size: stack,
        };
        let callee = Callee {
            function,
            shape,
            place,
            given,
        };
        self.top = hand_over(
            &mut self.values,
            &mut self.pending,
            &mut self.below,
            self.top,
            pause,
            callee,
        );
        Ok(())
    }

    /// A cell is open at a register that the caller gives up: it keeps the register, so the callee's stand behind.
    fn call_apart(
        &mut self,
        register: usize,
        given: usize,
        wait: Wait,
        stack: usize,
        function: FuncId,
        shape: Shape,
    ) -> Result<(), AllocError>
        requires arguments { HasRegisters self.old (register + 1 + given) }
        requires size { HasRegisters self.old stack }
        requires within { register ≤ stack }
        requires closed { NoneFrom self.old stack }
        requires params { shape.params ≤ shape.stack }
        ensures frames { OnOk result (Calls self.old self.new register given wait stack function shape) }
        ensures err { OnErr result (self.new ≡ self.old) }
    {
        let window = self.top.window;
        let from = place_of(window.base, register, self.values.len());
        let place = place_of(window.base, window.size, self.values.len());
        let end = end_of(end_of(place, given)?, shape.stack)?;
        self.below.reserve(1)?;
        grow(&mut self.values, end)?;
        copy(&mut self.values, from + 1, place, given);
        clear(&mut self.values, from, stack - register);
        let pause = Pause {
            wait,
            keeps: register,
            kept: stack,
            size: stack,
        };
        let callee = Callee {
            function,
            shape,
            place,
            given,
        };
        self.top = hand_over(
            &mut self.values,
            &mut self.pending,
            &mut self.below,
            self.top,
            pause,
            callee,
        );
        Ok(())
    }

    /// Calls a function with copies of the values behind a register, which stay where they are. The frame on top waits, with the `stack` registers of its
    /// code, and keeps those in front of `keeps`, from which on it has no open cell.
    pub fn call_behind(
        &mut self,
        register: usize,
        given: usize,
        keeps: usize,
        wait: Wait,
        stack: usize,
        function: FuncId,
        shape: Shape,
    ) -> Result<(), AllocError>
        requires arguments { HasRegisters self.old (register + 1 + given) }
        requires size { HasRegisters self.old stack }
        requires within { keeps ≤ stack }
        requires free { NoneFrom self.old keeps }
        requires params { shape.params ≤ shape.stack }
        ensures frames { OnOk result (CallsBehind self.old self.new register given keeps wait stack function shape) }
        ensures err { OnErr result (self.new ≡ self.old) }
    {
        let window = self.top.window;
        let room = self.values.len();
        let from = place_of(window.base, register, room);
        let place = place_of(window.base, keeps, room);
        let end = end_of(end_of(place, given)?, shape.stack)?;
        self.below.reserve(1)?;
        grow(&mut self.values, end)?;
        copy(&mut self.values, from + 1, place, given);
        let pause = Pause {
            wait,
            keeps,
            kept: keeps,
            size: stack,
        };
        let callee = Callee {
            function,
            shape,
            place,
            given,
        };
        self.top = hand_over(
            &mut self.values,
            &mut self.pending,
            &mut self.below,
            self.top,
            pause,
            callee,
        );
        Ok(())
    }

    /// Calls a function with the values behind a register, in place of the frame on top, whose cells are closed.
    pub fn tail_call(
        &mut self,
        register: usize,
        given: usize,
        function: FuncId,
        shape: Shape,
    ) -> Result<(), AllocError>
        requires arguments { HasRegisters self.old (register + 1 + given) }
        requires closed { NoneFrom self.old 0 }
        requires params { shape.params ≤ shape.stack }
        ensures frames { OnOk result (Replaces self.old self.new register given function shape) }
        ensures err { OnErr result (self.new ≡ self.old) }
    {
        let window = self.top.window;
        let from = place_of(window.base, register, self.values.len()) + 1;
        let end = end_of(end_of(window.start, given)?, shape.stack)?;
        grow(&mut self.values, end)?;
        copy(&mut self.values, from, window.start, given);
        let layout = lay_out(&mut self.values, window.start, given, shape);
        self.top = begun(function, shape.stack, layout, window.marks);
        Ok(())
    }
}

/// Lets the frame on top wait, and gives the frame of the called function over its arguments. There is room for both.
#[inline(always)]
fn hand_over(
    values: &mut Vec<Value>,
    pending: &mut Vec<usize>,
    below: &mut Vec<Record>,
    top: Record,
    pause: Pause,
    callee: Callee,
) -> Record
    requires marks { top.window.marks + top.window.marked ≤ length pending.old.items }
    requires reserved { vec_len below.old < vec_capacity below.old }
    requires params { callee.shape.params ≤ callee.shape.stack }
    requires room { callee.place + callee.given + callee.shape.stack ≤ length values.old.items }
    ensures { IsHandedOver pause callee top values.old.items pending.old.items below.old.items values.new.items pending.new.items below.new.items result }
{
    let _size = pending.len();
    let window = top.window;
    let marked = keep_below(pending, window.marks, window.marked, pause.keeps);
    below.push_reserved(Record {
        kind: Kind::Lua,
        running: Running {
            wait: pause.wait,
            opened: 0,
            ..top.running
        },
        window: Window {
            kept: pause.kept,
            size: pause.size,
            marked,
            ..window
        },
    });
    let layout = lay_out(values, callee.place, callee.given, callee.shape);
    begun(
        callee.function,
        callee.shape.stack,
        layout,
        window.marks + marked,
    )
}

/// How many arguments are kept beyond the parameters.
#[inline(always)]
fn extra_of(given: usize, shape: Shape) -> usize
    ensures { result ≡ cond shape.vararg (given - shape.params) 0 }
{
    if shape.vararg {
        return given.saturating_sub(shape.params);
    }
    0
}

/// Makes a function's first registers of the arguments that stand at a place. Where some are kept beyond the parameters, these are copied
/// behind them.
#[inline(always)]
fn lay_out(values: &mut Vec<Value>, place: usize, given: usize, shape: Shape) -> Layout
    requires params { shape.params ≤ shape.stack }
    requires room { place + given + shape.stack ≤ length values.old.items }
    ensures { IsLaidOut place given shape values.old.items values.new.items result }
{
    let _size = values.len();
    if extra_of(given, shape) == 0 {
        let count = given.min(shape.params);
        clear(values, place + count, shape.stack - count);
        return Layout {
            start: place,
            base: place,
        };
    }
    let base = place + given;
    copy(values, place, base, shape.params);
    clear(values, base + shape.params, shape.stack - shape.params);
    Layout {
        start: place + shape.params,
        base,
    }
}

/// The frame of a function that begins.
#[inline(always)]
fn begun(function: FuncId, stack: usize, layout: Layout, marks: usize) -> Record
    ensures { result ≡ begun_at function layout stack marks }
{
    Record {
        kind: Kind::Lua,
        running: Running {
            function,
            wait: Wait::Running,
            pc: 0,
            opened: 0,
        },
        window: Window {
            start: layout.start,
            base: layout.base,
            kept: stack,
            size: stack,
            marks,
            marked: 0,
        },
    }
}
