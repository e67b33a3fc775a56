// The registers of the Lua frame on top.
ghost use Rattle.std.specs.Prelude.{◌≡◌, ◌+◌, ◌≤◌, Some, length, map, slice_get, take, OnErr, OnOk};
ghost use Rattle.std.specs.Borrow.{sem};
ghost use Rattle.int_core.specs.Value.{write, write_all};
ghost use Rattle.machine_core.specs.Text.{nils};
ghost use Rattle.lua_stack.specs.Frames.{HasLuaTop, HasRegisters, NoneFrom, OnTop, TopBecomes, cut_at, with_registers, with_opened};

use crate::stack::Stack;
use crate::values::{clear, copy, end_of, grow, item_at, place_of, put, put_one};
use std::alloc::AllocError;
use table_core::Value;

impl Stack {
    ghost use Rattle.lua_stack.specs.Lending.{lends_registers};

    /// The value of a register.
    #[inline]
    pub fn get(&self, register: usize) -> Value
        requires { HasRegisters self.now (register + 1) }
        ensures { OnTop self.now (λ f t. slice_get t.own.registers register ≡ Some (f result)) }
    {
        let at = place_of(self.top.window.base, register, self.values.len());
        item_at(&self.values, at)
    }

    /// Writes a register.
    #[inline]
    pub fn set(&mut self, register: usize, value: Value)
        requires { HasRegisters self.old (register + 1) }
        ensures { TopBecomes self.old self.new (λ f t. with_registers (write register (f value) t.own.registers) t) }
    {
        let at = place_of(self.top.window.base, register, self.values.len());
        put_one(&mut self.values, at, value);
    }

    /// Writes values to registers in a row.
    pub fn write_registers(&mut self, at: usize, values: &[Value])
        requires { HasRegisters self.old (at + length values.now) }
        ensures { TopBecomes self.old self.new (λ f t. with_registers (write_all at (map f values.now) t.own.registers) t) }
    {
        let to = place_of(self.top.window.base, at, self.values.len());
        put(&mut self.values, to, values);
    }

    /// Writes values from a register on as a list that is open: the frame gets as many registers as it takes.
    pub fn write_list(&mut self, at: usize, values: &[Value]) -> Result<(), AllocError>
        requires { HasRegisters self.old (at + 1) }
        ensures ok { OnOk result (TopBecomes self.old self.new (λ f t. with_opened (length values.now) (with_registers (write_all at (map f values.now) t.own.registers) t))) }
        ensures err { OnErr result (self.new ≡ self.old) }
    {
        let to = place_of(self.top.window.base, at, self.values.len());
        let end = end_of(to, values.len())?;
        grow(&mut self.values, end)?;
        put(&mut self.values, to, values);
        let size = self.top.window.size.max(at + values.len());
        self.top.window.kept = size;
        self.top.window.size = size;
        self.top.running.opened = values.len();
        Ok(())
    }

    /// Writes the arguments beyond the parameters from a register on as a list that is open: the frame gets as many registers as it takes.
    pub fn write_varargs(&mut self, at: usize) -> Result<(), AllocError>
        requires { HasRegisters self.old (at + 1) }
        ensures ok { OnOk result (TopBecomes self.old self.new (λ f t. with_opened (length t.own.varargs) (with_registers (write_all at t.own.varargs t.own.registers) t))) }
        ensures err { OnErr result (self.new ≡ self.old) }
    {
        let window = self.top.window;
        let to = place_of(window.base, at, self.values.len());
        let count = window.base - window.start;
        let end = end_of(to, count)?;
        grow(&mut self.values, end)?;
        copy(&mut self.values, window.start, to, count);
        let size = window.size.max(at + count);
        self.top.window.kept = size;
        self.top.window.size = size;
        self.top.running.opened = count;
        Ok(())
    }

    /// Sets registers in a row to nil.
    pub fn write_nils(&mut self, at: usize, count: usize)
        requires { HasRegisters self.old (at + count) }
        ensures { TopBecomes self.old self.new (λ f t. with_registers (write_all at (nils count) t.own.registers) t) }
    {
        let to = place_of(self.top.window.base, at, self.values.len());
        clear(&mut self.values, to, count);
    }

    /// Sets the registers from one on to nil, and leaves as many as the code has: the list that was open ends.
    pub fn cut_from(&mut self, register: usize, stack: usize)
        requires within { register ≤ stack }
        requires there { HasRegisters self.old stack }
        requires closed { NoneFrom self.old stack }
        ensures { TopBecomes self.old self.new (λ f t. cut_at register stack t) }
    {
        let from = place_of(self.top.window.base, register, self.values.len());
        clear(&mut self.values, from, stack - register);
        self.top.window.kept = stack;
        self.top.window.size = stack;
        self.top.running.opened = 0;
    }

    /// Leaves as many registers as the code has: the list that was open ends.
    pub fn end_list(&mut self, stack: usize)
        requires there { HasRegisters self.old stack }
        requires closed { NoneFrom self.old stack }
        ensures { TopBecomes self.old self.new (λ f t. with_opened 0 (with_registers (take stack t.own.registers) t)) }
    {
        self.top.window.kept = stack;
        self.top.window.size = stack;
        self.top.running.opened = 0;
    }

    /// The arguments beyond the parameters.
    pub fn varargs(&self) -> &[Value]
        requires { HasLuaTop self.now }
        ensures { OnTop self.now (λ f t. map f result.now ≡ t.own.varargs) }
    {
        let window = self.top.window;
        let base = place_of(window.base, 0, self.values.len());
        &self.values[window.start..base]
    }

    /// The registers.
    pub fn registers(&self) -> &[Value]
        requires { HasLuaTop self.now }
        ensures { OnTop self.now (λ f t. map f result.now ≡ t.own.registers) }
    {
        let window = self.top.window;
        let end = place_of(window.base, window.size, self.values.len());
        &self.values[window.base..end]
    }

    /// The registers, for writing.
    pub fn registers_mut(&mut self) -> &mut [Value]
        requires { HasLuaTop self.old }
        ensures* writes_back { sem 𝓛 (lends_registers self.entry result) }
        ensures registers { OnTop self.old (λ f t. map f result.now ≡ t.own.registers) }
    {
        let window = self.top.window;
        let end = place_of(window.base, window.size, self.values.len());
        self.values.slice_mut(window.base..end)
    }
}
