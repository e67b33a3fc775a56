// What the Lua frame on top keeps while its variables are closed.
ghost use Rattle.std.specs.Prelude.{◌≡◌, ◌+◌, ◌≤◌, ◌&&◌, ◌||◌, length, max, nat_le, nat_lt};
ghost use Rattle.machine_core.specs.Text.{behind, blanked, is_pending};
ghost use Rattle.lua_stack.specs.Frames.{HasRegisters, NoneFrom, TopBecomes, with_opened, with_registers};
ghost use Rattle.lua_stack.specs.View.{part, put_all, wiped_but};

use crate::stack::Stack;
use crate::values::place_of;
use table_core::Value;

impl Stack {
    /// Keeps results, which are so many registers from one on, and the pending registers, and sets the others to nil.
    pub fn keep_results(&mut self, from: usize, count: usize, stack: usize)
        requires there { HasRegisters self.old (max stack (behind from count)) }
        requires closed { NoneFrom self.old (max stack (behind from count)) }
        ensures { TopBecomes self.old self.new (λ f t. with_opened 0 (with_registers (blanked (λ i. is_pending t.own.pending i || (nat_le from i && nat_lt i (from + count))) 0 (max stack (behind from count)) t.own.registers) t)) }
    {
        let end = results_end(from, count, self.values.len());
        self.keep(from, end, stack.max(end));
    }

    /// Keeps the pending registers, and sets the others to nil.
    pub fn keep_pending(&mut self, stack: usize)
        requires there { HasRegisters self.old stack }
        requires closed { NoneFrom self.old stack }
        ensures { TopBecomes self.old self.new (λ f t. with_opened 0 (with_registers (blanked (is_pending t.own.pending) 0 stack t.own.registers) t)) }
    {
        self.keep(0, 0, stack);
    }

    /// Keeps `size` registers, and sets to nil those that are not pending and lie in front of `from` or not in front of `end`.
    fn keep(&mut self, from: usize, end: usize, size: usize)
        requires there { HasRegisters self.old size }
        requires closed { NoneFrom self.old size }
        ensures { TopBecomes self.old self.new (λ f t. with_opened 0 (with_registers (blanked (λ i. is_pending t.own.pending i || (nat_le from i && nat_lt i end)) 0 size t.own.registers) t)) }
    {
        let window = self.top.window;
        let base = place_of(window.base, 0, self.values.len());
        let last = place_of(window.marks, window.marked, self.pending.len());
        wipe(
            &mut self.values,
            base,
            size,
            &self.pending[window.marks..last],
            from,
            end,
        );
        self.top.window.kept = size;
        self.top.window.size = size;
        self.top.running.opened = 0;
    }
}

/// The place behind so many registers, which is no further than `room`. None of them names no place.
fn results_end(from: usize, count: usize, room: usize) -> usize
    requires { behind from count ≤ room }
    ensures { result ≡ behind from count }
{
    let _room = room;
    if count == 0 {
        return 0;
    }
    from + count
}

/// Whether a register keeps its value.
fn stays(marks: &[usize], from: usize, end: usize, register: usize) -> bool
    ensures { result ≡ (is_pending marks.now register || (nat_le from register && nat_lt register end)) }
{
    is_marked(marks, register) || (from <= register && register < end)
}

/// Whether a register is among those that are pending.
fn is_marked(marks: &[usize], register: usize) -> bool
    ensures { result ≡ is_pending marks.now register }
{
    marks.contains(&register)
}

/// Sets the values of a frame to nil, but those that stay.
fn wipe(values: &mut Vec<Value>, base: usize, size: usize, marks: &[usize], from: usize, end: usize)
    requires { base + size ≤ length values.old.items }
    ensures { values.new.items ≡ put_all base (wiped_but (λ i. is_pending marks.now i || (nat_le from i && nat_lt i end)) 0 (part base size values.old.items)) values.old.items }
{
    let _size = values.len();
    for k in 0..size {
        if stays(marks, from, end, k) {
            continue;
        }
        values[base + k] = Value::Nil;
    }
}
