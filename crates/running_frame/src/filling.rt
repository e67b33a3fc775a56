// Lists of one value that go to the table of a constructor (OP_SETLIST of lvm.c; Lua 5.4 manual, 3.4.9).
ghost use Rattle.std.specs.Prelude.{◌≡◌, ◌+◌, ◌-◌, ◌<◌, ◌^◌, IfNone, IfSome, Some, pos, slice_get, true};
ghost use Rattle.code_core.specs.Instruction.{b_of, opcode_of};
ghost use Rattle.machine_arms_tables.specs.Fields.{with_field};
ghost use Rattle.running_frame.specs.Filling.{FillsOne, FillsTable, is_set_list};
ghost use Rattle.frame_calls.specs.Calling.{MayLeave};
ghost use Rattle.table_core.specs.declared.value.Value.TheVariants.{Int, Table as a_table};

use code_core::{Instruction, Opcode};
use frame_calls::{Stop, behind, may_give_up, register_of, second_of};
use lua_heap::law;
use lua_stack::Stack;
use object_pool::Pool;
use table_core::{Key, Table, TableId, Value};

/// A SETLIST of one value: it goes to the table's index after C, no list is open any more, and the frame on top goes on after it. `None`, with all as before, at any other instruction, where the register has no table, and where memory runs out.
pub(crate) fn fill_one(stack: &mut Stack, stop: Stop, tables: &mut Pool<Table>) -> Option<()>
    requires { MayLeave stack.old stop }
    ensures fills { IfSome result (λ _. FillsOne stack.old stack.new tables.old.objects tables.new.objects stop.entry.size stop.entry.words.now stop.entry.pc stop.entry.word) }
    ensures kept { IfNone result ((stack.new ≡ stack.old) × (tables.new.objects ≡ tables.old.objects)) }
    ensures listed { stack.new.open_cells ≡ stack.old.open_cells }
{
    let i = stop.word;
    if !is_short_list(i) {
        return None;
    }
    let far = i.k();
    if far {
        return None;
    }
    let to = behind(stop.words, stop.pc)?;
    if !may_give_up(stack, stop.size, stop.size, stop.size, stop.closed) {
        return None;
    }
    let register = i.a() as usize;
    let registers = stack.registers();
    let id = table_in(registers, register)?;
    let item = second_of(registers, register)?;
    fill_behind(tables, id, i.c(), item)?;
    stack.end_list(stop.size);
    stack.set_pc(to);
    Some(())
}

/// Whether an instruction is a SETLIST of one value.
fn is_short_list(i: Instruction) -> bool
    ensures { result ≡ true → (is_set_list (opcode_of i) ≡ true) × (b_of i ≡ 1) }
{
    match i.opcode() {
        Some(Opcode::SetList) => i.b() == 1,
        _ => false,
    }
}

/// The table in a register.
fn table_in(registers: &[Value], register: usize) -> Option<TableId>
    ensures { IfSome result (λ id. slice_get registers.now register ≡ Some (a_table id)) }
{
    match register_of(registers, register)? {
        Value::Table(id) => Some(id),
        _ => None,
    }
}

/// Puts a value after an index of a table. `None`, with all as before, where there is no such table, and where memory runs out.
fn fill_behind(tables: &mut Pool<Table>, id: TableId, last: u8, item: Value) -> Option<()>
    ensures fills { IfSome result (λ _. FillsTable tables.old.objects tables.new.objects id last item) }
    ensures kept { IfNone result (tables.new.objects ≡ tables.old.objects) }
{
    law::tables_are_read();
    if id.0 >= tables.len() {
        return None;
    }
    let key = integer_behind(last as usize);
    put_row(tables.get_mut(id.0), key, item)
}

/// The integer after a place.
fn integer_behind(at: usize) -> Value
    requires { at < 2 ^ 63 - 1 }
    ensures { result ≡ Int (pos (at + 1)) }
{
    Value::Int(at as i64 + 1)
}

/// Puts a value at a key of a table, whatever its metatable is. `None`, with all as before, where memory runs out.
fn put_row(table: &mut Table, key: Value, item: Value) -> Option<()>
    ensures put { IfSome result (λ _. table.new ≡ with_field table.old key item) }
    ensures kept { IfNone result (table.new ≡ table.old) }
{
    let named = Key::of(key)?;
    table.set(named, item).ok()
}
