// The instructions of one frame, by their opcodes.
ghost use Rattle.std.specs.Prelude.{◌≡◌, IfSome, IfNone};
ghost use Rattle.machine_arms_tables.specs.Frame.{Leads, LeadsOn, code, moment};
ghost use Rattle.machine_arms_tables.specs.Leading.{IsSite, code_at};
ghost use Rattle.machine_view.specs.View.{IsAt};

use crate::closure::Closure;
use crate::comparing::compare;
use crate::inherited::Reach;
use crate::lengths::get_length;
use crate::making::new_table;
use crate::reads::{get_field, get_method};
use crate::site::Site;
use crate::upvalues::{get_upvalue, set_upvalue};
use crate::writes::set_field;
use code_core::{Instruction, Opcode};
use lua_heap::{Cell, Strings};
use object_pool::Pool;
use table_core::{Table, Value};

/// Does an instruction on the registers of its frame, on tables and on closed cells, and answers where the frame goes on. `None`, with all as
/// before, where it takes more than that: a call, a handler (but that tables lead a SELF to its method), an error, an open cell, a spent budget, memory that is
/// wanting.
#[inline(always)]
pub fn run_instruction(
    op: Opcode,
    closure: Closure,
    strings: &Strings,
    tables: &mut Pool<Table>,
    cells: &mut Pool<Cell>,
    registers: &mut [Value],
    i: Instruction,
    pc: usize,
    fuel: &mut u64,
) -> Option<usize>
    requires { IsAt op i closure.words.now closure.constants.now registers.old pc }
    ensures goes { IfSome result (λ to. Leads op i (code closure.entry strings.now) (moment tables.old.objects cells.old.objects registers.old pc fuel.old) (moment tables.new.objects cells.new.objects registers.new to fuel.new)) }
    ensures tables { IfNone result (tables.new ≡ tables.old) }
    ensures cells { IfNone result (cells.new ≡ cells.old) }
    ensures registers { IfNone result (registers.new ≡ registers.old) }
    ensures unpaid { IfNone result (fuel.new ≡ fuel.old) }
{
    let done = machine_arms_numbers::run_instruction(
        op,
        closure.words,
        closure.constants,
        registers,
        i,
        pc,
        fuel,
    );
    let site = Site {
        closure,
        strings,
        word: i,
        pc,
    };
    match done {
        Some(to) => Some(to),
        None => run_on_objects(op, site, tables, cells, registers),
    }
}

/// Does an instruction on tables and on closed cells.
#[inline(always)]
fn run_on_objects(
    op: Opcode,
    site: Site,
    tables: &mut Pool<Table>,
    cells: &mut Pool<Cell>,
    registers: &mut [Value],
) -> Option<usize>
    requires { IsSite op site registers.old }
    ensures goes { IfSome result (λ to. LeadsOn op site.entry.word (code_at site.entry) site.entry.pc to tables.old.objects tables.new.objects cells.old.objects cells.new.objects registers.old registers.new) }
    ensures tables { IfNone result (tables.new ≡ tables.old) }
    ensures cells { IfNone result (cells.new ≡ cells.old) }
    ensures registers { IfNone result (registers.new ≡ registers.old) }
{
    let own = Reach::Own;
    match op {
        Opcode::GetUpval => get_upvalue(site, cells, registers),
        Opcode::SetUpval => set_upvalue(site, cells, registers),
        Opcode::GetTabUp => get_field(Opcode::GetTabUp, site, tables, cells, registers, own),
        Opcode::GetTable => get_field(Opcode::GetTable, site, tables, cells, registers, own),
        Opcode::GetI => get_field(Opcode::GetI, site, tables, cells, registers, own),
        Opcode::GetField => get_field(Opcode::GetField, site, tables, cells, registers, own),
        Opcode::SetTabUp => set_field(Opcode::SetTabUp, site, tables, cells, registers, own),
        Opcode::SetTable => set_field(Opcode::SetTable, site, tables, cells, registers, own),
        Opcode::SetI => set_field(Opcode::SetI, site, tables, cells, registers, own),
        Opcode::SetField => set_field(Opcode::SetField, site, tables, cells, registers, own),
        // Most methods are those of a class, so handlers are followed at once.
        Opcode::OpSelf => get_method(site, tables, registers, Reach::Inherited),
        Opcode::Len => get_length(site, tables, registers),
        Opcode::NewTable => new_table(site, tables, registers),
        _ => None,
    }
}

/// Reads a field that the value has itself or that handlers which are tables lead to, or compares two tables or two strings, and answers where the frame goes on.
/// `None`, with all as before, at any other instruction, as SELF, whose arm does so itself, where a handler is to be called, and where it is an error.
#[inline(never)]
pub fn settle_beyond(
    op: Opcode,
    closure: Closure,
    strings: &Strings,
    tables: &Pool<Table>,
    cells: &Pool<Cell>,
    registers: &mut [Value],
    i: Instruction,
    pc: usize,
) -> Option<usize>
    requires { IsAt op i closure.words.now closure.constants.now registers.old pc }
    ensures goes { IfSome result (λ to. LeadsOn op i (code closure.entry strings.now) pc to tables.now.objects tables.now.objects cells.now.objects cells.now.objects registers.old registers.new) }
    ensures kept { IfNone result (registers.new ≡ registers.old) }
{
    let site = Site {
        closure,
        strings,
        word: i,
        pc,
    };
    let far = Reach::Inherited;
    match op {
        Opcode::GetTabUp => get_field(Opcode::GetTabUp, site, tables, cells, registers, far),
        Opcode::GetTable => get_field(Opcode::GetTable, site, tables, cells, registers, far),
        Opcode::GetI => get_field(Opcode::GetI, site, tables, cells, registers, far),
        Opcode::GetField => get_field(Opcode::GetField, site, tables, cells, registers, far),
        Opcode::Eq => compare(Opcode::Eq, site, tables, registers),
        Opcode::Lt => compare(Opcode::Lt, site, tables, registers),
        Opcode::Le => compare(Opcode::Le, site, tables, registers),
        _ => None,
    }
}

/// Puts a value into a field of a table whose metatable has no handler for stores, and answers where the frame goes on. `None`, with all as before, at any other
/// instruction, where a handler decides it, where it is an error, and where memory is wanting.
#[inline(never)]
pub fn store_beyond(
    op: Opcode,
    closure: Closure,
    strings: &Strings,
    tables: &mut Pool<Table>,
    cells: &Pool<Cell>,
    registers: &[Value],
    i: Instruction,
    pc: usize,
) -> Option<usize>
    requires { IsAt op i closure.words.now closure.constants.now registers.now pc }
    ensures goes { IfSome result (λ to. LeadsOn op i (code closure.entry strings.now) pc to tables.old.objects tables.new.objects cells.now.objects cells.now.objects registers.now registers.now) }
    ensures kept { IfNone result (tables.new ≡ tables.old) }
{
    let site = Site {
        closure,
        strings,
        word: i,
        pc,
    };
    let far = Reach::Inherited;
    match op {
        Opcode::SetTabUp => set_field(Opcode::SetTabUp, site, tables, cells, registers, far),
        Opcode::SetTable => set_field(Opcode::SetTable, site, tables, cells, registers, far),
        Opcode::SetI => set_field(Opcode::SetI, site, tables, cells, registers, far),
        Opcode::SetField => set_field(Opcode::SetField, site, tables, cells, registers, far),
        _ => None,
    }
}
