// The instruction that makes a table (Lua 5.4's lopcodes.h, NEWTABLE).
ghost use Rattle.std.specs.Prelude.{◌≡◌, ◌<◌, ℕ, List, IfSome, IfNone, length};
ghost use Rattle.code_core.specs.declared.opcode.Opcode.TheVariants.{NewTable};
ghost use Rattle.lua_heap.specs.declared.world.Cell.{Cell};
ghost use Rattle.machine_arms_tables.specs.Frame.{LeadsOn, code};
ghost use Rattle.machine_arms_tables.specs.Leading.{IsSite};
ghost use Rattle.machine_arms_tables.specs.Making.{AddsEmpty};

use crate::closure::set_register;
use crate::site::Site;
use object_pool::Pool;
use table_core::{Table, TableId, Value};

/// Puts an empty table behind the others, where there is room.
fn place_table(tables: &mut Pool<Table>) -> TableId
    requires { 0 < tables.old.spare }
    ensures id { result.0 ≡ length tables.old.objects }
    ensures added { AddsEmpty tables.old.objects tables.new.objects }
{
    let table = Table::new(tables.allocator());
    TableId(tables.place(table))
}

/// Puts an empty table behind the others. `None`, with all as before, where memory is wanting.
fn add_table(tables: &mut Pool<Table>) -> Option<TableId>
    ensures id { IfSome result (λ id. id.0 ≡ length tables.old.objects) }
    ensures added { IfSome result (λ _. AddsEmpty tables.old.objects tables.new.objects) }
    ensures kept { IfNone result (tables.new ≡ tables.old) }
{
    match tables.reserve(1) {
        Ok(()) => Some(place_table(tables)),
        Err(_) => None,
    }
}

/// NEWTABLE: R[A] := {}, and on behind the instruction after it. What the two tell of the table's size is passed over.
#[inline(always)]
pub(crate) fn new_table(
    site: Site,
    tables: &mut Pool<Table>,
    registers: &mut [Value],
) -> Option<usize>
    requires { IsSite NewTable site registers.old }
    ensures goes { IfSome result (λ to. (texts : List (List ℕ)) (cells : List Cell) → LeadsOn NewTable site.entry.word (code site.entry.closure texts) site.entry.pc to tables.old.objects tables.new.objects cells cells registers.old registers.new) }
    ensures tables { IfNone result (tables.new ≡ tables.old) }
    ensures registers { IfNone result (registers.new ≡ registers.old) }
{
    let id = add_table(tables)?;
    set_register(registers, site.word.a() as usize, Value::Table(id));
    Some(site.closure.behind_pair(site.pc))
}
