// Instructions that write a field (Lua 5.4's lopcodes.h, SETTABUP to SETFIELD).
ghost use Rattle.std.specs.Prelude.{IsTrue};
ghost use Rattle.machine_arms_tables.specs.Leading.{IsSite, MayPut};
ghost use Rattle.machine_arms_tables.specs.Named.{stores_field};

use crate::inherited::Reach;
use crate::names::{key_of, object_of};
use crate::site::Site;
use crate::unhandled::put_within;
use code_core::Opcode;
use lua_heap::Cell;
use object_pool::Pool;
use table_core::{Table, Value};

/// SETTABUP to SETFIELD: UpValue[A][K[B]] := RK(C), R[A][R[B]] := RK(C), R[A][B] := RK(C), R[A][K[B]] := RK(C).
#[inline(always)]
pub(crate) fn set_field(
    op: Opcode,
    site: Site,
    tables: &mut Pool<Table>,
    cells: &Pool<Cell>,
    registers: &[Value],
    reach: Reach,
) -> Option<usize>
    requires at { IsSite op site registers.now }
    requires form { IsTrue (stores_field op) }
    ensures { MayPut op site.entry tables.old tables.new cells.now.objects registers.now result }
{
    let object = object_of(op, site, cells, registers)?;
    let key = key_of(op, site, registers);
    let v = site.closure.operand(registers, site.word);
    put_within(site.strings, tables, object, key, v, reach)?;
    Some(site.closure.next(site.pc))
}
