// Instructions that read a field (Lua 5.4's lopcodes.h, GETTABUP to GETFIELD, and SELF).
ghost use Rattle.std.specs.Prelude.{IsTrue};
ghost use Rattle.code_core.specs.declared.opcode.Opcode.TheVariants.{OpSelf};
ghost use Rattle.machine_arms_tables.specs.Leading.{IsSite, MayGet, MayGetAt};
ghost use Rattle.machine_arms_tables.specs.Named.{reads_field};

use crate::closure::set_register;
use crate::inherited::{Reach, field_within};
use crate::names::{key_of, object_of};
use crate::site::Site;
use code_core::Opcode;
use lua_heap::Cell;
use machine_arms_numbers::value_numbered;
use object_pool::Pool;
use table_core::{Table, Value};

/// GETTABUP to GETFIELD: R[A] := UpValue[B][K[C]], R[B][R[C]], R[B][C], R[B][K[C]].
#[inline(always)]
pub(crate) fn get_field(
    op: Opcode,
    site: Site,
    tables: &Pool<Table>,
    cells: &Pool<Cell>,
    registers: &mut [Value],
    reach: Reach,
) -> Option<usize>
    requires at { IsSite op site registers.old }
    requires form { IsTrue (reads_field op) }
    ensures { MayGetAt op site.entry tables.now.objects cells.now.objects registers.old registers.new result }
{
    let object = object_of(op, site, cells, registers)?;
    let key = key_of(op, site, registers);
    let v = field_within(site.strings, tables, object, key, reach)?;
    Some(site.store(registers, v))
}

/// SELF: R[A + 1] := R[B]; R[A] := R[B][RK(C)].
#[inline(always)]
pub(crate) fn get_method(
    site: Site,
    tables: &Pool<Table>,
    registers: &mut [Value],
    reach: Reach,
) -> Option<usize>
    requires { IsSite OpSelf site registers.old }
    ensures { MayGet OpSelf site.entry tables.now.objects registers.old registers.new result }
{
    let object = value_numbered(registers, site.word.b() as usize);
    let key = site.closure.operand(registers, site.word);
    let v = field_within(site.strings, tables, object, key, reach)?;
    let a = site.word.a() as usize;
    set_register(registers, a + 1, object);
    set_register(registers, a, v);
    Some(site.closure.next(site.pc))
}
