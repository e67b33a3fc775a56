// The length operator (Lua 5.4's lopcodes.h, LEN; Lua 5.4 manual, 3.4.7).
ghost use Rattle.std.specs.Prelude.{◌≡◌, IfSome, None, pos, [], ◌∷◌};
ghost use Rattle.int_core.specs.Rows.{border};
ghost use Rattle.table_core.specs.Value.{lua_values};
ghost use Rattle.code_core.specs.declared.opcode.Opcode.TheVariants.{Len};
ghost use Rattle.int_core.specs.Operations.{length'};
ghost use Rattle.machine_arms_tables.specs.Fields.{Settles};
ghost use Rattle.machine_arms_tables.specs.Leading.{IsSite, MayGet};
ghost use Rattle.table_core.specs.declared.value.Value.TheVariants.{Int};

use crate::site::Site;
use lua_heap::{Strings, law};
use machine_arms_numbers::value_numbered;
use object_pool::Pool;
use table_core::{Table, Value};

/// The length of a string, or of a table without a metatable. `None` where a handler may decide it, and where it is an error.
#[inline(always)]
fn length_of(strings: &Strings, tables: &Pool<Table>, v: Value) -> Option<i64>
    ensures { IfSome result (λ n. Settles strings.now length' (v ∷ []) tables.now.objects tables.now.objects (Int n ∷ [])) }
{
    law::tables_are_read();
    match v {
        Value::Str(id) if id.0 < strings.len() => Some(strings.bytes(id).len() as i64),
        Value::Table(id) if id.0 < tables.len() => border_of(tables.get(id.0)),
        _ => None,
    }
}

/// The border of a table without a metatable.
#[inline(always)]
fn border_of(table: &Table) -> Option<i64>
    ensures border { IfSome result (λ n. n ≡ pos (border lua_values table.now.rows)) }
    ensures bare { IfSome result (λ _. table.now.metatable ≡ None) }
{
    if table.metatable().is_some() {
        return None;
    }
    Some(table.border())
}

/// LEN: R[A] := #R[B].
#[inline(always)]
pub(crate) fn get_length(site: Site, tables: &Pool<Table>, registers: &mut [Value]) -> Option<usize>
    requires { IsSite Len site registers.old }
    ensures { MayGet Len site.entry tables.now.objects registers.old registers.new result }
{
    let v = value_numbered(registers, site.word.b() as usize);
    let n = length_of(site.strings, tables, v)?;
    Some(site.store(registers, Value::Int(n)))
}
