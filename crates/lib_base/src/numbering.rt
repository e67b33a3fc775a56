// New tables of values at whole numbers, and how many of them count at `n`.
ghost use Rattle.std.specs.Prelude.{◌≡◌, ◌≤◌, IfOk, None, codes, map};
ghost use Rattle.int_core.specs.Value.{known, string};
ghost use Rattle.lua_heap.specs.Reading.{row, value};
ghost use Rattle.lib_base.specs.Numbering.{numbered_rows};

use crate::raw::reads_alike;
use lua_heap::World;
use pure_functions::argument;
use std::alloc::AllocError;
use table_core::{Key, Table, Value};

/// A table of values at `first`, which is 0 or 1, and the integers behind it. At `name`, which is the string `n`, is the last of these.
pub(crate) fn numbered_table(
    world: &World,
    values: &[Value],
    first: usize,
    name: Value,
) -> Result<Table, AllocError>
    requires low { first ≤ 1 }
    requires named { value world.now.strings name ≡ known (string (codes "n")) }
    ensures rows { IfOk result (λ table. map (row world.now.strings) table.rows ≡ numbered_rows first (map (value world.now.strings) values.now)) }
    ensures metatable { IfOk result (λ table. table.metatable ≡ None) }
{
    reads_alike(world);
    let mut table = Table::new(world.alloc);
    for at in 0..values.len() {
        let key = Key::of(Value::Int((at + first) as i64)).unwrap();
        table.set(key, argument(values, at))?;
    }
    let last = (values.len() + first).saturating_sub(1);
    table.set(Key::of(name).unwrap(), Value::Int(last as i64))?;
    Ok(table)
}
