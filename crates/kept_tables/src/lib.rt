//! That the tables of a world in memory are tables in the machine's meaning: no key stands twice, and nil has no row.
#![tactic(auto)]

ghost use Rattle.int_core.specs.Rows.{AreRows};
ghost use Rattle.int_core.specs.Value.{table_values};
ghost use Rattle.machine_sound.specs.Sound.{Each};
ghost use Rattle.lua_heap.specs.Plain.{plain};
ghost use Rattle.table_core.specs.Value.{lua_values};

use lua_heap::World;
use lua_heap::law::equality_is_raw;
use object_pool::Pool;
use table_core::Table;

/// No key of a table of this world stands twice or is nil (Lua 5.4 manual, 2.1), as its tables and its strings say one by one.
pub fn tables_are_kept(world: &World)
    ensures { Each (λ t. AreRows table_values t.rows) (plain world.now 0).heap.tables }
{
    equality_is_raw();
    world.strings.len();
    rows_are_kept(&world.tables);
}

/// The same of tables as they are kept.
fn rows_are_kept(tables: &Pool<Table>)
    ensures { Each (λ t. AreRows lua_values t.rows) tables.now.objects }
{
    for at in 0..tables.len() {
        tables.get(at).rows();
    }
}
