// New objects.
ghost use Rattle.std.specs.Prelude.{◌≡◌, ℕ, [], ◌∷◌, List, true, IfOk, OnErr};
ghost use Rattle.int_core.specs.Value.{Value as Meant, object, a_table};
ghost use Rattle.machine_core.specs.Text.{make_table as makes_one};
ghost use Rattle.machine_core.specs.Moves.{outside};
ghost use Rattle.move_laws.specs.Memory.{HasFrame, Makes, StandsAt};

use int_core::Allocated;
use lua_heap::World;
use table_core::{Table, TableId};

/// A new table, without a field. A refusal changes nothing.
pub fn make_table(world: &mut World) -> Allocated<TableId>
    requires { HasFrame world.old }
    ensures makes { IfOk result (λ id. (env : List Meant) → Makes world.old world.new (outside makes_one) env (object a_table id.0 ∷ []) true) }
    ensures at { (pc : ℕ) → StandsAt world.old pc → StandsAt world.new pc }
    ensures rest { world.new ≡ record world.old { tables = world.new.tables } }
    ensures err { OnErr result (world.new ≡ world.old) }
{
    let table = Table::new(world.alloc);
    world.add_table(table)
}
