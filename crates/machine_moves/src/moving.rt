// The values on their way.
ghost use Rattle.std.specs.Prelude.{◌≡◌, [], ◌∷◌, ◌++◌, ℕ, List, map, drop, IfOk};
ghost use Rattle.int_core.specs.Value.{Value as Meant};
ghost use Rattle.lua_heap.specs.Reading.{value as meant};
ghost use Rattle.machine_core.specs.Text.{Arg, args_of};
ghost use Rattle.machine_core.specs.Moves.{give, give_with};
ghost use Rattle.machine_core.specs.Moves.{take_moving as takes};
ghost use Rattle.move_laws.specs.Memory.{Makes};

use int_core::Allocated;
use lua_heap::World;
use std::alloc::Global;
use std::mem;
use table_core::Value;

/// Takes the values on their way.
pub fn take_moving(world: &mut World) -> Vec<Value>
    ensures makes { (env : List Meant) → Makes world.old world.new takes env (map (meant world.old.strings) result.items) tt }
    ensures values { result.items ≡ world.old.moving.items }
    ensures rest { world.new ≡ record world.old { moving = world.new.moving } }
{
    let alloc = world.alloc;
    mem::replace(&mut world.moving, Vec::new(alloc))
}

/// Sends values on their way: arguments, results or one error.
pub fn give_values(world: &mut World, values: Vec<Value>)
    ensures all { (env : List Meant) (xs : List Arg) → args_of env xs ≡ map (meant world.old.strings) values.items → Makes world.old world.new (give xs) env [] tt }
    ensures more { (env : List Meant) (xs : List Arg) (slot : ℕ) → args_of env xs ++ drop slot env ≡ map (meant world.old.strings) values.items → Makes world.old world.new (give_with xs slot) env [] tt }
    ensures rest { world.new ≡ record world.old { moving = world.new.moving } }
{
    world.moving = values;
}

/// Values with others in front.
pub fn put_in_front(alloc: Global, front: &[Value], values: &[Value]) -> Allocated<Vec<Value>>
    ensures { IfOk result (λ all. all.items ≡ front.now ++ values.now) }
{
    let mut all = Vec::with_capacity(alloc, front.len().saturating_add(values.len()))?;
    all.extend_from_slice(front)?;
    all.extend_from_slice(values)?;
    Ok(all)
}
