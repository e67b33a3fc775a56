// What `load` gives (load_aux of lbaselib.c of Lua 5.4).
ghost use Rattle.std.specs.Prelude.{◌≡◌, ◌∷◌, [], ℕ, IfOk, OnErr, length};
ghost use Rattle.int_core.specs.Limits.{limited};
ghost use Rattle.int_core.specs.Value.{a_function, known, nil, object};
ghost use Rattle.lua_heap.specs.Plain.{plain};
ghost use Rattle.move_laws.specs.Memory.{HasStack, InOrder, IsSound, ReadsSame};
ghost use Rattle.machine_moves.specs.Ending.{ending_of};
ghost use Rattle.machine_loads.specs.Loading.{HandsOver, with_loaded};

use crate::making::make_function;
use code_core::Checked;
use int_core::Allocated;
use lua_heap::World;
use machine_moves::{Ending, give_values, hand_over};
use table_core::Value;

/// Gives a function of this code, with the environment among the values on their way. Where memory is wanting, all reads as before.
pub fn give_function(world: &mut World, code: Checked) -> Allocated<Ending>
    requires sound { IsSound world.old }
    requires running { HasStack world.old }
    ensures gives { IfOk result (λ ending. HandsOver (λ fuel. with_loaded (plain world.old fuel) code) (object a_function (length world.old.funcs.objects) ∷ []) world.new (ending_of ending)) }
    ensures order { InOrder world.new }
    ensures err { OnErr result (ReadsSame world.old world.new) }
{
    let mut answer = Vec::with_capacity(world.alloc, 1)?;
    let function = make_function(world, code)?;
    answer.push_reserved(Value::Func(function));
    give_values(world, answer);
    Ok(hand_over(world))
}

/// Gives nil and a text, or another text in place of one that is too long for a string. Where memory is wanting, all reads as before.
pub fn give_reason(world: &mut World, why: &[u8]) -> Allocated<Ending>
    requires sound { IsSound world.old }
    requires running { HasStack world.old }
    ensures gives { IfOk result (λ ending. HandsOver (plain world.old) (known nil ∷ limited why.now ∷ []) world.new (ending_of ending)) }
    ensures order { InOrder world.new }
    ensures err { OnErr result (ReadsSame world.old world.new) }
{
    let mut answer = Vec::with_capacity(world.alloc, 2)?;
    let text = world.limited(why)?;
    answer.push_reserved(Value::Nil);
    answer.push_reserved(text);
    give_values(world, answer);
    Ok(hand_over(world))
}
