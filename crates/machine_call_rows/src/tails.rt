// Calls of primitives with few arguments in place of the Lua frame on top (luaD_pretailcall of ldo.c).
ghost use Rattle.std.specs.Prelude.{◌≡◌, ◌+◌, ◌-◌, ◌<◌, ◌^◌, ℕ, [], IfNone, IfSome};
ghost use Rattle.code_core.specs.Prototype.{Prototype};
ghost use Rattle.instruction_forms.specs.Forms.{text_of};
ghost use Rattle.instruction_forms.specs.declared.form.Form.TheVariants.{TailCall};
ghost use Rattle.machine_core.specs.FrameRows.{expand};
ghost use Rattle.move_laws.specs.Memory.{InOrder, IsSafe, IsSound};
ghost use Rattle.machine_call_rows.specs.Primitives.{TailCallsPrimitive};

use crate::primitives::PrimitiveCall;
use lua_heap::World;
use machine_calls::drop_frame;

/// Does the call of `tail_call` where the value is a primitive that is given at most six arguments: the frame on top is gone, and the call is paid. The
/// arguments do not move yet. `None`, with all as before, where it is another value, where there are more arguments, and where the budget is spent.
pub fn tail_call_primitive(
    world: &mut World,
    budget: &mut u64,
    function: usize,
    count: usize,
    told: &mut PrimitiveCall,
) -> Option<()>
    requires sound { IsSound world.old }
    requires near { function + 1 < 2 ^ 64 }
    requires safe { (p : Prototype) (pc : ℕ) → IsSafe (expand (text_of p pc (TailCall function count))) [] world.old }
    ensures calls { IfSome result (λ _. TailCallsPrimitive world.old world.new budget.old function count told.new.number told.new.arguments) }
    ensures paid { IfSome result (λ _. budget.new ≡ budget.old - 1) }
    ensures kept { IfNone result ((world.new ≡ world.old) × (budget.new ≡ budget.old)) }
    ensures order { InOrder world.new }
    ensures rest { world.new ≡ record world.old { cells = world.new.cells; coros = world.new.coros } }
{
    told.see(world, *budget, function, count)?;
    drop_frame(world);
    *budget -= 1;
    Some(())
}
