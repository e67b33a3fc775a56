// The main coroutine is resumed (lua_resume of Lua's ldo.c).
ghost use Rattle.std.specs.Prelude.{◌≡◌, Some, IfOk, slice_get};
ghost use Rattle.lua_heap.specs.declared.world.Coro.TheVariants.{Fresh};
ghost use Rattle.lua_heap.specs.Plain.{plain};
ghost use Rattle.machine_moves.specs.Ending.{ending_of};
ghost use Rattle.machine_runs.specs.Laws.{MayTurn};
ghost use Rattle.move_laws.specs.Memory.{InOrder, IsSound};
ghost use Rattle.lua_session.specs.Resuming.{HasYielded, Resumes, body_in};

use int_core::Allocated;
use lua_heap::{Coro, World};
use machine_calls::{Called, enter_callee};
use machine_moves::{Ending, hand_over, take_moving};
use table_core::{CoroId, Value};

/// Resumes the main coroutine with what moves: a script begins, or goes on where it has yielded. The ending says what is to be done next.
///
/// # Errors
///
/// Want of memory. The world is in order then, but the script cannot be resumed any more.
pub fn resume_main(world: &mut World) -> Allocated<Ending>
    requires sound { IsSound world.old }
    requires may { MayTurn (plain world.old 0) }
    ensures resumes { IfOk result (λ ending. Resumes world.old world.new (ending_of ending)) }
    ensures order { InOrder world.new }
{
    let Some(main) = world.main else {
        unreachable!()
    };
    match body_of(world.coros.get(main.0)) {
        Some(body) => begin_main(world, main, body),
        None => go_on_main(world, main),
    }
}

/// The function that a coroutine is to begin with, where it has not begun.
fn body_of(coro: &Coro) -> Option<Value>
    ensures { result ≡ body_in coro.now }
{
    match coro {
        Coro::Fresh(body) => Some(*body),
        _ => None,
    }
}

/// The main coroutine begins with its function, which is called with what moves, without a unit of the budget.
fn begin_main(world: &mut World, main: CoroId, body: Value) -> Allocated<Ending>
    requires sound { IsSound world.old }
    requires main { world.old.main ≡ Some main }
    requires fresh { slice_get world.old.coros.objects main.0 ≡ Some (Fresh body) }
    ensures resumes { IfOk result (λ ending. Resumes world.old world.new (ending_of ending)) }
    ensures order { InOrder world.new }
{
    let arguments = take_moving(world);
    world.go_into(main)?;
    let called = enter_callee(world, body, arguments)?;
    match called {
        Called::Function => Ok(hand_over(world)),
        Called::Primitive(number) => Ok(Ending::CallsPrimitive(number)),
        _ => unreachable!(),
    }
}

/// It goes on where it has yielded, and gets what moves.
fn go_on_main(world: &mut World, main: CoroId) -> Allocated<Ending>
    requires sound { IsSound world.old }
    requires main { world.old.main ≡ Some main }
    requires yielded { HasYielded world.old main }
    ensures resumes { IfOk result (λ ending. Resumes world.old world.new (ending_of ending)) }
    ensures order { InOrder world.new }
{
    let arguments = take_moving(world);
    world.go_into(main)?;
    world.moving = arguments;
    Ok(hand_over(world))
}
