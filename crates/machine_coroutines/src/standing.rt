// Coroutines that are made and that yield, and how they stand (lua_newthread, lua_yield and auxstatus of Lua 5.4's lstate.c, ldo.c and lcorolib.c).
ghost use Rattle.std.specs.Prelude.{◌≡◌, ◌<◌, ℕ, ◌∷◌, [], List, length, true, IfOk, OnErr};
ghost use Rattle.int_core.specs.Operations.{is_function};
ghost use Rattle.int_core.specs.Value.{Value as Meant, object, a_coroutine};
ghost use Rattle.machine_core.specs.Text.{Arg, arg};
ghost use Rattle.machine_core.specs.Moves.{create as creates, runs_main as is_main, see_running as sees_running, see_status as sees_status, status_of, suspend as suspends};
ghost use Rattle.lua_heap.specs.Cells.{CellsAreListed};
ghost use Rattle.lua_heap.specs.Plain.{coroutine, plain};
ghost use Rattle.lua_heap.specs.Reading.{value as meant};
ghost use Rattle.move_laws.specs.Memory.{HasStack, Makes};
ghost use Rattle.machine_coroutines.specs.Standing.{status_in};

use int_core::Allocated;
use lua_heap::{Coro, World, law};
use machine_moves::running;
use table_core::{CoroId, Value};

/// How a coroutine stands.
#[derive(Debug, Clone, Copy, PartialEq, Eq)]
pub enum Status {
    /// It has not begun, or has yielded.
    Suspended,
    Running,
    /// It has resumed another.
    Normal,
    Dead,
}

/// The running coroutine waits to be resumed, and the one that resumed it goes on. Says whether it is the main one.
pub fn suspend(world: &mut World) -> bool
    requires { HasStack world.old }
    ensures makes { (env : List Meant) → Makes world.old world.new suspends env [] result }
    ensures main { result ≡ is_main (plain world.old 0) }
    ensures listed { CellsAreListed world.old → CellsAreListed world.new }
    ensures rest { world.new ≡ record world.old { coros = world.new.coros; chain = world.new.chain } }
{
    let in_main = runs_main(world);
    world.suspend_running();
    in_main
}

/// Whether the main coroutine runs.
pub fn runs_main(world: &World) -> bool
    ensures { result ≡ is_main (plain world.now 0) }
{
    world.chain.len() == 1
}

/// A new coroutine, with a function as its body. A refusal changes nothing.
pub fn create(world: &mut World, body: Value) -> Allocated<CoroId>
    requires { is_function (meant world.old.strings body) ≡ true }
    ensures makes { IfOk result (λ id. (env : List Meant) (x : Arg) → arg env x ≡ meant world.old.strings body → Makes world.old world.new (creates x) env (object a_coroutine id.0 ∷ []) tt) }
    ensures running { HasStack world.old → HasStack world.new }
    ensures listed { CellsAreListed world.old → CellsAreListed world.new }
    ensures rest { world.new ≡ record world.old { coros = world.new.coros } }
    ensures err { OnErr result (world.new ≡ world.old) }
{
    law::cells_stay_listed();
    world.add_coro(Coro::Fresh(body))
}

/// How a coroutine stands.
pub fn see_status(world: &World, co: CoroId) -> Status
    requires { co.0 < length world.now.coros.objects }
    ensures { (env : List Meant) (x : Arg) → arg env x ≡ object a_coroutine co.0 → Makes world.now world.now (sees_status x) env [] (status_in result) }
{
    status_of(world.coros.get(co.0))
}

/// The coroutine that runs.
pub fn see_running(world: &World) -> CoroId
    requires { HasStack world.now }
    ensures { (env : List Meant) → Makes world.now world.now sees_running env (object a_coroutine result.0 ∷ []) tt }
{
    running(world)
}

/// How a coroutine stands.
fn status_of(coro: &Coro) -> Status
    ensures { (texts : List (List ℕ)) → status_in result ≡ status_of (coroutine texts coro.now) }
{
    match coro {
        Coro::Fresh(_) => Status::Suspended,
        Coro::Suspended(_) => Status::Suspended,
        Coro::Running(_) => Status::Running,
        Coro::Normal(_) => Status::Normal,
        Coro::Dead => Status::Dead,
        Coro::Failed { .. } => Status::Dead,
    }
}
