// Coroutines that resume each other: who runs, and who waits (lua_resume and lua_yield of ldo.c). A stack moves whole; no value is copied.
ghost use Rattle.std.specs.Prelude.{◌≡◌, ℕ, ◌<◌, List, Some, length, OnOk, OnErr, slice_get, slice_set};
ghost use Rattle.std.specs.Borrow.{sem};
ghost use Rattle.machine_core.specs.Moves.{awake, back_to_resumer, go_into, put_coroutine, suspend_running, wait_for_another};
ghost use Rattle.machine_core.specs.World.{in_progress, stack_of, Stack as RunningStack};
ghost use Rattle.int_core.specs.Value.{last};
ghost use Rattle.lua_stack.specs.Frames.{KeptStack};
ghost use Rattle.lua_heap.specs.declared.world.Coro.TheVariants.{Running};
ghost use Rattle.lua_heap.specs.Cells.{CellsAreListed, list_or_empty, open_cells_in};
ghost use Rattle.lua_heap.specs.Pausing.{paused, waiting};
ghost use Rattle.lua_heap.specs.Plain.{coroutine, plain};

use crate::world::{Coro, World};
use int_core::Allocated;
use lua_stack::Stack;
use std::alloc::Global;
use std::mem;
use table_core::CoroId;

/// What a coroutine that ran waits for.
#[derive(Debug, Clone, Copy, PartialEq, Eq)]
pub(crate) enum Pause {
    /// One that it resumes.
    ForAnother,
    /// To be resumed.
    ToBeResumed,
}

impl World {
    /// Puts a coroutine in the place of another.
    pub fn put_coroutine(&mut self, co: CoroId, coro: Coro)
        requires { co.0 < length self.old.coros.objects }
        ensures plain { (fuel : ℕ) → plain self.new fuel ≡ put_coroutine (plain self.old fuel) co.0 (coroutine self.old.strings coro) }
        ensures coros { self.new.coros.objects ≡ slice_set self.old.coros.objects co.0 coro }
        ensures rest { self.new ≡ record self.old { coros = self.new.coros } }
    {
        *self.coros.get_mut(co.0) = coro;
    }

    /// The running coroutine waits for one that it resumes.
    pub fn wait_for_another(&mut self)
        ensures plain { (fuel : ℕ) (s : RunningStack) → stack_of (plain self.old fuel) ≡ Some s → plain self.new fuel ≡ wait_for_another (plain self.old fuel) s }
        ensures listed { CellsAreListed self.old → CellsAreListed self.new }
        ensures rest { self.new ≡ record self.old { coros = self.new.coros } }
    {
        self.pause_running(Pause::ForAnother);
    }

    /// The running coroutine waits to be resumed, and the one that resumed it goes on.
    pub fn suspend_running(&mut self)
        ensures plain { (fuel : ℕ) (s : RunningStack) → stack_of (plain self.old fuel) ≡ Some s → plain self.new fuel ≡ suspend_running (plain self.old fuel) s }
        ensures listed { CellsAreListed self.old → CellsAreListed self.new }
        ensures rest { self.new ≡ record self.old { coros = self.new.coros; chain = self.new.chain } }
    {
        self.pause_running(Pause::ToBeResumed);
        self.back_to_resumer();
    }

    /// The last of the chain leaves it, and the one that resumed it goes on.
    pub fn back_to_resumer(&mut self)
        ensures plain { (fuel : ℕ) → plain self.new fuel ≡ back_to_resumer (plain self.old fuel) }
        ensures listed { CellsAreListed self.old → CellsAreListed self.new }
        ensures rest { self.new ≡ record self.old { coros = self.new.coros; chain = self.new.chain } }
    {
        self.chain.pop();
        if let Some(co) = self.top_of_chain() {
            if co.0 < self.coros.len() {
                wake(self.coros.get_mut(co.0), self.alloc);
            }
        }
    }

    /// Another coroutine runs, from where it stands. A refusal changes nothing.
    pub fn go_into(&mut self, co: CoroId) -> Allocated<()>
        requires { co.0 < length self.old.coros.objects }
        ensures plain { OnOk result ((fuel : ℕ) → plain self.new fuel ≡ go_into (plain self.old fuel) co.0 (awake (slice_get (plain self.old fuel).coroutines co.0))) }
        ensures listed { CellsAreListed self.old → CellsAreListed self.new }
        ensures rest { self.new ≡ record self.old { coros = self.new.coros; chain = self.new.chain } }
        ensures err { OnErr result ((fuel : ℕ) → plain self.new fuel ≡ plain self.old fuel) }
    {
        self.chain.push(co)?;
        wake(self.coros.get_mut(co.0), self.alloc);
        Ok(())
    }

    /// The running coroutine waits, and nobody runs.
    fn pause_running(&mut self, pause: Pause)
        ensures plain { (fuel : ℕ) (s : RunningStack) → stack_of (plain self.old fuel) ≡ Some s → plain self.new fuel ≡ put_coroutine (plain self.old fuel) s.coroutine (waiting pause s.frames) }
        ensures listed { CellsAreListed self.old → CellsAreListed self.new }
        ensures rest { self.new ≡ record self.old { coros = self.new.coros } }
    {
        if let Some(co) = self.top_of_chain() {
            if co.0 < self.coros.len() {
                set_aside(self.coros.get_mut(co.0), pause);
            }
        }
    }

    /// The coroutine that runs.
    pub(crate) fn top_of_chain(&self) -> Option<CoroId>
        ensures { result ≡ last self.now.chain.items }
    {
        self.chain.last().copied()
    }
}

impl Coro {
    ghost use Rattle.lua_heap.specs.Lending.{IsRunning, lends_stack};

    /// The stack of a coroutine that runs, for writing.
    pub fn stack_mut(&mut self) -> &mut Stack
        requires { IsRunning self.old }
        ensures* writes_back { sem 𝓛 (lends_stack self.entry result) }
        ensures value { self.old ≡ Running result.now }
    {
        match self {
            Coro::Running(stack) => stack,
            _ => unreachable!(),
        }
    }
}

/// A coroutine that runs waits.
fn set_aside(coro: &mut Coro, pause: Pause)
    ensures waits { (stack : KeptStack) → coro.old ≡ Running stack → coro.new ≡ paused pause stack }
    ensures cells { open_cells_in coro.new ≡ open_cells_in coro.old }
{
    match mem::replace(coro, Coro::Dead) {
        Coro::Running(stack) => match pause {
            Pause::ForAnother => *coro = Coro::Normal(stack),
            Pause::ToBeResumed => *coro = Coro::Suspended(stack),
        },
        other => *coro = other,
    }
}

/// A coroutine runs, with the frames that it has.
fn wake(coro: &mut Coro, alloc: Global)
    ensures runs { (texts : List (List ℕ)) → coroutine texts coro.new ≡ in_progress (awake (Some (coroutine texts coro.old))) }
    ensures cells { open_cells_in coro.new ≡ Some (list_or_empty (open_cells_in coro.old)) }
{
    match mem::replace(coro, Coro::Dead) {
        Coro::Suspended(stack) => *coro = Coro::Running(stack),
        Coro::Running(stack) => *coro = Coro::Running(stack),
        Coro::Normal(stack) => *coro = Coro::Running(stack),
        Coro::Fresh(_) => *coro = Coro::Running(Stack::new(alloc)),
        Coro::Dead => *coro = Coro::Running(Stack::new(alloc)),
        Coro::Failed { .. } => *coro = Coro::Running(Stack::new(alloc)),
    }
}
