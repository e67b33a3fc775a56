// Coroutines that are resumed (luaB_coresume and auxresume of lcorolib.c, lua_resume of ldo.c).
ghost use Rattle.std.specs.Prelude.{◌≡◌, ◌≤◌, [], drop, length, IfOk, OnErr};
ghost use Rattle.int_core.specs.Limits.{greatest_resumes};
ghost use Rattle.int_core.specs.Value.{a_coroutine, greatest_string, object};
ghost use Rattle.lua_heap.specs.declared.world.Coro.TheVariants.{Fresh};
ghost use Rattle.machine_core.specs.MachineStep.{resume_row};
ghost use Rattle.move_laws.specs.Memory.{HasStack, InOrder, IsSound, Leads, ReadsSame};
ghost use Rattle.machine_moves.specs.Ending.{ending_of};
ghost use Rattle.lib_coroutine.specs.Arguments.{FirstIs, IsCalledOn};
ghost use Rattle.lib_coroutine.specs.Resuming.{IsRefused, IsSuspended, resumption_of};

use crate::beginning::begin;
use crate::switching::run_suspended;
use lua_heap::{Coro, World};
use machine_moves::{Ending, give_values, hand_over};
use std::alloc::AllocError;
use table_core::{CoroId, Value};

/// How many coroutines may have resumed each other, beside the main one.
const GREATEST_RESUMES: usize = 200;

/// What comes of resuming a coroutine.
#[derive(Debug, Clone, Copy, PartialEq, Eq)]
enum Resumption {
    /// It begins with its body.
    Begins(Value),
    /// It goes on where it has yielded.
    GoesOn,
    /// As many have resumed each other as may.
    TooMany,
    /// It runs, or has resumed another.
    NotSuspended,
    Dead,
}

/// Resumes a coroutine.
pub(crate) fn resume_coroutine(world: &mut World, co: CoroId) -> Result<Ending, AllocError>
    requires { IsCalledOn world.old co }
    ensures leads { IfOk result (λ ending. Leads resume_row [] world.old world.new (ending_of ending)) }
    ensures order { InOrder world.new }
    ensures err { OnErr result (ReadsSame world.old world.new) }
{
    match outcome_of(world.coros.get(co.0), world.chain.len()) {
        Resumption::Begins(body) => begin(world, co, body),
        Resumption::GoesOn => go_on(world, co),
        Resumption::TooMany => answer_refusal(world, co, b"too many nested resumes"),
        Resumption::NotSuspended => {
            answer_refusal(world, co, b"cannot resume non-suspended coroutine")
        }
        Resumption::Dead => answer_refusal(world, co, b"cannot resume dead coroutine"),
    }
}

/// What comes of resuming a coroutine, where so many have resumed each other.
fn outcome_of(coro: &Coro, resumed: usize) -> Resumption
    ensures { result ≡ resumption_of coro.now resumed }
{
    match coro {
        Coro::Running(_) => Resumption::NotSuspended,
        Coro::Normal(_) => Resumption::NotSuspended,
        Coro::Dead => Resumption::Dead,
        Coro::Failed { .. } => Resumption::Dead,
        Coro::Fresh(_) if resumed > GREATEST_RESUMES => Resumption::TooMany,
        Coro::Fresh(body) => Resumption::Begins(*body),
        Coro::Suspended(_) if resumed > GREATEST_RESUMES => Resumption::TooMany,
        Coro::Suspended(_) => Resumption::GoesOn,
    }
}

/// A coroutine that has yielded goes on with the arguments.
fn go_on(world: &mut World, co: CoroId) -> Result<Ending, AllocError>
    requires sound { IsSound world.old }
    requires running { HasStack world.old }
    requires first { FirstIs world.old (object a_coroutine co.0) }
    requires suspended { IsSuspended world.old co }
    requires few { length world.old.chain.items ≤ greatest_resumes }
    ensures leads { IfOk result (λ ending. Leads resume_row [] world.old world.new (ending_of ending)) }
    ensures order { InOrder world.new }
    ensures err { OnErr result (ReadsSame world.old world.new) }
{
    world.chain.reserve(1)?;
    run_suspended(world, co);
    drop_first(&mut world.moving);
    Ok(hand_over(world))
}

/// Takes the first value away, if there is one.
fn drop_first(values: &mut Vec<Value>)
    ensures { values.new.items ≡ drop 1 values.old.items }
{
    if values.is_empty() {
        return;
    }
    values.remove(0);
}

/// A coroutine that cannot be resumed: the answer is false, and why.
fn answer_refusal(world: &mut World, co: CoroId, text: &'static [u8]) -> Result<Ending, AllocError>
    requires sound { IsSound world.old }
    requires running { HasStack world.old }
    requires first { FirstIs world.old (object a_coroutine co.0) }
    requires refused { IsRefused world.old co text.now }
    requires short { length text.now ≤ greatest_string }
    ensures leads { IfOk result (λ ending. Leads resume_row [] world.old world.new (ending_of ending)) }
    ensures order { InOrder world.new }
    ensures err { OnErr result (world.new ≡ world.old) }
{
    let mut answer = Vec::with_capacity(world.alloc, 2)?;
    let reason = world.intern(text)?;
    answer.push_reserved(Value::Bool(false));
    answer.push_reserved(Value::Str(reason));
    give_values(world, answer);
    Ok(hand_over(world))
}

/// The values behind the first one.
pub(crate) fn behind_first(values: &[Value]) -> &[Value]
    ensures { result.now ≡ drop 1 values.now }
{
    values.get(1..).unwrap_or_default()
}
