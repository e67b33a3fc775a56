// Numerical loops (FORPREP and FORLOOP of lopcodes.h; forprep and floatforloop of lvm.c).
ghost use Rattle.std.specs.Prelude.{◌≡◌, ◌≢◌, ◌+◌, ◌<◌, ◌^◌, ℕ, List, [], Some, pos, codes, IfOk, IfSome, IfNone, OnErr};
ghost use Rattle.code_core.specs.Prototype.{Prototype};
ghost use Rattle.int_core.specs.Value.{Value as Meant};
ghost use Rattle.machine_core.specs.FrameRows.{expand};
ghost use Rattle.machine_core.specs.Text.{raise as raises};
ghost use Rattle.machine_core.specs.InstructionRows.{back, goes_round, starts, writes_integer};
ghost use Rattle.machine_core.specs.Moves.{go};
ghost use Rattle.instruction_forms.specs.Forms.{text_of};
ghost use Rattle.instruction_forms.specs.declared.form.Form.TheVariants.{Loop, StartLoop};
ghost use Rattle.move_laws.specs.Memory.{InOrder, IsSafe, IsSound, Leads, StandsAt, Steps};
ghost use Rattle.machine_moves.specs.Ending.{ending_of};
ghost use Rattle.machine_loops.specs.Loops.{MayRead, MayDo, ReadsLoop};

use crate::jumps::go_back;
use int_core::{Allocated, add, sub};
use lua_heap::World;
use machine_arms_numbers::{further_rounds, has_round, integer};
use machine_errors::raise;
use machine_moves::{Ending, go_to, pay, read_register, write_register};
use machine_rows::go_on;
use table_core::Value;

/// The first three registers of a loop, where they are integers: before its first round the initial value, the limit and the step, then the variable,
/// the count of further rounds and the step.
#[derive(Debug, Clone, Copy)]
pub struct LoopValues {
    first: Option<i64>,
    second: Option<i64>,
    third: Option<i64>,
}

/// The loop has its first round, or is passed over. A refusal changes nothing.
pub fn start_loop(world: &mut World, pc: usize, base: usize, by: usize) -> Allocated<Ending>
    requires sound { IsSound world.old }
    requires at { StandsAt world.old pc }
    requires room { pc < 2 ^ 63 }
    requires near { base + 4 < 2 ^ 64 }
    requires ahead { by < 2 ^ 32 }
    requires safe { (p : Prototype) → IsSafe (expand (text_of p pc (StartLoop base by))) [] world.old }
    ensures leads { IfOk result (λ ending. (p : Prototype) → Leads (expand (text_of p pc (StartLoop base by))) [] world.old world.new (ending_of ending)) }
    ensures order { InOrder world.new }
    ensures err { OnErr result (world.new ≡ world.old) }
{
    let values = loop_values(world, base);
    let Some(limit) = values.second else {
        return raise(world, b"'for' limit must be a number");
    };
    let Some(step) = values.third else {
        return raise(world, b"'for' step must be a number");
    };
    let Some(from) = values.first else {
        return raise(world, b"'for' initial value must be a number");
    };
    if step == 0 {
        return raise(world, b"'for' step is zero");
    }
    begin(world, pc, base, by, from, limit, step);
    Ok(Ending::Go)
}

/// The count of further rounds and the variable are written, or the frame goes on behind the loop.
fn begin(world: &mut World, pc: usize, base: usize, by: usize, from: i64, limit: i64, step: i64)
    requires at { StandsAt world.old pc }
    requires room { pc < 2 ^ 63 }
    requires near { base + 4 < 2 ^ 64 }
    requires ahead { by < 2 ^ 32 }
    requires order { InOrder world.old }
    requires step { step ≢ pos 0 }
    requires safe { MayDo world.old (starts base by from limit step) }
    ensures leads { (env : List Meant) → Leads (expand (starts base by from limit step)) env world.old world.new go }
    ensures order { InOrder world.new }
{
    if !has_round(from, limit, step) {
        go_to(world, pc + (by + 2));
        return;
    }
    let count = further_rounds(from, limit, step);
    write_register(world, base + 1, Value::Int(count));
    write_register(world, base + 3, Value::Int(from));
    go_to(world, pc + 1);
}

/// A further round of the loop, which costs a unit, or its end. A refusal changes nothing.
pub fn go_round(
    world: &mut World,
    budget: &mut u64,
    pc: usize,
    base: usize,
    by: usize,
) -> Allocated<Ending>
    requires sound { IsSound world.old }
    requires at { StandsAt world.old pc }
    requires room { pc < 2 ^ 63 }
    requires near { base + 4 < 2 ^ 64 }
    requires safe { (p : Prototype) → IsSafe (expand (text_of p pc (Loop base by))) [] world.old }
    ensures steps { IfOk result (λ ending. (p : Prototype) → Steps (expand (text_of p pc (Loop base by))) [] world.old budget.old world.new budget.new (ending_of ending)) }
    ensures order { InOrder world.new }
    ensures err { OnErr result (world.new ≡ world.old) }
    ensures unpaid { OnErr result (budget.new ≡ budget.old) }
{
    let Some(round) = round_of(loop_values(world, base)) else {
        return raise(world, b"'for' registers are not integers");
    };
    if round.left == 0 {
        go_on(world, pc);
        return Ok(Ending::Go);
    }
    if !pay(budget) {
        return Ok(Ending::Spent);
    }
    let next = add(round.at, round.step);
    let left = sub(round.left, 1);
    next_round(world, pc, base, by, next, left);
    Ok(Ending::Go)
}

/// The variable, how many rounds are left, and the step.
#[derive(Debug, Clone, Copy)]
struct Round {
    at: i64,
    left: i64,
    step: i64,
}

/// The registers of a loop that goes round, where all are integers.
fn round_of(values: LoopValues) -> Option<Round>
    ensures at { IfSome result (λ round. values.first ≡ Some round.at) }
    ensures left { IfSome result (λ round. values.second ≡ Some round.left) }
    ensures step { IfSome result (λ round. values.third ≡ Some round.step) }
    ensures none { IfNone result ((base by : ℕ) → goes_round base by values.first values.second values.third ≡ raises (codes "'for' registers are not integers")) }
{
    let at = values.first?;
    let left = values.second?;
    let step = values.third?;
    Some(Round { at, left, step })
}

/// The variable and the count are written, and the frame goes back.
fn next_round(world: &mut World, pc: usize, base: usize, by: usize, next: i64, left: i64)
    requires at { StandsAt world.old pc }
    requires room { pc < 2 ^ 63 }
    requires near { base + 4 < 2 ^ 64 }
    requires order { InOrder world.old }
    requires safe { MayDo world.old (writes_integer (base + 1) left (writes_integer base next (writes_integer (base + 3) next (back by)))) }
    ensures leads { (env : List Meant) → Leads (expand (writes_integer (base + 1) left (writes_integer base next (writes_integer (base + 3) next (back by))))) env world.old world.new go }
    ensures order { InOrder world.new }
{
    write_register(world, base + 1, Value::Int(left));
    write_register(world, base, Value::Int(next));
    write_register(world, base + 3, Value::Int(next));
    go_back(world, pc, by);
}

/// The first three registers of a loop.
fn loop_values(world: &World, base: usize) -> LoopValues
    requires near { base + 4 < 2 ^ 64 }
    requires safe { MayRead world.now base }
    ensures { ReadsLoop world.now base result.first result.second result.third }
{
    let first = read_register(world, base);
    let second = read_register(world, base + 1);
    let third = read_register(world, base + 2);
    LoopValues {
        first: integer(first),
        second: integer(second),
        third: integer(third),
    }
}
