// Variables that are marked as to be closed (OP_TBC and OP_TFORPREP of lvm.c, luaF_newtbcupval of lfunc.c).
ghost use Rattle.std.specs.Prelude.{◌≡◌, ◌+◌, ◌<◌, ◌^◌, ℕ, [], IfOk, List, OnErr, Some};
ghost use Rattle.int_core.specs.Value.{Value as Meant, holds, shape};
ghost use Rattle.instruction_forms.specs.Forms.{text_of};
ghost use Rattle.instruction_forms.specs.declared.form.Form.TheVariants.{Mark};
ghost use Rattle.lua_heap.specs.Plain.{plain};
ghost use Rattle.lua_heap.specs.Reading.{value as meant};
ghost use Rattle.machine_core.specs.World.{Place, place_of};
ghost use Rattle.machine_core.specs.FrameRows.{expand, raises};
ghost use Rattle.move_laws.specs.Memory.{InOrder, IsSafe, IsSound, Leads, StandsAt, StandsSound};
ghost use Rattle.machine_moves.specs.Ending.{ending_of};
ghost use Rattle.machine_returns.specs.Names.{open_text};
ghost use Rattle.machine_returns.specs.Marking.{MayMark, marked};

use crate::closables::is_closable;
use crate::names::not_closable;
use int_core::Allocated;
use lua_heap::World;
use machine_errors::raise;
use machine_moves::{Ending, go_to, mark_pending, read_register};
use table_core::Value;

/// The variable in a register is to be closed where its block ends, unless it is nil or false; one that has no closing method is an error (Lua 5.4 manual,
/// 3.3.8). The frame goes on so far ahead of `pc`. A refusal changes nothing.
pub fn mark(world: &mut World, pc: usize, register: usize, ahead: usize) -> Allocated<Ending>
    requires stands { StandsSound world.old pc ahead }
    requires safe { (place : Place) → place_of (plain world.old 0) ≡ Some place → IsSafe (expand (text_of place.function.code pc (Mark register ahead))) [] world.old }
    ensures leads { IfOk result (λ ending. (place : Place) → place_of (plain world.old 0) ≡ Some place → Leads (expand (text_of place.function.code pc (Mark register ahead))) [] world.old world.new (ending_of ending)) }
    ensures order { InOrder world.new }
    ensures err { OnErr result (world.new ≡ world.old) }
{
    let v = read_register(world, register);
    if !counts_as_true(v) {
        go_to(world, pc + ahead);
        return Ok(Ending::Go);
    }
    if !is_closable(world, v) {
        return refuse(world, pc, register);
    }
    mark_register(world, pc, register, ahead)
}

/// The register is pending from now on.
fn mark_register(world: &mut World, pc: usize, register: usize, ahead: usize) -> Allocated<Ending>
    requires order { InOrder world.old }
    requires at { StandsAt world.old pc }
    requires room { pc + ahead < 2 ^ 64 }
    requires safe { MayMark world.old register ahead }
    ensures leads { IfOk result (λ ending. (env : List Meant) → Leads (expand (marked register ahead)) env world.old world.new (ending_of ending)) }
    ensures order { InOrder world.new }
    ensures err { OnErr result (world.new ≡ world.old) }
{
    mark_pending(world, register)?;
    go_to(world, pc + ahead);
    Ok(Ending::Go)
}

/// The variable in a register cannot be closed.
fn refuse(world: &mut World, pc: usize, register: usize) -> Allocated<Ending>
    requires sound { IsSound world.old }
    requires at { StandsAt world.old pc }
    ensures leads { IfOk result (λ ending. (place : Place) → place_of (plain world.old 0) ≡ Some place → (env : List Meant) → Leads (raises (open_text place.function.code pc register)) env world.old world.new (ending_of ending)) }
    ensures order { InOrder world.new }
    ensures err { OnErr result (world.new ≡ world.old) }
{
    let text = not_closable(world, pc, register)?;
    raise(world, &text)
}

/// Whether a value counts as true (Lua 5.4 manual, 3.3.4).
fn counts_as_true(v: Value) -> bool
    ensures { (texts : List (List ℕ)) → result ≡ holds (shape (meant texts v)) }
{
    match v {
        Value::Nil => false,
        Value::Bool(truth) => truth,
        _ => true,
    }
}
