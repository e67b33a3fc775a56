// What becomes of the value of an operation (luaV_finishOp of lvm.c).
ghost use Rattle.std.specs.Prelude.{◌≡◌, ◌+◌, ◌<◌, ◌≤◌, ◌^◌, List, Some, cond, map, pos};
ghost use Rattle.int_core.specs.Value.{Value as Meant, same_truth};
ghost use Rattle.instruction_forms.specs.Forms.{follows};
ghost use Rattle.lua_heap.specs.Plain.{plain};
ghost use Rattle.lua_heap.specs.Reading.{value as meant};
ghost use Rattle.machine_core.specs.FrameRows.{expand, goes_on_by};
ghost use Rattle.machine_core.specs.Moves.{go};
ghost use Rattle.machine_core.specs.Text.{go_by};
ghost use Rattle.machine_core.specs.World.{Place, place_of};
ghost use Rattle.move_laws.specs.Memory.{InOrder, IsSafe, Leads, StandsAt};
ghost use Rattle.machine_moves.specs.Code.{HasCode};
ghost use Rattle.machine_operations.specs.Following.{Follows, HasFront, IsFront, Keeps, MayFollow, MayGo, MayKeep};
ghost use Rattle.machine_operations.specs.Joining.{first_or_nil};

use instruction_forms::After;
use lua_heap::World;
use machine_moves::{code_on_top, go_to, write_register};
use machine_rows::is_truthy;
use table_core::Value;

/// What becomes of the value of an operation at the place `pc`. One that is missing counts as nil.
pub fn follow(world: &mut World, pc: usize, after: After, v: Value)
    requires order { InOrder world.old }
    requires code { HasCode world.old }
    requires at { StandsAt world.old pc }
    requires room { pc + 2 < 2 ^ 64 }
    requires safe { MayFollow world.old pc after v }
    ensures leads { Follows world.old world.new pc after v }
    ensures order { InOrder world.new }
{
    match after {
        After::ToRegister(to) => keep(world, pc, to, v),
        After::ToRegisterBefore => {
            let to = register_before(world, pc);
            keep(world, pc, to, v);
        }
        After::Next => advance(world, pc, 1),
        After::Tests(wanted) => {
            let ahead = ahead_of(is_truthy(v), wanted);
            advance(world, pc, ahead);
        }
    }
}

/// What becomes of the first value that came for an operation, or of nil where none did.
pub fn take_value(world: &mut World, pc: usize, after: After, came: &[Value])
    requires order { InOrder world.old }
    requires code { HasCode world.old }
    requires at { StandsAt world.old pc }
    requires room { pc + 2 < 2 ^ 64 }
    requires safe { (place : Place) → place_of (plain world.old 0) ≡ Some place → IsSafe (goes_on_by (follows place.function.code pc after)) (map (meant world.old.strings) came.now) world.old }
    ensures leads { (place : Place) → place_of (plain world.old 0) ≡ Some place → Leads (goes_on_by (follows place.function.code pc after)) (map (meant world.old.strings) came.now) world.old world.new go }
    ensures order { InOrder world.new }
{
    let v = first_or_nil(came);
    follow(world, pc, after, v);
}

/// The first of some values, or nil.
pub(crate) fn first_or_nil(values: &[Value]) -> Value
    ensures { result ≡ first_or_nil values.now }
{
    match values.split_first() {
        Some((first, _)) => *first,
        None => Value::Nil,
    }
}

/// A value goes to a register, and the frame goes on.
pub fn keep(world: &mut World, pc: usize, to: usize, v: Value)
    requires order { InOrder world.old }
    requires at { StandsAt world.old pc }
    requires room { pc + 2 < 2 ^ 64 }
    requires safe { MayKeep world.old to v }
    ensures leads { Keeps world.old world.new to v }
    ensures order { InOrder world.new }
{
    write_register(world, to, v);
    go_to(world, pc + 1);
}

/// The frame goes on so far ahead.
pub fn advance(world: &mut World, pc: usize, ahead: usize)
    requires order { InOrder world.old }
    requires at { StandsAt world.old pc }
    requires room { pc + ahead < 2 ^ 64 }
    requires safe { MayGo world.old ahead }
    ensures leads { (env : List Meant) → Leads (expand (go_by (pos ahead))) env world.old world.new go }
    ensures order { InOrder world.new }
{
    go_to(world, pc + ahead);
}

/// How far a test goes ahead: past the next instruction where its truth is not the one that is wanted.
fn ahead_of(truth: bool, wanted: bool) -> usize
    ensures is { result ≡ cond (same_truth truth wanted) 1 2 }
    ensures few { result ≤ 2 }
{
    if truth == wanted { 1 } else { 2 }
}

/// The register of the instruction in front, for which an operator's handler is asked.
fn register_before(world: &World, pc: usize) -> usize
    requires order { InOrder world.now }
    requires code { HasCode world.now }
    requires there { HasFront world.now pc }
    ensures { IsFront world.now pc result }
{
    usize::from(code_on_top(world).words[pc - 1].a())
}
