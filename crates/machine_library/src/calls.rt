// Functions that look at values and tables alone, called with the values on their way (luaD_precall of ldo.c and luaL_error of lauxlib.c).
ghost use Rattle.std.specs.Prelude.{◌≡◌, ◌∷◌, ◌<◌, ◌≤◌, [], List, IfOk, IsTrue, OnErr};
ghost use Rattle.std.specs.Vec.{vec_capacity};
ghost use Rattle.int_core.specs.Value.{Value as Meant};
ghost use Rattle.library_arguments.specs.Refusals.{refusal_text};
ghost use Rattle.lib_base.specs.Functions.{function_row};
ghost use Rattle.machine_core.specs.FrameRows.{blames};
ghost use Rattle.machine_core.specs.MachineStep.{look_row};
ghost use Rattle.move_laws.specs.Memory.{HasStack, InOrder, IsSound, Leads, ReadsSame};
ghost use Rattle.machine_moves.specs.Ending.{ending_of};
ghost use Rattle.machine_moves.specs.declared.ending.Ending.TheVariants.{Raised};
ghost use Rattle.machine_library.specs.Answers.{Goes, Tells};

use lib_base::{Function, call};
use library_arguments::{Fault, Refusal};
use lua_heap::World;
use machine_errors::blame;
use machine_moves::{Ending, give_values, hand_over, take_moving};
use pure_functions::Answer;
use std::alloc::AllocError;
use table_core::Value;

/// Calls a function with the values on their way. Its results are for the frame on top; the error of a wrong argument gets the place of the caller
/// in front, and a value that `assert` raises none (Lua 5.4 manual, 6.1). Where memory is wanting, all reads as before.
pub fn call_function(world: &mut World, function: Function) -> Result<Ending, AllocError>
    requires sound { IsSound world.old }
    requires running { HasStack world.old }
    ensures leads { IfOk result (λ ending. Leads (look_row (function_row function)) [] world.old world.new (ending_of ending)) }
    ensures goes { IfOk result Goes }
    ensures order { InOrder world.new }
    ensures err { OnErr result (ReadsSame world.old world.new) }
{
    let mut arguments = take_moving(world);
    if !make_room(&mut arguments) {
        world.moving = arguments;
        return Err(AllocError);
    }
    match call(world, function, arguments.as_slice()) {
        Ok(answer) => Ok(tell(world, answer, arguments)),
        Err(Fault::Refused(refusal)) => {
            world.moving = arguments;
            let ending = refuse(world, refusal)?;
            Ok(ending)
        }
        Err(Fault::Memory) => {
            world.moving = arguments;
            Err(AllocError)
        }
    }
}

/// Makes room for two values at least, whatever is there, and says whether memory was left for it.
fn make_room(values: &mut Vec<Value>) -> bool
    ensures items { values.new.items ≡ values.old.items }
    ensures room { IsTrue result → 2 ≤ vec_capacity values.new }
{
    if values.capacity() > 1 {
        return true;
    }
    values.reserve(2).is_ok()
}

/// Results are for the frame on top, and a raised value is an error. One value or two take the place of the arguments, which have room for them.
fn tell(world: &mut World, answer: Answer, arguments: Vec<Value>) -> Ending
    requires running { HasStack world.old }
    requires room { 2 ≤ vec_capacity arguments }
    ensures tells { Tells world.old world.new answer (ending_of result) }
    ensures goes { Goes result }
    ensures rest { world.new ≡ record world.old { moving = world.new.moving } }
{
    match answer {
        Answer::One(given) => {
            give_values(world, alone(given, arguments));
            hand_over(world)
        }
        Answer::Two(first, second) => {
            give_values(world, both(first, second, arguments));
            hand_over(world)
        }
        Answer::Gives(results) => {
            give_values(world, results);
            hand_over(world)
        }
        Answer::Raises(raised) => {
            give_values(world, alone(raised, arguments));
            Ending::Raised
        }
    }
}

/// A value in place of others, which have room for one.
fn alone(value: Value, others: Vec<Value>) -> Vec<Value>
    requires { 0 < vec_capacity others }
    ensures { result.items ≡ value ∷ [] }
{
    let mut values = others;
    values.clear();
    values.push_reserved(value);
    values
}

/// Two values in place of others, which have room for them.
fn both(first: Value, second: Value, others: Vec<Value>) -> Vec<Value>
    requires { 2 ≤ vec_capacity others }
    ensures { result.items ≡ first ∷ second ∷ [] }
{
    let mut values = others;
    values.clear();
    values.push_reserved(first);
    values.push_reserved(second);
    values
}

/// An argument is wrong, which is an error of the caller. A refusal of memory changes nothing.
fn refuse(world: &mut World, refusal: Refusal) -> Result<Ending, AllocError>
    requires { IsSound world.old }
    ensures leads { IfOk result (λ ending. (env : List Meant) → Leads (blames (refusal_text refusal)) env world.old world.new (ending_of ending)) }
    ensures raised { IfOk result (λ ending. ending ≡ Raised) }
    ensures order { InOrder world.new }
    ensures err { OnErr result (world.new ≡ world.old) }
{
    let text = refusal.text(world.alloc)?;
    let ending = blame(world, text.as_slice())?;
    Ok(ending)
}
