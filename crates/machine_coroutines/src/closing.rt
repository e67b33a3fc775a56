// Frames of `coroutine.close`, under which the variables of a closed coroutine are closed one after another (lua_closethread of lstate.c; Lua 5.4
// manual, 3.3.8 and 6.2).
ghost use Rattle.std.specs.Prelude.{◌≡◌, ◌∷◌, ◌++◌, [], List, Some};
ghost use Rattle.int_core.specs.Value.{Value as Meant, last, without_last};
ghost use Rattle.machine_core.specs.Text.{Arg, arg};
ghost use Rattle.machine_core.specs.Moves.{find_close as finds, set_error as sets, take_closing as takes};
ghost use Rattle.lua_heap.specs.Cells.{CellsAreListed};
ghost use Rattle.lua_heap.specs.Reading.{value as meant};
ghost use Rattle.lua_stack.specs.Frames.{HasClosingTop, OnClosing, kept_closing};
ghost use Rattle.lua_stack.specs.declared.frame.Top.TheVariants.{Closing as ClosingTop};
ghost use Rattle.move_laws.specs.Memory.{Makes};
ghost use Rattle.machine_moves.specs.Tops.{TopIs};
ghost use Rattle.machine_coroutines.specs.Closings.{at_end, closing_of, shape_of, values_of};

use lua_heap::World;
use lua_stack::Stack;
use machine_moves::running_stack_mut;
use meta_ops::{Event, Heap, handler_in};
use table_core::Value;

/// What is left to be closed.
#[derive(Debug, Clone, Copy)]
pub enum Closing {
    /// A value, with the error that there is, or nil.
    One(Value, Value),
    /// Nothing, and there is no error.
    All,
    /// Nothing, and there is an error.
    Failed(Value),
}

/// Takes the last value that is left to be closed under the frame on top.
pub fn take_closing(world: &mut World) -> Closing
    requires { TopIs world.old ClosingTop }
    ensures makes { (env : List Meant) → Makes world.old world.new takes env (values_of (meant world.old.strings) result) (shape_of result) }
    ensures top { TopIs world.new ClosingTop }
    ensures listed { CellsAreListed world.old → CellsAreListed world.new }
    ensures rest { world.new ≡ record world.old { coros = world.new.coros } }
{
    take_left(running_stack_mut(world))
}

/// Replaces the error with which the frame on top is left.
pub fn set_error(world: &mut World, error: Value)
    requires { TopIs world.old ClosingTop }
    ensures makes { (env : List Meant) (x : Arg) → arg env x ≡ meant world.old.strings error → Makes world.old world.new (sets x) env [] tt }
    ensures top { TopIs world.new ClosingTop }
    ensures listed { CellsAreListed world.old → CellsAreListed world.new }
    ensures rest { world.new ≡ record world.old { coros = world.new.coros } }
{
    running_stack_mut(world).set_error(error);
}

/// The `__close` handler of a value, or nil.
pub fn find_close(world: &World, value: Value) -> Value
    ensures { (env : List Meant) (v e : Arg) → arg env v ≡ meant world.now.strings value → Makes world.now world.now (finds v e) env (meant world.now.strings result ∷ meant world.now.strings value ∷ arg env e ∷ []) tt }
{
    let heap = Heap {
        tables: &world.tables,
        strings: &world.strings,
        string_meta: world.string_meta,
    };
    handler_in(heap, Event::Close, value)
}

/// Takes the last value that is left to be closed.
fn take_left(stack: &mut Stack) -> Closing
    requires { HasClosingTop stack.old }
    ensures taken { OnClosing stack.old (λ below error left. result ≡ closing_of error (last left)) }
    ensures frames { OnClosing stack.old (λ below error left. stack.new.frames ≡ below ++ kept_closing error (without_last left) ∷ []) }
    ensures cells { stack.new.open_cells ≡ stack.old.open_cells }
{
    let error = stack.closing_error();
    match stack.take_left() {
        Some(value) => Closing::One(value, error.unwrap_or(Value::Nil)),
        None => at_end(error),
    }
}

/// Nothing is left.
fn at_end(error: Option<Value>) -> Closing
    ensures { result ≡ at_end error }
{
    match error {
        Some(error) => Closing::Failed(error),
        None => Closing::All,
    }
}
