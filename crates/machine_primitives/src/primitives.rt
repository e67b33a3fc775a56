// Each function by its number (the order of `library_rows`; luaL_Reg of lauxlib.h).
ghost use Rattle.std.specs.Prelude.{◌≡◌, ℕ, [], IfOk, IfSome, IfNone, OnErr, slice_get};
ghost use Rattle.tree_core.specs.Tree.{Body};
ghost use Rattle.load_rows.specs.Loading.{Builds};
ghost use Rattle.source_builds.specs.Builds.{BuildsSources};
ghost use Rattle.source_builds.specs.Readings.{AsRead};
ghost use Rattle.loaded_code.specs.Laws.{library};
ghost use Rattle.lib_base.specs.Functions.{function_row};
ghost use Rattle.machine_core.specs.MachineStep.{look_row};
ghost use Rattle.machine_core.specs.Moves.{traps};
ghost use Rattle.move_laws.specs.Memory.{HasStack, InOrder, IsSafe, IsSound, Leads, ReadsSame, Steps};
ghost use Rattle.machine_moves.specs.Ending.{ending_of};
ghost use Rattle.machine_primitives.specs.Primitives.{row_by};

use int_core::Allocated;
use lib_base::Function;
use lib_coroutine::{close, create, is_yieldable, resume, running, status, yield_running};
use lib_load::load;
use lua_heap::World;
use machine_errors::{error, pcall, xpcall};
use machine_library::{call_function, print};
use machine_moves::Ending;
use pure_functions::math::Function as MathFunction;
use pure_functions::texts::Function as TextFunction;

/// A function of the libraries that is no Lua text.
#[derive(Debug, Clone, Copy, PartialEq, Eq)]
enum Called {
    /// It looks at values and tables alone.
    Library(Function),
    Error,
    Pcall,
    Xpcall,
    Close,
    Create,
    IsYieldable,
    Resume,
    Running,
    Status,
    Yield,
    /// What `load` stands on.
    Build,
    Print,
}

/// A function's number is its place here.
static PRIMITIVES: [Called; 60] = [
    Called::Library(Function::Assert),
    Called::Library(Function::CollectGarbage),
    Called::Error,
    Called::Library(Function::GetMetatable),
    Called::Library(Function::Next),
    Called::Pcall,
    Called::Library(Function::RawEqual),
    Called::Library(Function::RawGet),
    Called::Library(Function::RawLength),
    Called::Library(Function::RawSet),
    Called::Library(Function::Select),
    Called::Library(Function::SetMetatable),
    Called::Library(Function::OverTexts(TextFunction::ToNumber)),
    Called::Library(Function::TypeOf),
    Called::Xpcall,
    Called::Close,
    Called::Create,
    Called::IsYieldable,
    Called::Resume,
    Called::Running,
    Called::Status,
    Called::Yield,
    Called::Library(Function::OverTexts(TextFunction::Byte)),
    Called::Library(Function::OverTexts(TextFunction::Char)),
    Called::Library(Function::OverTexts(TextFunction::Find)),
    Called::Library(Function::OverTexts(TextFunction::Len)),
    Called::Library(Function::OverTexts(TextFunction::Lower)),
    Called::Library(Function::OverTexts(TextFunction::Match)),
    Called::Library(Function::OverTexts(TextFunction::Rep)),
    Called::Library(Function::OverTexts(TextFunction::Reverse)),
    Called::Library(Function::OverTexts(TextFunction::Sub)),
    Called::Library(Function::OverTexts(TextFunction::Upper)),
    Called::Library(Function::Pack),
    Called::Library(Function::Sort),
    Called::Library(Function::Math(MathFunction::Abs)),
    Called::Library(Function::Math(MathFunction::Fmod)),
    Called::Library(Function::Math(MathFunction::Max)),
    Called::Library(Function::Math(MathFunction::Min)),
    Called::Library(Function::Math(MathFunction::ToInteger)),
    Called::Library(Function::Math(MathFunction::TypeOf)),
    Called::Library(Function::Math(MathFunction::Ult)),
    Called::Library(Function::OverTexts(TextFunction::Utf8Char)),
    Called::Library(Function::OverTexts(TextFunction::Utf8Codepoint)),
    Called::Library(Function::OverTexts(TextFunction::Utf8Codes)),
    Called::Library(Function::OverTexts(TextFunction::Utf8Len)),
    Called::Library(Function::OverTexts(TextFunction::Utf8Offset)),
    Called::Build,
    Called::Library(Function::Expand),
    Called::Library(Function::OverTexts(TextFunction::From)),
    Called::Library(Function::Join),
    Called::Library(Function::OverTexts(TextFunction::Kinds)),
    Called::Library(Function::OverTexts(TextFunction::Layout)),
    Called::Library(Function::MetaField),
    Called::Print,
    Called::Library(Function::Seek),
    Called::Library(Function::Spread),
    Called::Library(Function::Text),
    Called::Library(Function::OverTexts(TextFunction::ToInteger)),
    Called::Library(Function::OverTexts(TextFunction::Walk)),
    Called::Library(Function::OverTexts(TextFunction::WalkLax)),
];

/// The function of a number.
fn of_number(number: u16) -> Option<Called>
    ensures some { IfSome result (λ called. (builds : Builds Body) → library builds number ≡ row_by builds called) }
    ensures none { IfNone result ((builds : Builds Body) → library builds number ≡ traps) }
{
    at_place(&PRIMITIVES, number)
}

/// What stands at a place.
fn at_place(table: &[Called], place: u16) -> Option<Called>
    ensures { result ≡ slice_get table.now place }
{
    table.get(usize::from(place)).copied()
}

/// Calls a function of the libraries by its number, with the values on their way. `load` reads the source that it is given, and what the call does is
/// told wherever sources are built as it was read. No function costs a unit of the budget. Where memory is wanting, all reads as before.
pub fn primitive(world: &mut World, number: u16) -> Allocated<Ending>
    requires sound { IsSound world.old }
    requires running { HasStack world.old }
    requires safe { (builds : Builds Body) → BuildsSources builds → IsSafe (library builds number) [] world.old }
    ensures steps { IfOk result (λ ending. AsRead (λ builds. (fuel : ℕ) → Steps (library builds number) [] world.old fuel world.new fuel (ending_of ending))) }
    ensures order { InOrder world.new }
    ensures err { OnErr result (ReadsSame world.old world.new) }
{
    match of_number(number) {
        Some(called) => {
            let ending = call(world, called)?;
            Ok(ending)
        }
        None => unreachable!(),
    }
}

/// Calls a function with the values on their way.
fn call(world: &mut World, called: Called) -> Allocated<Ending>
    requires sound { IsSound world.old }
    requires running { HasStack world.old }
    requires safe { (builds : Builds Body) → BuildsSources builds → IsSafe (row_by builds called) [] world.old }
    ensures leads { IfOk result (λ ending. AsRead (λ builds. Leads (row_by builds called) [] world.old world.new (ending_of ending))) }
    ensures order { InOrder world.new }
    ensures err { OnErr result (ReadsSame world.old world.new) }
{
    match called {
        Called::Library(function) => call_function(world, function),
        Called::Error => error(world),
        Called::Pcall => pcall(world),
        Called::Xpcall => xpcall(world),
        Called::Close => close(world),
        Called::Create => create(world),
        Called::IsYieldable => is_yieldable(world),
        Called::Resume => resume(world),
        Called::Running => running(world),
        Called::Status => status(world),
        Called::Yield => yield_running(world),
        Called::Build => load(world),
        Called::Print => print(world),
    }
}

/// The function of a number, where it looks at values and tables alone.
pub fn library_function(number: u16) -> Option<Function>
    ensures { IfSome result (λ function. (builds : Builds Body) → library builds number ≡ look_row (function_row function)) }
{
    match of_number(number) {
        Some(Called::Library(function)) => Some(function),
        _ => None,
    }
}
