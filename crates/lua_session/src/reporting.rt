// The line that reports the end of a turn.
ghost use Rattle.std.specs.Prelude.{◌≡◌, ◌++◌, map, codes, IfOk, OnOk};
ghost use Rattle.lua_heap.specs.Errors.{HasText};
ghost use Rattle.lua_heap.specs.Reading.{value};
ghost use Rattle.lua_meaning.specs.Meaning.{report_text, report_values};
ghost use Rattle.machine_runs.specs.Runs.{report as reports};
ghost use Rattle.machine_moves.specs.Ending.{ending_of};
ghost use Rattle.lua_session.specs.Report.{HaveTexts};

use int_core::Allocated;
use library_arguments::Digits;
use lua_heap::World;
use machine_moves::Ending;
use table_core::Value;

/// The line that reports how a turn ended: a word, and the texts of the values that move, without metamethods. Of a budget that is spent none
/// reports.
pub fn report(world: &World, ending: Ending) -> Allocated<Vec<u8>>
    requires { HaveTexts world.now.strings world.now.moving.items }
    ensures { IfOk result (λ line. line.items ≡ reports (ending_of ending) (map (value world.now.strings) world.now.moving.items)) }
{
    match ending {
        Ending::MainYielded => line_of(world, b"yield"),
        Ending::MainReturned => line_of(world, b"return"),
        Ending::MainFailed => line_of(world, b"error"),
        _ => Ok(Vec::new(world.alloc)),
    }
}

/// A word and the values that move.
fn line_of(world: &World, word: &[u8]) -> Allocated<Vec<u8>>
    requires { HaveTexts world.now.strings world.now.moving.items }
    ensures { IfOk result (λ line. line.items ≡ word.now ++ report_values (map (value world.now.strings) world.now.moving.items)) }
{
    let mut line = word.to_vec(world.alloc)?;
    for v in &world.moving {
        push_text(&mut line, world, *v)?;
    }
    line.push(b'\n')?;
    Ok(line)
}

/// A tabulator and the text of a value.
fn push_text(line: &mut Vec<u8>, world: &World, v: Value) -> Allocated<()>
    requires { HasText world.now.strings v }
    ensures { OnOk result (line.new.items ≡ line.old.items ++ codes "\t" ++ report_text (value world.now.strings v)) }
{
    line.push(b'\t')?;
    match v {
        Value::Nil => line.extend_from_slice(b"nil"),
        Value::Bool(true) => line.extend_from_slice(b"true"),
        Value::Bool(false) => line.extend_from_slice(b"false"),
        Value::Int(n) => line.extend_from_slice(Digits::of(n).as_slice()),
        Value::Str(id) => line.extend_from_slice(world.bytes(id)),
        Value::Table(_) => line.extend_from_slice(b"table: object"),
        Value::Func(_) => line.extend_from_slice(b"function: object"),
        Value::Prim(_) => line.extend_from_slice(b"function: object"),
        Value::Coro(_) => line.extend_from_slice(b"thread: object"),
    }
}
