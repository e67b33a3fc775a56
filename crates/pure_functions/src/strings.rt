// New strings, which change nothing that was there.
ghost use Rattle.std.specs.Prelude.{◌≡◌, ◌≤◌, length, IfOk};
ghost use Rattle.int_core.specs.Value.{known, string, greatest_string};
ghost use Rattle.lua_heap.specs.Reading.{value};
ghost use Rattle.pure_functions.specs.Answers.{Means, OnlyStrings, Stands};

use lua_heap::World;
use lua_heap::law::new_strings_keep;
use std::alloc::AllocError;
use table_core::Value;

/// The string with these bytes, which is added where there is none. Tables and arguments stay what they were.
///
/// # Errors
///
/// Memory runs out.
pub fn string(world: &mut World, arguments: &[Value], bytes: &[u8]) -> Result<Value, AllocError>
    requires short { length bytes.now ≤ greatest_string }
    requires stands { Stands world.old arguments.now }
    ensures named { IfOk result (λ made. value world.new.strings made ≡ known (string bytes.now)) }
    ensures means { IfOk result (λ made. Means world.new.strings made (string bytes.now)) }
    ensures kept { OnlyStrings world.old world.new arguments.now }
{
    new_strings_keep();
    let id = world.intern(bytes)?;
    Ok(Value::Str(id))
}
