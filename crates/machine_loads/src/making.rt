// Functions that are made of loaded code (lua_load of lapi.c of Lua 5.4).
ghost use Rattle.std.specs.Prelude.{◌≡◌, ℕ, IfOk, OnOk, OnErr};
ghost use Rattle.move_laws.specs.Memory.{InOrder, IsSound, ReadsSame};
ghost use Rattle.lua_heap.specs.Plain.{plain};
ghost use Rattle.lua_heap.specs.Reading.{value};
ghost use Rattle.machine_loads.specs.Loading.{MakesLoaded, given_environment};

use code_core::Checked;
use int_core::Allocated;
use lua_heap::law::cells_stay_listed;
use lua_heap::{Cell, Func, World};
use table_core::{CellId, FuncId, Value};

/// A function of this code, whose outer variables are one new cell with the environment among the values on their way. Where memory is wanting, all reads
/// as before.
pub fn make_function(world: &mut World, code: Checked) -> Allocated<FuncId>
    requires { IsSound world.old }
    ensures made { IfOk result (λ id. MakesLoaded world.old world.new code id.0) }
    ensures order { InOrder world.new }
    ensures err { OnErr result (ReadsSame world.old world.new) }
{
    cells_stay_listed();
    let mut cells = Vec::with_capacity(world.alloc, 1)?;
    world.cells.reserve(1)?;
    world.funcs.reserve(1)?;
    let code = world.add_code(code)?;
    let environment = environment(world);
    let cell = world.cells.place(Cell::Closed(environment));
    cells.push_reserved(CellId(cell));
    let function = world.funcs.place(Func { code, cells });
    Ok(FuncId(function))
}

/// The fourth value on its way, or the globals where there is none.
fn environment(world: &World) -> Value
    ensures { (fuel : ℕ) → value world.now.strings result ≡ given_environment (plain world.now fuel) }
{
    match world.moving.get(3) {
        Some(given) => *given,
        None => Value::Table(world.globals),
    }
}
