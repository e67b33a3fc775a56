// The functions of the prelude, which come first among all functions.
ghost use Rattle.std.specs.Prelude.{◌≡◌, ◌<◌, ◌^◌, ℕ, List, [], length, OnOk};
ghost use Rattle.code_core.specs.Prototype.{list_of};
ghost use Rattle.lua_heap.specs.Codes.{functions, AreCodes};
ghost use Rattle.lua_opening.specs.Functions.{AddsOne, AddsFunctions};

use code_core::Checked;
use lua_heap::{Func, World};
use std::alloc::AllocError;
use table_core::{CellId, ProtoId};

/// Adds the functions that are defined in the prelude's code, whose outer variables are all the environment's cell.
pub(crate) fn add_functions(
    world: &mut World,
    environment: CellId,
    prelude: Checked,
) -> Result<(), AllocError>
    requires codes { AreCodes world.old.strings world.old.codes }
    requires few { length (list_of prelude.inner) < 2 ^ 32 }
    requires none { world.old.funcs.objects ≡ [] }
    requires unnamed { world.old.prelude.funcs.items ≡ [] }
    ensures { OnOk result (AddsFunctions world.old world.new environment.0 (list_of prelude.inner)) }
{
    let count = prelude.proto().protos.len();
    let text = world.add_code(prelude)?;
    'functions: for place in 0..count {
        let code = world.inner(text, place as u32);
        add_function(world, environment, code)?;
    }
    Ok(())
}

/// Adds one, whose code is there.
fn add_function(world: &mut World, environment: CellId, code: ProtoId) -> Result<(), AllocError>
    requires codes { AreCodes world.old.strings world.old.codes }
    requires there { code.0 < length (functions world.old.codes) }
    ensures { OnOk result (AddsOne world.old world.new environment.0 code.0) }
{
    let count = world.code(code).upvalues.len();
    let cells = vec![in world.alloc; environment; count]?;
    let function = world.add_func(Func { code, cells })?;
    world.prelude.funcs.push(function)?;
    Ok(())
}
