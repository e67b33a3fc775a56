// The names of variables in registers (luaF_getlocalname of lfunc.c).
ghost use Rattle.std.specs.Prelude.{◌≡◌, ◌++◌, IfOk, codes};
ghost use Rattle.code_core.specs.Prototype.{Prototype};
ghost use Rattle.machine_core.specs.InstructionRows.{is_alive, variable_name};
ghost use Rattle.lua_heap.specs.Codes.{AreCodes};
ghost use Rattle.machine_moves.specs.Code.{HasCode};
ghost use Rattle.machine_returns.specs.Names.{IsProtoOnTop, TellsOpen, name_in, name_of};

use code_core::{LocVar, Proto};
use int_core::Allocated;
use lua_heap::{World, law};
use machine_moves::function_on_top;

/// The text of the error of a variable that cannot be closed, at a place of the function on top.
pub(crate) fn not_closable(world: &World, pc: usize, register: usize) -> Allocated<Vec<u8>>
    requires codes { AreCodes world.now.strings world.now.codes }
    requires frame { HasCode world.now }
    ensures { IfOk result (λ text. TellsOpen world.now pc register text.items) }
{
    let proto = proto_on_top(world);
    let name = name_in(&proto.locals, pc, register);
    let mut text = b"variable '".to_vec(world.alloc)?;
    text.extend_from_slice(name)?;
    text.extend_from_slice(b"' got a non-closable value")?;
    Ok(text)
}

/// The prototype of the function on top.
fn proto_on_top(world: &World) -> &Proto
    requires codes { AreCodes world.now.strings world.now.codes }
    requires frame { HasCode world.now }
    ensures { IsProtoOnTop world.now result.now }
{
    law::checked_code_is_there();
    world.codes.proto(function_on_top(world).code)
}

/// The name of the variable that stands in a register where the instruction at `pc` is done.
fn name_in(locals: &[LocVar], pc: usize, register: usize) -> &[u8]
    ensures { result.now ≡ name_in pc register locals.now }
{
    let mut left = register;
    for local in locals {
        if !is_alive(local, pc) {
            continue;
        }
        if left == 0 {
            return name_of(local);
        }
        left -= 1;
    }
    b"?"
}

/// Whether a variable is active at a place.
fn is_alive(local: &LocVar, pc: usize) -> bool
    ensures { result ≡ is_alive pc local.now }
{
    local.start as usize <= pc && pc < local.end as usize
}

/// Its name, if it is known.
fn name_of(local: &LocVar) -> &[u8]
    ensures { result.now ≡ name_of local.now }
{
    match &local.name {
        Some(name) => name.as_slice(),
        None => b"?",
    }
}
