// What `load` comes to by its arguments (luaB_load of lbaselib.c of Lua 5.4).
ghost use Rattle.std.specs.Prelude.{◌≡◌, ◌≤◌, length, IfOk};
ghost use Rattle.int_core.specs.Value.{greatest_string};
ghost use Rattle.load_rows.specs.Loading.{after_building, fitted as fitted_text};
ghost use Rattle.load_request.specs.Requests.{loaded_as};
ghost use Rattle.pure_functions.specs.Answers.{Stands};
ghost use Rattle.lib_load.specs.Loads.{ComesTo, load_in};

use code_core::Checked;
use compile_chunk::code_of;
use compile_text::TextFault;
use library_arguments::Refusal;
use load_request::{Request, asked, mode_text, refusal_text};
use lua_heap::World;
use pure_functions::argument_shape;
use std::alloc::{AllocError, Global};

/// The most bytes of a string.
const GREATEST_STRING: usize = 16_777_216;

/// What `load` comes to, where memory is not wanting.
#[derive(Drop)]
pub(crate) enum Loaded {
    /// An argument is wrong.
    Wrong(Refusal),
    /// Nothing is loaded, and this is why.
    NotLoaded(Vec<u8>),
    /// The code of a source.
    Loaded(Checked),
}

/// What the values on their way come to as arguments of `load`.
pub(crate) fn compiled(world: &World) -> Result<Loaded, AllocError>
    requires { Stands world.now world.now.moving.items }
    ensures { IfOk result (λ loaded. ComesTo (load_in world.now) loaded) }
{
    let chunk = argument_shape(world, &world.moving, 0);
    let name = argument_shape(world, &world.moving, 1);
    let mode = argument_shape(world, &world.moving, 2);
    match asked(chunk, name, mode) {
        Ok(request) => {
            let loaded = answered(world.alloc, request)?;
            Ok(loaded)
        }
        Err(refusal) => Ok(Loaded::Wrong(refusal)),
    }
}

/// What a request comes to.
fn answered(alloc: Global, request: Request) -> Result<Loaded, AllocError>
    ensures { IfOk result (λ loaded. ComesTo (λ builds. loaded_as builds request.entry) loaded) }
{
    match request {
        Request::Build { name, source } => {
            let loaded = built(alloc, fitted(name.as_slice()), source.as_slice())?;
            Ok(loaded)
        }
        Request::Mode(mode) => {
            let why = mode_text(alloc, mode.as_slice())?;
            Ok(Loaded::NotLoaded(why))
        }
        Request::Binary => {
            let why = b"binary chunks are not loaded".to_vec(alloc)?;
            Ok(Loaded::NotLoaded(why))
        }
    }
}

/// What a source comes to that is built under a name.
fn built(alloc: Global, name: &[u8], source: &[u8]) -> Result<Loaded, AllocError>
    requires { length name.now ≤ greatest_string }
    ensures { IfOk result (λ loaded. ComesTo (λ builds. after_building name.now (builds name.now source.now)) loaded) }
{
    match code_of(alloc, name, source, true) {
        Ok(code) => Ok(Loaded::Loaded(code)),
        Err(TextFault::Source { line }) => {
            let why = refusal_text(alloc, name, line, None)?;
            Ok(Loaded::NotLoaded(why))
        }
        Err(TextFault::Rule { rule, line }) => {
            let why = refusal_text(alloc, name, line, Some(rule))?;
            Ok(Loaded::NotLoaded(why))
        }
        Err(TextFault::Memory) => Err(AllocError),
    }
}

/// A name; in place of one that is too long for a string another text stands.
fn fitted(name: &[u8]) -> &[u8]
    ensures is { result.now ≡ fitted_text name.now }
    ensures short { length result.now ≤ greatest_string }
{
    if name.len() > GREATEST_STRING {
        b"resulting string too large"
    } else {
        name
    }
}
