// What the frames of a stack share, and what each of them runs.
ghost use Rattle.std.specs.Prelude.{◌≡◌};

use frame_calls::Functions;
use lua_heap::{Code, Func, Strings};
use machine_arms_tables::Closure;
use table_core::{CoroId, TableId};

/// What all frames of a stack share, and none of them changes.
#[derive(Clone, Copy)]
pub(crate) struct Surroundings<'a> {
    pub(crate) functions: Functions<'a>,
    pub(crate) strings: &'a Strings,
    /// The coroutine whose stack it is.
    pub(crate) co: CoroId,
    /// The metatable that all strings share.
    pub(crate) string_meta: Option<TableId>,
}

/// What a frame runs: its function, and how many registers the function's code wants.
#[derive(Clone, Copy)]
pub(crate) struct Body<'a> {
    pub(crate) closure: Closure<'a>,
    pub(crate) size: usize,
}

/// A Lua function in memory, and its code.
#[derive(Clone, Copy)]
pub(crate) struct Function<'a> {
    pub(crate) object: &'a Func,
    pub(crate) proto: &'a Code,
}

/// What a frame of a function reads of it. It is made where it is wanted, and not once for all: what is not read is not looked for then, nor kept while the loop
/// over instructions runs.
#[inline(always)]
pub(crate) fn closure_of<'a>(function: Function<'a>) -> Closure<'a>
    ensures words { result.words.now ≡ function.entry.proto.now.words.items }
    ensures constants { result.constants.now ≡ function.entry.proto.now.constants.items }
    ensures upvalues { result.upvalues.now ≡ function.entry.object.now.cells.items }
{
    Closure {
        words: &function.proto.words,
        constants: &function.proto.constants,
        upvalues: &function.object.cells,
    }
}

/// The same, with how many registers the code wants.
#[inline(always)]
pub(crate) fn body_of<'a>(function: Function<'a>) -> Body<'a>
    ensures words { result.closure.words.now ≡ function.entry.proto.now.words.items }
    ensures constants { result.closure.constants.now ≡ function.entry.proto.now.constants.items }
    ensures upvalues { result.closure.upvalues.now ≡ function.entry.object.now.cells.items }
    ensures size { result.size ≡ function.entry.proto.now.stack }
{
    Body {
        closure: closure_of(function),
        size: function.proto.stack as usize,
    }
}
