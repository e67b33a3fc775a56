// A function's prototype, read from its bytes.
ghost use Rattle.std.specs.Prelude.{◌≡◌, IfOk};
ghost use Rattle.chunk_format.specs.Reading.{Says, read_source, read_function};
ghost use Rattle.chunk_format.specs.Views.{SaysLeft, SaysAllLeft};

use crate::fault::ChunkFault;
use crate::input::Input;
use crate::item::list;
use code_core::Proto;
use int_core::{Allocated, Bytes};
use std::alloc::Global;

/// A copy of a name.
fn copy(alloc: Global, name: &Option<Bytes>) -> Allocated<Option<Bytes>>
    ensures { IfOk result (λ copy. copy ≡ name.now) }
{
    match name {
        Some(bytes) => Ok(Some(Bytes::of(bytes.as_slice().to_vec(alloc)?))),
        None => Ok(None),
    }
}

/// The source's name, which is the parent's where there is none.
fn read_source(
    alloc: Global,
    input: &mut Input,
    parent: &Option<Bytes>,
) -> Result<Option<Bytes>, ChunkFault>
    ensures reads { Says (read_source parent.now input.old) result input.new }
{
    match input.name(alloc)? {
        Some(name) => Ok(Some(name)),
        None => {
            let source = copy(alloc, parent)?;
            Ok(source)
        }
    }
}

/// A function with at most `levels` levels, itself included; `left` counts the functions that may still come.
#[cycle(function)]
#[tactic(auto, using(crate::proofs::Functions::read_function_body, crate::proofs::Functions::no_levels, crate::proofs::Functions::none_left))]
pub fn function(
    alloc: Global,
    input: &mut Input,
    levels: u32,
    left: &mut u32,
    parent: &Option<Bytes>,
) -> Result<Proto, ChunkFault>
    ensures reads { SaysLeft (read_function levels parent.now left.old input.old) result left.new input.new }
{
    if levels == 0 || *left == 0 {
        return Err(ChunkFault::Refused { kind: 7 });
    }
    *left -= 1;
    let source = read_source(alloc, input, parent)?;
    Ok(Proto {
        line_defined: input.number()?,
        last_line: input.number()?,
        params: input.byte()?,
        vararg: input.flag()?,
        stack: input.byte()?,
        code: list(alloc, input)?,
        constants: list(alloc, input)?,
        upvalues: list(alloc, input)?,
        protos: functions(alloc, input, levels - 1, left, &source)?,
        line_info: list(alloc, input)?,
        abs_lines: list(alloc, input)?,
        locals: list(alloc, input)?,
        up_names: list(alloc, input)?,
        source,
    })
}

/// The functions that are defined in another: their number, then each of them.
#[cycle(function)]
fn functions(
    alloc: Global,
    input: &mut Input,
    levels: u32,
    left: &mut u32,
    parent: &Option<Bytes>,
) -> Result<Vec<Proto>, ChunkFault>
    ensures reads { SaysAllLeft (read_function levels parent.now) left.old input.old result left.new input.new }
{
    let len = input.number()?;
    let mut protos = Vec::new(alloc);
    for _ in 0..len {
        protos.push(function(alloc, input, levels, left, parent)?)?;
    }
    Ok(protos)
}
