// A function's prototype of its parts.
ghost use Rattle.std.specs.Prelude.{◌≡◌, IfOk, map, Some};
ghost use Rattle.tree_core.specs.Plain.{plain_body};
ghost use Rattle.code_core.specs.Prototype.{prototypes};
ghost use Rattle.code_of.specs.CodeOf.{changes, far_lines, where_known};
ghost use Rattle.code_parts.specs.Assembled.{assembled};

use crate::begin::{byte, last_line};
use crate::captured::{up_names, upvalues};
use crate::lines::{changes, far_lines};
use crate::registers::room;
use code_core::{AbsLine, Const, Instruction, LocVar, Proto};
use code_emitter::Step;
use int_core::{Allocated, Bytes};
use std::alloc::Global;
use tree_core::{Body, UpName};

/// A copy of a name.
fn copied(alloc: Global, name: &Option<Bytes>) -> Allocated<Option<Bytes>>
    ensures { IfOk result (λ copy. copy ≡ name.now) }
{
    match name {
        Some(bytes) => Ok(Some(Bytes::of(bytes.as_slice().to_vec(alloc)?))),
        None => Ok(None),
    }
}

/// The instructions without their lines.
fn instructions(alloc: Global, steps: &[Step]) -> Allocated<Vec<Instruction>>
    ensures { IfOk result (λ list. list.items ≡ map (λ s. s.instruction) steps.now) }
{
    let mut list = Vec::new(alloc);
    for step in steps {
        list.push(step.instruction)?;
    }
    Ok(list)
}

/// What a prototype tells only where the source is known.
#[derive(Drop)]
struct Known {
    /// The distances from line to line.
    changes: Vec<i8>,
    /// The lines that are kept in full.
    far_lines: Vec<AbsLine>,
    /// The names of upvalues.
    up_names: Vec<Option<Bytes>>,
}

/// Tells of a function on a line what is told where the source is known.
fn told(
    alloc: Global,
    source: &Option<Bytes>,
    line: u32,
    steps: &[Step],
    names: &[UpName],
) -> Allocated<Known>
    ensures changes { IfOk result (λ t. t.changes.items ≡ where_known source.now (changes line (map (λ s. s.line) steps.now))) }
    ensures far { IfOk result (λ t. t.far_lines.items ≡ where_known source.now (far_lines 0 line (map (λ s. s.line) steps.now))) }
    ensures names { IfOk result (λ t. t.up_names.items ≡ where_known source.now (map (λ name. Some name.text) names.now)) }
{
    match source {
        Some(_) => Ok(Known {
            changes: changes(alloc, line, steps)?,
            far_lines: far_lines(alloc, line, steps)?,
            up_names: up_names(alloc, names)?,
        }),
        None => Ok(Known {
            changes: Vec::new(alloc),
            far_lines: Vec::new(alloc),
            up_names: Vec::new(alloc),
        }),
    }
}

/// The prototype of a function, from its body, its code with the lines, its constants, its local
/// variables and the prototypes of the functions in it.
pub fn prototype(
    alloc: Global,
    source: &Option<Bytes>,
    body: &Body,
    steps: &[Step],
    constants: Vec<Const>,
    locals: Vec<LocVar>,
    inner: Vec<Proto>,
) -> Allocated<Proto>
    ensures { IfOk result (λ p. p ≡ record { own = assembled source.now (plain_body body.now) steps.now constants.items locals.items; inner = prototypes inner.items }) }
{
    let count = body.params.len();
    let Known {
        changes,
        far_lines,
        up_names,
    } = told(alloc, source, body.line, steps, &body.upvalues)?;
    Ok(Proto {
        source: copied(alloc, source)?,
        line_defined: body.line,
        last_line: last_line(&body.block, body.line),
        params: byte(count)?,
        vararg: body.vararg,
        stack: byte(room(steps, count))?,
        code: instructions(alloc, steps)?,
        constants,
        upvalues: upvalues(alloc, &body.upvalues)?,
        protos: inner,
        line_info: changes,
        abs_lines: far_lines,
        locals,
        up_names,
    })
}
