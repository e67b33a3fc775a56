// The values of a numeric `for`: where it begins, its limit and its step.
ghost use Rattle.std.specs.Prelude.{◌≡◌, ◌+◌, OnOk};
ghost use Rattle.tree_core.specs.Plain.{plain_exp};
ghost use Rattle.code_of.specs.Expressions.{made_by};
ghost use Rattle.code_of.specs.Parts.{bounds_code, steps_code};
ghost use Rattle.code_emitter.specs.Listing.{followed};

use crate::pair::write_pair;
use code_core::Opcode;
use code_emitter::{Emitter, next};
use code_expr::expression;
use int_core::Allocated;
use tree_core::Exp;

/// Writes the first value and the limit of a `for`, and the step 1.
pub fn write_bounds(
    emitter: &mut Emitter,
    from: &Exp,
    limit: &Exp,
    register: usize,
    line: u32,
) -> Allocated<()>
    ensures { OnOk result (emitter.new ≡ followed emitter.old (bounds_code emitter.old.constants (plain_exp from.now) (plain_exp limit.now) register emitter.old.made line) (made_by (plain_exp from.now) + made_by (plain_exp limit.now))) }
{
    let step = next(next(register)?)?;
    write_pair(emitter, from, limit, register)?;
    emitter.put_abx(Opcode::LoadI, step, 65536, line)?;
    Ok(())
}

/// Writes the first value, the limit and the step of a `for`.
pub fn write_steps(
    emitter: &mut Emitter,
    from: &Exp,
    limit: &Exp,
    step: &Exp,
    register: usize,
) -> Allocated<()>
    ensures { OnOk result (emitter.new ≡ followed emitter.old (steps_code emitter.old.constants (plain_exp from.now) (plain_exp limit.now) (plain_exp step.now) register emitter.old.made) (made_by (plain_exp from.now) + made_by (plain_exp limit.now) + made_by (plain_exp step.now))) }
{
    let above = next(next(register)?)?;
    write_pair(emitter, from, limit, register)?;
    expression(emitter, step, above, 2)?;
    Ok(())
}
