// Two values beside each other.
ghost use Rattle.std.specs.Prelude.{◌≡◌, ◌+◌, OnOk};
ghost use Rattle.tree_core.specs.Plain.{plain_exp};
ghost use Rattle.code_of.specs.Expressions.{made_by};
ghost use Rattle.code_of.specs.Parts.{pair_code};
ghost use Rattle.code_emitter.specs.Listing.{followed};

use code_emitter::{Emitter, next};
use code_expr::expression;
use int_core::Allocated;
use tree_core::Exp;

/// Writes two expressions, whose values go to a register and the one above it.
pub(crate) fn write_pair(
    emitter: &mut Emitter,
    first: &Exp,
    second: &Exp,
    register: usize,
) -> Allocated<()>
    ensures { OnOk result (emitter.new ≡ followed emitter.old (pair_code emitter.old.constants (plain_exp first.now) (plain_exp second.now) register emitter.old.made) (made_by (plain_exp first.now) + made_by (plain_exp second.now))) }
{
    expression(emitter, first, register, 2)?;
    expression(emitter, second, next(register)?, 2)?;
    Ok(())
}
