// The targets of an assignment (Lua 5.4 manual, 3.3.3). Each has two registers, for its table and its key.
ghost use Rattle.std.specs.Prelude.{◌≡◌, [], OnOk};
ghost use Rattle.tree_core.specs.Tree.{exps};
ghost use Rattle.tree_core.specs.Plain.{plain_exp, plain_exps};
ghost use Rattle.code_of.specs.Expressions.{made_by, made_in};
ghost use Rattle.code_of.specs.Parts.{name_target, target_code, targets_code};
ghost use Rattle.code_emitter.specs.Listing.{followed, listed};

use code_core::Opcode;
use code_emitter::{Emitter, next};
use code_expr::{aim_field, aim_name, expression};
use int_core::Allocated;
use tree_core::{Exp, ExpNode, Name, Place};

/// Writes the table of a name that is assigned to, where it is a global one, and its key where the store does not name it.
fn write_name_target(
    emitter: &mut Emitter,
    name: &Name,
    register: usize,
    line: u32,
) -> Allocated<()>
    ensures { OnOk result (emitter.new ≡ listed emitter.old (name_target emitter.old.constants name.now.place name.now.text register line)) }
{
    let key = next(register)?;
    match name.place {
        Place::GlobalIn(from) => {
            emitter.put_abc(Opcode::Move, register, usize::from(from), 0, line)?;
            aim_name(emitter, &name.text, key, line)?;
            Ok(())
        }
        Place::GlobalOf(from) => {
            emitter.put_abc(Opcode::GetUpval, register, usize::from(from), 0, line)?;
            aim_name(emitter, &name.text, key, line)?;
            Ok(())
        }
        Place::Unset | Place::Local(_) | Place::Upvalue(_) => Ok(()),
    }
}

/// Counts the functions that an expression makes, and writes nothing.
pub(crate) fn count_made(emitter: &mut Emitter, exp: &Exp) -> Allocated<()>
    ensures { OnOk result (emitter.new ≡ followed emitter.old [] (made_by (plain_exp exp.now))) }
{
    let place = emitter.steps().len();
    expression(emitter, exp, 0, 2)?;
    emitter.cut(place);
    Ok(())
}

/// Writes the table and the key of a target. No tree has another target than a name and an index:
/// such a one has no code.
pub(crate) fn write_target(emitter: &mut Emitter, target: &Exp, register: usize) -> Allocated<()>
    ensures { OnOk result (emitter.new ≡ followed emitter.old (target_code emitter.old.constants (plain_exp target.now) register emitter.old.made) (made_by (plain_exp target.now))) }
{
    match &target.node {
        ExpNode::Var(name) => write_name_target(emitter, name, register, target.line),
        ExpNode::Index(object, key) => aim_field(emitter, object, key, register),
        _ => count_made(emitter, target),
    }
}

/// Writes the tables and keys of targets, to the registers from one on.
pub(crate) fn write_targets(
    emitter: &mut Emitter,
    targets: &Vec<Exp>,
    register: usize,
) -> Allocated<()>
    ensures { OnOk result (emitter.new ≡ followed emitter.old (targets_code emitter.old.constants (exps (plain_exps targets.now.items)) register emitter.old.made) (made_in (exps (plain_exps targets.now.items)))) }
{
    let mut register = register;
    for target in targets.iter() {
        write_target(emitter, target, register)?;
        register = next(next(register)?)?;
    }
    Ok(())
}
