// The stores of an assignment (Lua 5.4 manual, 3.3.3), from right to left.
ghost use Rattle.std.specs.Prelude.{◌≡◌, ◌+◌, OnOk, IfOk};
ghost use Rattle.tree_core.specs.Tree.{exps};
ghost use Rattle.tree_core.specs.Plain.{plain_exp, plain_exps};
ghost use Rattle.code_of.specs.Parts.{name_store, store_code, stores_code};
ghost use Rattle.code_emitter.specs.Listing.{listed};

use code_core::Opcode;
use code_emitter::Emitter;
use code_expr::{store_name, store_waiting};
use int_core::Allocated;
use std::alloc::AllocError;
use tree_core::{Exp, ExpNode, Name, Place};

/// A number and some more. For as many things as `usize` counts there is no memory.
pub(crate) fn behind(number: usize, more: usize) -> Allocated<usize>
    ensures { IfOk result (λ n. n ≡ number + more) }
{
    number.checked_add(more).ok_or(AllocError)
}

/// Writes the store of a register's value in a name.
fn write_name_store(
    emitter: &mut Emitter,
    name: &Name,
    register: usize,
    value: usize,
    line: u32,
) -> Allocated<()>
    ensures { OnOk result (emitter.new ≡ listed emitter.old (name_store emitter.old.constants name.now.place name.now.text register value line)) }
{
    match name.place {
        Place::Unset => Ok(()),
        Place::Local(to) => emitter.put_abc(Opcode::Move, usize::from(to), value, 0, line),
        Place::Upvalue(to) => emitter.put_abc(Opcode::SetUpval, value, usize::from(to), 0, line),
        Place::GlobalIn(_) | Place::GlobalOf(_) => {
            store_name(emitter, &name.text, register, value, line)
        }
    }
}

/// Writes the store of a register's value in a target, whose table and key are in the registers from one on.
pub(crate) fn write_store(
    emitter: &mut Emitter,
    target: &Exp,
    register: usize,
    value: usize,
) -> Allocated<()>
    ensures { OnOk result (emitter.new ≡ listed emitter.old (store_code emitter.old.constants (plain_exp target.now) register value)) }
{
    match &target.node {
        ExpNode::Var(name) => write_name_store(emitter, name, register, value, target.line),
        ExpNode::Index(_, key) => store_waiting(emitter, key, register, value, target.line),
        _ => Ok(()),
    }
}

/// Writes the stores of values in targets. The tables and keys of the targets are in the registers
/// from one on, and the values in those from another on.
pub(crate) fn write_stores(
    emitter: &mut Emitter,
    targets: &Vec<Exp>,
    register: usize,
    value: usize,
) -> Allocated<()>
    ensures { OnOk result (emitter.new ≡ listed emitter.old (stores_code emitter.old.constants (exps (plain_exps targets.now.items)) register value)) }
{
    let mut left = targets.len();
    let mut register = behind(behind(register, left)?, left)?;
    let mut value = behind(value, left)?;
    while left > 0 {
        left -= 1;
        register -= 2;
        value -= 1;
        write_store(emitter, &targets[left], register, value)?;
    }
    Ok(())
}
