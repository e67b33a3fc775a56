// Statements that have no block.
ghost use Rattle.std.specs.Prelude.{◌≡◌, ◌+◌, ◌&&◌, true, nat_eq, OnOk};
ghost use Rattle.tree_core.specs.Tree.{exps};
ghost use Rattle.tree_core.specs.Plain.{plain_exp, plain_exps, plain_body};
ghost use Rattle.code_of.specs.Expressions.{exp_code, made_by, made_in};
ghost use Rattle.code_of.specs.Operands.{second_assigned};
ghost use Rattle.code_of.specs.Parts.{assign_code, captures_local, closure_code, function_code, store_by, stored_code, two_by, two_code};
ghost use Rattle.code_of.specs.Stores.{stores_field};
ghost use Rattle.code_emitter.specs.Listing.{followed};
ghost use Rattle.code_emitter.specs.Operands.{made_directly};

use crate::stores::{behind, write_store, write_stores};
use crate::targets::{write_target, write_targets};
use code_core::Opcode;
use code_emitter::Emitter;
use code_expr::{direct, direct_local, expression, is_field, list, local_store, store};
use int_core::Allocated;
use tree_core::{Body, Exp, UpName};

/// Whether an upvalue is the local of a register, in the function just around.
fn is_local(upvalue: &UpName, register: usize) -> bool
    ensures { result ≡ (upvalue.now.in_stack && nat_eq upvalue.now.index register) }
{
    upvalue.in_stack && usize::from(upvalue.index) == register
}

/// Whether a function with these upvalues captures the local of a register.
fn captures_local(upvalues: &Vec<UpName>, register: usize) -> bool
    ensures { result ≡ captures_local register upvalues.now.items }
{
    for upvalue in upvalues.iter() {
        if is_local(upvalue, register) {
            return true;
        }
    }
    false
}

/// Writes a function that captures the local of its register. That is nil until the function is there.
fn write_recursive(emitter: &mut Emitter, register: usize, line: u32) -> Allocated<()>
    ensures { OnOk result (emitter.new ≡ followed emitter.old (closure_code true register emitter.old.made line) 1) }
{
    emitter.put_abc(Opcode::LoadNil, register, 0, 0, line)?;
    emitter.put_closure(register, line)?;
    Ok(())
}

/// Writes `local function`, whose variable has this register.
pub fn write_local_function(emitter: &mut Emitter, body: &Body, register: usize) -> Allocated<()>
    ensures { OnOk result (emitter.new ≡ followed emitter.old (function_code (plain_body body.now) register emitter.old.made) 1) }
{
    if captures_local(&body.upvalues, register) {
        return write_recursive(emitter, register, body.line);
    }
    emitter.put_closure(register, body.line)
}

/// Writes a call that stands alone.
pub fn write_call(emitter: &mut Emitter, call: &Exp, register: usize) -> Allocated<()>
    ensures { OnOk result (emitter.new ≡ followed emitter.old (exp_code emitter.old.constants (plain_exp call.now) register emitter.old.made 1) (made_by (plain_exp call.now))) }
{
    expression(emitter, call, register, 1)
}

/// Writes an assignment that evaluates all values before it stores them.
fn write_stored(
    emitter: &mut Emitter,
    targets: &Vec<Exp>,
    values: &Vec<Exp>,
    register: usize,
    line: u32,
) -> Allocated<()>
    ensures { OnOk result (emitter.new ≡ followed emitter.old (stored_code emitter.old.constants (exps (plain_exps targets.now.items)) (exps (plain_exps values.now.items)) register emitter.old.made line) (made_in (exps (plain_exps targets.now.items)) + made_in (exps (plain_exps values.now.items)))) }
{
    let count = targets.len();
    let value = behind(behind(register, count)?, count)?;
    write_targets(emitter, targets, register)?;
    list(emitter, values, Some(count), value, line)?;
    write_stores(emitter, targets, register, value)?;
    Ok(())
}

/// Writes an assignment in which no value goes straight to a local.
fn write_single(
    emitter: &mut Emitter,
    targets: &Vec<Exp>,
    values: &Vec<Exp>,
    register: usize,
    line: u32,
) -> Allocated<()>
    ensures { OnOk result (emitter.new ≡ followed emitter.old (store_by emitter.old.constants (stores_field (exps (plain_exps targets.now.items)) (exps (plain_exps values.now.items))) (exps (plain_exps targets.now.items)) (exps (plain_exps values.now.items)) register emitter.old.made line) (made_in (exps (plain_exps targets.now.items)) + made_in (exps (plain_exps values.now.items)))) }
{
    if targets.len() != 1 {
        return write_stored(emitter, targets, values, register, line);
    }
    if values.len() != 1 {
        return write_stored(emitter, targets, values, register, line);
    }
    let target = &targets[0];
    let value = &values[0];
    if is_field(target) {
        return store(emitter, target, value, register);
    }
    match local_store(emitter, target, value) {
        Some(step) => emitter.put_step(step),
        None => write_stored(emitter, targets, values, register, line),
    }
}

/// Writes an assignment of two values to a target and a local, which gets the second value straight into its register.
fn write_second(
    emitter: &mut Emitter,
    target: &Exp,
    first: &Exp,
    second: &Exp,
    local: usize,
    register: usize,
) -> Allocated<()>
    ensures { OnOk result (emitter.new ≡ followed emitter.old (two_code emitter.old.constants (plain_exp target.now) (plain_exp first.now) (plain_exp second.now) local register emitter.old.made) (made_by (plain_exp target.now) + (made_by (plain_exp first.now) + made_directly (plain_exp second.now)))) }
{
    let value = behind(register, 2)?;
    let free = behind(register, 3)?;
    write_target(emitter, target, register)?;
    expression(emitter, first, value, 2)?;
    direct(emitter, second, local, free)?;
    write_store(emitter, target, register, value)?;
    Ok(())
}

/// Writes an assignment whose target is not a local alone that its value goes straight to.
fn write_several(
    emitter: &mut Emitter,
    targets: &Vec<Exp>,
    values: &Vec<Exp>,
    register: usize,
    line: u32,
) -> Allocated<()>
    ensures { OnOk result (emitter.new ≡ followed emitter.old (two_by emitter.old.constants (second_assigned (exps (plain_exps targets.now.items)) (exps (plain_exps values.now.items))) (exps (plain_exps targets.now.items)) (exps (plain_exps values.now.items)) register emitter.old.made line) (made_in (exps (plain_exps targets.now.items)) + made_in (exps (plain_exps values.now.items)))) }
{
    if targets.len() != 2 {
        return write_single(emitter, targets, values, register, line);
    }
    if values.len() != 2 {
        return write_single(emitter, targets, values, register, line);
    }
    let target = &targets[0];
    let last = &targets[1];
    let first = &values[0];
    let second = &values[1];
    match direct_local(last, second) {
        Some(local) => write_second(emitter, target, first, second, local, register),
        None => write_single(emitter, targets, values, register, line),
    }
}

/// Writes an assignment, where the registers from one on are free.
pub fn write_assign(
    emitter: &mut Emitter,
    targets: &Vec<Exp>,
    values: &Vec<Exp>,
    register: usize,
    line: u32,
) -> Allocated<()>
    ensures { OnOk result (emitter.new ≡ followed emitter.old (assign_code emitter.old.constants (exps (plain_exps targets.now.items)) (exps (plain_exps values.now.items)) register emitter.old.made line) (made_in (exps (plain_exps targets.now.items)) + made_in (exps (plain_exps values.now.items)))) }
{
    if targets.len() != 1 {
        return write_several(emitter, targets, values, register, line);
    }
    if values.len() != 1 {
        return write_several(emitter, targets, values, register, line);
    }
    let target = &targets[0];
    let value = &values[0];
    match direct_local(target, value) {
        Some(local) => direct(emitter, value, local, register),
        None => write_several(emitter, targets, values, register, line),
    }
}
