// The walk that sets the places of names and the upvalues of functions.
ghost use Rattle.std.specs.Prelude.{◌≡◌, OnOk, map, option_map};
ghost use Rattle.std.specs.Option.{option_map_or};
ghost use Rattle.tree_core.specs.Tree.{exps, fields, stats, arms};
ghost use Rattle.tree_core.specs.Plain.{plain_exp, plain_exps, plain_field, plain_stat, plain_arm, plain_block, plain_body};
ghost use Rattle.scope_core.specs.Scopes.{declare, declare_all, plain_variable, declared_variable, numeric_hidden, is_fixed};
ghost use Rattle.scope_core.specs.Places.{placed_names, placed_declared, first_placed, local_placed};
ghost use Rattle.scope_core.specs.Walked.{ended, kept, after_exp, after_exps, after_fields, after_field, after_body, after_open, after_stats, after_stat, after_arms, after_arm, settled_exp, settled_exps, settled_fields, settled_field, settled_body, settled_block, settled_stats, settled_stat, settled_arms, settled_arm};

use crate::nesting::Nesting;
use crate::variable::Variable;
use int_core::{Allocated, Bytes};
use std::alloc::Global;
use tree_core::{
    Arm, Attrib, Block, Body, Declared, Exp, ExpNode, Field, Name, Place, Stat, StatNode,
};

/// Sets the places in an expression.
#[cycle(placing)]
#[tactic(auto, using(tree_core::proofs::Rows::exps_of, tree_core::proofs::Rows::fields_of, tree_core::proofs::Rows::arms_of))]
fn place_exp(nesting: &mut Nesting, alloc: Global, exp: &mut Exp) -> Allocated<()>
    ensures after { OnOk result (nesting.new ≡ after_exp nesting.old (plain_exp exp.old)) }
    ensures settled { OnOk result (plain_exp exp.new ≡ settled_exp nesting.old (plain_exp exp.old)) }
{
    match &mut exp.node {
        ExpNode::Nil
        | ExpNode::True
        | ExpNode::False
        | ExpNode::Int(_)
        | ExpNode::Str(_)
        | ExpNode::Vararg => Ok(()),
        ExpNode::Function(body) => place_body(nesting, alloc, body),
        ExpNode::Var(name) => {
            name.place = nesting.name(alloc, &name.text)?;
            Ok(())
        }
        ExpNode::Unary(_, operand) => place_exp(nesting, alloc, operand),
        ExpNode::Paren(inner) => place_exp(nesting, alloc, inner),
        ExpNode::Index(indexed, key) => {
            place_exp(nesting, alloc, indexed)?;
            place_exp(nesting, alloc, key)
        }
        ExpNode::Binary(_, left, right) => {
            place_exp(nesting, alloc, left)?;
            place_exp(nesting, alloc, right)
        }
        ExpNode::And(left, right) => {
            place_exp(nesting, alloc, left)?;
            place_exp(nesting, alloc, right)
        }
        ExpNode::Or(left, right) => {
            place_exp(nesting, alloc, left)?;
            place_exp(nesting, alloc, right)
        }
        ExpNode::Call(called, arguments) => {
            place_exp(nesting, alloc, called)?;
            place_exps(nesting, alloc, arguments)?;
            Ok(())
        }
        ExpNode::Method(object, _name, arguments) => {
            place_exp(nesting, alloc, object)?;
            place_exps(nesting, alloc, arguments)?;
            Ok(())
        }
        ExpNode::Table(list) => {
            place_fields(nesting, alloc, list)?;
            Ok(())
        }
    }
}

/// Sets the places in a list of expressions.
#[cycle(placing)]
#[tactic(auto, using(crate::proofs::Going::begins))]
fn place_exps(nesting: &mut Nesting, alloc: Global, list: &mut Vec<Exp>) -> Allocated<()>
    ensures after { OnOk result (nesting.new ≡ after_exps nesting.old (exps (plain_exps list.old.items))) }
    ensures settled { OnOk result (exps (plain_exps list.new.items) ≡ settled_exps nesting.old (exps (plain_exps list.old.items))) }
{
    for exp in list.iter_mut() {
        place_exp(nesting, alloc, exp)?;
    }
    Ok(())
}

/// Sets the places in the fields of a table.
#[cycle(placing)]
#[tactic(auto, using(crate::proofs::Going::begins))]
fn place_fields(nesting: &mut Nesting, alloc: Global, list: &mut Vec<Field>) -> Allocated<()>
    ensures after { OnOk result (nesting.new ≡ after_fields nesting.old (fields (map plain_field list.old.items))) }
    ensures settled { OnOk result (fields (map plain_field list.new.items) ≡ settled_fields nesting.old (fields (map plain_field list.old.items))) }
{
    for field in list.iter_mut() {
        place_field(nesting, alloc, field)?;
    }
    Ok(())
}

/// Sets the places in a field.
#[cycle(placing)]
fn place_field(nesting: &mut Nesting, alloc: Global, field: &mut Field) -> Allocated<()>
    ensures after { OnOk result (nesting.new ≡ after_field nesting.old (plain_field field.old)) }
    ensures settled { OnOk result (plain_field field.new ≡ settled_field nesting.old (plain_field field.old)) }
{
    match field {
        Field::Item(value) => place_exp(nesting, alloc, value),
        Field::Keyed { key, value, .. } => {
            place_exp(nesting, alloc, key)?;
            place_exp(nesting, alloc, value)
        }
    }
}

/// Sets the places in a function, and its upvalues.
#[cycle(placing)]
fn place_body(nesting: &mut Nesting, alloc: Global, body: &mut Body) -> Allocated<()>
    ensures after { OnOk result (nesting.new ≡ after_body nesting.old (plain_body body.old)) }
    ensures settled { OnOk result (plain_body body.new ≡ settled_body nesting.old (plain_body body.old)) }
{
    nesting.enter(alloc)?;
    declare_names(nesting, alloc, &mut body.params)?;
    place_block(nesting, alloc, &mut body.block)?;
    body.upvalues = nesting.leave(alloc);
    Ok(())
}

/// Sets the places in a block, whose variables stay in scope.
#[cycle(placing)]
pub fn place_block(nesting: &mut Nesting, alloc: Global, block: &mut Block) -> Allocated<()>
    ensures after { OnOk result (nesting.new ≡ after_open nesting.old (plain_block block.old)) }
    ensures settled { OnOk result (plain_block block.new ≡ settled_block nesting.old (plain_block block.old)) }
{
    let Block { stats, result, .. } = block;
    place_stats(nesting, alloc, stats)?;
    match result {
        Some(values) => {
            place_exps(nesting, alloc, values)?;
            Ok(())
        }
        None => Ok(()),
    }
}

/// Sets the places in a block, with which the scope of its variables ends.
#[cycle(placing)]
fn place_inner(nesting: &mut Nesting, alloc: Global, block: &mut Block) -> Allocated<()>
    ensures after { OnOk result (nesting.new ≡ ended nesting.old (after_open nesting.old (plain_block block.old))) }
    ensures settled { OnOk result (plain_block block.new ≡ settled_block nesting.old (plain_block block.old)) }
{
    let count = nesting.count();
    place_block(nesting, alloc, block)?;
    nesting.keep(count);
    Ok(())
}

/// Sets the places in statements, behind which their variables are in scope.
#[cycle(placing)]
#[tactic(auto, using(crate::proofs::Going::begins))]
fn place_stats(nesting: &mut Nesting, alloc: Global, list: &mut Vec<Stat>) -> Allocated<()>
    ensures after { OnOk result (nesting.new ≡ after_stats nesting.old (stats (map plain_stat list.old.items))) }
    ensures settled { OnOk result (stats (map plain_stat list.new.items) ≡ settled_stats nesting.old (stats (map plain_stat list.old.items))) }
{
    for stat in list.iter_mut() {
        place_stat(nesting, alloc, stat)?;
    }
    Ok(())
}

/// Sets the places in the tests and blocks of an `if`.
#[cycle(placing)]
#[tactic(auto, using(crate::proofs::Going::begins))]
fn place_arms(nesting: &mut Nesting, alloc: Global, list: &mut Vec<Arm>) -> Allocated<()>
    ensures after { OnOk result (nesting.new ≡ after_arms nesting.old (arms (map plain_arm list.old.items))) }
    ensures settled { OnOk result (arms (map plain_arm list.new.items) ≡ settled_arms nesting.old (arms (map plain_arm list.old.items))) }
{
    for arm in list.iter_mut() {
        place_arm(nesting, alloc, arm)?;
    }
    Ok(())
}

/// Sets the places in a test and its block.
#[cycle(placing)]
fn place_arm(nesting: &mut Nesting, alloc: Global, arm: &mut Arm) -> Allocated<()>
    ensures after { OnOk result (nesting.new ≡ after_arm nesting.old (plain_arm arm.old)) }
    ensures settled { OnOk result (plain_arm arm.new ≡ settled_arm nesting.old (plain_arm arm.old)) }
{
    let Arm { test, block } = arm;
    place_exp(nesting, alloc, test)?;
    place_inner(nesting, alloc, block)
}

/// Sets the places in a statement, behind which its variables are in scope.
#[cycle(placing)]
#[tactic(auto, using(tree_core::proofs::Rows::exps_of, tree_core::proofs::Rows::fields_of, tree_core::proofs::Rows::arms_of))]
fn place_stat(nesting: &mut Nesting, alloc: Global, stat: &mut Stat) -> Allocated<()>
    ensures after { OnOk result (nesting.new ≡ after_stat nesting.old (plain_stat stat.old)) }
    ensures settled { OnOk result (plain_stat stat.new ≡ settled_stat nesting.old (plain_stat stat.old)) }
{
    match &mut stat.node {
        StatNode::Empty | StatNode::Label(_) | StatNode::Goto(_) | StatNode::Break => Ok(()),
        StatNode::Local(names, values) => {
            place_exps(nesting, alloc, values)?;
            declare_locals(nesting, alloc, names)?;
            Ok(())
        }
        StatNode::LocalFunction(name, body) => {
            declare_name(nesting, alloc, name)?;
            place_body(nesting, alloc, body)
        }
        StatNode::Assign(targets, values) => {
            place_exps(nesting, alloc, targets)?;
            place_exps(nesting, alloc, values)?;
            Ok(())
        }
        StatNode::Call(call) => place_exp(nesting, alloc, call),
        StatNode::Do(block) => place_inner(nesting, alloc, block),
        StatNode::While(test, block) => {
            place_exp(nesting, alloc, test)?;
            place_inner(nesting, alloc, block)
        }
        StatNode::Repeat(block, test) => {
            let count = nesting.count();
            place_block(nesting, alloc, block)?;
            place_exp(nesting, alloc, test)?;
            nesting.keep(count);
            Ok(())
        }
        StatNode::If(list, otherwise) => {
            place_arms(nesting, alloc, list)?;
            match otherwise {
                Some(block) => {
                    place_inner(nesting, alloc, block)?;
                    Ok(())
                }
                None => Ok(()),
            }
        }
        StatNode::NumFor(name, first, limit, step, block) => {
            let count = nesting.count();
            place_exp(nesting, alloc, first)?;
            place_exp(nesting, alloc, limit)?;
            match step {
                Some(step) => {
                    place_exp(nesting, alloc, step)?;
                    place_counted(nesting, alloc, count, name, block)?;
                    Ok(())
                }
                None => {
                    place_counted(nesting, alloc, count, name, block)?;
                    Ok(())
                }
            }
        }
        StatNode::GenFor(names, values, block) => {
            let count = nesting.count();
            place_exps(nesting, alloc, values)?;
            nesting.hide_generic()?;
            declare_names(nesting, alloc, names)?;
            place_block(nesting, alloc, block)?;
            nesting.keep(count);
            Ok(())
        }
    }
}

/// Sets the places in a numeric `for` behind its values, with which the scope of all but the
/// first so many variables ends.
#[cycle(placing)]
fn place_counted(
    nesting: &mut Nesting,
    alloc: Global,
    count: usize,
    name: &mut Name,
    block: &mut Block,
) -> Allocated<()>
    ensures after { OnOk result (nesting.new ≡ kept count (after_open (declare (declare_all nesting.old numeric_hidden) (plain_variable name.old)) (plain_block block.old))) }
    ensures name { OnOk result (name.new ≡ first_placed (declare_all nesting.old numeric_hidden) name.old) }
    ensures settled { OnOk result (plain_block block.new ≡ settled_block (declare (declare_all nesting.old numeric_hidden) (plain_variable name.old)) (plain_block block.old)) }
{
    nesting.hide_numeric()?;
    declare_name(nesting, alloc, name)?;
    place_block(nesting, alloc, block)?;
    nesting.keep(count);
    Ok(())
}

/// Brings a variable into scope, and sets its place.
fn declare_name(nesting: &mut Nesting, alloc: Global, name: &mut Name) -> Allocated<()>
    ensures after { OnOk result (nesting.new ≡ declare nesting.old (plain_variable name.old)) }
    ensures placed { OnOk result (name.new ≡ first_placed nesting.old name.old) }
{
    name.place = Place::Local(nesting.next_register());
    let text = Bytes::of(name.text.as_slice().to_vec(alloc)?);
    nesting.declare(Variable::Named { text, fixed: false })
}

/// Brings variables into scope one after the other, and sets their places.
#[tactic(auto, using(crate::proofs::Going::begins))]
fn declare_names(nesting: &mut Nesting, alloc: Global, names: &mut Vec<Name>) -> Allocated<()>
    ensures after { OnOk result (nesting.new ≡ declare_all nesting.old (map plain_variable names.old.items)) }
    ensures placed { OnOk result (names.new.items ≡ placed_names nesting.old names.old.items) }
{
    for name in names.iter_mut() {
        declare_name(nesting, alloc, name)?;
    }
    Ok(())
}

/// Brings the variables of a `local` into scope one after the other, and sets their places.
#[tactic(auto, using(crate::proofs::Going::begins))]
fn declare_locals(nesting: &mut Nesting, alloc: Global, names: &mut Vec<Declared>) -> Allocated<()>
    ensures after { OnOk result (nesting.new ≡ declare_all nesting.old (map declared_variable names.old.items)) }
    ensures placed { OnOk result (names.new.items ≡ placed_declared nesting.old names.old.items) }
{
    for declared in names.iter_mut() {
        declare_local(nesting, alloc, declared)?;
    }
    Ok(())
}

/// Brings a variable of a `local` into scope, and sets its place.
fn declare_local(nesting: &mut Nesting, alloc: Global, declared: &mut Declared) -> Allocated<()>
    ensures after { OnOk result (nesting.new ≡ declare nesting.old (declared_variable declared.old)) }
    ensures placed { OnOk result (declared.new ≡ local_placed nesting.old declared.old) }
{
    declared.name.place = Place::Local(nesting.next_register());
    let text = Bytes::of(declared.name.text.as_slice().to_vec(alloc)?);
    let fixed = is_fixed(&declared.attrib);
    nesting.declare(Variable::Named { text, fixed })
}

/// Whether a variable with this attribute is never assigned.
fn is_fixed(attrib: &Attrib) -> bool
    ensures { result ≡ is_fixed attrib.now }
{
    match attrib {
        Attrib::Const | Attrib::Close => true,
        Attrib::Plain | Attrib::Other(_) => false,
    }
}
