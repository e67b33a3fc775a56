// The walk that meets the violations in a tree.
ghost use Rattle.std.specs.Prelude.{◌≡◌, [], ◌∷◌, OnOk, map, true};
ghost use Rattle.tree_core.specs.Tree.{exps, fields, stats, arms};
ghost use Rattle.tree_core.specs.Plain.{plain_exp, plain_exps, plain_field, plain_stat, plain_arm, plain_block, plain_body};
ghost use Rattle.scope_core.specs.Scopes.{declare, declare_all, declared_by, plain_variable, declared_variable, behind, behind_stats, generic_hidden, numeric_hidden};
ghost use Rattle.scope_core.specs.Parts.{Statement};
ghost use Rattle.scope_core.specs.Rules.{part_violations};
ghost use Rattle.lua_scope.specs.Met.{meet_all, met_declared, met_names, met_declarations, met_exp, met_exps, met_fields, met_field, met_body, met_stats, met_stat, met_block, met_arms, met_arm, met_for};
ghost use Rattle.lua_scope.specs.Blocks.{scope_at};

use crate::checks::{Flags, check_declared, check_held, check_stat, meet_where};
use crate::labels::{IndexedBlock, move_to};
use int_core::{Allocated, Bytes};
use scope_core::{Least, Nesting, Variable, held_by, held_by_list};
use std::alloc::Global;
use tree_core::{Arm, Attrib, Block, Body, Declared, Exp, ExpNode, Field, Name, Stat, StatNode};

/// Meets the violations in an expression.
#[cycle(rules)]
#[tactic(auto, using(tree_core::proofs::Rows::exps_of, tree_core::proofs::Rows::fields_of))]
fn meet_exp(
    nesting: &mut Nesting,
    alloc: Global,
    is_vararg: bool,
    least: &mut Least,
    exp: &Exp,
) -> Allocated<()>
    ensures nesting { OnOk result (nesting.new ≡ nesting.old) }
    ensures met { OnOk result (least.new.violation ≡ met_exp nesting.old is_vararg least.old.violation (plain_exp exp.now)) }
{
    match &exp.node {
        ExpNode::Nil | ExpNode::True | ExpNode::False | ExpNode::Int(_) | ExpNode::Str(_) => Ok(()),
        ExpNode::Var(_) => Ok(()),
        ExpNode::Vararg => {
            meet_where(least, !is_vararg, exp.line, 8);
            Ok(())
        }
        ExpNode::Function(body) => {
            meet_body(nesting, alloc, least, body)?;
            Ok(())
        }
        ExpNode::Unary(_, operand) => {
            meet_exp(nesting, alloc, is_vararg, least, operand)?;
            Ok(())
        }
        ExpNode::Paren(inner) => {
            meet_exp(nesting, alloc, is_vararg, least, inner)?;
            Ok(())
        }
        ExpNode::Index(indexed, key) => {
            meet_exp(nesting, alloc, is_vararg, least, indexed)?;
            meet_exp(nesting, alloc, is_vararg, least, key)?;
            Ok(())
        }
        ExpNode::Binary(_, left, right) => {
            meet_exp(nesting, alloc, is_vararg, least, left)?;
            meet_exp(nesting, alloc, is_vararg, least, right)?;
            Ok(())
        }
        ExpNode::And(left, right) => {
            meet_exp(nesting, alloc, is_vararg, least, left)?;
            meet_exp(nesting, alloc, is_vararg, least, right)?;
            Ok(())
        }
        ExpNode::Or(left, right) => {
            meet_exp(nesting, alloc, is_vararg, least, left)?;
            meet_exp(nesting, alloc, is_vararg, least, right)?;
            Ok(())
        }
        ExpNode::Call(called, arguments) => {
            meet_exp(nesting, alloc, is_vararg, least, called)?;
            meet_exps(nesting, alloc, is_vararg, least, arguments)?;
            Ok(())
        }
        ExpNode::Method(object, _name, arguments) => {
            meet_exp(nesting, alloc, is_vararg, least, object)?;
            meet_exps(nesting, alloc, is_vararg, least, arguments)?;
            Ok(())
        }
        ExpNode::Table(list) => {
            meet_fields(nesting, alloc, is_vararg, least, list)?;
            Ok(())
        }
    }
}

/// Meets the violations in a list of expressions.
#[cycle(rules)]
fn meet_exps(
    nesting: &mut Nesting,
    alloc: Global,
    is_vararg: bool,
    least: &mut Least,
    list: &Vec<Exp>,
) -> Allocated<()>
    ensures nesting { OnOk result (nesting.new ≡ nesting.old) }
    ensures met { OnOk result (least.new.violation ≡ met_exps nesting.old is_vararg least.old.violation (exps (plain_exps list.now.items))) }
{
    for exp in list.iter() {
        meet_exp(nesting, alloc, is_vararg, least, exp)?;
    }
    Ok(())
}

/// Meets the violations in the fields of a table.
#[cycle(rules)]
fn meet_fields(
    nesting: &mut Nesting,
    alloc: Global,
    is_vararg: bool,
    least: &mut Least,
    list: &Vec<Field>,
) -> Allocated<()>
    ensures nesting { OnOk result (nesting.new ≡ nesting.old) }
    ensures met { OnOk result (least.new.violation ≡ met_fields nesting.old is_vararg least.old.violation (fields (map plain_field list.now.items))) }
{
    for field in list.iter() {
        meet_field(nesting, alloc, is_vararg, least, field)?;
    }
    Ok(())
}

/// Meets the violations in a field.
#[cycle(rules)]
fn meet_field(
    nesting: &mut Nesting,
    alloc: Global,
    is_vararg: bool,
    least: &mut Least,
    field: &Field,
) -> Allocated<()>
    ensures nesting { OnOk result (nesting.new ≡ nesting.old) }
    ensures met { OnOk result (least.new.violation ≡ met_field nesting.old is_vararg least.old.violation (plain_field field.now)) }
{
    match field {
        Field::Item(value) => {
            meet_exp(nesting, alloc, is_vararg, least, value)?;
            Ok(())
        }
        Field::Keyed { key, value, .. } => {
            meet_exp(nesting, alloc, is_vararg, least, key)?;
            meet_exp(nesting, alloc, is_vararg, least, value)?;
            Ok(())
        }
    }
}

/// Meets the violations in a function.
#[cycle(rules)]
pub fn meet_body(
    nesting: &mut Nesting,
    alloc: Global,
    least: &mut Least,
    body: &Body,
) -> Allocated<()>
    ensures nesting { OnOk result (nesting.new ≡ nesting.old) }
    ensures met { OnOk result (least.new.violation ≡ met_body nesting.old least.old.violation (plain_body body.now)) }
{
    meet_where(least, body.upvalues.len() > 255, body.line, 10);
    nesting.enter(alloc)?;
    declare_names(nesting, alloc, least, &body.params)?;
    let flags = Flags {
        in_loop: false,
        is_vararg: body.vararg,
    };
    let mut blocks = Vec::new(alloc);
    meet_block(nesting, alloc, flags, &mut blocks, least, &body.block, true)?;
    nesting.leave(alloc);
    Ok(())
}

/// Meets the violations in a block, whose variables stay in scope.
#[cycle(rules)]
fn meet_block<'a>(
    nesting: &mut Nesting,
    alloc: Global,
    flags: Flags,
    blocks: &mut Vec<IndexedBlock<'a>>,
    least: &mut Least,
    block: &'a Block,
    ends_scope: bool,
) -> Allocated<()>
    ensures nesting { OnOk result (nesting.new ≡ behind nesting.old (plain_block block.now)) }
    ensures blocks { OnOk result (blocks.new.items ≡ blocks.old.items) }
    ensures met { OnOk result (least.new.violation ≡ met_block (scope_at nesting.old blocks.old.items flags) ends_scope least.old.violation (plain_block block.now)) }
{
    match &block.result {
        Some(values) => {
            meet_stats(nesting, alloc, flags, blocks, least, &block.stats, false)?;
            check_held(nesting, least, block.line, held_by_list(0, values));
            meet_exps(nesting, alloc, flags.is_vararg, least, values)?;
            Ok(())
        }
        None => {
            meet_stats(
                nesting,
                alloc,
                flags,
                blocks,
                least,
                &block.stats,
                ends_scope,
            )?;
            Ok(())
        }
    }
}

/// Meets the violations in a block, with which the scope of its variables ends.
#[cycle(rules)]
#[tactic(auto, using(crate::proofs::Endings::ended_behind))]
fn meet_inner<'a>(
    nesting: &mut Nesting,
    alloc: Global,
    flags: Flags,
    blocks: &mut Vec<IndexedBlock<'a>>,
    least: &mut Least,
    block: &'a Block,
) -> Allocated<()>
    ensures nesting { OnOk result (nesting.new ≡ nesting.old) }
    ensures blocks { OnOk result (blocks.new.items ≡ blocks.old.items) }
    ensures met { OnOk result (least.new.violation ≡ met_block (scope_at nesting.old blocks.old.items flags) true least.old.violation (plain_block block.now)) }
{
    let count = nesting.count();
    meet_block(nesting, alloc, flags, blocks, least, block, true)?;
    nesting.keep(count);
    Ok(())
}

/// Meets the violations in statements, behind which their variables are in scope.
#[cycle(rules)]
fn meet_stats<'a>(
    nesting: &mut Nesting,
    alloc: Global,
    flags: Flags,
    blocks: &mut Vec<IndexedBlock<'a>>,
    least: &mut Least,
    list: &'a Vec<Stat>,
    ends_scope: bool,
) -> Allocated<()>
    ensures nesting { OnOk result (nesting.new ≡ behind_stats nesting.old (stats (map plain_stat list.now.items))) }
    ensures blocks { OnOk result (blocks.new.items ≡ blocks.old.items) }
    ensures met { OnOk result (least.new.violation ≡ met_stats (scope_at nesting.old blocks.old.items flags) [] ends_scope least.old.violation (stats (map plain_stat list.now.items))) }
{
    let block = IndexedBlock::new(alloc, list, ends_scope)?;
    blocks.push(block)?;
    let mut before = 0;
    for stat in list.iter() {
        let behind = before + 1;
        move_to(blocks, before, behind);
        meet_placed(nesting, alloc, flags, blocks, least, stat)?;
        before = behind;
    }
    blocks.pop();
    Ok(())
}

/// Meets the violations in a statement at its place in the innermost block, and those of its form.
#[cycle(rules)]
fn meet_placed<'a>(
    nesting: &mut Nesting,
    alloc: Global,
    flags: Flags,
    blocks: &mut Vec<IndexedBlock<'a>>,
    least: &mut Least,
    stat: &'a Stat,
) -> Allocated<()>
    ensures nesting { OnOk result (nesting.new ≡ declare_all nesting.old (declared_by (plain_stat stat.now))) }
    ensures blocks { OnOk result (blocks.new.items ≡ blocks.old.items) }
    ensures met { OnOk result (least.new.violation ≡ met_stat (scope_at nesting.old blocks.old.items flags) (meet_all least.old.violation (part_violations (scope_at nesting.old blocks.old.items flags) (Statement (plain_stat stat.now)))) (plain_stat stat.now)) }
{
    check_stat(nesting, flags, blocks, least, stat);
    meet_stat(nesting, alloc, flags, blocks, least, stat)?;
    Ok(())
}

/// Meets the violations in the tests and blocks of an `if`.
#[cycle(rules)]
fn meet_arms<'a>(
    nesting: &mut Nesting,
    alloc: Global,
    flags: Flags,
    blocks: &mut Vec<IndexedBlock<'a>>,
    least: &mut Least,
    list: &'a Vec<Arm>,
) -> Allocated<()>
    ensures nesting { OnOk result (nesting.new ≡ nesting.old) }
    ensures blocks { OnOk result (blocks.new.items ≡ blocks.old.items) }
    ensures met { OnOk result (least.new.violation ≡ met_arms (scope_at nesting.old blocks.old.items flags) least.old.violation (arms (map plain_arm list.now.items))) }
{
    for arm in list.iter() {
        meet_arm(nesting, alloc, flags, blocks, least, arm)?;
    }
    Ok(())
}

/// Meets the violations in a test and its block.
#[cycle(rules)]
fn meet_arm<'a>(
    nesting: &mut Nesting,
    alloc: Global,
    flags: Flags,
    blocks: &mut Vec<IndexedBlock<'a>>,
    least: &mut Least,
    arm: &'a Arm,
) -> Allocated<()>
    ensures nesting { OnOk result (nesting.new ≡ nesting.old) }
    ensures blocks { OnOk result (blocks.new.items ≡ blocks.old.items) }
    ensures met { OnOk result (least.new.violation ≡ met_arm (scope_at nesting.old blocks.old.items flags) least.old.violation (plain_arm arm.now)) }
{
    meet_exp(nesting, alloc, flags.is_vararg, least, &arm.test)?;
    meet_inner(nesting, alloc, flags, blocks, least, &arm.block)?;
    Ok(())
}

/// Meets the violations in a statement, behind which its variables are in scope.
#[cycle(rules)]
#[tactic(auto, using(tree_core::proofs::Rows::exps_of, tree_core::proofs::Rows::arms_of))]
fn meet_stat<'a>(
    nesting: &mut Nesting,
    alloc: Global,
    flags: Flags,
    blocks: &mut Vec<IndexedBlock<'a>>,
    least: &mut Least,
    stat: &'a Stat,
) -> Allocated<()>
    ensures nesting { OnOk result (nesting.new ≡ declare_all nesting.old (declared_by (plain_stat stat.now))) }
    ensures blocks { OnOk result (blocks.new.items ≡ blocks.old.items) }
    ensures met { OnOk result (least.new.violation ≡ met_stat (scope_at nesting.old blocks.old.items flags) least.old.violation (plain_stat stat.now)) }
{
    match &stat.node {
        StatNode::Empty | StatNode::Label(_) | StatNode::Goto(_) | StatNode::Break => Ok(()),
        StatNode::Local(names, values) => {
            meet_exps(nesting, alloc, flags.is_vararg, least, values)?;
            declare_locals(nesting, alloc, least, names)?;
            Ok(())
        }
        StatNode::LocalFunction(name, body) => {
            declare_name(nesting, alloc, least, name)?;
            meet_body(nesting, alloc, least, body)?;
            Ok(())
        }
        StatNode::Assign(targets, values) => {
            meet_exps(nesting, alloc, flags.is_vararg, least, targets)?;
            meet_exps(nesting, alloc, flags.is_vararg, least, values)?;
            Ok(())
        }
        StatNode::Call(call) => {
            meet_exp(nesting, alloc, flags.is_vararg, least, call)?;
            Ok(())
        }
        StatNode::Do(block) => {
            meet_inner(nesting, alloc, flags, blocks, least, block)?;
            Ok(())
        }
        StatNode::While(test, block) => {
            meet_exp(nesting, alloc, flags.is_vararg, least, test)?;
            meet_inner(nesting, alloc, in_loop(flags), blocks, least, block)?;
            Ok(())
        }
        StatNode::Repeat(block, test) => {
            let count = nesting.count();
            meet_block(nesting, alloc, in_loop(flags), blocks, least, block, false)?;
            check_held(nesting, least, stat.line, held_by(test));
            meet_exp(nesting, alloc, flags.is_vararg, least, test)?;
            nesting.keep(count);
            Ok(())
        }
        StatNode::If(list, otherwise) => {
            meet_arms(nesting, alloc, flags, blocks, least, list)?;
            match otherwise {
                Some(block) => {
                    meet_inner(nesting, alloc, flags, blocks, least, block)?;
                    Ok(())
                }
                None => Ok(()),
            }
        }
        StatNode::NumFor(name, first, limit, step, block) => {
            meet_exp(nesting, alloc, flags.is_vararg, least, first)?;
            meet_exp(nesting, alloc, flags.is_vararg, least, limit)?;
            match step {
                Some(step) => {
                    meet_exp(nesting, alloc, flags.is_vararg, least, step)?;
                    meet_counted(nesting, alloc, flags, blocks, least, name, block, stat.line)?;
                    Ok(())
                }
                None => {
                    meet_counted(nesting, alloc, flags, blocks, least, name, block, stat.line)?;
                    Ok(())
                }
            }
        }
        StatNode::GenFor(names, values, block) => {
            meet_exps(nesting, alloc, flags.is_vararg, least, values)?;
            meet_iterated(
                nesting, alloc, flags, blocks, least, names, block, stat.line,
            )?;
            Ok(())
        }
    }
}

/// The flags inside a loop.
fn in_loop(flags: Flags) -> Flags
    ensures { result ≡ record flags { in_loop = true } }
{
    Flags {
        in_loop: true,
        is_vararg: flags.is_vararg,
    }
}

/// Meets the violations in a numeric `for` behind its values.
#[cycle(rules)]
fn meet_counted<'a>(
    nesting: &mut Nesting,
    alloc: Global,
    flags: Flags,
    blocks: &mut Vec<IndexedBlock<'a>>,
    least: &mut Least,
    name: &Name,
    block: &'a Block,
    line: u32,
) -> Allocated<()>
    ensures nesting { OnOk result (nesting.new ≡ nesting.old) }
    ensures blocks { OnOk result (blocks.new.items ≡ blocks.old.items) }
    ensures met { OnOk result (least.new.violation ≡ met_for (scope_at nesting.old blocks.old.items flags) numeric_hidden line (name.now ∷ []) least.old.violation (plain_block block.now)) }
{
    let count = nesting.count();
    nesting.hide_numeric()?;
    check_declared(nesting, least, line);
    declare_name(nesting, alloc, least, name)?;
    meet_block(nesting, alloc, in_loop(flags), blocks, least, block, true)?;
    nesting.keep(count);
    Ok(())
}

/// Meets the violations in a generic `for` behind its values.
#[cycle(rules)]
fn meet_iterated<'a>(
    nesting: &mut Nesting,
    alloc: Global,
    flags: Flags,
    blocks: &mut Vec<IndexedBlock<'a>>,
    least: &mut Least,
    names: &Vec<Name>,
    block: &'a Block,
    line: u32,
) -> Allocated<()>
    ensures nesting { OnOk result (nesting.new ≡ nesting.old) }
    ensures blocks { OnOk result (blocks.new.items ≡ blocks.old.items) }
    ensures met { OnOk result (least.new.violation ≡ met_for (scope_at nesting.old blocks.old.items flags) generic_hidden line names.now.items least.old.violation (plain_block block.now)) }
{
    let count = nesting.count();
    nesting.hide_generic()?;
    check_declared(nesting, least, line);
    declare_names(nesting, alloc, least, names)?;
    meet_block(nesting, alloc, in_loop(flags), blocks, least, block, true)?;
    nesting.keep(count);
    Ok(())
}

/// Brings a variable into scope.
fn declare_name(
    nesting: &mut Nesting,
    alloc: Global,
    least: &mut Least,
    name: &Name,
) -> Allocated<()>
    ensures nesting { OnOk result (nesting.new ≡ declare nesting.old (plain_variable name.now)) }
    ensures met { OnOk result (least.new.violation ≡ met_declared (declare nesting.old (plain_variable name.now)) least.old.violation name.now.line) }
{
    let text = Bytes::of(name.text.as_slice().to_vec(alloc)?);
    nesting.declare(Variable::Named { text, fixed: false })?;
    check_declared(nesting, least, name.line);
    Ok(())
}

/// Brings variables into scope one after the other.
fn declare_names(
    nesting: &mut Nesting,
    alloc: Global,
    least: &mut Least,
    names: &Vec<Name>,
) -> Allocated<()>
    ensures nesting { OnOk result (nesting.new ≡ declare_all nesting.old (map plain_variable names.now.items)) }
    ensures met { OnOk result (least.new.violation ≡ met_names nesting.old least.old.violation names.now.items) }
{
    for name in names.iter() {
        declare_name(nesting, alloc, least, name)?;
    }
    Ok(())
}

/// Brings the variables of a `local` into scope one after the other.
fn declare_locals(
    nesting: &mut Nesting,
    alloc: Global,
    least: &mut Least,
    names: &Vec<Declared>,
) -> Allocated<()>
    ensures nesting { OnOk result (nesting.new ≡ declare_all nesting.old (map declared_variable names.now.items)) }
    ensures met { OnOk result (least.new.violation ≡ met_declarations nesting.old least.old.violation names.now.items) }
{
    for declared in names.iter() {
        declare_local(nesting, alloc, least, declared)?;
    }
    Ok(())
}

/// Brings a variable of a `local` into scope.
fn declare_local(
    nesting: &mut Nesting,
    alloc: Global,
    least: &mut Least,
    declared: &Declared,
) -> Allocated<()>
    ensures nesting { OnOk result (nesting.new ≡ declare nesting.old (declared_variable declared.now)) }
    ensures met { OnOk result (least.new.violation ≡ met_declared (declare nesting.old (declared_variable declared.now)) least.old.violation declared.now.name.line) }
{
    let text = Bytes::of(declared.name.text.as_slice().to_vec(alloc)?);
    let fixed = matches!(&declared.attrib, Attrib::Const | Attrib::Close);
    nesting.declare(Variable::Named { text, fixed })?;
    check_declared(nesting, least, declared.name.line);
    Ok(())
}
