// The functions that a block makes.
ghost use Rattle.std.specs.Prelude.{◌≡◌, ◌++◌, OnOk, IfOk, map, nat_lt};
ghost use Rattle.tree_core.specs.Tree.{exps, fields, stats, arms};
ghost use Rattle.tree_core.specs.Plain.{plain_exp, plain_exps, plain_field, plain_stat, plain_arm, plain_block, plain_body};
ghost use Rattle.code_of.specs.Levels.{made_in_block};
ghost use Rattle.code_parts.specs.Bodies.{exp_bodies, exps_bodies, fields_bodies, field_bodies, stat_bodies, arms_bodies, stats_bodies, block_bodies};

use int_core::Allocated;
use std::alloc::Global;
use tree_core::{Arm, Block, Body, Exp, ExpNode, Field, Stat, StatNode};

/// The bodies of the functions that a block makes, in the order of the text, without those within
/// them.
pub fn inner_bodies<'a>(alloc: Global, block: &'a Block) -> Allocated<Vec<&'a Body>>
    ensures { IfOk result (λ list. map (λ b. plain_body b.now) list.items ≡ block_bodies (plain_block block.now)) }
{
    let mut found = Vec::new(alloc);
    find_in_block(&mut found, block)?;
    Ok(found)
}

/// Whether a block makes functions.
pub fn makes_functions(alloc: Global, block: &Block) -> Allocated<bool>
    ensures { IfOk result (λ makes. makes ≡ nat_lt 0 (made_in_block (plain_block block.now))) }
{
    let found = inner_bodies(alloc, block)?;
    let count = found.len();
    Ok(count > 0)
}

/// Lists the functions of an expression.
#[cycle(expressions)]
#[tactic(auto, using(tree_core::proofs::Rows::exps_of, tree_core::proofs::Rows::fields_of))]
fn find_in_exp<'a>(found: &mut Vec<&'a Body>, exp: &'a Exp) -> Allocated<()>
    ensures { OnOk result (map (λ b. plain_body b.now) found.new.items ≡ map (λ b. plain_body b.now) found.old.items ++ exp_bodies (plain_exp exp.now)) }
{
    match &exp.node {
        ExpNode::Nil | ExpNode::True | ExpNode::False | ExpNode::Int(_) | ExpNode::Str(_) => Ok(()),
        ExpNode::Vararg | ExpNode::Var(_) => Ok(()),
        ExpNode::Function(body) => {
            found.push(body)?;
            Ok(())
        }
        ExpNode::Unary(_, operand) => find_in_exp(found, operand),
        ExpNode::Paren(inner) => find_in_exp(found, inner),
        ExpNode::Index(left, right)
        | ExpNode::Binary(_, left, right)
        | ExpNode::And(left, right)
        | ExpNode::Or(left, right) => {
            find_in_exp(found, left)?;
            find_in_exp(found, right)
        }
        ExpNode::Call(called, arguments) => {
            find_in_exp(found, called)?;
            find_in_exps(found, arguments)
        }
        ExpNode::Method(object, _, arguments) => {
            find_in_exp(found, object)?;
            find_in_exps(found, arguments)
        }
        ExpNode::Table(list) => find_in_fields(found, list),
    }
}

/// Lists the functions of a list of expressions.
#[cycle(expressions)]
fn find_in_exps<'a>(found: &mut Vec<&'a Body>, list: &'a Vec<Exp>) -> Allocated<()>
    ensures { OnOk result (map (λ b. plain_body b.now) found.new.items ≡ map (λ b. plain_body b.now) found.old.items ++ exps_bodies (exps (plain_exps list.now.items))) }
{
    for exp in list.iter() {
        find_in_exp(found, exp)?;
    }
    Ok(())
}

/// Lists the functions of a constructor's fields.
#[cycle(expressions)]
fn find_in_fields<'a>(found: &mut Vec<&'a Body>, list: &'a Vec<Field>) -> Allocated<()>
    ensures { OnOk result (map (λ b. plain_body b.now) found.new.items ≡ map (λ b. plain_body b.now) found.old.items ++ fields_bodies (fields (map plain_field list.now.items))) }
{
    for field in list.iter() {
        find_in_field(found, field)?;
    }
    Ok(())
}

/// Lists the functions of a field.
#[cycle(expressions)]
fn find_in_field<'a>(found: &mut Vec<&'a Body>, field: &'a Field) -> Allocated<()>
    ensures { OnOk result (map (λ b. plain_body b.now) found.new.items ≡ map (λ b. plain_body b.now) found.old.items ++ field_bodies (plain_field field.now)) }
{
    match field {
        Field::Item(value) => find_in_exp(found, value),
        Field::Keyed { key, value, .. } => {
            find_in_exp(found, key)?;
            find_in_exp(found, value)
        }
    }
}

/// Lists the functions of a block.
#[cycle(statements)]
fn find_in_block<'a>(found: &mut Vec<&'a Body>, block: &'a Block) -> Allocated<()>
    ensures { OnOk result (map (λ b. plain_body b.now) found.new.items ≡ map (λ b. plain_body b.now) found.old.items ++ block_bodies (plain_block block.now)) }
{
    match &block.result {
        Some(values) => {
            find_in_stats(found, &block.stats)?;
            find_in_exps(found, values)
        }
        None => find_in_stats(found, &block.stats),
    }
}

/// Lists the functions of statements.
#[cycle(statements)]
fn find_in_stats<'a>(found: &mut Vec<&'a Body>, list: &'a Vec<Stat>) -> Allocated<()>
    ensures { OnOk result (map (λ b. plain_body b.now) found.new.items ≡ map (λ b. plain_body b.now) found.old.items ++ stats_bodies (stats (map plain_stat list.now.items))) }
{
    for stat in list.iter() {
        find_in_stat(found, stat)?;
    }
    Ok(())
}

/// Lists the functions of the tests and blocks of an `if`.
#[cycle(statements)]
fn find_in_arms<'a>(found: &mut Vec<&'a Body>, list: &'a Vec<Arm>) -> Allocated<()>
    ensures { OnOk result (map (λ b. plain_body b.now) found.new.items ≡ map (λ b. plain_body b.now) found.old.items ++ arms_bodies (arms (map plain_arm list.now.items))) }
{
    for arm in list.iter() {
        find_in_exp(found, &arm.test)?;
        find_in_block(found, &arm.block)?;
    }
    Ok(())
}

/// Lists the functions of a statement.
#[cycle(statements)]
#[tactic(auto, using(tree_core::proofs::Rows::exps_of, tree_core::proofs::Rows::arms_of))]
fn find_in_stat<'a>(found: &mut Vec<&'a Body>, stat: &'a Stat) -> Allocated<()>
    ensures { OnOk result (map (λ b. plain_body b.now) found.new.items ≡ map (λ b. plain_body b.now) found.old.items ++ stat_bodies (plain_stat stat.now)) }
{
    match &stat.node {
        StatNode::Empty | StatNode::Label(_) | StatNode::Goto(_) | StatNode::Break => Ok(()),
        StatNode::LocalFunction(_, body) => {
            found.push(body)?;
            Ok(())
        }
        StatNode::Local(_, values) => find_in_exps(found, values),
        StatNode::Assign(targets, values) => {
            find_in_exps(found, targets)?;
            find_in_exps(found, values)
        }
        StatNode::Call(call) => find_in_exp(found, call),
        StatNode::Do(block) => find_in_block(found, block),
        StatNode::While(test, block) => {
            find_in_exp(found, test)?;
            find_in_block(found, block)
        }
        StatNode::Repeat(block, test) => {
            find_in_block(found, block)?;
            find_in_exp(found, test)
        }
        StatNode::If(list, otherwise) => {
            find_in_arms(found, list)?;
            match otherwise {
                Some(block) => find_in_block(found, block),
                None => Ok(()),
            }
        }
        StatNode::NumFor(_, first, limit, step, block) => {
            find_in_exp(found, first)?;
            find_in_exp(found, limit)?;
            match step {
                Some(step) => {
                    find_in_exp(found, step)?;
                    find_in_block(found, block)
                }
                None => find_in_block(found, block),
            }
        }
        StatNode::GenFor(_, values, block) => {
            find_in_exps(found, values)?;
            find_in_block(found, block)
        }
    }
}
