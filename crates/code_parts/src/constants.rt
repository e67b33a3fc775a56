// The constants of statements and blocks, in the order in which their code first names them.
ghost use Rattle.std.specs.Prelude.{◌≡◌, [], OnOk, IfOk, map};
ghost use Rattle.tree_core.specs.Tree.{stats, arms};
ghost use Rattle.tree_core.specs.Plain.{plain_stat, plain_arm, plain_block};
ghost use Rattle.code_of.specs.Constants.{of_stat, of_arms, of_stats, of_block};

use code_constants::Constants;
use int_core::Allocated;
use std::alloc::Global;
use tree_core::{Arm, Block, Stat, StatNode};

/// The constants of a function's block.
pub fn block_constants(alloc: Global, block: &Block) -> Allocated<Constants>
    ensures { IfOk result (λ constants. constants ≡ of_block (plain_block block.now) []) }
{
    let mut constants = Constants::new(alloc);
    add_block(&mut constants, alloc, block)?;
    Ok(constants)
}

/// Adds the constants of a block.
#[cycle(gathering)]
pub fn add_block(constants: &mut Constants, alloc: Global, block: &Block) -> Allocated<()>
    ensures { OnOk result (constants.new ≡ of_block (plain_block block.now) constants.old) }
{
    match &block.result {
        Some(values) => {
            add_stats(constants, alloc, &block.stats)?;
            constants.add_exps(alloc, values)
        }
        None => add_stats(constants, alloc, &block.stats),
    }
}

/// Adds the constants of statements.
#[cycle(gathering)]
fn add_stats(constants: &mut Constants, alloc: Global, list: &Vec<Stat>) -> Allocated<()>
    ensures { OnOk result (constants.new ≡ of_stats (stats (map plain_stat list.now.items)) constants.old) }
{
    for stat in list.iter() {
        add_stat(constants, alloc, stat)?;
    }
    Ok(())
}

/// Adds the constants of the tests and blocks of an `if`.
#[cycle(gathering)]
fn add_arms(constants: &mut Constants, alloc: Global, list: &Vec<Arm>) -> Allocated<()>
    ensures { OnOk result (constants.new ≡ of_arms (arms (map plain_arm list.now.items)) constants.old) }
{
    for arm in list.iter() {
        constants.add_exp(alloc, &arm.test)?;
        add_block(constants, alloc, &arm.block)?;
    }
    Ok(())
}

/// Adds the constants of a statement. Inner functions have constants of their own.
#[cycle(gathering)]
#[tactic(auto, using(tree_core::proofs::Rows::exps_of, tree_core::proofs::Rows::arms_of))]
fn add_stat(constants: &mut Constants, alloc: Global, stat: &Stat) -> Allocated<()>
    ensures { OnOk result (constants.new ≡ of_stat (plain_stat stat.now) constants.old) }
{
    match &stat.node {
        StatNode::Empty
        | StatNode::LocalFunction(_, _)
        | StatNode::Label(_)
        | StatNode::Goto(_)
        | StatNode::Break => Ok(()),
        StatNode::Local(_, values) => constants.add_exps(alloc, values),
        StatNode::Assign(targets, values) => {
            constants.add_exps(alloc, targets)?;
            constants.add_stored(alloc, targets, values)?;
            constants.add_exps(alloc, values)
        }
        StatNode::Call(call) => constants.add_exp(alloc, call),
        StatNode::Do(block) => add_block(constants, alloc, block),
        StatNode::While(test, block) => {
            constants.add_exp(alloc, test)?;
            add_block(constants, alloc, block)
        }
        StatNode::Repeat(block, test) => {
            add_block(constants, alloc, block)?;
            constants.add_exp(alloc, test)
        }
        StatNode::If(list, otherwise) => {
            add_arms(constants, alloc, list)?;
            match otherwise {
                Some(block) => add_block(constants, alloc, block),
                None => Ok(()),
            }
        }
        StatNode::NumFor(_, first, limit, step, block) => {
            constants.add_exp(alloc, first)?;
            constants.add_exp(alloc, limit)?;
            match step {
                Some(step) => {
                    constants.add_exp(alloc, step)?;
                    add_block(constants, alloc, block)
                }
                None => add_block(constants, alloc, block),
            }
        }
        StatNode::GenFor(_, values, block) => {
            constants.add_exps(alloc, values)?;
            add_block(constants, alloc, block)
        }
    }
}
