// The statement `if` (Lua 5.4 manual, 3.3.4).
ghost use Rattle.std.specs.Prelude.{◌≤◌, ◌<◌, length, IfOk};
ghost use Rattle.lua_parse.specs.Moves.{if_stat, arms, arm, else_part};
ghost use Rattle.lua_parse.specs.Answers.{Answers, given_stat, given_arms, given_arm, given_else};

use crate::block::block;
use crate::expression::expression;
use crate::fault::Parsed;
use crate::room::Room;
use crate::terminal::{expect, open};
use std::alloc::Global;
use token_cursor::Cursor;
use token_cursor::word::{ELSE, ELSEIF, END, IF, THEN};
use tree_core::{Arm, Block, Stat};
use tree_making::Found;

/// An `if` with its `elseif`s and its `else`.
#[cycle(grammar)]
pub fn if_stat(alloc: Global, cursor: &mut Cursor, room: Room) -> Parsed<Stat>
    ensures reads { Answers given_stat if_stat room.max cursor.old result cursor.new }
    ensures bound { IfOk result (λ found. (found.height ≤ room.max) × (length cursor.new < length cursor.old)) }
{
    let line = expect(cursor, IF)?;
    let arms = arms(alloc, cursor, room)?;
    let other = else_part(alloc, cursor, room)?;
    expect(cursor, END)?;
    Ok(tree_making::if_stat(alloc, line, arms, other)?)
}

/// A test with its block, and those behind each `elseif`.
#[cycle(grammar)]
fn arms(alloc: Global, cursor: &mut Cursor, room: Room) -> Parsed<Vec<Arm>>
    ensures reads { Answers given_arms arms room.max cursor.old result cursor.new }
    ensures bound { IfOk result (λ found. (found.height ≤ room.max) × (length cursor.new < length cursor.old)) }
{
    let first = arm(alloc, cursor, room)?;
    let mut items = tree_making::one_arm(alloc, first)?;
    while cursor.is(ELSEIF) {
        cursor.skip();
        let item = arm(alloc, cursor, room)?;
        items = tree_making::more(items, item)?;
    }
    Ok(items)
}

/// exp `then` block.
#[cycle(grammar)]
fn arm(alloc: Global, cursor: &mut Cursor, room: Room) -> Parsed<Arm>
    ensures reads { Answers given_arm arm room.max cursor.old result cursor.new }
    ensures bound { IfOk result (λ found. (found.height ≤ room.max) × (length cursor.new < length cursor.old)) }
{
    let test = expression(alloc, cursor, room)?;
    open(cursor, THEN, 0, room)?;
    let inner = block(alloc, cursor, Room { max: room.max - 1 })?;
    Ok(tree_making::arm(test, inner))
}

/// `else` block, or nothing.
#[cycle(grammar)]
fn else_part(alloc: Global, cursor: &mut Cursor, room: Room) -> Parsed<Option<Block>>
    ensures reads { Answers given_else else_part room.max cursor.old result cursor.new }
    ensures bound { IfOk result (λ found. (found.height ≤ room.max) × (length cursor.new ≤ length cursor.old)) }
{
    if !cursor.is(ELSE) {
        return Ok(Found {
            node: None,
            height: 0,
        });
    }
    open(cursor, ELSE, 0, room)?;
    let inner = block(alloc, cursor, Room { max: room.max - 1 })?;
    Ok(Found {
        node: Some(inner.node),
        height: inner.height + 1,
    })
}
