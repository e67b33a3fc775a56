// Statements by recursive descent (Lua 5.4 manual, 3.3).
ghost use Rattle.std.specs.Prelude.{◌≤◌, ◌<◌, length, IfOk};
ghost use Rattle.lua_parse.specs.Moves.{stat, label_stat, goto_stat, do_stat, while_stat, repeat_stat};
ghost use Rattle.lua_parse.specs.Answers.{Answers, given_stat};

use crate::assignment::{function_stat, local_stat, prefix_stat};
use crate::block::{block, do_block};
use crate::branch::if_stat;
use crate::expression::expression;
use crate::fault::Parsed;
use crate::repetition::for_stat;
use crate::room::Room;
use crate::terminal::{expect, name, open};
use std::alloc::Global;
use token_cursor::token::start;
use token_cursor::word::{GOTO, LABEL, REPEAT, UNTIL, WHILE};
use token_cursor::{Cursor, Start};
use tree_core::{Stat, StatNode};

/// A statement.
#[cycle(grammar)]
pub fn statement(alloc: Global, cursor: &mut Cursor, room: Room) -> Parsed<Stat>
    ensures reads { Answers given_stat stat room.max cursor.old result cursor.new }
    ensures bound { IfOk result (λ found. (found.height ≤ room.max) × (length cursor.new < length cursor.old)) }
{
    let line = cursor.line();
    match start(cursor.peek()) {
        Start::Empty => {
            cursor.skip();
            Ok(tree_making::bare_stat(line, StatNode::Empty))
        }
        Start::Break => {
            cursor.skip();
            Ok(tree_making::bare_stat(line, StatNode::Break))
        }
        Start::Label => label_stat(cursor, room),
        Start::Goto => goto_stat(cursor, room),
        Start::Do => do_stat(alloc, cursor, room),
        Start::While => while_stat(alloc, cursor, room),
        Start::Repeat => repeat_stat(alloc, cursor, room),
        Start::If => if_stat(alloc, cursor, room),
        Start::For => for_stat(alloc, cursor, room),
        Start::Function => function_stat(alloc, cursor, room),
        Start::Local => local_stat(alloc, cursor, room),
        Start::Prefix => prefix_stat(alloc, cursor, room),
    }
}

/// `::` Name `::`.
fn label_stat(cursor: &mut Cursor, room: Room) -> Parsed<Stat>
    ensures reads { Answers given_stat label_stat room.max cursor.old result cursor.new }
    ensures bound { IfOk result (λ found. (found.height ≤ room.max) × (length cursor.new < length cursor.old)) }
{
    let line = expect(cursor, LABEL)?;
    let name = name(cursor)?;
    expect(cursor, LABEL)?;
    Ok(tree_making::bare_stat(line, StatNode::Label(name)))
}

/// `goto` Name.
fn goto_stat(cursor: &mut Cursor, room: Room) -> Parsed<Stat>
    ensures reads { Answers given_stat goto_stat room.max cursor.old result cursor.new }
    ensures bound { IfOk result (λ found. (found.height ≤ room.max) × (length cursor.new < length cursor.old)) }
{
    let line = expect(cursor, GOTO)?;
    let name = name(cursor)?;
    Ok(tree_making::bare_stat(line, StatNode::Goto(name)))
}

/// `do` block `end`.
#[cycle(grammar)]
fn do_stat(alloc: Global, cursor: &mut Cursor, room: Room) -> Parsed<Stat>
    ensures reads { Answers given_stat do_stat room.max cursor.old result cursor.new }
    ensures bound { IfOk result (λ found. (found.height ≤ room.max) × (length cursor.new < length cursor.old)) }
{
    let line = cursor.line();
    let inner = do_block(alloc, cursor, room)?;
    Ok(tree_making::do_stat(alloc, line, inner)?)
}

/// `while` exp `do` block `end`.
#[cycle(grammar)]
fn while_stat(alloc: Global, cursor: &mut Cursor, room: Room) -> Parsed<Stat>
    ensures reads { Answers given_stat while_stat room.max cursor.old result cursor.new }
    ensures bound { IfOk result (λ found. (found.height ≤ room.max) × (length cursor.new < length cursor.old)) }
{
    let line = expect(cursor, WHILE)?;
    let test = expression(alloc, cursor, room)?;
    let inner = do_block(alloc, cursor, room)?;
    Ok(tree_making::while_stat(alloc, line, test, inner)?)
}

/// `repeat` block `until` exp.
#[cycle(grammar)]
fn repeat_stat(alloc: Global, cursor: &mut Cursor, room: Room) -> Parsed<Stat>
    ensures reads { Answers given_stat repeat_stat room.max cursor.old result cursor.new }
    ensures bound { IfOk result (λ found. (found.height ≤ room.max) × (length cursor.new < length cursor.old)) }
{
    let line = open(cursor, REPEAT, 0, room)?;
    let inner = block(alloc, cursor, Room { max: room.max - 1 })?;
    expect(cursor, UNTIL)?;
    let test = expression(alloc, cursor, room)?;
    Ok(tree_making::repeat_stat(alloc, line, inner, test)?)
}
