// Blocks (Lua 5.4 manual, 3.3.1).
ghost use Rattle.std.specs.Prelude.{◌≤◌, ◌<◌, length, [], IfOk};
ghost use Rattle.lua_parse.specs.Moves.{block, items, returned, do_block};
ghost use Rattle.lua_parse.specs.Answers.{Answers, given_block, given_items, given_exps};

use crate::expression::explist;
use crate::fault::Parsed;
use crate::room::Room;
use crate::statement::statement;
use crate::terminal::{expect, open};
use std::alloc::Global;
use token_cursor::Cursor;
use token_cursor::token::{ends_block, ends_stats};
use token_cursor::word::{DO, END, RETURN, SEMICOLON};
use tree_core::{Block, Exp};
use tree_making::Items;

/// A block, up to a token that ends it.
#[cycle(grammar)]
pub fn block(alloc: Global, cursor: &mut Cursor, room: Room) -> Parsed<Block>
    ensures reads { Answers given_block block room.max cursor.old result cursor.new }
    ensures bound { IfOk result (λ found. (found.height ≤ room.max) × (length cursor.new ≤ length cursor.old)) }
{
    let before = cursor.left();
    let items = items(alloc, cursor, room)?;
    Ok(tree_making::block(items, before - cursor.left()))
}

/// The statements of a block, and what it returns.
#[cycle(grammar)]
fn items(alloc: Global, cursor: &mut Cursor, room: Room) -> Parsed<Items>
    ensures reads { Answers given_items (items [] 0) room.max cursor.old result cursor.new }
    ensures bound { IfOk result (λ found. (found.height ≤ room.max) × (length cursor.new ≤ length cursor.old)) }
{
    let mut stats = tree_making::no_stats(alloc);
    while !ends_stats(cursor.peek()) {
        let stat = statement(alloc, cursor, room)?;
        stats = tree_making::more(stats, stat)?;
    }
    let line = cursor.line();
    if !cursor.is(RETURN) {
        return Ok(tree_making::items(stats, line));
    }
    cursor.skip();
    let values = returned(alloc, cursor, room)?;
    Ok(tree_making::returning(stats, values, line))
}

/// What stands behind `return`.
#[cycle(grammar)]
fn returned(alloc: Global, cursor: &mut Cursor, room: Room) -> Parsed<Vec<Exp>>
    ensures reads { Answers given_exps returned room.max cursor.old result cursor.new }
    ensures bound { IfOk result (λ found. (found.height ≤ room.max) × (length cursor.new ≤ length cursor.old)) }
{
    if ends_block(cursor.peek()) {
        return Ok(tree_making::no_exps(alloc));
    }
    if cursor.is(SEMICOLON) {
        cursor.skip();
        return Ok(tree_making::no_exps(alloc));
    }
    let values = explist(alloc, cursor, room)?;
    if !cursor.is(SEMICOLON) {
        return Ok(values);
    }
    cursor.skip();
    Ok(values)
}

/// `do` block `end`.
#[cycle(grammar)]
pub fn do_block(alloc: Global, cursor: &mut Cursor, room: Room) -> Parsed<Block>
    ensures reads { Answers given_block do_block room.max cursor.old result cursor.new }
    ensures bound { IfOk result (λ found. (found.height ≤ room.max) × (length cursor.new < length cursor.old)) }
{
    open(cursor, DO, 0, room)?;
    let inner = block(alloc, cursor, Room { max: room.max - 1 })?;
    expect(cursor, END)?;
    Ok(tree_making::deeper(inner))
}
