// The statement `for` (Lua 5.4 manual, 3.3.5).
ghost use Rattle.std.specs.Prelude.{◌≤◌, ◌<◌, length, [], ◌∷◌, IfOk};
ghost use Rattle.lua_parse.specs.Moves.{for_stat, numeric, step, generic, more_names};
ghost use Rattle.lua_parse.specs.Answers.{Answers, given_stat, given_step, given_names};

use crate::block::do_block;
use crate::expression::{explist, expression};
use crate::fault::{Fault, Parsed};
use crate::room::Room;
use crate::terminal::{expect, name};
use std::alloc::Global;
use token_cursor::Cursor;
use token_cursor::word::{ASSIGN, COMMA, FOR, IN};
use tree_core::{Exp, Name, Stat};
use tree_making::{Found, Range};

/// A `for`.
#[cycle(grammar)]
pub fn for_stat(alloc: Global, cursor: &mut Cursor, room: Room) -> Parsed<Stat>
    ensures reads { Answers given_stat for_stat room.max cursor.old result cursor.new }
    ensures bound { IfOk result (λ found. (found.height ≤ room.max) × (length cursor.new < length cursor.old)) }
{
    let line = expect(cursor, FOR)?;
    let first = name(cursor)?;
    if cursor.is(ASSIGN) {
        return numeric(alloc, cursor, line, first, room);
    }
    generic(alloc, cursor, line, first, room)
}

/// `=` exp `,` exp [`,` exp] `do` block `end`.
#[cycle(grammar)]
fn numeric(alloc: Global, cursor: &mut Cursor, line: u32, name: Name, room: Room) -> Parsed<Stat>
    ensures reads { Answers given_stat (numeric line name) room.max cursor.old result cursor.new }
    ensures bound { IfOk result (λ found. (found.height ≤ room.max) × (length cursor.new < length cursor.old)) }
{
    expect(cursor, ASSIGN)?;
    let first = expression(alloc, cursor, room)?;
    expect(cursor, COMMA)?;
    let limit = expression(alloc, cursor, room)?;
    let step = step(alloc, cursor, room)?;
    let inner = do_block(alloc, cursor, room)?;
    let range = Range { first, limit, step };
    Ok(tree_making::numeric_for(alloc, line, name, range, inner)?)
}

/// `,` exp, or nothing.
#[cycle(grammar)]
fn step(alloc: Global, cursor: &mut Cursor, room: Room) -> Parsed<Option<Box<Exp>>>
    ensures reads { Answers given_step step room.max cursor.old result cursor.new }
    ensures bound { IfOk result (λ found. (found.height ≤ room.max) × (length cursor.new ≤ length cursor.old)) }
{
    if cursor.take(COMMA) {
        let value = expression(alloc, cursor, room)?;
        return Ok(Found {
            node: Some(value.node),
            height: value.height,
        });
    }
    Ok(Found {
        node: None,
        height: 0,
    })
}

/// {`,` Name} `in` explist `do` block `end`.
#[cycle(grammar)]
fn generic(alloc: Global, cursor: &mut Cursor, line: u32, first: Name, room: Room) -> Parsed<Stat>
    ensures reads { Answers given_stat (generic line first) room.max cursor.old result cursor.new }
    ensures bound { IfOk result (λ found. (found.height ≤ room.max) × (length cursor.new < length cursor.old)) }
{
    let names = names(alloc, cursor, first)?;
    expect(cursor, IN)?;
    let values = explist(alloc, cursor, room)?;
    let inner = do_block(alloc, cursor, room)?;
    Ok(tree_making::generic_for(alloc, line, names, values, inner)?)
}

/// The names behind the first one.
fn names(alloc: Global, cursor: &mut Cursor, first: Name) -> Result<Vec<Name>, Fault>
    ensures reads { Answers given_names (more_names (first ∷ [])) 0 cursor.old result cursor.new }
    ensures kept { IfOk result (λ _. length cursor.new ≤ length cursor.old) }
{
    let mut names = Vec::new(alloc);
    names.push(first)?;
    while cursor.is(COMMA) {
        cursor.skip();
        let next = name(cursor)?;
        names.push(next)?;
    }
    Ok(names)
}
