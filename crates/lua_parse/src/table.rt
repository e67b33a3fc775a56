// Table constructors (Lua 5.4 manual, 3.4.9).
ghost use Rattle.std.specs.Prelude.{◌≤◌, ◌<◌, length, [], IfOk};
ghost use Rattle.lua_parse.specs.Moves.{table, more_fields, separated_field, field, keyed, item};
ghost use Rattle.lua_parse.specs.Answers.{Answers, given_exp, given_field, given_fields};

use crate::expression::expression;
use crate::fault::{Fault, Parsed};
use crate::room::Room;
use crate::terminal::{expect, open};
use std::alloc::Global;
use token_cursor::Cursor;
use token_cursor::token::is_separator;
use token_cursor::word::{ASSIGN, CLOSE_CURLY, CLOSE_SQUARE, OPEN_CURLY, OPEN_SQUARE};
use tree_core::{Exp, Field};
use tree_making::{Found, name_of};

/// `{` fields `}`.
#[cycle(grammar)]
pub fn table(alloc: Global, cursor: &mut Cursor, room: Room) -> Parsed<Box<Exp>>
    ensures reads { Answers given_exp table room.max cursor.old result cursor.new }
    ensures bound { IfOk result (λ found. (found.height ≤ room.max) × (length cursor.new < length cursor.old)) }
{
    let line = open(cursor, OPEN_CURLY, 0, room)?;
    let fields = fields(alloc, cursor, Room { max: room.max - 1 })?;
    Ok(tree_making::table(alloc, line, fields)?)
}

/// What stands behind the `{` of a table, its `}` included.
#[cycle(grammar)]
pub fn fields(alloc: Global, cursor: &mut Cursor, room: Room) -> Parsed<Vec<Field>>
    ensures reads { Answers given_fields (more_fields [] 0) room.max cursor.old result cursor.new }
    ensures bound { IfOk result (λ found. (found.height ≤ room.max) × (length cursor.new < length cursor.old)) }
{
    let mut items = tree_making::no_fields(alloc);
    while !cursor.is(CLOSE_CURLY) {
        let item = separated_field(alloc, cursor, room)?;
        items = tree_making::more(items, item)?;
    }
    cursor.skip();
    Ok(items)
}

/// A field and a separator, which is missing only before the `}`.
#[cycle(grammar)]
fn separated_field(alloc: Global, cursor: &mut Cursor, room: Room) -> Parsed<Field>
    ensures reads { Answers given_field separated_field room.max cursor.old result cursor.new }
    ensures bound { IfOk result (λ found. (found.height ≤ room.max) × (length cursor.new < length cursor.old)) }
{
    let field = field(alloc, cursor, room)?;
    if is_separator(cursor.peek()) {
        cursor.skip();
        return Ok(field);
    }
    if !cursor.is(CLOSE_CURLY) {
        drop(field);
        return Err(Fault::Refused);
    }
    Ok(field)
}

/// A field.
#[cycle(grammar)]
fn field(alloc: Global, cursor: &mut Cursor, room: Room) -> Parsed<Field>
    ensures reads { Answers given_field field room.max cursor.old result cursor.new }
    ensures bound { IfOk result (λ found. (found.height ≤ room.max) × (length cursor.new < length cursor.old)) }
{
    if cursor.is(OPEN_SQUARE) {
        return keyed(alloc, cursor, room);
    }
    item(alloc, cursor, room)
}

/// `[` exp `]` `=` exp.
#[cycle(grammar)]
fn keyed(alloc: Global, cursor: &mut Cursor, room: Room) -> Parsed<Field>
    ensures reads { Answers given_field keyed room.max cursor.old result cursor.new }
    ensures bound { IfOk result (λ found. (found.height ≤ room.max) × (length cursor.new < length cursor.old)) }
{
    let line = open(cursor, OPEN_SQUARE, 0, room)?;
    let key = expression(alloc, cursor, Room { max: room.max - 1 })?;
    expect(cursor, CLOSE_SQUARE)?;
    expect(cursor, ASSIGN)?;
    let value = expression(alloc, cursor, room)?;
    Ok(tree_making::keyed(line, key, value))
}

/// Name `=` exp, or an expression.
#[cycle(grammar)]
fn item(alloc: Global, cursor: &mut Cursor, room: Room) -> Parsed<Field>
    ensures reads { Answers given_field item room.max cursor.old result cursor.new }
    ensures bound { IfOk result (λ found. (found.height ≤ room.max) × (length cursor.new < length cursor.old)) }
{
    let first = expression(alloc, cursor, room)?;
    if !cursor.is(ASSIGN) {
        return Ok(tree_making::item(first));
    }
    let Some(name) = name_of(first) else {
        return Err(Fault::Refused);
    };
    cursor.skip();
    let value = expression(alloc, cursor, room)?;
    Ok(tree_making::named(name, value))
}
