// The bodies of functions (Lua 5.4 manual, 3.4.11).
ghost use Rattle.std.specs.Prelude.{◌≤◌, ◌<◌, length, IfOk};
ghost use Rattle.lua_parse.specs.Moves.{body, params, more_params};
ghost use Rattle.lua_parse.specs.Answers.{Answers, given_body, given_params};

use crate::block::block;
use crate::fault::{Fault, Parsed};
use crate::room::Room;
use crate::terminal::{expect, name, open};
use std::alloc::Global;
use token_cursor::Cursor;
use token_cursor::word::{CLOSE_ROUND, COMMA, DOTS, END, OPEN_ROUND};
use tree_core::{Body, Name};
use tree_making::Params;

/// The parameters and the block of a function whose word is on the line. Parameters of its own
/// come first.
#[cycle(grammar)]
pub fn body(
    alloc: Global,
    cursor: &mut Cursor,
    line: u32,
    own: Vec<Name>,
    room: Room,
) -> Parsed<Body>
    ensures reads { Answers given_body (body line own.items) room.max cursor.old result cursor.new }
    ensures bound { IfOk result (λ found. (found.height ≤ room.max) × (length cursor.new < length cursor.old)) }
{
    open(cursor, OPEN_ROUND, 0, room)?;
    let params = params(cursor, own)?;
    let room = Room { max: room.max - 1 };
    open(cursor, CLOSE_ROUND, 0, room)?;
    let inner = block(alloc, cursor, Room { max: room.max - 1 })?;
    expect(cursor, END)?;
    Ok(tree_making::body(alloc, line, params, inner))
}

/// What stands between the parentheses of a function.
fn params(cursor: &mut Cursor, own: Vec<Name>) -> Result<Params, Fault>
    ensures reads { Answers given_params (params own.items) 0 cursor.old result cursor.new }
    ensures kept { IfOk result (λ _. length cursor.new ≤ length cursor.old) }
{
    if cursor.is(CLOSE_ROUND) {
        return Ok(Params {
            names: own,
            vararg: false,
        });
    }
    let mut names = own;
    while !cursor.is(DOTS) {
        let name = name(cursor)?;
        names.push(name)?;
        if !cursor.is(COMMA) {
            return Ok(Params {
                names,
                vararg: false,
            });
        }
        cursor.skip();
    }
    cursor.skip();
    Ok(Params {
        names,
        vararg: true,
    })
}
