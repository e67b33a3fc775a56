// Variables, calls and expressions in parentheses (Lua 5.4 manual, 3.2 and 3.4.10).
ghost use Rattle.std.specs.Prelude.{◌≡◌, ◌≤◌, ◌<◌, ◌∷◌, drop, length, IfOk};
ghost use Rattle.tree_making.specs.Made.{plain_boxed};
ghost use Rattle.lua_parse.specs.Moves.{prefix, primary, paren, suffix, dotted, indexed, method, call, method_arguments, arguments, listed, string_argument};
ghost use Rattle.lua_parse.specs.Answers.{Answers, given_exp, given_exps};
ghost use Rattle.token_cursor.specs.Words.{first};

use crate::expression::{explist, expression};
use crate::fault::{Fault, FoundExp, Parsed};
use crate::room::Room;
use crate::table::fields;
use crate::terminal::{copy, expect, name, open};
use lua_lex::Token;
use std::alloc::Global;
use token_cursor::Cursor;
use token_cursor::token::{begins_suffix, is_string};
use token_cursor::word::{
    CLOSE_ROUND, CLOSE_SQUARE, COLON, DOT, OPEN_CURLY, OPEN_ROUND, OPEN_SQUARE, Word,
};
use tree_core::Exp;
use tree_making::Found;

/// A name or an expression in parentheses with the suffixes behind it.
#[cycle(grammar)]
pub fn prefix(alloc: Global, cursor: &mut Cursor, room: Room) -> Parsed<Box<Exp>>
    ensures reads { Answers given_exp prefix room.max cursor.old result cursor.new }
    ensures bound { IfOk result (λ found. (found.height ≤ room.max) × (length cursor.new < length cursor.old)) }
    ensures more { IfOk result (λ _. cursor.new ≡ first cursor.new ∷ drop 1 cursor.new) }
{
    let mut left = primary(alloc, cursor, room)?;
    while begins_suffix(cursor.peek()) {
        left = suffix(alloc, cursor, left, room)?;
    }
    Ok(left)
}

/// A name or an expression in parentheses.
#[cycle(grammar)]
fn primary(alloc: Global, cursor: &mut Cursor, room: Room) -> Parsed<Box<Exp>>
    ensures reads { Answers given_exp primary room.max cursor.old result cursor.new }
    ensures bound { IfOk result (λ found. (found.height ≤ room.max) × (length cursor.new < length cursor.old)) }
{
    if cursor.is(OPEN_ROUND) {
        return paren(alloc, cursor, room);
    }
    let name = name(cursor)?;
    Ok(tree_making::variable(alloc, name)?)
}

/// An expression in parentheses.
#[cycle(grammar)]
fn paren(alloc: Global, cursor: &mut Cursor, room: Room) -> Parsed<Box<Exp>>
    ensures reads { Answers given_exp paren room.max cursor.old result cursor.new }
    ensures bound { IfOk result (λ found. (found.height ≤ room.max) × (length cursor.new < length cursor.old)) }
{
    let line = open(cursor, OPEN_ROUND, 0, room)?;
    let inner = expression(alloc, cursor, Room { max: room.max - 1 })?;
    expect(cursor, CLOSE_ROUND)?;
    Ok(tree_making::paren(alloc, line, inner)?)
}

/// A suffix of the expression before it.
#[cycle(grammar)]
fn suffix(alloc: Global, cursor: &mut Cursor, left: FoundExp, room: Room) -> Parsed<Box<Exp>>
    ensures reads { Answers given_exp (suffix (plain_boxed left.node) left.height) room.max cursor.old result cursor.new }
    ensures bound { IfOk result (λ found. (found.height ≤ room.max) × (length cursor.new < length cursor.old)) }
{
    if cursor.is(DOT) {
        return dotted(alloc, cursor, DOT, left, room);
    }
    if cursor.is(OPEN_SQUARE) {
        return indexed(alloc, cursor, left, room);
    }
    if cursor.is(COLON) {
        return method(alloc, cursor, left, room);
    }
    call(alloc, cursor, left, room)
}

/// The word, which is `.` or `:`, and a name.
pub fn dotted(
    alloc: Global,
    cursor: &mut Cursor,
    wanted: Word,
    left: FoundExp,
    room: Room,
) -> Parsed<Box<Exp>>
    ensures reads { Answers given_exp (dotted wanted (plain_boxed left.node) left.height) room.max cursor.old result cursor.new }
    ensures bound { IfOk result (λ found. (found.height ≤ room.max) × (length cursor.new < length cursor.old)) }
{
    let line = open(cursor, wanted, left.height, room)?;
    let name = name(cursor)?;
    Ok(tree_making::dotted(alloc, line, left, name)?)
}

/// `[` exp `]`.
#[cycle(grammar)]
fn indexed(alloc: Global, cursor: &mut Cursor, left: FoundExp, room: Room) -> Parsed<Box<Exp>>
    ensures reads { Answers given_exp (indexed (plain_boxed left.node) left.height) room.max cursor.old result cursor.new }
    ensures bound { IfOk result (λ found. (found.height ≤ room.max) × (length cursor.new < length cursor.old)) }
{
    let line = open(cursor, OPEN_SQUARE, left.height, room)?;
    let key = expression(alloc, cursor, Room { max: room.max - 1 })?;
    expect(cursor, CLOSE_SQUARE)?;
    Ok(tree_making::index(alloc, line, left, key)?)
}

/// `:` Name and arguments.
#[cycle(grammar)]
fn method(alloc: Global, cursor: &mut Cursor, left: FoundExp, room: Room) -> Parsed<Box<Exp>>
    ensures reads { Answers given_exp (method (plain_boxed left.node) left.height) room.max cursor.old result cursor.new }
    ensures bound { IfOk result (λ found. (found.height ≤ room.max) × (length cursor.new < length cursor.old)) }
{
    open(cursor, COLON, left.height, room)?;
    let name = name(cursor)?;
    let line = cursor.line();
    let arguments = method_arguments(alloc, cursor, Room { max: room.max - 1 })?;
    Ok(tree_making::method(alloc, line, left, name, arguments)?)
}

/// Arguments.
#[cycle(grammar)]
fn call(alloc: Global, cursor: &mut Cursor, left: FoundExp, room: Room) -> Parsed<Box<Exp>>
    ensures reads { Answers given_exp (call (plain_boxed left.node) left.height) room.max cursor.old result cursor.new }
    ensures bound { IfOk result (λ found. (found.height ≤ room.max) × (length cursor.new < length cursor.old)) }
{
    let line = cursor.line();
    if left.height >= room.max {
        return Err(Fault::Refused);
    }
    let arguments = arguments(alloc, cursor, Room { max: room.max - 1 })?;
    Ok(tree_making::call(alloc, line, left, arguments)?)
}

/// Arguments behind `:` and a name, whose brackets open a level of their own.
#[cycle(grammar)]
fn method_arguments(alloc: Global, cursor: &mut Cursor, room: Room) -> Parsed<Vec<Exp>>
    ensures reads { Answers given_exps method_arguments room.max cursor.old result cursor.new }
    ensures bound { IfOk result (λ found. (found.height ≤ room.max) × (length cursor.new < length cursor.old)) }
{
    if is_string(cursor.peek()) {
        return arguments(alloc, cursor, room);
    }
    if room.max == 0 {
        return Err(Fault::Refused);
    }
    let inner = arguments(alloc, cursor, Room { max: room.max - 1 })?;
    Ok(Found {
        node: inner.node,
        height: inner.height + 1,
    })
}

/// Expressions in parentheses, a table or a string, within a level that is open.
#[cycle(grammar)]
fn arguments(alloc: Global, cursor: &mut Cursor, room: Room) -> Parsed<Vec<Exp>>
    ensures reads { Answers given_exps arguments room.max cursor.old result cursor.new }
    ensures bound { IfOk result (λ found. (found.height ≤ room.max) × (length cursor.new < length cursor.old)) }
{
    if cursor.is(OPEN_ROUND) {
        cursor.skip();
        return listed(alloc, cursor, room);
    }
    if cursor.is(OPEN_CURLY) {
        let line = cursor.line();
        cursor.skip();
        let fields = fields(alloc, cursor, room)?;
        return Ok(tree_making::table_argument(alloc, line, fields)?);
    }
    string_argument(alloc, cursor)
}

/// A string that is the only argument.
fn string_argument(alloc: Global, cursor: &mut Cursor) -> Parsed<Vec<Exp>>
    ensures reads { Answers given_exps string_argument 0 cursor.old result cursor.new }
    ensures bound { IfOk result (λ found. (found.height ≡ 0) × (length cursor.new < length cursor.old)) }
{
    let line = cursor.line();
    let Token::Str(bytes) = cursor.peek() else {
        return Err(Fault::Refused);
    };
    let value = tree_making::string(alloc, line, copy(alloc, bytes)?)?;
    cursor.skip();
    Ok(tree_making::one_exp(alloc, value)?)
}

/// What stands behind the `(` of arguments.
#[cycle(grammar)]
fn listed(alloc: Global, cursor: &mut Cursor, room: Room) -> Parsed<Vec<Exp>>
    ensures reads { Answers given_exps listed room.max cursor.old result cursor.new }
    ensures bound { IfOk result (λ found. (found.height ≤ room.max) × (length cursor.new < length cursor.old)) }
{
    if cursor.take(CLOSE_ROUND) {
        return Ok(tree_making::no_exps(alloc));
    }
    let items = explist(alloc, cursor, room)?;
    expect(cursor, CLOSE_ROUND)?;
    Ok(items)
}
