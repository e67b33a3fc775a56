// Expressions by recursive descent (Lua 5.4 manual, 3.4).
ghost use Rattle.std.specs.Prelude.{◌≡◌, ◌≤◌, ◌<◌, length, Some, IfOk};
ghost use Rattle.std.specs.Option.{option_map};
ghost use Rattle.tree_core.specs.Plain.{plain_exp};
ghost use Rattle.tree_making.specs.Made.{plain_boxed};
ghost use Rattle.lua_parse.specs.Words.{constant_of, literal};
ghost use Rattle.lua_parse.specs.Moves.{chain, behind, unary, simple, explist};
ghost use Rattle.lua_parse.specs.Grammar.{exp, right_operand};
ghost use Rattle.lua_parse.specs.Answers.{Answers, given_exp, given_exps};
ghost use Rattle.token_cursor.specs.Words.{first};

use crate::fault::{Fault, FoundExp, Parsed};
use crate::function::body;
use crate::room::Room;
use crate::suffix::prefix;
use crate::table::table;
use crate::terminal::copy;
use lua_lex::Token;
use std::alloc::{AllocError, Global};
use token_cursor::token::{is_word, may_join, operator, unary_operator};
use token_cursor::word::{COMMA, DOTS, FALSE, FUNCTION, NIL, OPEN_CURLY, TRUE};
use token_cursor::{Cursor, Level};
use tree_core::{Exp, ExpNode};
use tree_making::Found;

/// Expressions with commas between.
#[cycle(grammar)]
pub fn explist(alloc: Global, cursor: &mut Cursor, room: Room) -> Parsed<Vec<Exp>>
    ensures reads { Answers given_exps explist room.max cursor.old result cursor.new }
    ensures bound { IfOk result (λ found. (found.height ≤ room.max) × (length cursor.new < length cursor.old)) }
{
    let first = expression(alloc, cursor, room)?;
    let mut items = tree_making::one_exp(alloc, first)?;
    while cursor.is(COMMA) {
        cursor.skip();
        let item = expression(alloc, cursor, room)?;
        items = tree_making::more_exps(items, item)?;
    }
    Ok(items)
}

/// An expression.
#[cycle(grammar)]
pub fn expression(alloc: Global, cursor: &mut Cursor, room: Room) -> Parsed<Box<Exp>>
    ensures reads { Answers given_exp exp room.max cursor.old result cursor.new }
    ensures bound { IfOk result (λ found. (found.height ≤ room.max) × (length cursor.new < length cursor.old)) }
{
    chain(alloc, cursor, Level::Or, room)
}

/// Operands with operators of the level, and of those that bind more, between. The levels are
/// gone through in a loop, so that parentheses within one another take little of the stack.
#[cycle(grammar)]
fn chain(alloc: Global, cursor: &mut Cursor, level: Level, room: Room) -> Parsed<Box<Exp>>
    ensures reads { Answers given_exp (chain level) room.max cursor.old result cursor.new }
    ensures bound { IfOk result (λ found. (found.height ≤ room.max) × (length cursor.new < length cursor.old)) }
{
    let mut left = unary(alloc, cursor, room)?;
    let mut current = Level::Product;
    while current.binds_more(level) {
        // Most operands have no operator behind them.
        if !may_join(cursor.peek()) {
            return Ok(left);
        }
        left = operators(alloc, cursor, current, left, room)?;
        current = current.looser();
    }
    operators(alloc, cursor, level, left, room)
}

/// The operators of the level behind their first operand, with the operands behind them.
#[cycle(grammar)]
fn operators(
    alloc: Global,
    cursor: &mut Cursor,
    level: Level,
    first: FoundExp,
    room: Room,
) -> Parsed<Box<Exp>>
    requires fits { first.height ≤ room.max }
    ensures reads { Answers given_exp (behind level (plain_boxed first.node) first.height) room.max cursor.old result cursor.new }
    ensures bound { IfOk result (λ found. (found.height ≤ room.max) × (length cursor.new ≤ length cursor.old)) }
{
    let mut left = first;
    while let Some(infix) = operator(cursor.peek(), level) {
        if left.height >= room.max {
            return Err(Fault::Refused);
        }
        let line = cursor.line();
        cursor.skip();
        let right = right_operand(alloc, cursor, level, Room { max: room.max - 1 })?;
        left = tree_making::infix(alloc, line, infix, left, right)?;
    }
    Ok(left)
}

/// What stands to the right of an operator of the level.
#[cycle(grammar)]
fn right_operand(alloc: Global, cursor: &mut Cursor, level: Level, room: Room) -> Parsed<Box<Exp>>
    ensures reads { Answers given_exp (right_operand level) room.max cursor.old result cursor.new }
    ensures bound { IfOk result (λ found. (found.height ≤ room.max) × (length cursor.new < length cursor.old)) }
{
    match level {
        Level::Or => chain(alloc, cursor, Level::And, room),
        Level::And => chain(alloc, cursor, Level::Comparison, room),
        Level::Comparison => chain(alloc, cursor, Level::BitOr, room),
        Level::BitOr => chain(alloc, cursor, Level::BitXor, room),
        Level::BitXor => chain(alloc, cursor, Level::BitAnd, room),
        Level::BitAnd => chain(alloc, cursor, Level::Shift, room),
        Level::Shift | Level::Concat => chain(alloc, cursor, Level::Concat, room),
        Level::Sum => chain(alloc, cursor, Level::Product, room),
        Level::Product => unary(alloc, cursor, room),
    }
}

/// A simple expression, or an operator before an operand.
#[cycle(grammar)]
fn unary(alloc: Global, cursor: &mut Cursor, room: Room) -> Parsed<Box<Exp>>
    ensures reads { Answers given_exp unary room.max cursor.old result cursor.new }
    ensures bound { IfOk result (λ found. (found.height ≤ room.max) × (length cursor.new < length cursor.old)) }
{
    let Some(operator) = unary_operator(cursor.peek()) else {
        return simple(alloc, cursor, room);
    };
    if room.max == 0 {
        return Err(Fault::Refused);
    }
    let line = cursor.line();
    cursor.skip();
    let operand = unary(alloc, cursor, Room { max: room.max - 1 })?;
    Ok(tree_making::unary(alloc, line, operator, operand)?)
}

/// An expression without operators.
#[cycle(grammar)]
fn simple(alloc: Global, cursor: &mut Cursor, room: Room) -> Parsed<Box<Exp>>
    ensures reads { Answers given_exp simple room.max cursor.old result cursor.new }
    ensures bound { IfOk result (λ found. (found.height ≤ room.max) × (length cursor.new < length cursor.old)) }
{
    let line = cursor.line();
    if let Some(node) = constant(alloc, cursor.peek(), line)? {
        cursor.skip();
        return Ok(Found { node, height: 0 });
    }
    if cursor.is(FUNCTION) {
        cursor.skip();
        let body = body(alloc, cursor, line, Vec::new(alloc), room)?;
        return Ok(tree_making::function(alloc, line, body)?);
    }
    if cursor.is(OPEN_CURLY) {
        return table(alloc, cursor, room);
    }
    prefix(alloc, cursor, room)
}

/// The expression that the token is by itself.
fn constant(alloc: Global, token: &Token, line: u32) -> Result<Option<Box<Exp>>, AllocError>
    ensures { IfOk result (λ found. option_map plain_boxed found ≡ constant_of (token.now, line)) }
{
    if is_word(token, NIL) {
        return leaf(alloc, line, ExpNode::Nil);
    }
    if is_word(token, TRUE) {
        return leaf(alloc, line, ExpNode::True);
    }
    if is_word(token, FALSE) {
        return leaf(alloc, line, ExpNode::False);
    }
    if is_word(token, DOTS) {
        return leaf(alloc, line, ExpNode::Vararg);
    }
    literal(alloc, token, line)
}

/// The literal that the token is by itself.
fn literal(alloc: Global, token: &Token, line: u32) -> Result<Option<Box<Exp>>, AllocError>
    ensures { IfOk result (λ found. option_map plain_boxed found ≡ literal token.now line) }
{
    match token {
        Token::Int(number) => leaf(alloc, line, ExpNode::Int(*number)),
        Token::Str(bytes) => leaf(alloc, line, ExpNode::Str(copy(alloc, bytes)?)),
        _ => Ok(None),
    }
}

/// An expression that holds no other.
fn leaf(alloc: Global, line: u32, node: ExpNode) -> Result<Option<Box<Exp>>, AllocError>
    ensures { IfOk result (λ found. option_map plain_boxed found ≡ Some (plain_exp (record { line = line; node = node }))) }
{
    Ok(Some(Box::new(alloc, Exp { line, node })?))
}
