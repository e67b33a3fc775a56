// Declarations, assignments and calls that stand alone (Lua 5.4 manual, 3.3.3, 3.3.6 and 3.3.7).
ghost use Rattle.std.specs.Prelude.{◌≡◌, ◌≤◌, ◌<◌, length, [], ◌∷◌, codes, IfOk};
ghost use Rattle.lua_parse.specs.Grammar.{named};
ghost use Rattle.tree_making.specs.Made.{plain_boxed};
ghost use Rattle.lua_parse.specs.Words.{attrib_of};
ghost use Rattle.lua_parse.specs.Moves.{function_stat, function_name, path, local_stat, local_function, local_names, more_declared, declared, values, prefix_stat, assignment, more_targets};
ghost use Rattle.lua_parse.specs.Answers.{Answers, given_stat, given_target, given_exp, given_exps, given_declared, given_all_declared};

use crate::expression::explist;
use crate::fault::{Fault, FoundExp, Parsed, Target};
use crate::function::body;
use crate::room::Room;
use crate::suffix::{dotted, prefix};
use crate::terminal::{expect, name};
use int_core::Bytes;
use std::alloc::{AllocError, Global};
use token_cursor::Cursor;
use token_cursor::word::{ASSIGN, COLON, COMMA, DOT, FUNCTION, GREATER, LESS, LOCAL};
use tree_core::{Attrib, Declared, Exp, Name, Place, Stat};
use tree_making::{Found, is_call, is_target};

/// `function` with a name that is assigned to.
#[cycle(grammar)]
pub fn function_stat(alloc: Global, cursor: &mut Cursor, room: Room) -> Parsed<Stat>
    ensures reads { Answers given_stat function_stat room.max cursor.old result cursor.new }
    ensures bound { IfOk result (λ found. (found.height ≤ room.max) × (length cursor.new < length cursor.old)) }
{
    let line = expect(cursor, FUNCTION)?;
    let target = function_name(alloc, cursor, room)?;
    let height = target.height;
    let Target { exp, own } = target.node;
    let body = body(alloc, cursor, line, own, room)?;
    Ok(tree_making::function_stat(alloc, line, Found { node: exp, height }, body)?)
}

/// Name {`.` Name} [`:` Name].
fn function_name(alloc: Global, cursor: &mut Cursor, room: Room) -> Parsed<Target>
    ensures reads { Answers given_target function_name room.max cursor.old result cursor.new }
    ensures bound { IfOk result (λ found. (found.height ≤ room.max) × (length cursor.new < length cursor.old)) }
{
    let first = name(cursor)?;
    let first = tree_making::variable(alloc, first)?;
    let exp = path(alloc, cursor, first, room)?;
    let line = cursor.line();
    if !cursor.is(COLON) {
        return Ok(Found {
            node: Target {
                exp: exp.node,
                own: Vec::new(alloc),
            },
            height: exp.height,
        });
    }
    let exp = dotted(alloc, cursor, COLON, exp, room)?;
    let own = this(alloc, line)?;
    Ok(Found {
        node: Target { exp: exp.node, own },
        height: exp.height,
    })
}

/// The parameter `self`.
fn this(alloc: Global, line: u32) -> Result<Vec<Name>, AllocError>
    ensures { IfOk result (λ names. names.items ≡ named (codes "self") line ∷ []) }
{
    let mut names = Vec::new(alloc);
    names.push(Name {
        text: Bytes::of(Vec::from_slice(alloc, b"self")?),
        line,
        place: Place::Unset,
    })?;
    Ok(names)
}

/// {`.` Name}.
fn path(alloc: Global, cursor: &mut Cursor, first: FoundExp, room: Room) -> Parsed<Box<Exp>>
    requires fits { first.height ≤ room.max }
    ensures reads { Answers given_exp (path (plain_boxed first.node) first.height) room.max cursor.old result cursor.new }
    ensures bound { IfOk result (λ found. (found.height ≤ room.max) × (length cursor.new ≤ length cursor.old)) }
{
    let mut left = first;
    while cursor.is(DOT) {
        left = dotted(alloc, cursor, DOT, left, room)?;
    }
    Ok(left)
}

/// `local` and what is declared.
#[cycle(grammar)]
pub fn local_stat(alloc: Global, cursor: &mut Cursor, room: Room) -> Parsed<Stat>
    ensures reads { Answers given_stat local_stat room.max cursor.old result cursor.new }
    ensures bound { IfOk result (λ found. (found.height ≤ room.max) × (length cursor.new < length cursor.old)) }
{
    let line = expect(cursor, LOCAL)?;
    if cursor.is(FUNCTION) {
        return local_function(alloc, cursor, line, room);
    }
    local_names(alloc, cursor, line, room)
}

/// `function` Name body.
#[cycle(grammar)]
fn local_function(alloc: Global, cursor: &mut Cursor, line: u32, room: Room) -> Parsed<Stat>
    ensures reads { Answers given_stat (local_function line) room.max cursor.old result cursor.new }
    ensures bound { IfOk result (λ found. (found.height ≤ room.max) × (length cursor.new < length cursor.old)) }
{
    let own_line = expect(cursor, FUNCTION)?;
    let name = name(cursor)?;
    let body = body(alloc, cursor, own_line, Vec::new(alloc), room)?;
    Ok(tree_making::local_function(alloc, line, name, body)?)
}

/// Names with attributes, and their values.
#[cycle(grammar)]
fn local_names(alloc: Global, cursor: &mut Cursor, line: u32, room: Room) -> Parsed<Stat>
    ensures reads { Answers given_stat (local_names line) room.max cursor.old result cursor.new }
    ensures bound { IfOk result (λ found. (found.height ≤ room.max) × (length cursor.new < length cursor.old)) }
{
    let first = declared(cursor)?;
    let names = more_declared(alloc, cursor, first)?;
    let values = values(alloc, cursor, room)?;
    Ok(tree_making::local(line, names, values))
}

/// The declared names behind the first one.
fn more_declared(
    alloc: Global,
    cursor: &mut Cursor,
    first: Declared,
) -> Result<Vec<Declared>, Fault>
    ensures reads { Answers given_all_declared (more_declared (first ∷ [])) 0 cursor.old result cursor.new }
    ensures kept { IfOk result (λ _. length cursor.new ≤ length cursor.old) }
{
    let mut names = Vec::new(alloc);
    names.push(first)?;
    while cursor.is(COMMA) {
        cursor.skip();
        let next = declared(cursor)?;
        names.push(next)?;
    }
    Ok(names)
}

/// Name [`<` Name `>`].
fn declared(cursor: &mut Cursor) -> Result<Declared, Fault>
    ensures reads { Answers given_declared declared 0 cursor.old result cursor.new }
    ensures taken { IfOk result (λ _. length cursor.new < length cursor.old) }
{
    let variable = name(cursor)?;
    if !cursor.is(LESS) {
        let attrib_line = variable.line;
        return Ok(Declared {
            name: variable,
            attrib: Attrib::Plain,
            attrib_line,
        });
    }
    cursor.skip();
    let word = name(cursor)?;
    expect(cursor, GREATER)?;
    let attrib_line = word.line;
    Ok(Declared {
        name: variable,
        attrib: attrib(word.text),
        attrib_line,
    })
}

/// The attribute that is spelled so.
fn attrib(text: Bytes) -> Attrib
    ensures { result ≡ attrib_of text }
{
    if text.as_slice() == b"const".as_slice() {
        return Attrib::Const;
    }
    if text.as_slice() == b"close".as_slice() {
        return Attrib::Close;
    }
    Attrib::Other(text)
}

/// `=` explist, or nothing.
#[cycle(grammar)]
fn values(alloc: Global, cursor: &mut Cursor, room: Room) -> Parsed<Vec<Exp>>
    ensures reads { Answers given_exps values room.max cursor.old result cursor.new }
    ensures bound { IfOk result (λ found. (found.height ≤ room.max) × (length cursor.new ≤ length cursor.old)) }
{
    if !cursor.is(ASSIGN) {
        return Ok(tree_making::no_exps(alloc));
    }
    cursor.skip();
    explist(alloc, cursor, room)
}

/// A call, or targets and their values.
#[cycle(grammar)]
pub fn prefix_stat(alloc: Global, cursor: &mut Cursor, room: Room) -> Parsed<Stat>
    ensures reads { Answers given_stat prefix_stat room.max cursor.old result cursor.new }
    ensures bound { IfOk result (λ found. (found.height ≤ room.max) × (length cursor.new < length cursor.old)) }
{
    let line = cursor.line();
    let first = prefix(alloc, cursor, room)?;
    if is_call(&first) {
        return Ok(tree_making::call_stat(line, first));
    }
    if !is_target(&first) {
        return Err(Fault::Refused);
    }
    assignment(alloc, cursor, line, first, room)
}

/// What stands behind the first target of an assignment.
#[cycle(grammar)]
fn assignment(
    alloc: Global,
    cursor: &mut Cursor,
    line: u32,
    first: FoundExp,
    room: Room,
) -> Parsed<Stat>
    requires fits { first.height ≤ room.max }
    ensures reads { Answers given_stat (assignment line (plain_boxed first.node) first.height) room.max cursor.old result cursor.new }
    ensures bound { IfOk result (λ found. (found.height ≤ room.max) × (length cursor.new < length cursor.old)) }
{
    let targets = targets(alloc, cursor, first, room)?;
    expect(cursor, ASSIGN)?;
    let values = explist(alloc, cursor, room)?;
    Ok(tree_making::assign(line, targets, values))
}

/// The targets of an assignment, from the first one on.
#[cycle(grammar)]
fn targets(alloc: Global, cursor: &mut Cursor, first: FoundExp, room: Room) -> Parsed<Vec<Exp>>
    requires fits { first.height ≤ room.max }
    ensures reads { Answers given_exps (more_targets (plain_boxed first.node ∷ []) first.height) room.max cursor.old result cursor.new }
    ensures bound { IfOk result (λ found. (found.height ≤ room.max) × (length cursor.new ≤ length cursor.old)) }
{
    let mut items = tree_making::one_exp(alloc, first)?;
    while cursor.is(COMMA) {
        cursor.skip();
        let item = prefix(alloc, cursor, room)?;
        if !is_target(&item) {
            return Err(Fault::Refused);
        }
        items = tree_making::more_exps(items, item)?;
    }
    Ok(items)
}
