// The tokens that a production asks for.
ghost use Rattle.std.specs.Prelude.{◌≡◌, ◌<◌, length, IfOk};
ghost use Rattle.lua_parse.specs.Moves.{word, opener, name};
ghost use Rattle.lua_parse.specs.Answers.{Answers, given_line, given_name};

use crate::fault::Fault;
use crate::room::Room;
use int_core::Bytes;
use std::alloc::{AllocError, Global};
use token_cursor::{Cursor, Word};
use tree_core::{Name, Place};

/// Passes the word and answers its line.
pub fn expect(cursor: &mut Cursor, wanted: Word) -> Result<u32, Fault>
    ensures reads { Answers given_line (word wanted) 0 cursor.old result cursor.new }
    ensures taken { IfOk result (λ _. length cursor.new < length cursor.old) }
{
    let line = cursor.line();
    if !cursor.take(wanted) {
        return Err(Fault::Refused);
    }
    Ok(line)
}

/// Passes the word, which opens a level over what has this height, and answers its line.
pub fn open(cursor: &mut Cursor, wanted: Word, height: u32, room: Room) -> Result<u32, Fault>
    ensures reads { Answers given_line (opener wanted height) room.max cursor.old result cursor.new }
    ensures taken { IfOk result (λ _. length cursor.new < length cursor.old) }
    ensures fits { IfOk result (λ _. height < room.max) }
{
    let line = cursor.line();
    if height >= room.max {
        return Err(Fault::Refused);
    }
    if !cursor.take(wanted) {
        return Err(Fault::Refused);
    }
    Ok(line)
}

/// Passes a name.
pub fn name(cursor: &mut Cursor) -> Result<Name, Fault>
    ensures reads { Answers given_name name 0 cursor.old result cursor.new }
    ensures taken { IfOk result (λ _. length cursor.new < length cursor.old) }
{
    let line = cursor.line();
    let Some(text) = cursor.take_name() else {
        return Err(Fault::Refused);
    };
    Ok(Name {
        text,
        line,
        place: Place::Unset,
    })
}

/// The same bytes.
pub fn copy(alloc: Global, bytes: &Bytes) -> Result<Bytes, AllocError>
    ensures { IfOk result (λ same. same ≡ bytes.now) }
{
    Ok(Bytes::of(Vec::from_slice(alloc, bytes.as_slice())?))
}
