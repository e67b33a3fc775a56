// Sets in square brackets, as a pattern spells them.
ghost use Rattle.std.specs.Prelude.{◌≡◌, drop};
ghost use Rattle.lua_pattern.specs.Outcomes.{IsSetRead};
ghost use Rattle.lua_pattern.specs.Reading.{part_at, set_from};

use crate::answer::PatternFault;
use crate::class::{ByteSet, Part};
use crate::cursor::Cursor;
use crate::rule;
use std::alloc::Global;

/// Reads a set whose `[` is passed. A `]` in the first place is a part of it.
pub(crate) fn read_set(alloc: Global, cursor: &mut Cursor) -> Result<ByteSet, PatternFault>
    ensures { IsSetRead result (set_from cursor.old) cursor.new }
{
    let inverted = cursor.take_if(b'^');
    let mut parts = Vec::new(alloc);
    let Some(first) = cursor.next_byte() else {
        return Err(PatternFault::Malformed(rule::MISSING_BRACKET));
    };
    parts.push(read_part(first, cursor))?;
    while let Some(byte) = cursor.next_byte() {
        if byte == b']' {
            return Ok(ByteSet { parts, inverted });
        }
        parts.push(read_part(byte, cursor))?;
    }
    Err(PatternFault::Malformed(rule::MISSING_BRACKET))
}

/// Reads the part that begins with a byte that is passed.
fn read_part(byte: u8, cursor: &mut Cursor) -> Part
    ensures part { result ≡ (part_at byte cursor.old).part }
    ensures rest { cursor.new ≡ drop (part_at byte cursor.old).more cursor.old }
{
    if byte == b'%' {
        return match cursor.next_byte() {
            Some(letter) => Part::named(letter),
            None => Part::Byte(byte),
        };
    }
    match (cursor.ahead(0), cursor.ahead(1)) {
        (Some(b'-'), Some(last)) if last != b']' && last != b'%' => {
            cursor.skip(2);
            Part::Range(byte, last)
        }
        _ => Part::Byte(byte),
    }
}
