// The entries of a function's lists, and such lists.
ghost use Rattle.std.specs.Prelude.{◌≡◌, List, ℕ, ◌++◌, if◌then◌else◌, nat_le, length, OnOk};
ghost use Rattle.chunk_format.specs.Reading.{Got, Says, SaysOf, read_list, read_instruction, read_constant, read_tagged, read_upvalue, read_change, read_abs_line, read_local, read_name};
ghost use Rattle.chunk_format.specs.Spelling as spelled;
ghost use Rattle.chunk_format.specs.Spelling.{spelled_list};

use crate::fault::ChunkFault;
use crate::input::Input;
use crate::output::{write_integer, write_name, write_number, write_text, write_word};
use code_core::{AbsLine, Const, Instruction, LocVar, UpDesc};
use int_core::{Allocated, Bytes};
use std::alloc::Global;

/// An entry of a list in a chunk.
pub trait Item: Sized + Drop {
    // what reading one gives
    ghost reading: { List ℕ → Got Self };

    /// Reads one.
    fn read(alloc: Global, input: &mut Input) -> Result<Self, ChunkFault>
        ensures reads { Says (reading input.old) result input.new };

    // the bytes of one
    ghost spelled: { Self → List ℕ };

    /// Writes one.
    fn write(&self, out: &mut Vec<u8>) -> Allocated<()>
        ensures writes { OnOk result (out.new.items ≡ out.old.items ++ spelled self.now) };
}

impl Item for Instruction {
    ghost reading = { read_instruction };

    fn read(_alloc: Global, input: &mut Input) -> Result<Instruction, ChunkFault> {
        let word = input.word()?;
        Ok(Instruction(word))
    }

    ghost spelled = { spelled.instruction };

    fn write(&self, out: &mut Vec<u8>) -> Allocated<()> {
        write_word(out, self.0)
    }
}

impl Item for Const {
    ghost reading = { read_constant };

    fn read(alloc: Global, input: &mut Input) -> Result<Const, ChunkFault> {
        let tag = input.byte()?;
        tagged(alloc, input, tag)
    }

    ghost spelled = { spelled.constant };

    fn write(&self, out: &mut Vec<u8>) -> Allocated<()> {
        match self {
            Const::Nil => out.push(0)?,
            Const::False => out.push(1)?,
            Const::True => out.push(17)?,
            Const::Int(n) => {
                out.push(3)?;
                write_integer(out, *n)?;
            }
            Const::Str(text) => {
                out.push(string_tag(text))?;
                write_text(out, text)?;
            }
        }
        Ok(())
    }
}

/// The tag of a string, which is another for the long ones.
fn string_tag(text: &Bytes) -> u8
    ensures { result ≡ if nat_le (length text.now) 40 then 4 else 20 }
{
    if text.len() <= 40 { 4 } else { 20 }
}

/// The constant behind its tag.
fn tagged(alloc: Global, input: &mut Input, tag: u8) -> Result<Const, ChunkFault>
    ensures reads { Says (read_tagged tag input.old) result input.new }
{
    match tag {
        0 => Ok(Const::Nil),
        1 => Ok(Const::False),
        17 => Ok(Const::True),
        3 => {
            let integer = input.integer()?;
            Ok(Const::Int(integer))
        }
        19 => Err(ChunkFault::Refused { kind: 5 }),
        4 | 20 => match input.name(alloc)? {
            Some(text) => Ok(Const::Str(text)),
            None => Err(ChunkFault::Refused { kind: 8 }),
        },
        _ => Err(ChunkFault::Refused { kind: 8 }),
    }
}

impl Item for UpDesc {
    ghost reading = { read_upvalue };

    fn read(_alloc: Global, input: &mut Input) -> Result<UpDesc, ChunkFault> {
        let in_stack = input.flag()?;
        let index = input.byte()?;
        let kind = input.kind()?;
        Ok(UpDesc {
            in_stack,
            index,
            kind,
        })
    }

    ghost spelled = { spelled.upvalue };

    fn write(&self, out: &mut Vec<u8>) -> Allocated<()> {
        out.push(u8::from(self.in_stack))?;
        out.push(self.index)?;
        out.push(self.kind)?;
        Ok(())
    }
}

impl Item for i8 {
    ghost reading = { read_change };

    fn read(_alloc: Global, input: &mut Input) -> Result<i8, ChunkFault> {
        let byte = input.byte()?;
        Ok(byte.cast_signed())
    }

    ghost spelled = { spelled.change };

    fn write(&self, out: &mut Vec<u8>) -> Allocated<()> {
        out.push(self.cast_unsigned())?;
        Ok(())
    }
}

impl Item for AbsLine {
    ghost reading = { read_abs_line };

    fn read(_alloc: Global, input: &mut Input) -> Result<AbsLine, ChunkFault> {
        let pc = input.number()?;
        let line = input.number()?;
        Ok(AbsLine { pc, line })
    }

    ghost spelled = { spelled.abs_line };

    fn write(&self, out: &mut Vec<u8>) -> Allocated<()> {
        write_number(out, self.pc as usize)?;
        write_number(out, self.line as usize)
    }
}

impl Item for LocVar {
    ghost reading = { read_local };

    fn read(alloc: Global, input: &mut Input) -> Result<LocVar, ChunkFault> {
        let name = input.name(alloc)?;
        let start = input.number()?;
        let end = input.number()?;
        Ok(LocVar { name, start, end })
    }

    ghost spelled = { spelled.local_variable };

    fn write(&self, out: &mut Vec<u8>) -> Allocated<()> {
        write_name(out, &self.name)?;
        write_number(out, self.start as usize)?;
        write_number(out, self.end as usize)
    }
}

impl Item for Option<Bytes> {
    ghost reading = { read_name };

    fn read(alloc: Global, input: &mut Input) -> Result<Option<Bytes>, ChunkFault> {
        input.name(alloc)
    }

    ghost spelled = { spelled.name };

    fn write(&self, out: &mut Vec<u8>) -> Allocated<()> {
        write_name(out, self)
    }
}

/// A list: its length, then its entries. It takes no more memory than the entries that are there.
pub fn list<T: Item>(alloc: Global, input: &mut Input) -> Result<Vec<T>, ChunkFault>
    ensures reads { SaysOf (λ list. list.items) (read_list T.reading input.old) result input.new }
{
    let len = input.number()?;
    let mut items = Vec::new(alloc);
    for _ in 0..len {
        items.push(T::read(alloc, input)?)?;
    }
    Ok(items)
}

/// Writes a list: its length, then its entries.
pub fn write_list<T: Item>(out: &mut Vec<u8>, items: &[T]) -> Allocated<()>
    ensures { OnOk result (out.new.items ≡ out.old.items ++ spelled_list T.spelled items.now) }
{
    write_number(out, items.len())?;
    for item in items {
        item.write(out)?;
    }
    Ok(())
}
