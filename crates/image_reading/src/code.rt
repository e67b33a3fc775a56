// Functions: their code and the numbers of their cells.
ghost use Rattle.std.specs.Prelude.{◌≡◌, length};
ghost use Rattle.image_bytes.specs.Bytes.{Reader, blob, code_format, function_format};
ghost use Rattle.image_bytes.specs.Format.{tested, byte, of_kind};
ghost use Rattle.std.specs.Prelude.{nat_eq};
ghost use Rattle.image_reading.specs.Code.{TellsFunction, TellsCode, own};
ghost use Rattle.image_reading.specs.Says.{Says, itself, shown, reader_in};
ghost use Rattle.image_records.specs.Views.{record_read};
ghost use Rattle.chunk_format.specs.Reading.{read_whole};

use crate::fault::{ReadFault, Refusal};
use crate::input::Input;
use crate::item::Context;
use chunk_check::{CheckFault, check};
use chunk_format::{ChunkFault, read_function};
use code_core::{Checked, Proto};
use image_records::Record;
use std::alloc::Global;

impl<'a> Input<'a> {
    /// A function.
    #[tactic(auto, unfolding(image_bytes::specs::Bytes::function_format, image_bytes::specs::Format::case, image_bytes::specs::Format::followed))]
    pub(crate) fn function(&mut self, context: &Context<'_>) -> Result<Record<'a>, ReadFault<'a>>
        ensures reads { Says record_read ((function_format (reader_in context.now)).scan self.old.met self.old.bytes) result self.new }
    {
        let code = self.code(context)?;
        let count = self.cell_count(code.proto().upvalues.len())?;
        let cells = self.cells(count, context)?;
        Ok(Record::Function { code, cells })
    }

    /// Code, which is checked.
    #[tactic(auto, unfolding(image_bytes::specs::Bytes::code_format))]
    fn code(&mut self, context: &Context<'_>) -> Result<Checked, ReadFault<'a>>
        ensures reads { Says own ((code_format (reader_in context.now)).scan self.old.met self.old.bytes) result self.new }
    {
        let bytes = self.blob()?;
        let code = checked_code(context.alloc, bytes)?;
        Ok(code)
    }

    /// A length and so many bytes.
    #[tactic(auto, unfolding(image_bytes::specs::Bytes::blob, image_bytes::specs::Format::case, image_bytes::specs::Format::followed))]
    fn blob(&mut self) -> Result<&'a [u8], ReadFault<'a>>
        ensures reads { (R : Reader) → Says shown ((blob R).scan self.old.met self.old.bytes) result self.new }
    {
        let len = self.word()? as usize;
        let bytes = self.raw(len)?;
        Ok(bytes)
    }

    /// How many cells a function has: as many as its code has upvalues.
    #[tactic(auto, unfolding(image_bytes::specs::Format::tested))]
    fn cell_count(&mut self, upvalues: usize) -> Result<u8, ReadFault<'a>>
        ensures reads { Says itself ((tested (nat_eq upvalues) (λ n. of_kind 4) byte).scan self.old.met self.old.bytes) result self.new }
    {
        let count = self.byte()?;
        if usize::from(count) == upvalues {
            Ok(count)
        } else {
            Err(ReadFault::Refused(Refusal::OutOfRange))
        }
    }
}

/// The code that bytes are, where it is checked.
fn checked_code<'a>(alloc: Global, bytes: &[u8]) -> Result<Checked, ReadFault<'a>>
    ensures { TellsCode (read_whole bytes.now) result }
{
    let proto = whole_function(alloc, bytes)?;
    match check(alloc, proto) {
        Ok(code) => {
            let _proto = code.proto();
            Ok(code)
        }
        Err(CheckFault::Refused { .. }) => Err(ReadFault::Refused(Refusal::Code)),
        Err(CheckFault::Memory) => Err(ReadFault::Memory),
    }
}

/// The function that bytes are, with none left over.
fn whole_function<'a>(alloc: Global, bytes: &[u8]) -> Result<Proto, ReadFault<'a>>
    ensures { TellsFunction (read_whole bytes.now) result }
{
    match read_function(alloc, bytes) {
        Ok((proto, count)) => {
            if count == bytes.len() {
                Ok(proto)
            } else {
                Err(ReadFault::Refused(Refusal::Code))
            }
        }
        Err(ChunkFault::Refused { .. }) => Err(ReadFault::Refused(Refusal::Code)),
        Err(ChunkFault::Memory) => Err(ReadFault::Memory),
    }
}
