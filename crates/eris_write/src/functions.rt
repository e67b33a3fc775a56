// The records of functions and of the cells of their upvalues.
ghost use Rattle.std.specs.Prelude.{◌∷◌, [], ℕ, map, OnOk};
ghost use Rattle.int_core.specs.Value.{a_function};
ghost use Rattle.code_core.specs.Check.{IsChecked};
ghost use Rattle.image_core.specs.Records.{a_cell, an_object, fields, of_cell, record_of, record_of_function};
ghost use Rattle.image_bytes.specs.Bytes.{code_format, function_format, record_format, reference};
ghost use Rattle.image_bytes.specs.Format.{spell_all};
ghost use Rattle.lua_heap.specs.Codes.{functions, prototype_at};
ghost use Rattle.lua_heap.specs.Plain.{function as read_function, plain};
ghost use Rattle.eris_write.specs.Writing.{IsReadable, IsWhole, Writes, inside_in, naming_in};

use crate::output::Output;
use crate::writer::Writer;
use chunk_format::write_function;
use graph_core::{Object, Sort, item_at};
use int_core::Allocated;
use lua_heap::Func;
use lua_heap::law::checked_code_is_there;
use table_core::{CellId, ProtoId};

impl Writer<'_> {
    /// Writes the record of a function, if it is there.
    pub(crate) fn write_function_at(&self, out: &mut Output, number: usize) -> Allocated<()>
        requires { IsReadable self.now.world.now }
        ensures { OnOk result ((fuel : ℕ) → Writes self.now out.old out.new (fields (plain self.now.world.now fuel) (inside_in self.now) (an_object a_function number)) (λ R. (record_format R 2).spell (record_of (naming_in self.now) (plain self.now.world.now fuel) (an_object a_function number)))) }
    {
        if number >= self.world.funcs.len() {
            return Ok(());
        }
        self.write_function(out, self.world.funcs.get(number))
    }

    /// Writes the record of a function: its code, how many cells it has, and their numbers.
    fn write_function(&self, out: &mut Output, func: &Func) -> Allocated<()>
        requires { IsWhole (read_function (functions self.now.world.now.codes) func.now) }
        ensures { OnOk result (Writes self.now out.old out.new (map of_cell (map (λ c. c.0) func.now.cells.items)) (λ R. (function_format R).spell (record_of_function (naming_in self.now) (read_function (functions self.now.world.now.codes) func.now)))) }
    {
        self.write_code(out, func.code)?;
        let cells = func.cells.as_slice();
        let count = cells.len() as u8;
        out.put_byte(count)?;
        self.write_cells(out, cells)
    }

    /// Writes the code of a function as in a chunk, with how many bytes it takes.
    fn write_code(&self, out: &mut Output, code: ProtoId) -> Allocated<()>
        requires { IsChecked (prototype_at (functions self.now.world.now.codes) code.0) }
        ensures { OnOk result (Writes self.now out.old out.new [] (λ R. (code_format R).spell (prototype_at (functions self.now.world.now.codes) code.0))) }
    {
        checked_code_is_there();
        let bytes = write_function(self.world.alloc, self.world.codes.proto(code))?;
        let text = bytes.as_slice();
        out.put_word(text.len())?;
        out.put(text)
    }

    /// Writes the numbers of cells.
    fn write_cells(&self, out: &mut Output, cells: &[CellId]) -> Allocated<()>
        ensures { OnOk result (Writes self.now out.old out.new (map of_cell (map (λ c. c.0) cells.now)) (λ R. spell_all (reference R.sorts (3 ∷ [])) (map (λ c. (naming_in self.now).number (a_cell c)) (map (λ c. c.0) cells.now)))) }
    {
        for at in 0..cells.len() {
            let object = Object {
                sort: Sort::Cell,
                number: item_at(cells, at).0,
            };
            out.put_word(self.number(object))?;
        }
        Ok(())
    }
}
