// The records of tables: their rows in order, cleared ones too, then the metatable (Eris's manual, `eris.persist`).
ghost use Rattle.std.specs.Prelude.{ℕ, flat_map, map, OnOk};
ghost use Rattle.int_core.specs.Value.{a_table};
ghost use Rattle.image_core.specs.Records.{an_object, fields, record_of, record_of_table, row_fields, row_item, table_fields};
ghost use Rattle.image_bytes.specs.Bytes.{record_format, spell_rows, table_format};
ghost use Rattle.lua_heap.specs.Plain.{plain, table as read_table};
ghost use Rattle.lua_heap.specs.Reading.{row as read_row};
ghost use Rattle.eris_write.specs.Writing.{IsReadable, RowsHaveTexts, Writes, inside_in, naming_in, texts_in};

use crate::output::Output;
use crate::writer::Writer;
use graph_core::metatable_of;
use int_core::Allocated;
use lua_heap::law::strings_are_there;
use table_core::Table;

impl Writer<'_> {
    /// Writes the record of a table, if it is there.
    pub(crate) fn write_table_at(&self, out: &mut Output, number: usize) -> Allocated<()>
        requires { IsReadable self.now.world.now }
        ensures { OnOk result ((fuel : ℕ) → Writes self.now out.old out.new (fields (plain self.now.world.now fuel) (inside_in self.now) (an_object a_table number)) (λ R. (record_format R 1).spell (record_of (naming_in self.now) (plain self.now.world.now fuel) (an_object a_table number)))) }
    {
        if number >= self.world.tables.len() {
            return Ok(());
        }
        strings_are_there();
        self.write_table(out, self.world.tables.get(number))
    }

    /// Writes the record of a table.
    fn write_table(&self, out: &mut Output, table: &Table) -> Allocated<()>
        requires { RowsHaveTexts (texts_in self.now) table.now.rows }
        ensures { OnOk result (Writes self.now out.old out.new (table_fields (read_table (texts_in self.now) table.now)) (λ R. (table_format R).spell (record_of_table (naming_in self.now) (read_table (texts_in self.now) table.now)))) }
    {
        out.put_word(table.rows())?;
        self.write_rows(out, table)?;
        self.write(out, metatable_of(table.metatable()))
    }

    /// Writes the rows of a table, each as its key and its value.
    fn write_rows(&self, out: &mut Output, table: &Table) -> Allocated<()>
        requires { RowsHaveTexts (texts_in self.now) table.now.rows }
        ensures { OnOk result (Writes self.now out.old out.new (flat_map (λ r. row_fields (read_row (texts_in self.now) r)) table.now.rows) (λ R. spell_rows R (map (λ r. row_item (naming_in self.now) (read_row (texts_in self.now) r)) table.now.rows))) }
    {
        for at in 0..table.rows() {
            let (key, value) = table.row(at);
            self.write(out, key.value())?;
            self.write(out, value)?;
        }
        Ok(())
    }
}
