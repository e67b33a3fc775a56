// What the records of tables, functions and cells name, in the order in which it stands there.
ghost use Rattle.std.specs.Prelude.{◌≡◌, ℕ, List, flat_map, OnOk};
ghost use Rattle.std.specs.Option.{option_map};
ghost use Rattle.int_core.specs.Value.{a_table, a_function};
ghost use Rattle.image_core.specs.Records.{a_cell, an_object, metatable_value, row_fields, table_fields};
ghost use Rattle.lua_heap.specs.Cells.{CellsAreListed};
ghost use Rattle.lua_heap.specs.Plain.{table as read_table};
ghost use Rattle.lua_heap.specs.Reading.{row as read_row, value as read};
ghost use Rattle.graph_core.specs.Cells.{CellsAreThere, coroutine_inside, outer};
ghost use Rattle.graph_core.specs.Walk.{MeetsFields, MeetsPart, inside_in, texts_in};

use crate::object::{Object, Seen, Sort, meet};
use crate::walk::Walk;
use int_core::Allocated;
use lua_heap::Cell;
use table_core::{CellId, CoroId, Table, TableId, Value};

impl Walk<'_> {
    /// What a table names is met: the key and the value of each row, cleared ones too, then the metatable.
    fn meet_table(&self, seen: &mut Seen, table: &Table) -> Allocated<()>
        ensures { OnOk result (MeetsFields self.now seen.old.keys seen.new.keys (table_fields (read_table (texts_in self.now) table.now))) }
    {
        self.meet_rows(seen, table)?;
        self.meet(seen, metatable_of(table.metatable()))
    }

    /// What the rows of a table name is met.
    fn meet_rows(&self, seen: &mut Seen, table: &Table) -> Allocated<()>
        ensures { OnOk result (MeetsFields self.now seen.old.keys seen.new.keys (flat_map (λ r. row_fields (read_row (texts_in self.now) r)) table.now.rows)) }
    {
        for at in 0..table.rows() {
            let (key, value) = table.row(at);
            self.meet(seen, key.value())?;
            self.meet(seen, value)?;
        }
        Ok(())
    }

    /// What the table of a number names is met, if there is one.
    pub(crate) fn meet_table_at(&self, seen: &mut Seen, number: usize) -> Allocated<()>
        ensures { OnOk result (MeetsPart self.now seen.old.keys seen.new.keys (an_object a_table number)) }
    {
        if number >= self.world.tables.len() {
            return Ok(());
        }
        self.meet_table(seen, self.world.tables.get(number))
    }

    /// What the function of a number names is met, if there is one.
    pub(crate) fn meet_function_at(&self, seen: &mut Seen, number: usize) -> Allocated<()>
        ensures { OnOk result (MeetsPart self.now seen.old.keys seen.new.keys (an_object a_function number)) }
    {
        if number >= self.world.funcs.len() {
            return Ok(());
        }
        self.meet_cells(seen, &self.world.funcs.get(number).cells)
    }

    /// What the cell of a number names is met, if there is one.
    pub(crate) fn meet_cell_at(&self, seen: &mut Seen, number: usize) -> Allocated<()>
        requires listed { CellsAreListed self.now.world.now }
        requires there { CellsAreThere self.now.world.now }
        ensures { OnOk result (MeetsPart self.now seen.old.keys seen.new.keys (a_cell number)) }
    {
        if number >= self.world.cells.len() {
            return Ok(());
        }
        match self.outer(*self.world.cells.get(number)) {
            Some(coroutine) => meet(seen, coroutine),
            None => self.meet(seen, self.world.cell_value(CellId(number))),
        }
    }

    /// The coroutine that a cell's record names.
    fn outer(&self, cell: Cell) -> Option<Object>
        ensures { result ≡ outer (inside_in self.now) cell }
    {
        match cell {
            Cell::Closed(_) => None,
            Cell::Open { coro, .. } => self.if_inside(coro),
        }
    }

    /// A coroutine, if it is one of those that the image has.
    fn if_inside(&self, coro: CoroId) -> Option<Object>
        ensures { result ≡ coroutine_inside (inside_in self.now) coro.0 }
    {
        let coroutine = Object {
            sort: Sort::Coro,
            number: coro.0,
        };
        if self.inside.contains(&coroutine) {
            return Some(coroutine);
        }
        None
    }
}

/// A metatable as a value: nil where there is none.
pub fn metatable_of(metatable: Option<TableId>) -> Value
    ensures { (texts : List (List ℕ)) → read texts result ≡ metatable_value (option_map (λ id. id.0) metatable) }
{
    match metatable {
        Some(id) => Value::Table(id),
        None => Value::Nil,
    }
}
