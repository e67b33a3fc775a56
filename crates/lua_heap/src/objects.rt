// New objects of a world.
ghost use Rattle.std.specs.Prelude.{◌≡◌, length, IfOk, OnOk, OnErr};
ghost use Rattle.lua_heap.specs.Changes.{AddsTable, AddsFunction, AddsCell, AddsCoroutine};

use crate::world::{Cell, Coro, Func, World};
use int_core::Allocated;
use table_core::{CellId, CoroId, FuncId, Table, TableId};

impl World {
    /// Adds a table. A refusal changes nothing.
    pub fn add_table(&mut self, table: Table) -> Allocated<TableId>
        ensures id { IfOk result (λ id. id.0 ≡ length self.old.tables.objects) }
        ensures added { OnOk result (AddsTable self.old self.new table) }
        ensures err { OnErr result (self.new ≡ self.old) }
    {
        self.tables.reserve(1)?;
        Ok(TableId(self.tables.place(table)))
    }

    /// Adds a Lua function. A refusal changes nothing.
    pub fn add_func(&mut self, func: Func) -> Allocated<FuncId>
        ensures id { IfOk result (λ id. id.0 ≡ length self.old.funcs.objects) }
        ensures added { OnOk result (AddsFunction self.old self.new func) }
        ensures err { OnErr result (self.new ≡ self.old) }
    {
        self.funcs.reserve(1)?;
        Ok(FuncId(self.funcs.place(func)))
    }

    /// Adds a cell. A refusal changes nothing.
    pub fn add_cell(&mut self, cell: Cell) -> Allocated<CellId>
        ensures id { IfOk result (λ id. id.0 ≡ length self.old.cells.objects) }
        ensures added { OnOk result (AddsCell self.old self.new cell) }
        ensures err { OnErr result (self.new ≡ self.old) }
    {
        self.cells.reserve(1)?;
        Ok(CellId(self.cells.place(cell)))
    }

    /// Adds a coroutine. A refusal changes nothing.
    pub fn add_coro(&mut self, coro: Coro) -> Allocated<CoroId>
        ensures id { IfOk result (λ id. id.0 ≡ length self.old.coros.objects) }
        ensures added { OnOk result (AddsCoroutine self.old self.new coro) }
        ensures err { OnErr result (self.new ≡ self.old) }
    {
        self.coros.reserve(1)?;
        Ok(CoroId(self.coros.place(coro)))
    }
}
