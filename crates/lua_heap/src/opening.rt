// A new world, and marks to come back to.
ghost use Rattle.std.specs.Prelude.{◌≡◌, ℕ, true, IfOk, OnOk, map, length, nat_le};
ghost use Rattle.std.specs.List.{list_all};
ghost use Rattle.int_core.specs.Value.{greatest_string};
ghost use Rattle.lua_heap.specs.Cells.{CellsAreListed};
ghost use Rattle.lua_heap.specs.Codes.{AreCodes};
ghost use Rattle.lua_heap.specs.Opening.{first_texts, all_interned, opened_world, mark_of, IsMark, Releases};
ghost use Rattle.lua_heap.specs.Plain.{plain};

use crate::codes::Codes;
use crate::strings::Strings;
use crate::world::{Mark, Prelude, World};
use int_core::Allocated;
use object_pool::Pool;
use std::alloc::Global;
use table_core::{StrId, Table, TableId};

/// The fields of metatables that mean something, in the order of their numbers, and last the one that says how a table is saved.
const FIRST_TEXTS: [&[u8]; 26] = [
    b"__add",
    b"__sub",
    b"__mul",
    b"__mod",
    b"__idiv",
    b"__unm",
    b"__band",
    b"__bor",
    b"__bxor",
    b"__shl",
    b"__shr",
    b"__bnot",
    b"__concat",
    b"__len",
    b"__eq",
    b"__lt",
    b"__le",
    b"__index",
    b"__newindex",
    b"__call",
    b"__close",
    b"__tostring",
    b"__name",
    b"__pairs",
    b"__metatable",
    b"__persist",
];

/// The string `__persist`.
const PERSIST: StrId = StrId(25);

impl World {
    /// A world with empty globals and an empty environment of the prelude, in which nothing has run.
    pub fn new(alloc: Global) -> Allocated<World>
        ensures plain { IfOk result (λ world. (fuel : ℕ) → plain world fuel ≡ opened_world fuel) }
        ensures strings { IfOk result (λ world. world.strings ≡ first_texts) }
        ensures codes { IfOk result (λ world. AreCodes world.strings world.codes) }
        ensures listed { IfOk result (λ world. CellsAreListed world) }
    {
        let mut strings = Strings::new(alloc);
        intern_all(&mut strings, &FIRST_TEXTS)?;
        let mut tables = Pool::new(alloc);
        tables.reserve(2)?;
        let globals = TableId(tables.place(Table::new(alloc)));
        let env = TableId(tables.place(Table::new(alloc)));
        Ok(World {
            alloc,
            strings,
            codes: Codes::new(alloc),
            tables,
            funcs: Pool::new(alloc),
            cells: Pool::new(alloc),
            coros: Pool::new(alloc),
            globals,
            string_meta: None,
            prelude: Prelude {
                env,
                funcs: Vec::new(alloc),
            },
            spkey: PERSIST,
            maxrec: 10000,
            main: None,
            chain: Vec::new(alloc),
            moving: Vec::new(alloc),
            printed: Vec::new(alloc),
        })
    }

    /// How many objects of each kind there are, to be come back to.
    pub fn mark(&self) -> Mark
        ensures { result ≡ mark_of self.now }
    {
        Mark {
            strings: self.strings.len(),
            codes: self.codes.mark(),
            tables: self.tables.mark(),
            funcs: self.funcs.mark(),
            cells: self.cells.mark(),
            coros: self.coros.mark(),
        }
    }

    /// Keeps what was there at a mark, and drops what came after.
    pub fn release_to(&mut self, mark: Mark)
        requires mark { IsMark self.old mark }
        requires codes { AreCodes self.old.strings self.old.codes }
        ensures { Releases self.old self.new mark }
    {
        self.coros.release_to(mark.coros);
        self.cells.release_to(mark.cells);
        self.funcs.release_to(mark.funcs);
        self.tables.release_to(mark.tables);
        self.codes.release_to(mark.codes);
        self.strings.release_to(mark.strings);
    }
}

/// Adds the strings that are not there yet, one after another.
fn intern_all(strings: &mut Strings, texts: &[&[u8]]) -> Allocated<()>
    requires { list_all (λ text. nat_le (length text.now) greatest_string) texts.now ≡ true }
    ensures { OnOk result (strings.new ≡ all_interned strings.old (map (λ text. text.now) texts.now)) }
{
    for text in texts {
        strings.intern(text)?;
    }
    Ok(())
}
