// The records of cells: closed with a value, or open in a coroutine of the image.
ghost use Rattle.std.specs.Prelude.{◌≡◌, ◌∷◌, [], ℕ, true, OnOk};
ghost use Rattle.int_core.specs.Value.{a_coroutine};
ghost use Rattle.image_core.specs.Records.{a_cell, an_object, fields, of_coroutine, of_value, record_of};
ghost use Rattle.image_core.specs.Image.{closed_record, open_record};
ghost use Rattle.image_bytes.specs.Bytes.{cell_format, record_format};
ghost use Rattle.lua_heap.specs.Plain.{plain};
ghost use Rattle.eris_write.specs.Cells.{open_place, place_inside};
ghost use Rattle.eris_write.specs.Writing.{HasText, IsReadable, Writes, inside_in, item_in, naming_in, read_in, texts_in};

use crate::output::Output;
use crate::values::REFUSED;
use crate::writer::Writer;
use graph_core::{Object, Sort};
use int_core::Allocated;
use lua_heap::Cell;
use lua_heap::law::strings_are_there;
use table_core::{CellId, CoroId, Value};

impl Writer<'_> {
    /// Writes the record of a cell, if it is there. One that is open in a coroutine of the image names it; any other has its present value.
    pub(crate) fn write_cell_at(&self, out: &mut Output, number: usize) -> Allocated<()>
        requires { IsReadable self.now.world.now }
        ensures { OnOk result ((fuel : ℕ) → Writes self.now out.old out.new (fields (plain self.now.world.now fuel) (inside_in self.now) (a_cell number)) (λ R. (record_format R 3).spell (record_of (naming_in self.now) (plain self.now.world.now fuel) (a_cell number)))) }
    {
        if number >= self.world.cells.len() {
            return out.put_byte(REFUSED);
        }
        strings_are_there();
        match self.open_place(*self.world.cells.get(number)) {
            Some(place) => self.write_open(out, place),
            None => self.write_closed(out, self.world.cell_value(CellId(number))),
        }
    }

    /// Where a cell is open in a coroutine of the image.
    fn open_place(&self, cell: Cell) -> Option<OpenPlace>
        ensures { result ≡ open_place (inside_in self.now) cell }
    {
        match cell {
            Cell::Closed(_) => None,
            Cell::Open {
                coro,
                frame,
                register,
            } => self.if_inside(OpenPlace {
                coro,
                frame,
                register,
            }),
        }
    }

    /// A place, if its coroutine is one of those that the image has.
    fn if_inside(&self, place: OpenPlace) -> Option<OpenPlace>
        ensures { result ≡ place_inside (inside_in self.now) place }
    {
        if self.is_inside(place.coro) {
            return Some(place);
        }
        None
    }

    /// Writes a cell with its value.
    fn write_closed(&self, out: &mut Output, value: Value) -> Allocated<()>
        requires { HasText (texts_in self.now) value }
        ensures { OnOk result (Writes self.now out.old out.new (of_value (read_in self.now value) ∷ []) (λ R. (cell_format R).spell (closed_record (item_in self.now value)))) }
    {
        out.put_byte(1)?;
        self.write(out, value)
    }

    /// Writes a cell that is open in a coroutine of the image.
    fn write_open(&self, out: &mut Output, place: OpenPlace) -> Allocated<()>
        ensures { OnOk result (Writes self.now out.old out.new (of_coroutine place.coro.0 ∷ []) (λ R. (cell_format R).spell (open_record ((naming_in self.now).number (an_object a_coroutine place.coro.0)) place.frame place.register))) }
    {
        let coroutine = Object {
            sort: Sort::Coro,
            number: place.coro.0,
        };
        out.refuse(self.coroutine_refusal(place.coro));
        out.put_byte(2)?;
        out.put_word(self.number(coroutine))?;
        out.put_word(place.frame as usize)?;
        out.put_word(place.register as usize)
    }
}

/// A register of a frame at which a cell is open.
#[derive(Clone, Copy)]
pub(crate) struct OpenPlace {
    coro: CoroId,
    frame: u32,
    register: u32,
}
