// The sorts of the records of an image, and the records in their order.
ghost use Rattle.std.specs.Prelude.{◌≡◌, ◌<◌, ◌++◌, ℕ, None, Some, flat_map, length, map, slice_get, OnOk};
ghost use Rattle.byteorder.specs.Endian.{little_bytes};
ghost use Rattle.lua_heap.specs.Plain.{plain};
ghost use Rattle.eris_write.specs.Images.{fields_in, record_bytes, records_bytes, sort_code};
ghost use Rattle.eris_write.specs.Output.{Puts};
ghost use Rattle.eris_write.specs.Writing.{IsReadable, Writes};

use crate::output::Output;
use crate::writer::Writer;
use graph_core::{Object, Sort};
use indexmap::IndexSet;
use int_core::Allocated;

impl Writer<'_> {
    /// Writes the records in their order.
    pub(crate) fn write_records(&self, out: &mut Output) -> Allocated<()>
        requires { IsReadable self.now.world.now }
        ensures { OnOk result ((fuel : ℕ) → Writes self.now out.old out.new (flat_map (fields_in self.now fuel) self.now.numbering.now.order.keys) (records_bytes self.now fuel self.now.numbering.now.order.keys)) }
    {
        for at in 0..self.numbering.order.len() {
            self.write_record(out, object_at(&self.numbering.order, at))?;
        }
        Ok(())
    }

    /// Writes the record of an object.
    fn write_record(&self, out: &mut Output, object: Object) -> Allocated<()>
        requires { IsReadable self.now.world.now }
        ensures { OnOk result ((fuel : ℕ) → Writes self.now out.old out.new (fields_in self.now fuel object) (record_bytes self.now fuel object)) }
    {
        match object.sort {
            Sort::Table => self.write_table_at(out, object.number),
            Sort::Func => self.write_function_at(out, object.number),
            Sort::Cell => self.write_cell_at(out, object.number),
            Sort::Coro => self.write_coroutine_at(out, object.number),
        }
    }
}

/// Puts the sorts of objects: how many there are, and a byte for each.
pub(crate) fn put_sorts(out: &mut Output, objects: &IndexSet<Object>) -> Allocated<()>
    ensures { OnOk result (Puts out.old out.new None (λ _. little_bytes 4 (length objects.now.keys) ++ map (λ o. sort_code o.sort) objects.now.keys)) }
{
    out.put_word(objects.len())?;
    put_sort_bytes(out, objects)
}

/// Puts a byte for each object.
fn put_sort_bytes(out: &mut Output, objects: &IndexSet<Object>) -> Allocated<()>
    ensures { OnOk result (Puts out.old out.new None (λ _. map (λ o. sort_code o.sort) objects.now.keys)) }
{
    for at in 0..objects.len() {
        out.put_byte(sort_code(object_at(objects, at).sort))?;
    }
    Ok(())
}

/// The byte of a sort.
fn sort_code(sort: Sort) -> u8
    ensures { result ≡ sort_code sort }
{
    match sort {
        Sort::Table => 1,
        Sort::Func => 2,
        Sort::Cell => 3,
        Sort::Coro => 4,
    }
}

/// The object at a place.
fn object_at(objects: &IndexSet<Object>, at: usize) -> Object
    requires { at < length objects.now.keys }
    ensures { slice_get objects.now.keys at ≡ Some result }
{
    *objects.get_index(at).unwrap()
}
