// Which objects the records of an image become: those of each sort are numbered behind the objects that are there.
ghost use Rattle.std.specs.Prelude.{◌≡◌, ◌+◌, ℕ, List, length, map, IfOk, IfSome, Some, slice_get};
ghost use Rattle.image_core.specs.Loading.{Target};
ghost use Rattle.image_records.specs.Views.{record_read};
ghost use Rattle.lua_heap.specs.Reading.{value};
ghost use Rattle.image_made.specs.Places.{ArePlaces, Numbers, Starts, value_in};

use image_records::Record;
use int_core::Allocated;
use lua_heap::World;
use std::alloc::AllocError;
use table_core::{CellId, CoroId, FuncId, TableId, Value};

/// The object that a record becomes.
#[derive(Debug, Clone, Copy)]
pub enum Place {
    Table(TableId),
    Func(FuncId),
    Cell(CellId),
    Coro(CoroId),
}

/// The numbers that the next objects get.
#[derive(Clone, Copy)]
struct Next {
    tables: usize,
    funcs: usize,
    cells: usize,
    coros: usize,
}

/// The objects that records become in a world, in the order of the records.
pub fn places_of(world: &World, records: &[Record<'_>]) -> Allocated<Vec<Place>>
    ensures { IfOk result (λ places. (T : Target) → Starts T world.now → ArePlaces T (map record_read records.now) places.items) }
{
    let mut next = Next {
        tables: world.tables.len(),
        funcs: world.funcs.len(),
        cells: world.cells.len(),
        coros: world.coros.len(),
    };
    let mut places = Vec::new(world.alloc);
    for record in records {
        let place = next.place(record)?;
        places.push(place)?;
    }
    Ok(places)
}

impl Next {
    /// The object that a record becomes; the next of its sort is another.
    fn place(&mut self, given: &Record<'_>) -> Allocated<Place>
        ensures { IfOk result (λ place. Numbers self.old self.new (record_read given.now) place) }
    {
        match given {
            Record::Table { .. } => Ok(Place::Table(TableId(take(&mut self.tables)?))),
            Record::Function { .. } => Ok(Place::Func(FuncId(take(&mut self.funcs)?))),
            Record::Closed(_) => Ok(Place::Cell(CellId(take(&mut self.cells)?))),
            Record::Open { .. } => Ok(Place::Cell(CellId(take(&mut self.cells)?))),
            Record::Fresh(_) => Ok(Place::Coro(CoroId(take(&mut self.coros)?))),
            Record::Suspended(_) => Ok(Place::Coro(CoroId(take(&mut self.coros)?))),
            Record::Dead => Ok(Place::Coro(CoroId(take(&mut self.coros)?))),
            Record::Failed { .. } => Ok(Place::Coro(CoroId(take(&mut self.coros)?))),
        }
    }
}

/// The next number. No memory holds more objects than there are numbers.
fn take(next: &mut usize) -> Allocated<usize>
    ensures number { IfOk result (λ number. number ≡ next.old) }
    ensures next { IfOk result (λ number. next.new ≡ next.old + 1) }
{
    let number = *next;
    *next = number.checked_add(1).ok_or(AllocError)?;
    Ok(number)
}

/// The value that the object of a record is; nil of a cell, and of a number that is no record's.
pub fn value_at(places: &[Place], number: u32) -> Value
    ensures { (texts : List (List ℕ)) → value texts result ≡ value_in (slice_get places.now number) }
{
    match places.get(number as usize) {
        Some(Place::Table(id)) => Value::Table(*id),
        Some(Place::Func(id)) => Value::Func(*id),
        Some(Place::Coro(id)) => Value::Coro(*id),
        Some(Place::Cell(_)) => Value::Nil,
        None => Value::Nil,
    }
}

/// The cell that a record becomes, where it is one.
pub fn cell_at(places: &[Place], number: u32) -> Option<CellId>
    ensures { IfSome result (λ id. slice_get places.now number ≡ Some (Place.Cell id)) }
{
    match places.get(number as usize) {
        Some(Place::Cell(id)) => Some(*id),
        _ => None,
    }
}

/// The coroutine that a record becomes, where it is one.
pub fn coroutine_at(places: &[Place], number: u32) -> Option<CoroId>
    ensures { IfSome result (λ id. slice_get places.now number ≡ Some (Place.Coro id)) }
{
    match places.get(number as usize) {
        Some(Place::Coro(id)) => Some(*id),
        _ => None,
    }
}
