// The objects of an image's records, placed behind those of a world.
ghost use Rattle.std.specs.Prelude.{◌≡◌, [], ◌∷◌, length, map, IfOk, OnOk, OnErr};
ghost use Rattle.image_core.specs.Image.{open_record};
ghost use Rattle.lua_heap.specs.Cells.{CellsAreListed};
ghost use Rattle.lua_heap.specs.Codes.{functions};
ghost use Rattle.image_records.specs.Views.{record_read};
ghost use Rattle.image_placed.specs.Placing.{AddsObjects, AreAll, PlacesAll, PlacesCoroutines, PlacesObjects, part_read};
ghost use Rattle.image_made.specs.Stacks.{MakesCoroutine};

use crate::texts::Part;
use image_made::{Maker, Opening, coroutine_at};
use image_records::Record;
use lua_heap::{Cell, Coro, Func, Strings, World};
use std::alloc::AllocError;
use table_core::{CellId, CoroId};

/// Places the objects of records. What a refusal leaves begins with what was there.
#[tactic(auto, using(crate::proofs::ObjectsAdded::objects_then))]
pub fn place_all(world: &mut World, maker: &Maker<'_>, parts: &[Part<'_>]) -> Result<(), AllocError>
    requires { CellsAreListed world.old }
    ensures adds { AddsObjects world.old world.new }
    ensures placed { OnOk result (PlacesAll maker.now (map (part_read (functions world.old.codes)) parts.now) world.old world.new) }
    ensures listed { OnOk result (CellsAreListed world.new) }
{
    let first = world.cells.len();
    place_objects(world, maker, parts)?;
    let openings = openings_of(world, first)?;
    let at = place_coroutines(world, maker, parts, &openings)?;
    if at < openings.len() {
        return Err(AllocError);
    }
    Ok(())
}

/// Places all objects but coroutines.
#[tactic(auto, using(crate::proofs::ObjectsPlaced::adds_so_far))]
fn place_objects(world: &mut World, maker: &Maker<'_>, parts: &[Part<'_>]) -> Result<(), AllocError>
    ensures adds { AddsObjects world.old world.new }
    ensures placed { OnOk result (PlacesObjects maker.now (map (part_read (functions world.old.codes)) parts.now) world.old world.new) }
{
    for part in parts {
        place_object(world, maker, part)?;
    }
    Ok(())
}

/// Places the object of a record, unless it is a coroutine.
#[tactic(auto, using(crate::proofs::ObjectsPlaced::function_placed))]
fn place_object(world: &mut World, maker: &Maker<'_>, part: &Part<'_>) -> Result<(), AllocError>
    ensures placed { OnOk result (PlacesObjects maker.now (part_read (functions world.old.codes) part.now ∷ []) world.old world.new) }
    ensures err { OnErr result (world.new ≡ world.old) }
{
    match part {
        Part::Function { code, cells } => {
            let cells = maker.cells(cells)?;
            world.add_func(Func { code: *code, cells })?;
            Ok(())
        }
        Part::Other(record) => place_record(world, maker, record),
    }
}

/// Places the table or cell of a record.
#[tactic(auto, using(crate::proofs::ObjectsPlaced::table_placed, crate::proofs::ObjectsPlaced::closed_placed, crate::proofs::CoroutinesMade::fresh_placed, crate::proofs::CoroutinesMade::suspended_placed, crate::proofs::CoroutinesMade::dead_placed, crate::proofs::CoroutinesMade::failed_placed))]
fn place_record(world: &mut World, maker: &Maker<'_>, given: &Record<'_>) -> Result<(), AllocError>
    ensures placed { OnOk result (PlacesObjects maker.now (record_read given.now ∷ []) world.old world.new) }
    ensures err { OnErr result (world.new ≡ world.old) }
{
    match given {
        Record::Table { rows, metatable } => {
            let table = maker.table(&world.strings, rows, *metatable)?;
            world.add_table(table)?;
            Ok(())
        }
        Record::Closed(item) => {
            let value = maker.value(&world.strings, *item)?;
            world.add_cell(Cell::Closed(value))?;
            Ok(())
        }
        Record::Open {
            coroutine,
            frame,
            register,
        } => place_open(world, maker, *coroutine, *frame, *register),
        Record::Function { .. } => Err(AllocError),
        Record::Fresh(_) => Ok(()),
        Record::Suspended(_) => Ok(()),
        Record::Dead => Ok(()),
        Record::Failed { .. } => Ok(()),
    }
}

/// Places an open cell.
#[tactic(auto, using(crate::proofs::ObjectsPlaced::open_placed))]
fn place_open(
    world: &mut World,
    maker: &Maker<'_>,
    coroutine: u32,
    frame: u32,
    register: u32,
) -> Result<(), AllocError>
    ensures placed { OnOk result (PlacesObjects maker.now (open_record coroutine frame register ∷ []) world.old world.new) }
    ensures err { OnErr result (world.new ≡ world.old) }
{
    let Some(coro) = coroutine_at(maker.places, coroutine) else {
        return Err(AllocError);
    };
    world.add_cell(Cell::Open {
        coro,
        frame,
        register,
    })?;
    Ok(())
}

/// The cells from a place on that are open, by their coroutines, frames and registers.
fn openings_of(world: &World, first: usize) -> Result<Vec<Opening>, AllocError>
    ensures { IfOk result (λ openings. AreAll world.now.cells.objects first (length world.now.cells.objects) openings.items) }
{
    let mut openings = found_openings(world, first)?;
    openings.sort_by_key(|opening| (opening.coro.0, opening.frame, opening.register))?;
    Ok(openings)
}

/// The cells from a place on that are open.
fn found_openings(world: &World, first: usize) -> Result<Vec<Opening>, AllocError>
    ensures { IfOk result (λ openings. AreAll world.now.cells.objects first (length world.now.cells.objects) openings.items) }
{
    let mut openings = Vec::new(world.alloc);
    for at in first..world.cells.len() {
        if let Cell::Open {
            coro,
            frame,
            register,
        } = *world.cells.get(at)
        {
            openings.push(Opening {
                coro,
                frame,
                register,
                cell: CellId(at),
            })?;
        }
    }
    Ok(openings)
}

/// Places the coroutines of records, and tells how far the open cells of their stacks go.
#[tactic(auto, using(crate::proofs::ObjectsPlaced::coroutine_adds_so_far))]
fn place_coroutines(
    world: &mut World,
    maker: &Maker<'_>,
    parts: &[Part<'_>],
    openings: &[Opening],
) -> Result<usize, AllocError>
    ensures adds { AddsObjects world.old world.new }
    ensures placed { IfOk result (λ at. PlacesCoroutines maker.now (map (part_read (functions world.old.codes)) parts.now) openings.now 0 at world.old world.new) }
{
    let mut at = 0;
    for part in parts {
        at = place_coroutine(world, maker, part, openings, at)?;
    }
    Ok(at)
}

/// Places the coroutine of a record, where it is one.
#[tactic(auto, using(crate::proofs::ObjectsPlaced::no_coroutine, crate::proofs::ObjectsPlaced::function_no_coroutine, crate::proofs::ObjectsPlaced::coroutine_placed))]
fn place_coroutine(
    world: &mut World,
    maker: &Maker<'_>,
    part: &Part<'_>,
    openings: &[Opening],
    from: usize,
) -> Result<usize, AllocError>
    ensures placed { IfOk result (λ at. PlacesCoroutines maker.now (part_read (functions world.old.codes) part.now ∷ []) openings.now from at world.old world.new) }
    ensures err { OnErr result (world.new ≡ world.old) }
{
    let Part::Other(record) = part else {
        return Ok(from);
    };
    let own = CoroId(world.coros.len());
    let (made, at) = coroutine_of(maker, &world.strings, own, record, openings, from)?;
    if let Some(coro) = made {
        world.add_coro(coro)?;
    }
    Ok(at)
}

/// The coroutine of a record, where it is one, with how far the open cells of its stack go.
#[tactic(auto, using(crate::proofs::CoroutinesMade::fresh_made, crate::proofs::CoroutinesMade::suspended_made, crate::proofs::CoroutinesMade::dead_made, crate::proofs::CoroutinesMade::failed_made, crate::proofs::CoroutinesMade::none_of_table, crate::proofs::CoroutinesMade::none_of_function, crate::proofs::CoroutinesMade::none_of_closed, crate::proofs::CoroutinesMade::none_of_open))]
fn coroutine_of(
    maker: &Maker<'_>,
    strings: &Strings,
    own: CoroId,
    given: &Record<'_>,
    openings: &[Opening],
    from: usize,
) -> Result<(Option<Coro>, usize), AllocError>
    ensures { IfOk result (λ made. MakesCoroutine maker.now strings.now own openings.now from made.1 (record_read given.now) made.0) }
{
    match given {
        Record::Fresh(body) => {
            let body = maker.value(strings, *body)?;
            Ok((Some(Coro::Fresh(body)), from))
        }
        Record::Suspended(frames) => {
            let (stack, at) = maker.stack(strings, own, frames, openings, from)?;
            Ok((Some(Coro::Suspended(stack)), at))
        }
        Record::Dead => Ok((Some(Coro::Dead), from)),
        Record::Failed { error, pending } => {
            let error = maker.value(strings, *error)?;
            let pending = maker.values(strings, pending)?;
            Ok((Some(Coro::Failed { error, pending }), from))
        }
        Record::Table { .. } => Ok((None, from)),
        Record::Function { .. } => Ok((None, from)),
        Record::Closed(_) => Ok((None, from)),
        Record::Open { .. } => Ok((None, from)),
    }
}
