// What a world is given before its objects: the strings of an image and its code. Neither changes what the world stands for.
ghost use Rattle.std.specs.Prelude.{◌≡◌, ◌++◌, map, IfOk};
ghost use Rattle.lua_heap.specs.Codes.{functions, AreCodes};
ghost use Rattle.image_records.specs.Views.{record_read};
ghost use Rattle.image_placed.specs.Placing.{AddsMore, ArePartsOf, IsPart};

use image_records::{Frame, Item, LuaFrame, Record, Wait};
use lua_heap::World;
use std::alloc::AllocError;
use table_core::ProtoId;

/// The most bytes of a string.
const GREATEST_STRING: usize = 16_777_216;

/// A record whose code is a world's.
#[derive(Drop)]
pub enum Part<'a> {
    Function { code: ProtoId, cells: Vec<u32> },
    Other(Record<'a>),
}

/// Adds the strings of roots, and the strings and the code of records. A sound world stays what it is; what a refusal leaves begins with what was there.
#[tactic(auto, using(crate::proofs::MoreAdded::adds_then))]
pub fn add_parts<'a>(
    world: &mut World,
    roots: &[Item<'a>],
    records: Vec<Record<'a>>,
) -> Result<Vec<Part<'a>>, AllocError>
    requires { AreCodes world.old.strings world.old.codes }
    ensures added { AddsMore world.old world.new }
    ensures parts { IfOk result (λ parts. ArePartsOf (functions world.new.codes) parts.items (map record_read records.entry.items)) }
{
    intern_all(world, roots)?;
    parts_of(world, records)
}

/// Adds the strings and the code of records.
fn parts_of<'a>(world: &mut World, records: Vec<Record<'a>>) -> Result<Vec<Part<'a>>, AllocError>
    requires { AreCodes world.old.strings world.old.codes }
    ensures added { AddsMore world.old world.new }
    ensures parts { IfOk result (λ parts. ArePartsOf (functions world.new.codes) parts.items (map record_read records.entry.items)) }
{
    let mut parts = Vec::new(world.alloc);
    for record in records {
        let part = add_part(world, record)?;
        parts.push(part)?;
    }
    Ok(parts)
}

/// Adds the strings or the code of a record.
#[tactic(auto, using(crate::proofs::MoreAdded::adds_code, crate::proofs::MoreAdded::keeps_code, crate::proofs::MoreAdded::code_part, crate::proofs::MoreAdded::other_part))]
fn add_part<'a>(world: &mut World, given: Record<'a>) -> Result<Part<'a>, AllocError>
    requires { AreCodes world.old.strings world.old.codes }
    ensures added { AddsMore world.old world.new }
    ensures part { IfOk result (λ part. IsPart (functions world.new.codes) part (record_read given.entry)) }
{
    match given {
        Record::Function { code, cells } => {
            let code = world.add_code(code)?;
            Ok(Part::Function { code, cells })
        }
        other => {
            intern_record(world, &other)?;
            Ok(Part::Other(other))
        }
    }
}

/// Interns the strings of a record.
#[tactic(auto, using(crate::proofs::MoreAdded::adds_none, crate::proofs::MoreAdded::adds_then))]
fn intern_record(world: &mut World, given: &Record<'_>) -> Result<(), AllocError>
    ensures { AddsMore world.old world.new }
{
    match given {
        Record::Table { rows, metatable } => {
            intern_rows(world, rows)?;
            intern(world, *metatable)
        }
        Record::Function { .. } => Ok(()),
        Record::Closed(item) => intern(world, *item),
        Record::Open { .. } => Ok(()),
        Record::Fresh(body) => intern(world, *body),
        Record::Suspended(frames) => intern_frames(world, frames),
        Record::Dead => Ok(()),
        Record::Failed { error, pending } => {
            intern(world, *error)?;
            intern_all(world, pending)
        }
    }
}

/// Interns the strings of rows.
#[tactic(auto, using(crate::proofs::MoreAdded::adds_none, crate::proofs::MoreAdded::adds_then))]
fn intern_rows(world: &mut World, rows: &[(Item<'_>, Item<'_>)]) -> Result<(), AllocError>
    ensures { AddsMore world.old world.new }
{
    for row in rows {
        intern_row(world, *row)?;
    }
    Ok(())
}

/// Interns the strings of a row.
#[tactic(auto, using(crate::proofs::MoreAdded::adds_then))]
fn intern_row(world: &mut World, row: (Item<'_>, Item<'_>)) -> Result<(), AllocError>
    ensures { AddsMore world.old world.new }
{
    let (key, value) = row;
    intern(world, key)?;
    intern(world, value)
}

/// Interns the strings of frames.
#[tactic(auto, using(crate::proofs::MoreAdded::adds_none, crate::proofs::MoreAdded::adds_then))]
fn intern_frames(world: &mut World, frames: &[Frame<'_>]) -> Result<(), AllocError>
    ensures { AddsMore world.old world.new }
{
    for frame in frames {
        intern_frame(world, frame)?;
    }
    Ok(())
}

/// Interns the strings of a frame.
#[tactic(auto, using(crate::proofs::MoreAdded::adds_none, crate::proofs::MoreAdded::adds_then))]
fn intern_frame(world: &mut World, frame: &Frame<'_>) -> Result<(), AllocError>
    ensures { AddsMore world.old world.new }
{
    match frame {
        Frame::Lua(own) => intern_lua(world, own),
        Frame::Pcall => Ok(()),
        Frame::Xpcall(handler) => intern(world, *handler),
        Frame::Handler => Ok(()),
        Frame::Closing { error, left } => {
            intern_all(world, left)?;
            match error {
                Some(error) => intern(world, *error),
                None => Ok(()),
            }
        }
    }
}

/// Interns the strings of a Lua function's frame.
#[tactic(auto, using(crate::proofs::MoreAdded::adds_none, crate::proofs::MoreAdded::adds_then))]
fn intern_lua(world: &mut World, frame: &LuaFrame<'_>) -> Result<(), AllocError>
    ensures { AddsMore world.old world.new }
{
    intern_all(world, &frame.varargs)?;
    intern_all(world, &frame.registers)?;
    match frame.wait {
        Wait::Leaving(error) => intern(world, error),
        _ => Ok(()),
    }
}

/// Interns the strings among values.
#[tactic(auto, using(crate::proofs::MoreAdded::adds_none, crate::proofs::MoreAdded::adds_then))]
fn intern_all(world: &mut World, items: &[Item<'_>]) -> Result<(), AllocError>
    ensures { AddsMore world.old world.new }
{
    for item in items {
        intern(world, *item)?;
    }
    Ok(())
}

/// Interns a value that is a string.
#[tactic(auto, using(crate::proofs::MoreAdded::adds_none))]
fn intern(world: &mut World, item: Item<'_>) -> Result<(), AllocError>
    ensures { AddsMore world.old world.new }
{
    match item {
        Item::Str(text) => intern_text(world, text),
        _ => Ok(()),
    }
}

/// Interns a text, which is no longer than a string may be.
#[tactic(auto, using(crate::proofs::MoreAdded::adds_is, crate::proofs::MoreAdded::adds_text))]
fn intern_text(world: &mut World, text: &[u8]) -> Result<(), AllocError>
    ensures { AddsMore world.old world.new }
{
    if text.len() > GREATEST_STRING {
        return Err(AllocError);
    }
    let _id = world.intern(text)?;
    Ok(())
}
