// The order of first visit: the set of what was met keeps the order in which it came, and is its own list of work.
ghost use Rattle.std.specs.Prelude.{◌≡◌, ℕ, None, map, slice_get, IfOk, OnOk};
ghost use Rattle.image_core.specs.Records.{visited};
ghost use Rattle.image_core.specs.Visit.{greatest_count};
ghost use Rattle.lua_heap.specs.Cells.{CellsAreListed};
ghost use Rattle.lua_heap.specs.Plain.{plain};
ghost use Rattle.lua_heap.specs.Reading.{value as read};
ghost use Rattle.graph_core.specs.Cells.{CellsAreThere};
ghost use Rattle.graph_core.specs.Numbering.{IsNumbering};
ghost use Rattle.graph_core.specs.Objects.{part};
ghost use Rattle.graph_core.specs.Walk.{MeetsPart, inside_in, name_in, texts_in};

use crate::object::{Object, Seen, Sort};
use crate::permanents::Permanents;
use crate::walk::Walk;
use indexmap::IndexSet;
use int_core::Allocated;
use lua_heap::World;
use std::alloc::{AllocError, Global};
use table_core::Value;

/// No image has so many records.
const GREATEST_COUNT: u64 = 4_294_967_296;

/// What an image of some roots has records of.
#[derive(Drop)]
pub struct Numbering {
    /// What is reached where every open cell counts as its present value. The coroutines among it are those of the image.
    pub reached: IndexSet<Object>,
    /// The objects in the order of first visit. Each has the number of its place.
    pub order: IndexSet<Object>,
}

/// The objects that an image of some roots has records of, in the order in which they are first met: the roots, then what each record names, in its
/// order (Eris's manual, `eris.persist`). Only want of memory refuses it. It takes time as those records are long.
pub fn reach(
    alloc: Global,
    world: &World,
    roots: &[Value],
    permanents: &Permanents,
) -> Allocated<Numbering>
    requires listed { CellsAreListed world.now }
    requires there { CellsAreThere world.now }
    ensures { IfOk result (λ n. IsNumbering world.now permanents.now roots.now n) }
{
    let none = IndexSet::new(alloc);
    let first = Walk {
        world,
        permanents,
        inside: &none,
    };
    let reached = first.visit(alloc, roots)?;
    let second = Walk {
        world,
        permanents,
        inside: &reached,
    };
    let order = second.visit(alloc, roots)?;
    Ok(Numbering { reached, order })
}

impl Walk<'_> {
    /// What some roots reach, in the order of first visit.
    fn visit(&self, alloc: Global, roots: &[Value]) -> Allocated<Seen>
        requires listed { CellsAreListed self.now.world.now }
        requires there { CellsAreThere self.now.world.now }
        ensures few { IfOk result (λ seen. slice_get seen.keys greatest_count ≡ None) }
        ensures visited { IfOk result (λ seen. (fuel : ℕ) → map part seen.keys ≡ visited (plain self.now.world.now fuel) (name_in self.now) (inside_in self.now) (map (read (texts_in self.now)) roots.now)) }
    {
        let mut seen = IndexSet::new(alloc);
        self.meet_all(&mut seen, roots)?;
        for at in 0..GREATEST_COUNT {
            let object = match seen.get_index(at as usize) {
                Some(object) => *object,
                None => return Ok(seen),
            };
            self.meet_parts(&mut seen, object)?;
        }
        Err(AllocError)
    }

    /// What an object names is met.
    fn meet_parts(&self, seen: &mut Seen, object: Object) -> Allocated<()>
        requires listed { CellsAreListed self.now.world.now }
        requires there { CellsAreThere self.now.world.now }
        ensures { OnOk result (MeetsPart self.now seen.old.keys seen.new.keys (part object)) }
    {
        match object.sort {
            Sort::Table => self.meet_table_at(seen, object.number),
            Sort::Func => self.meet_function_at(seen, object.number),
            Sort::Cell => self.meet_cell_at(seen, object.number),
            Sort::Coro => self.meet_coroutine_at(seen, object.number),
        }
    }
}
