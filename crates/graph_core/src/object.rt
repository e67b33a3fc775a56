// Objects that have records of their own in an image.
ghost use Rattle.std.specs.Prelude.{◌≡◌, [], ◌∷◌, OnOk};
ghost use Rattle.graph_core.specs.Objects.{Meets, part};

use indexmap::IndexSet;
use int_core::Allocated;

/// What kind of object it is.
#[derive(Debug, Clone, Copy, PartialEq, Eq, Hash)]
pub enum Sort {
    Table,
    Func,
    Cell,
    Coro,
}

/// What has a record of its own in an image: an object by its number among those of its sort.
#[derive(Debug, Clone, Copy, PartialEq, Eq, Hash)]
pub struct Object {
    pub sort: Sort,
    pub number: usize,
}

impl Object {
    /// The object of a number among those of its sort.
    pub(crate) fn new(sort: Sort, number: usize) -> Object
        ensures { result ≡ record { sort = sort; number = number } }
    {
        Object { sort, number }
    }
}

/// What was met, in the order in which it came.
pub(crate) type Seen = IndexSet<Object>;

/// An object is met: it goes last where it was not met before.
pub(crate) fn meet(seen: &mut Seen, object: Object) -> Allocated<()>
    ensures { OnOk result (Meets seen.old.keys seen.new.keys (part object ∷ [])) }
{
    seen.insert(object)?;
    Ok(())
}
