// The code of a world's functions.
ghost use Rattle.std.specs.Prelude.{◌≡◌, ◌<◌, suc, Some, IsSome, length, slice_get};
ghost use Rattle.code_core.specs.Prototype.{list_of};
ghost use Rattle.lua_heap.specs.Codes.{numbers, functions, prototype_at, AreCodes, IsCode};

use crate::codes::Code;
use crate::world::World;
use table_core::ProtoId;

impl World {
    /// What is kept of a function's code.
    #[inline(always)]
    pub fn code(&self, id: ProtoId) -> &Code
        requires codes { AreCodes self.now.strings self.now.codes }
        requires there { id.0 < length (functions self.now.codes) }
        ensures { IsCode self.now.strings id.0 (prototype_at (functions self.now.codes) id.0) result.now }
    {
        self.codes.get(id)
    }

    /// The number of the function that is defined at a place in a function.
    pub fn inner(&self, id: ProtoId, at: u32) -> ProtoId
        requires codes { AreCodes self.now.strings self.now.codes }
        requires there { id.0 < length (functions self.now.codes) }
        requires place { IsSome (slice_get (list_of (prototype_at (functions self.now.codes) id.0).inner) at) }
        ensures number { slice_get (numbers (suc id.0) (prototype_at (functions self.now.codes) id.0).inner) at ≡ Some result.0 }
        ensures function { slice_get (functions self.now.codes) result.0 ≡ slice_get (list_of (prototype_at (functions self.now.codes) id.0).inner) at }
    {
        let code = self.code(id);
        code.inner[at as usize]
    }
}
