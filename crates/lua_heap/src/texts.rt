// Strings of a world, and what it prints.
ghost use Rattle.std.specs.Prelude.{◌≡◌, ℕ, ◌<◌, ◌≤◌, ◌++◌, Some, length, IfOk, OnOk, OnErr, slice_get};
ghost use Rattle.int_core.specs.Value.{known, string, greatest_string};
ghost use Rattle.lua_heap.specs.Reading.{value};
ghost use Rattle.lua_heap.specs.Changes.{Interns, Prints};
ghost use Rattle.lua_heap.specs.Plain.{plain};

use crate::world::World;
use int_core::Allocated;
use table_core::StrId;

impl World {
    /// The bytes of a string.
    pub fn bytes(&self, id: StrId) -> &[u8]
        requires { id.0 < length self.now.strings }
        ensures { slice_get self.now.strings id.0 ≡ Some result.now }
    {
        self.strings.bytes(id)
    }

    /// The string with these bytes, which is added where there is none. A sound world stays what it is; a refusal changes nothing.
    pub fn intern(&mut self, bytes: &[u8]) -> Allocated<StrId>
        requires { length bytes.now ≤ greatest_string }
        ensures named { IfOk result (λ id. slice_get self.new.strings id.0 ≡ Some bytes.now) }
        ensures interned { OnOk result (Interns self.old self.new bytes.now) }
        ensures err { OnErr result (self.new ≡ self.old) }
    {
        let id = self.strings.intern(bytes)?;
        Ok(id)
    }

    /// The same where most likely there is none yet.
    pub fn intern_new(&mut self, bytes: &[u8]) -> Allocated<StrId>
        requires { length bytes.now ≤ greatest_string }
        ensures named { IfOk result (λ id. slice_get self.new.strings id.0 ≡ Some bytes.now) }
        ensures interned { OnOk result (Interns self.old self.new bytes.now) }
        ensures err { OnErr result (self.new ≡ self.old) }
    {
        let id = self.strings.intern_new(bytes)?;
        Ok(id)
    }

    /// Prints bytes. A refusal prints nothing.
    pub fn print(&mut self, bytes: &[u8]) -> Allocated<()>
        ensures printed { OnOk result (Prints self.old self.new bytes.now) }
        ensures err { OnErr result ((fuel : ℕ) → plain self.new fuel ≡ plain self.old fuel) }
        ensures rest { self.new ≡ record self.old { printed = self.new.printed } }
    {
        self.printed.extend_from_slice(bytes)?;
        Ok(())
    }
}
