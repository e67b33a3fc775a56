// Texts of errors, with the place in the source in front (luaG_addinfo of ldebug.c and luaL_where of lauxlib.c).
ghost use Rattle.std.specs.Prelude.{◌≡◌, ℕ, IfOk, OnOk, OnErr};
ghost use Rattle.int_core.specs.Limits.{limited};
ghost use Rattle.machine_core.specs.Moves.{blamed, placed};
ghost use Rattle.lua_heap.specs.Codes.{AreCodes};
ghost use Rattle.lua_heap.specs.Errors.{AddsTexts, HasText};
ghost use Rattle.lua_heap.specs.Plain.{plain};
ghost use Rattle.lua_heap.specs.Reading.{value};

use crate::world::World;
use int_core::Allocated;
use table_core::Value;

/// The most bytes of a string.
const GREATEST_STRING: usize = 16_777_216;

impl World {
    /// A text as a string; in place of one that is too long another text says so.
    pub fn limited(&mut self, text: &[u8]) -> Allocated<Value>
        ensures value { IfOk result (λ v. value self.new.strings v ≡ limited text.now) }
        ensures added { OnOk result (AddsTexts self.old self.new) }
        ensures err { OnErr result (self.new ≡ self.old) }
    {
        if text.len() > GREATEST_STRING {
            let id = self.intern(b"resulting string too large")?;
            return Ok(Value::Str(id));
        }
        let id = self.intern(text)?;
        Ok(Value::Str(id))
    }

    /// The text of an error of the function on top, with its place in front.
    pub fn raise_text(&mut self, text: &[u8]) -> Allocated<Value>
        requires { AreCodes self.old.strings self.old.codes }
        ensures value { IfOk result (λ v. (fuel : ℕ) → value self.new.strings v ≡ blamed (plain self.old fuel) text.now) }
        ensures added { OnOk result (AddsTexts self.old self.new) }
        ensures err { OnErr result (self.new ≡ self.old) }
    {
        let mut whole = self.where_text(0)?;
        whole.extend_from_slice(text)?;
        let raised = self.limited(&whole)?;
        Ok(raised)
    }

    /// A string with the place of a level in front (`error` of the Lua 5.4 manual, 6.1); another value as it is.
    pub fn place_text(&mut self, message: Value, level: usize) -> Allocated<Value>
        requires codes { AreCodes self.old.strings self.old.codes }
        requires there { HasText self.old.strings message }
        ensures value { IfOk result (λ v. (fuel : ℕ) → value self.new.strings v ≡ placed (plain self.old fuel) level (value self.old.strings message)) }
        ensures added { OnOk result (AddsTexts self.old self.new) }
        ensures err { OnErr result (self.new ≡ self.old) }
    {
        let Value::Str(id) = message else {
            return Ok(message);
        };
        let mut whole = self.where_text(level)?;
        whole.extend_from_slice(self.bytes(id))?;
        let placed = self.limited(&whole)?;
        Ok(placed)
    }
}
