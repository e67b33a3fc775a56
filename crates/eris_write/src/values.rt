// Values of an image: by their names, as they are, or by the numbers of their records.
ghost use Rattle.std.specs.Prelude.{◌≡◌, ◌<◌, ◌∷◌, [], None, Some, ℕ, List, length, map, OnOk};
ghost use Rattle.int_core.specs.Value.{a_table};
ghost use Rattle.image_core.specs.Records.{of_value, sort_of, unnamed_item};
ghost use Rattle.image_bytes.specs.Bytes.{item_format};
ghost use Rattle.image_bytes.specs.Format.{list, spell_all};
ghost use Rattle.lua_heap.specs.Plain.{plain};
ghost use Rattle.lua_heap.specs.Reading.{value as read};
ghost use Rattle.graph_core.specs.Objects.{part_of};
ghost use Rattle.eris_write.specs.Output.{Puts, key_bytes};
ghost use Rattle.eris_write.specs.Refusals.{unnamed_refusal};
ghost use Rattle.eris_write.specs.Writing.{HasText, HaveTexts, Writes, item_bytes, item_in, kind_tag, naming_in, number_bytes, read_in, texts_in, unnamed_bytes};

use crate::output::Output;
use crate::writer::Writer;
use graph_core::{Object, PermanentKey, Sort, is_table, item_at};
use int_core::Allocated;
use table_core::{StrId, Value};

/// What no image holds stands for something that was refused.
pub(crate) const REFUSED: u8 = 255;

/// The prelude's environment.
const ENVIRONMENT: u8 = 9;

impl Writer<'_> {
    /// Writes a value.
    pub(crate) fn write(&self, out: &mut Output, value: Value) -> Allocated<()>
        requires { HasText (texts_in self.now) value }
        ensures { OnOk result (Writes self.now out.old out.new (of_value (read_in self.now value) ∷ []) (item_bytes self.now value)) }
    {
        if is_table(value, self.world.prelude.env) {
            return out.put_byte(ENVIRONMENT);
        }
        match self.permanents.key(value) {
            Some(key) => put_permanent(out, value, key),
            None => self.write_unnamed(out, value),
        }
    }

    /// Writes values one after another.
    pub(crate) fn write_all(&self, out: &mut Output, values: &[Value]) -> Allocated<()>
        requires { HaveTexts (texts_in self.now) values.now }
        ensures { OnOk result (Writes self.now out.old out.new (map of_value (map (read_in self.now) values.now)) (λ R. spell_all (item_format R) (map (item_in self.now) values.now))) }
    {
        for at in 0..values.len() {
            self.write(out, item_at(values, at))?;
        }
        Ok(())
    }

    /// Writes a list of values: how many, and each of them.
    pub(crate) fn write_list(&self, out: &mut Output, values: &[Value]) -> Allocated<()>
        requires { HaveTexts (texts_in self.now) values.now }
        ensures { OnOk result (Writes self.now out.old out.new (map of_value (map (read_in self.now) values.now)) (λ R. (list (item_format R)).spell (map (item_in self.now) values.now))) }
    {
        out.put_word(values.len())?;
        self.write_all(out, values)
    }

    /// Writes a value that has no name.
    fn write_unnamed(&self, out: &mut Output, value: Value) -> Allocated<()>
        requires { HasText (texts_in self.now) value }
        ensures { OnOk result (Puts out.old out.new (unnamed_refusal (plain self.now.world.now 0) (read_in self.now value)) (λ _. unnamed_bytes (naming_in self.now) (read_in self.now value))) }
    {
        out.refuse(self.refusal(value));
        self.write_itself(out, value)
    }

    /// Writes a value as it is, or the number of its record.
    fn write_itself(&self, out: &mut Output, value: Value) -> Allocated<()>
        requires { HasText (texts_in self.now) value }
        ensures { OnOk result (Puts out.old out.new None (λ _. unnamed_bytes (naming_in self.now) (read_in self.now value))) }
    {
        match value {
            Value::Nil => out.put_byte(0),
            Value::Bool(false) => out.put_byte(1),
            Value::Bool(true) => out.put_byte(2),
            Value::Int(n) => out.put_integer_item(n),
            Value::Str(id) => self.write_string(out, id),
            Value::Prim(_) => out.put_byte(REFUSED),
            Value::Table(id) => self.write_number(out, Sort::Table, id.0),
            Value::Func(id) => self.write_number(out, Sort::Func, id.0),
            Value::Coro(id) => self.write_number(out, Sort::Coro, id.0),
        }
    }

    /// Writes a string.
    fn write_string(&self, out: &mut Output, id: StrId) -> Allocated<()>
        requires { id.0 < length (texts_in self.now) }
        ensures { OnOk result (Puts out.old out.new None (λ _. unnamed_bytes (naming_in self.now) (read_in self.now (Value.Str id)))) }
    {
        out.put_text_item(self.world.strings.bytes(id))
    }

    /// Writes that a value is an object, and the number of its record.
    fn write_number(&self, out: &mut Output, sort: Sort, number: usize) -> Allocated<()>
        ensures { OnOk result (Puts out.old out.new None (λ _. number_bytes (naming_in self.now) (part_of sort number))) }
    {
        out.put_byte(5)?;
        out.put_word(self.number(Object { sort, number }))
    }
}

/// Puts a permanent: of which sort it is, and its key.
fn put_permanent(out: &mut Output, value: Value, key: &PermanentKey) -> Allocated<()>
    ensures { OnOk result ((texts : List (List ℕ)) → Puts out.old out.new None (λ _. kind_tag (sort_of (read texts value)) ∷ key_bytes key.now)) }
{
    out.put_byte(permanent_tag(value))?;
    out.put_key(key)
}

/// Of which sort a permanent is: what is no object counts as a function.
fn permanent_tag(value: Value) -> u8
    ensures { (texts : List (List ℕ)) → result ≡ kind_tag (sort_of (read texts value)) }
{
    match value {
        Value::Table(_) => 7,
        Value::Coro(_) => 8,
        Value::Func(_) => 6,
        Value::Prim(_) => 6,
        Value::Nil => 6,
        Value::Bool(_) => 6,
        Value::Int(_) => 6,
        Value::Str(_) => 6,
    }
}
