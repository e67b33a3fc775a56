// The records of coroutines.
ghost use Rattle.std.specs.Prelude.{◌∷◌, [], ℕ, flat_map, map, OnOk};
ghost use Rattle.int_core.specs.Value.{a_coroutine};
ghost use Rattle.machine_sound.specs.Sound.{Each};
ghost use Rattle.image_core.specs.Image.{failed_record, fresh_record, suspended_record};
ghost use Rattle.image_core.specs.Records.{an_object, coroutine_fields, fields, frame_fields, frame_item, of_value, record_of, record_of_coroutine};
ghost use Rattle.image_bytes.specs.Bytes.{coroutine_format, frame_format, record_format};
ghost use Rattle.image_bytes.specs.Format.{spell_all};
ghost use Rattle.lua_stack.specs.Frames.{frames};
ghost use Rattle.lua_heap.specs.Plain.{coroutine as read_coroutine, plain};
ghost use Rattle.graph_core.specs.Frames.{fields_at};
ghost use Rattle.eris_write.specs.Frames.{CoroutineStands, FrameStands, bytes_at};
ghost use Rattle.eris_write.specs.Writing.{HasText, HaveTexts, IsReadable, Writes, inside_in, item_in, naming_in, read_in, texts_in};

use crate::output::Output;
use crate::values::REFUSED;
use crate::writer::Writer;
use int_core::Allocated;
use lua_heap::Coro;
use lua_heap::law::strings_are_there;
use lua_stack::Stack;
use table_core::Value;

impl Writer<'_> {
    /// Writes the record of a coroutine, if it is there.
    pub(crate) fn write_coroutine_at(&self, out: &mut Output, number: usize) -> Allocated<()>
        requires { IsReadable self.now.world.now }
        ensures { OnOk result ((fuel : ℕ) → Writes self.now out.old out.new (fields (plain self.now.world.now fuel) (inside_in self.now) (an_object a_coroutine number)) (λ R. (record_format R 4).spell (record_of (naming_in self.now) (plain self.now.world.now fuel) (an_object a_coroutine number)))) }
    {
        if number >= self.world.coros.len() {
            return out.put_byte(REFUSED);
        }
        strings_are_there();
        self.write_coroutine(out, self.world.coros.get(number))
    }

    /// Writes the record of a coroutine. One that runs or resumed another was refused where it was met.
    fn write_coroutine(&self, out: &mut Output, coro: &Coro) -> Allocated<()>
        requires { CoroutineStands (texts_in self.now) coro.now }
        ensures { OnOk result (Writes self.now out.old out.new (coroutine_fields (read_coroutine (texts_in self.now) coro.now)) (λ R. (coroutine_format R).spell (record_of_coroutine (naming_in self.now) (read_coroutine (texts_in self.now) coro.now)))) }
    {
        match coro {
            Coro::Fresh(body) => self.write_fresh(out, *body),
            Coro::Suspended(stack) => self.write_suspended(out, stack),
            Coro::Failed { error, pending } => self.write_failed(out, *error, pending),
            Coro::Dead => out.put_byte(2),
            Coro::Running(_) => out.put_byte(REFUSED),
            Coro::Normal(_) => out.put_byte(REFUSED),
        }
    }

    /// Writes a coroutine that has not begun, with its body.
    fn write_fresh(&self, out: &mut Output, body: Value) -> Allocated<()>
        requires { HasText (texts_in self.now) body }
        ensures { OnOk result (Writes self.now out.old out.new (of_value (read_in self.now body) ∷ []) (λ R. (coroutine_format R).spell (fresh_record (item_in self.now body)))) }
    {
        out.put_byte(0)?;
        self.write(out, body)
    }

    /// Writes a suspended coroutine with its frames from the bottom.
    fn write_suspended(&self, out: &mut Output, stack: &Stack) -> Allocated<()>
        requires { Each (FrameStands (texts_in self.now)) stack.now.frames }
        ensures { OnOk result (Writes self.now out.old out.new (flat_map frame_fields (frames (read_in self.now) stack.now)) (λ R. (coroutine_format R).spell (suspended_record (map (frame_item (naming_in self.now)) (frames (read_in self.now) stack.now))))) }
    {
        out.put_byte(1)?;
        out.put_word(stack.len())?;
        self.write_frames(out, stack)
    }

    /// Writes a coroutine that an error ended, with the values that are still to be closed.
    fn write_failed(&self, out: &mut Output, error: Value, pending: &[Value]) -> Allocated<()>
        requires error { HasText (texts_in self.now) error }
        requires pending { HaveTexts (texts_in self.now) pending.now }
        ensures { OnOk result (Writes self.now out.old out.new (of_value (read_in self.now error) ∷ map of_value (map (read_in self.now) pending.now)) (λ R. (coroutine_format R).spell (failed_record (item_in self.now error) (map (item_in self.now) pending.now)))) }
    {
        out.put_byte(3)?;
        self.write(out, error)?;
        self.write_list(out, pending)
    }

    /// Writes frames one after another.
    fn write_frames(&self, out: &mut Output, stack: &Stack) -> Allocated<()>
        requires { Each (FrameStands (texts_in self.now)) stack.now.frames }
        ensures { OnOk result (Writes self.now out.old out.new (flat_map frame_fields (frames (read_in self.now) stack.now)) (λ R. spell_all (frame_format R) (map (frame_item (naming_in self.now)) (frames (read_in self.now) stack.now)))) }
    {
        for at in 0..stack.len() {
            self.write_frame_at(out, stack, at)?;
        }
        Ok(())
    }

    /// Writes a frame, if it is there.
    fn write_frame_at(&self, out: &mut Output, stack: &Stack, at: usize) -> Allocated<()>
        requires { Each (FrameStands (texts_in self.now)) stack.now.frames }
        ensures { OnOk result (Writes self.now out.old out.new (fields_at (texts_in self.now) stack.now.frames at) (bytes_at self.now stack.now.frames at)) }
    {
        match stack.frame_at(at) {
            Some(frame) => self.write_frame(out, frame),
            None => Ok(()),
        }
    }
}
