// The frames of suspended coroutines.
ghost use Rattle.std.specs.Prelude.{◌≡◌, ◌<◌, ◌∷◌, ◌++◌, [], None, Some, map, OnOk};
ghost use Rattle.std.specs.Option.{option_map};
ghost use Rattle.machine_sound.specs.Sound.{OptionOk};
ghost use Rattle.int_core.specs.Value.{Value as Shown};
ghost use Rattle.image_core.specs.Records.{Naming, error_fields, of_value, wait_fields, wait_item};
ghost use Rattle.image_bytes.specs.Bytes.{Reader, error_format, item_format, wait_number};
ghost use Rattle.image_bytes.specs.Format.{list, spell_all, word};
ghost use Rattle.table_core.specs.declared.value.Value.{Value as Kept};
ghost use Rattle.lua_stack.specs.Frames.{kept_closing, kept_lua, kept_xpcall, wait_of};
ghost use Rattle.lua_stack.specs.Reading.{viewed, viewed_lua};
ghost use Rattle.lua_stack.specs.View.{blank};
ghost use Rattle.graph_core.specs.Frames.{fields_of};
ghost use Rattle.eris_write.specs.Frames.{FrameStands, LuaStands, WaitStands, frame_bytes, wait_bytes};
ghost use Rattle.eris_write.specs.Output.{Puts};
ghost use Rattle.eris_write.specs.Writing.{HasText, HaveTexts, Writes, item_in, read_in, texts_in};

use crate::output::Output;
use crate::writer::Writer;
use graph_core::item_at;
use int_core::Allocated;
use lua_stack::{FrameView, LuaView, Wait};
use std::alloc::AllocError;
use table_core::Value;

impl Writer<'_> {
    /// Writes a frame.
    pub(crate) fn write_frame(&self, out: &mut Output, frame: FrameView<'_>) -> Allocated<()>
        requires { FrameStands (texts_in self.now) (viewed frame) }
        ensures { OnOk result (Writes self.now out.old out.new (fields_of (texts_in self.now) (viewed frame.entry)) (frame_bytes self.now (viewed frame.entry))) }
    {
        match frame {
            FrameView::Lua(view) => self.write_lua(out, view),
            FrameView::Closing(error, left) => self.write_closing(out, error, left),
            FrameView::Xpcall(handler) => self.write_xpcall(out, handler),
            FrameView::Pcall => out.put_byte(2),
            FrameView::Handler => out.put_byte(4),
        }
    }

    /// Writes the frame of a Lua function.
    fn write_lua(&self, out: &mut Output, view: LuaView<'_>) -> Allocated<()>
        requires { LuaStands (texts_in self.now) (viewed_lua view) }
        ensures { OnOk result (Writes self.now out.old out.new (fields_of (texts_in self.now) (kept_lua (viewed_lua view.entry))) (frame_bytes self.now (kept_lua (viewed_lua view.entry)))) }
    {
        out.put_byte(1)?;
        self.write(out, Value::Func(view.function))?;
        out.put_word(view.pc)?;
        out.put_byte(wait_byte(view.wait))?;
        self.write_list(out, view.varargs)?;
        self.write_registers(out, view.registers, view.nils)?;
        put_numbers(out, view.pending)?;
        self.write_wait(out, view.wait)
    }

    /// Writes the list of a frame's registers, the last of which are nil.
    fn write_registers(&self, out: &mut Output, registers: &[Value], nils: usize) -> Allocated<()>
        requires { HaveTexts (texts_in self.now) registers.now }
        ensures { OnOk result (Writes self.now out.old out.new (map of_value (map (read_in self.now) (registers.now ++ blank nils))) (λ R. (list (item_format R)).spell (map (item_in self.now) (registers.now ++ blank nils)))) }
    {
        let count = registers.len().checked_add(nils).ok_or(AllocError)?;
        out.put_word(count)?;
        self.write_all(out, registers)?;
        self.write_nils(out, nils)
    }

    /// Writes nil so many times.
    fn write_nils(&self, out: &mut Output, count: usize) -> Allocated<()>
        ensures { OnOk result (Writes self.now out.old out.new (map of_value (map (read_in self.now) (blank count))) (λ R. spell_all (item_format R) (map (item_in self.now) (blank count)))) }
    {
        for at in 0..count {
            self.write(out, Value::Nil)?;
        }
        Ok(())
    }

    /// Writes what a wait carries.
    fn write_wait(&self, out: &mut Output, wait: Wait) -> Allocated<()>
        requires { WaitStands (texts_in self.now) wait }
        ensures { OnOk result (Writes self.now out.old out.new (wait_fields (wait_of (read_in self.now) wait)) (wait_bytes self.now wait)) }
    {
        match wait {
            Wait::ForConcat(left) => put_left(out, left),
            Wait::Returning(count) => out.put_word(count),
            Wait::Leaving(error) => self.write(out, error),
            Wait::Running => Ok(()),
            Wait::ForCall => Ok(()),
            Wait::ForIterator => Ok(()),
            Wait::ForValue => Ok(()),
            Wait::ForTruth => Ok(()),
            Wait::Dropped => Ok(()),
            Wait::ForClose => Ok(()),
        }
    }

    /// Writes the frame of `xpcall` with its message handler.
    fn write_xpcall(&self, out: &mut Output, handler: Value) -> Allocated<()>
        requires { HasText (texts_in self.now) handler }
        ensures { OnOk result (Writes self.now out.old out.new (fields_of (texts_in self.now) (kept_xpcall handler)) (frame_bytes self.now (kept_xpcall handler))) }
    {
        out.put_byte(3)?;
        self.write(out, handler)
    }

    /// Writes the frame of `coroutine.close`, with its error and the values that are left to be closed.
    fn write_closing(&self, out: &mut Output, error: Option<Value>, left: &[Value]) -> Allocated<()>
        requires error { OptionOk (HasText (texts_in self.now)) error }
        requires left { HaveTexts (texts_in self.now) left.now }
        ensures { OnOk result (Writes self.now out.old out.new (fields_of (texts_in self.now) (kept_closing error left.now)) (frame_bytes self.now (kept_closing error left.now))) }
    {
        out.put_byte(5)?;
        self.write_error(out, error)?;
        self.write_list(out, left)
    }

    /// Writes whether there is an error, and the error.
    fn write_error(&self, out: &mut Output, error: Option<Value>) -> Allocated<()>
        requires { OptionOk (HasText (texts_in self.now)) error }
        ensures { OnOk result (Writes self.now out.old out.new (error_fields (option_map (read_in self.now) error)) (λ R. (error_format R).spell (option_map (item_in self.now) error))) }
    {
        match error {
            Some(error) => self.write_some(out, error),
            None => out.put_byte(0),
        }
    }

    /// Writes an error that is there.
    fn write_some(&self, out: &mut Output, error: Value) -> Allocated<()>
        requires { HasText (texts_in self.now) error }
        ensures { OnOk result (Writes self.now out.old out.new (of_value (read_in self.now error) ∷ []) (λ R. (error_format R).spell (Some (item_in self.now error)))) }
    {
        out.put_byte(1)?;
        self.write(out, error)
    }
}

/// The number of a wait. No frame of a suspended coroutine runs.
fn wait_byte(wait: Wait) -> u8
    ensures { (R : Reader) (N : Naming) (shown : Kept → Shown) → result ≡ wait_number R (wait_item N (wait_of shown wait)) }
{
    match wait {
        Wait::ForCall => 0,
        Wait::ForIterator => 1,
        Wait::ForValue => 2,
        Wait::ForTruth => 3,
        Wait::Dropped => 4,
        Wait::ForConcat(_) => 5,
        Wait::ForClose => 6,
        Wait::Returning(_) => 7,
        Wait::Leaving(_) => 8,
        Wait::Running => 255,
    }
}

/// Puts how many operands of a concatenation are left, of which an instruction has fewer than 256.
fn put_left(out: &mut Output, left: usize) -> Allocated<()>
    requires { left < 256 }
    ensures { OnOk result (Puts out.old out.new None (λ _. left ∷ [])) }
{
    let byte = left as u8;
    out.put_byte(byte)
}

/// Puts a list of numbers: how many, and each of them.
fn put_numbers(out: &mut Output, numbers: &[usize]) -> Allocated<()>
    ensures { OnOk result (Puts out.old out.new None (λ _. (list word).spell numbers.now)) }
{
    out.put_word(numbers.len())?;
    put_words(out, numbers)
}

/// Puts numbers one after another.
fn put_words(out: &mut Output, numbers: &[usize]) -> Allocated<()>
    ensures { OnOk result (Puts out.old out.new None (λ _. spell_all word numbers.now)) }
{
    for at in 0..numbers.len() {
        out.put_word(item_at(numbers, at))?;
    }
    Ok(())
}
