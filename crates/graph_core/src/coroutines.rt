// What the records of coroutines name: their bodies, their frames from the bottom, and the error and the values left of one that failed.
ghost use Rattle.std.specs.Prelude.{flat_map, OnOk};
ghost use Rattle.std.specs.Option.{option_map};
ghost use Rattle.int_core.specs.Value.{a_coroutine};
ghost use Rattle.image_core.specs.Records.{an_object, coroutine_fields, error_fields, frame_fields, wait_fields};
ghost use Rattle.lua_stack.specs.Frames.{frames, kept_closing, kept_lua, wait_of};
ghost use Rattle.lua_stack.specs.Reading.{viewed, viewed_lua};
ghost use Rattle.lua_heap.specs.Plain.{coroutine as read_coroutine};
ghost use Rattle.lua_heap.specs.Reading.{value as read};
ghost use Rattle.graph_core.specs.Frames.{fields_at, fields_of};
ghost use Rattle.graph_core.specs.Walk.{MeetsFields, MeetsPart, texts_in};

use crate::object::Seen;
use crate::walk::Walk;
use int_core::Allocated;
use lua_heap::Coro;
use lua_stack::{FrameView, LuaView, Stack, Wait};
use table_core::Value;

impl Walk<'_> {
    /// What the coroutine of a number names is met, if there is one.
    pub(crate) fn meet_coroutine_at(&self, seen: &mut Seen, number: usize) -> Allocated<()>
        ensures { OnOk result (MeetsPart self.now seen.old.keys seen.new.keys (an_object a_coroutine number)) }
    {
        if number >= self.world.coros.len() {
            return Ok(());
        }
        self.meet_coroutine(seen, self.world.coros.get(number))
    }

    /// What a coroutine names is met: nothing of one that runs or resumed another.
    fn meet_coroutine(&self, seen: &mut Seen, coro: &Coro) -> Allocated<()>
        ensures { OnOk result (MeetsFields self.now seen.old.keys seen.new.keys (coroutine_fields (read_coroutine (texts_in self.now) coro.now))) }
    {
        match coro {
            Coro::Fresh(body) => self.meet(seen, *body),
            Coro::Suspended(stack) => self.meet_frames(seen, stack),
            Coro::Failed { error, pending } => self.meet_error_and(seen, Some(*error), pending),
            Coro::Running(_) => Ok(()),
            Coro::Normal(_) => Ok(()),
            Coro::Dead => Ok(()),
        }
    }

    /// What frames name is met.
    fn meet_frames(&self, seen: &mut Seen, stack: &Stack) -> Allocated<()>
        ensures { OnOk result (MeetsFields self.now seen.old.keys seen.new.keys (flat_map frame_fields (frames (read (texts_in self.now)) stack.now))) }
    {
        for at in 0..stack.len() {
            self.meet_frame_at(seen, stack, at)?;
        }
        Ok(())
    }

    /// What a frame names is met, if it is there.
    fn meet_frame_at(&self, seen: &mut Seen, stack: &Stack, at: usize) -> Allocated<()>
        ensures { OnOk result (MeetsFields self.now seen.old.keys seen.new.keys (fields_at (texts_in self.now) stack.now.frames at)) }
    {
        match stack.frame_at(at) {
            Some(frame) => self.meet_frame(seen, frame),
            None => Ok(()),
        }
    }

    /// What a frame names is met.
    fn meet_frame(&self, seen: &mut Seen, frame: FrameView<'_>) -> Allocated<()>
        ensures { OnOk result (MeetsFields self.now seen.old.keys seen.new.keys (fields_of (texts_in self.now) (viewed frame.entry))) }
    {
        match frame {
            FrameView::Lua(view) => self.meet_lua(seen, view),
            FrameView::Closing(error, left) => self.meet_error_and(seen, error, left),
            FrameView::Xpcall(handler) => self.meet(seen, handler),
            FrameView::Pcall => Ok(()),
            FrameView::Handler => Ok(()),
        }
    }

    /// What the frame of a Lua function names is met. Registers that are nil name nothing.
    fn meet_lua(&self, seen: &mut Seen, view: LuaView<'_>) -> Allocated<()>
        ensures { OnOk result (MeetsFields self.now seen.old.keys seen.new.keys (fields_of (texts_in self.now) (kept_lua (viewed_lua view.entry)))) }
    {
        self.meet(seen, Value::Func(view.function))?;
        self.meet_all(seen, view.varargs)?;
        self.meet_all(seen, view.registers)?;
        self.meet_wait(seen, view.wait)
    }

    /// The error is met with which a frame is left.
    fn meet_wait(&self, seen: &mut Seen, wait: Wait) -> Allocated<()>
        ensures { OnOk result (MeetsFields self.now seen.old.keys seen.new.keys (wait_fields (wait_of (read (texts_in self.now)) wait))) }
    {
        match wait {
            Wait::Leaving(error) => self.meet(seen, error),
            Wait::Running | Wait::Dropped => Ok(()),
            Wait::ForCall | Wait::ForIterator | Wait::ForValue | Wait::ForTruth => Ok(()),
            Wait::ForConcat(_) | Wait::ForClose | Wait::Returning(_) => Ok(()),
        }
    }

    /// An error, if there is one, and the values that are still to be closed are met.
    fn meet_error_and(&self, seen: &mut Seen, error: Option<Value>, left: &[Value]) -> Allocated<()>
        ensures { OnOk result (MeetsFields self.now seen.old.keys seen.new.keys (fields_of (texts_in self.now) (kept_closing error left.now))) }
    {
        self.meet_error(seen, error)?;
        self.meet_all(seen, left)
    }

    /// An error is met, if there is one.
    fn meet_error(&self, seen: &mut Seen, error: Option<Value>) -> Allocated<()>
        ensures { OnOk result (MeetsFields self.now seen.old.keys seen.new.keys (error_fields (option_map (read (texts_in self.now)) error))) }
    {
        match error {
            Some(error) => self.meet(seen, error),
            None => Ok(()),
        }
    }
}
