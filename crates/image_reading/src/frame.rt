// Frames, as they wait.
ghost use Rattle.std.specs.Prelude.{◌≡◌, nat_le};
ghost use Rattle.image_bytes.specs.Bytes.{wait_rest, lua_format, error_format, frame_format};
ghost use Rattle.image_bytes.specs.Format.{tested, byte, word, times, list_by, of_kind};
ghost use Rattle.image_reading.specs.Parts.{closing_format};
ghost use Rattle.image_reading.specs.Says.{Says, itself, items_of, reader_in};
ghost use Rattle.image_records.specs.Views.{wait as wait_of, lua_frame as lua_frame_of, frame as frame_of, error as error_of};

use crate::fault::{ReadFault, Refusal};
use crate::input::Input;
use crate::item::{Context, Wanted};
use image_records::{Frame, Item, LuaFrame, Wait};

/// How many frames a coroutine may have.
const GREATEST_DEPTH: u32 = 100_000;

/// The greatest byte that tells for what a frame waits.
const GREATEST_WAIT: u8 = 8;

impl<'a> Input<'a> {
    /// The frames of a coroutine, from the bottom.
    #[tactic(auto, unfolding(image_bytes::specs::Format::list_by, image_bytes::specs::Format::case, image_bytes::specs::Format::followed, image_bytes::specs::Format::tested))]
    pub(crate) fn frames(&mut self, context: &Context<'_>) -> Result<Vec<Frame<'a>>, ReadFault<'a>>
        ensures reads { Says (items_of frame_of) ((list_by (tested (λ n. nat_le n 100000) (λ n. of_kind 4) word) (frame_format (reader_in context.now))).scan self.old.met self.old.bytes) result self.new }
    {
        let count = self.word()?;
        if count > GREATEST_DEPTH {
            return Err(ReadFault::Refused(Refusal::OutOfRange));
        }
        let frames = self.frames_of(count, context)?;
        Ok(frames)
    }

    /// So many frames.
    #[tactic(auto, unfolding(image_bytes::specs::Format::times), using(crate::proofs::Fronts::with_no_front))]
    fn frames_of(
        &mut self,
        count: u32,
        context: &Context<'_>,
    ) -> Result<Vec<Frame<'a>>, ReadFault<'a>>
        ensures reads { Says (items_of frame_of) ((times count (frame_format (reader_in context.now))).scan self.old.met self.old.bytes) result self.new }
    {
        let mut frames = Vec::new(context.alloc);
        for _ in 0..count {
            let frame = self.frame(context)?;
            frames.push(frame)?;
        }
        Ok(frames)
    }

    /// A frame.
    #[tactic(auto, unfolding(image_bytes::specs::Bytes::frame_format, image_bytes::specs::Format::tagged, image_bytes::specs::Format::case, image_bytes::specs::Format::followed, image_bytes::specs::Format::when, image_bytes::specs::Format::wrong, image_bytes::specs::Format::nothing))]
    fn frame(&mut self, context: &Context<'_>) -> Result<Frame<'a>, ReadFault<'a>>
        ensures reads { Says frame_of ((frame_format (reader_in context.now)).scan self.old.met self.old.bytes) result self.new }
    {
        match self.byte()? {
            1 => Ok(Frame::Lua(self.lua_frame(context)?)),
            2 => Ok(Frame::Pcall),
            3 => Ok(Frame::Xpcall(self.item(context)?)),
            4 => Ok(Frame::Handler),
            5 => self.closing(context),
            _ => Err(ReadFault::Refused(Refusal::OutOfPlace)),
        }
    }

    /// The frame of `coroutine.close`.
    #[tactic(auto, unfolding(image_bytes::specs::Format::case, image_bytes::specs::Format::followed))]
    fn closing(&mut self, context: &Context<'_>) -> Result<Frame<'a>, ReadFault<'a>>
        ensures reads { Says frame_of ((closing_format (reader_in context.now)).scan self.old.met self.old.bytes) result self.new }
    {
        let error = self.error(context)?;
        let left = self.items(context)?;
        Ok(Frame::Closing { error, left })
    }

    /// The frame of a Lua function.
    #[tactic(auto, unfolding(image_bytes::specs::Bytes::lua_format, image_bytes::specs::Format::case, image_bytes::specs::Format::followed))]
    fn lua_frame(&mut self, context: &Context<'_>) -> Result<LuaFrame<'a>, ReadFault<'a>>
        ensures reads { Says lua_frame_of ((lua_format (reader_in context.now)).scan self.old.met self.old.bytes) result self.new }
    {
        let function = self.wanted_item(Wanted::Function, context)?;
        let pc = self.word()?;
        let tag = self.wait_tag()?;
        let varargs = self.items(context)?;
        let registers = self.items(context)?;
        let pending = self.words(context.alloc)?;
        let wait = self.wait(tag, context)?;
        Ok(LuaFrame {
            function,
            pc,
            wait,
            varargs,
            registers,
            pending,
        })
    }

    /// The byte that tells for what a frame waits.
    #[tactic(auto, unfolding(image_bytes::specs::Format::tested))]
    fn wait_tag(&mut self) -> Result<u8, ReadFault<'a>>
        ensures reads { Says itself ((tested (λ t. nat_le t 8) (λ t. of_kind 5) byte).scan self.old.met self.old.bytes) result self.new }
    {
        let tag = self.byte()?;
        if tag > GREATEST_WAIT {
            return Err(ReadFault::Refused(Refusal::OutOfPlace));
        }
        Ok(tag)
    }

    /// For what a frame waits, behind all else of it.
    #[tactic(auto, unfolding(image_bytes::specs::Bytes::wait_rest, image_bytes::specs::Bytes::plain_wait, image_bytes::specs::Format::case, image_bytes::specs::Format::when, image_bytes::specs::Format::wrong, image_bytes::specs::Format::nothing))]
    fn wait(&mut self, tag: u8, context: &Context<'_>) -> Result<Wait<'a>, ReadFault<'a>>
        ensures reads { Says wait_of ((wait_rest (reader_in context.now) tag).scan self.old.met self.old.bytes) result self.new }
    {
        match tag {
            0 => Ok(Wait::ForCall),
            1 => Ok(Wait::ForIterator),
            2 => Ok(Wait::ForValue),
            3 => Ok(Wait::ForTruth),
            4 => Ok(Wait::Dropped),
            5 => Ok(Wait::ForConcat(self.byte()?)),
            6 => Ok(Wait::ForClose),
            7 => Ok(Wait::Returning(self.word()?)),
            8 => Ok(Wait::Leaving(self.item(context)?)),
            _ => Err(ReadFault::Refused(Refusal::OutOfPlace)),
        }
    }

    /// An error, or none.
    #[tactic(auto, unfolding(image_bytes::specs::Bytes::error_format, image_bytes::specs::Format::tagged, image_bytes::specs::Format::case, image_bytes::specs::Format::when, image_bytes::specs::Format::wrong, image_bytes::specs::Format::nothing))]
    fn error(&mut self, context: &Context<'_>) -> Result<Option<Item<'a>>, ReadFault<'a>>
        ensures reads { Says error_of ((error_format (reader_in context.now)).scan self.old.met self.old.bytes) result self.new }
    {
        match self.byte()? {
            0 => Ok(None),
            1 => Ok(Some(self.item(context)?)),
            _ => Err(ReadFault::Refused(Refusal::OutOfPlace)),
        }
    }
}
