// The frames of `coroutine.close`, and the frame that an error reaches.
ghost use Rattle.std.specs.Prelude.{◌≡◌, [], ◌∷◌, ◌++◌, Some, reverse, OnErr, OnOk};
ghost use Rattle.int_core.specs.Value.{last, without_last};
ghost use Rattle.machine_core.specs.Moves.{catcher};
ghost use Rattle.lua_stack.specs.Frames.{HasClosingTop, OnClosing, Tells, frames, kept_catcher, kept_closing, top_is};
ghost use Rattle.lua_stack.specs.View.{catcher_of, error_in, is_lua, with_values};

use crate::frame::{Kind, Record, Top, Window};
use crate::frames::{behind, push_top};
use crate::stack::{Stack, top_of};
use crate::values::{end_of, grow, item_at, place_of, put};
use std::alloc::AllocError;
use table_core::Value;

impl Stack {
    /// Puts a frame of `coroutine.close` on top, with the error that there is and the values that are left to be closed.
    pub fn push_closing(&mut self, error: Option<Value>, left: &[Value]) -> Result<(), AllocError>
        ensures frames { OnOk result (self.new.frames ≡ self.old.frames ++ kept_closing error left.now ∷ []) }
        ensures cells { self.new.open_cells ≡ self.old.open_cells }
        ensures err { OnErr result (self.new ≡ self.old) }
    {
        let next = behind(
            self.top,
            Kind::Closing(error),
            self.values.len(),
            self.pending.len(),
        );
        let end = end_of(next.window.start, left.len())?;
        grow(&mut self.values, end)?;
        push_top(&mut self.below, self.top)?;
        put(&mut self.values, next.window.start, left);
        self.top = with_values(next, left.len());
        Ok(())
    }

    /// Takes the last value that is left to be closed.
    pub fn take_left(&mut self) -> Option<Value>
        requires { HasClosingTop self.old }
        ensures taken { OnClosing self.old (λ below error left. (result ≡ last left) × (self.new.frames ≡ below ++ kept_closing error (without_last left) ∷ [])) }
        ensures cells { self.new.open_cells ≡ self.old.open_cells }
    {
        let window = self.top.window;
        if window.size == 0 {
            return None;
        }
        let at = place_of(window.base, window.size - 1, self.values.len());
        let value = item_at(&self.values, at);
        self.top = with_values(self.top, window.size - 1);
        Some(value)
    }

    /// The error that there is.
    pub fn closing_error(&self) -> Option<Value>
        requires { HasClosingTop self.now }
        ensures { OnClosing self.now (λ below error left. result ≡ error) }
    {
        error_in(self.top.kind)
    }

    /// Replaces the error.
    pub fn set_error(&mut self, error: Value)
        requires { HasClosingTop self.old }
        ensures frames { OnClosing self.old (λ below old left. self.new.frames ≡ below ++ kept_closing (Some error) left ∷ []) }
        ensures cells { self.new.open_cells ≡ self.old.open_cells }
    {
        self.top.kind = Kind::Closing(Some(error));
    }

    /// The nearest frame from the top that is no Lua frame.
    pub fn catcher(&self) -> Top
        ensures frame { result ≡ top_is (kept_catcher (reverse self.now.frames)) }
        ensures told { Tells result (λ f. catcher (reverse (frames f self.now))) }
    {
        if is_lua(self.top.kind) {
            return catcher_in(&self.below);
        }
        top_of(self.top.kind)
    }
}

/// A frame with so many values.
#[inline(always)]
fn with_values(frame: Record, count: usize) -> Record
    ensures { result ≡ with_values frame count }
{
    Record {
        window: Window {
            kept: count,
            size: count,
            ..frame.window
        },
        ..frame
    }
}

/// The error of a frame of `coroutine.close`.
fn error_in(kind: Kind) -> Option<Value>
    ensures { result ≡ error_in kind }
{
    match kind {
        Kind::Closing(error) => error,
        Kind::Missing => None,
        Kind::Lua => None,
        Kind::Pcall => None,
        Kind::Xpcall(_) => None,
        Kind::Handler => None,
    }
}

/// Whether a frame is a Lua function's.
#[inline(always)]
pub(crate) fn is_lua(kind: Kind) -> bool
    ensures { result ≡ is_lua kind }
{
    matches!(kind, Kind::Lua)
}

/// The last frame that is no Lua frame.
fn catcher_in(below: &[Record]) -> Top
    ensures { result ≡ catcher_of (reverse below.now) }
{
    let mut count = below.len();
    'back: while count > 0 {
        let kind = item_at(below, count - 1).kind;
        if !is_lua(kind) {
            return top_of(kind);
        }
        count -= 1;
    }
    Top::Missing
}
