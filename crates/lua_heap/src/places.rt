// Where the frames of the running coroutine are in the text of their sources (luaL_where of Lua 5.4).
ghost use Rattle.std.specs.Prelude.{◌≡◌, ℕ, ◌^◌, ◌≤ℤ◌, pos, true, Some, IfOk};
ghost use Rattle.std.specs.Option.{option_map};
ghost use Rattle.int_core.specs.Limits.{position, source_name};
ghost use Rattle.int_core.specs.Value.{bind};
ghost use Rattle.code_core.specs.Check.{IsChecked, is_line, line_at};
ghost use Rattle.machine_core.specs.Moves.{line_of, where_text};
ghost use Rattle.lua_heap.specs.Codes.{functions, prototype_at, AreCodes};
ghost use Rattle.lua_heap.specs.Places.{line_in, nth_place, place_in, running_stack};
ghost use Rattle.lua_heap.specs.Plain.{plain};

use crate::world::{Coro, World};
use code_core::{AbsLine, Proto};
use int_core::Allocated;
use itoa::Buffer;
use lua_stack::Stack;
use std::alloc::Global;
use table_core::FuncId;

/// A line of a source.
#[derive(Clone, Copy)]
struct Position<'a> {
    source: &'a [u8],
    line: u32,
}

impl World {
    /// `NAME:LINE: ` of a function with lines in the running coroutine, where the one on top has level 0; nothing where there is none.
    pub fn where_text(&self, level: usize) -> Allocated<Vec<u8>>
        requires { AreCodes self.now.strings self.now.codes }
        ensures { IfOk result (λ text. (fuel : ℕ) → text.items ≡ where_text (plain self.now fuel) level) }
    {
        match self.position(level) {
            Some(found) => {
                let text = position_text(self.alloc, found.source, found.line)?;
                Ok(text)
            }
            None => Ok(Vec::new(self.alloc)),
        }
    }

    /// Where the function with lines of a level is.
    fn position(&self, level: usize) -> Option<Position<'_>>
        requires { AreCodes self.now.strings self.now.codes }
        ensures { option_map (λ p. (p.source.now, p.line)) result ≡ bind (running_stack self.now) (λ s. nth_place self.now s.frames level) }
    {
        let stack = self.running()?;
        let found = self.nth_position(stack, level)?;
        Some(found)
    }

    /// The stack of the coroutine that runs.
    fn running(&self) -> Option<&Stack>
        ensures { option_map (λ stack. stack.now) result ≡ running_stack self.now }
    {
        let co = self.chain.last()?;
        if co.0 >= self.coros.len() {
            return None;
        }
        match self.coros.get(co.0) {
            Coro::Running(stack) => Some(stack),
            Coro::Fresh(_) => None,
            Coro::Suspended(_) => None,
            Coro::Normal(_) => None,
            Coro::Dead => None,
            Coro::Failed { .. } => None,
        }
    }

    /// Where the function with lines of a level is in a stack.
    fn nth_position(&self, stack: &Stack, level: usize) -> Option<Position<'_>>
        requires { AreCodes self.now.strings self.now.codes }
        ensures { option_map (λ p. (p.source.now, p.line)) result ≡ nth_place self.now stack.now.frames level }
    {
        let mut left = level;
        let mut count = stack.len();
        'down: while count > 0 {
            count -= 1;
            if let Some(found) = self.position_of(stack.place_at(count)) {
                if left == 0 {
                    return Some(found);
                }
                left -= 1;
            }
        }
        None
    }

    /// Where an instruction is, if it is one of a function with lines.
    fn position_of(&self, place: Option<(FuncId, usize)>) -> Option<Position<'_>>
        requires { AreCodes self.now.strings self.now.codes }
        ensures { option_map (λ p. (p.source.now, p.line)) result ≡ bind place (place_in self.now) }
    {
        let (function, pc) = place?;
        if function.0 >= self.funcs.len() {
            return None;
        }
        let code = self.funcs.get(function.0).code;
        if code.0 >= self.codes.list.len() {
            return None;
        }
        let found = position_in(self.codes.proto(code), pc)?;
        Some(found)
    }
}

/// Where an instruction of a function is, if the function has lines.
fn position_in(proto: &Proto, pc: usize) -> Option<Position<'_>>
    requires { IsChecked proto.now }
    ensures { option_map (λ p. (p.source.now, p.line)) result ≡ line_in proto.now pc }
{
    let name = proto.source.as_ref()?;
    let line = line_at(proto, pc)?;
    Some(Position {
        source: name.as_slice(),
        line,
    })
}

/// The line of an instruction.
fn line_at(proto: &Proto, pc: usize) -> Option<u32>
    requires { IsChecked proto.now }
    ensures { result ≡ line_of proto.now pc }
{
    let mut line = i64::from(proto.line_defined);
    for (at, change) in proto.line_info.iter().enumerate() {
        line = next_line(&proto.abs_lines, at, line, *change);
        if at == pc {
            return Some(line as u32);
        }
    }
    None
}

/// The line of an instruction from that in front of it.
fn next_line(lines: &[AbsLine], pc: usize, line: i64, change: i8) -> i64
    requires low { pos 0 ≤ℤ line }
    requires high { line ≤ℤ pos (2 ^ 32) }
    requires good { is_line (line_at lines.now pc (Some line) change) ≡ true }
    ensures { line_at lines.now pc (Some line) change ≡ Some result }
{
    if change == -128 {
        match code_core::given_line(lines, pc) {
            Some(given) => i64::from(given),
            None => 0,
        }
    } else {
        line + i64::from(change)
    }
}

/// `NAME:LINE: `
fn position_text(alloc: Global, source: &[u8], line: u32) -> Allocated<Vec<u8>>
    ensures { IfOk result (λ text. text.items ≡ position source.now line) }
{
    let mut text = Vec::from_slice(alloc, source_name(source))?;
    text.push(b':')?;
    text.extend_from_slice(Buffer::new().format(line).as_bytes())?;
    text.extend_from_slice(b": ")?;
    Ok(text)
}

/// A source's name without its first `@` or `=`.
fn source_name(source: &[u8]) -> &[u8]
    ensures { result.now ≡ source_name source.now }
{
    match source.first() {
        Some(b'@' | b'=') => &source[1..],
        _ => source,
    }
}
