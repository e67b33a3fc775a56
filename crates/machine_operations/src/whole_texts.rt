// Operands of a concatenation that all have texts, which are joined at once (luaV_concat of lvm.c).
ghost use Rattle.std.specs.Prelude.{◌≡◌, ℕ, ◌+◌, ◌<◌, ◌≤◌, ◌^◌, [], IfOk, IfSome, length};
ghost use Rattle.int_core.specs.Value.{greatest_string};
ghost use Rattle.machine_core.specs.Text.{read_register as reads};
ghost use Rattle.move_laws.specs.Memory.{CanDo, HasFrame, IsSound, ReadsSame};
ghost use Rattle.machine_operations.specs.Joining.{CanJoin, Joins};
ghost use Rattle.machine_operations.specs.WholeTexts.{AreTexts, AreWhole};

use crate::joining::Joined;
use int_core::Allocated;
use lua_heap::World;
use machine_moves::read_register;
use meta_ops::{append_text, is_short, law};
use std::alloc::Global;
use table_core::Value;

/// The texts of two or more operands, in registers from `first` on, and of the last one behind them, where all have texts and a string may be so long. `None`
/// says nothing, also where memory runs out.
pub(crate) fn joined_text(world: &World, first: usize, count: usize, last: Value) -> Option<Vec<u8>>
    requires { CanJoin world.now first count last }
    ensures { IfSome result (λ text. AreWhole world.now first count last text.items) }
{
    if count < 2 {
        return None;
    }
    let mut text = texts_in_front(world, first, count)?;
    append_text(&mut text, &world.strings, last)?;
    if !is_short(text.as_slice()) {
        return None;
    }
    Some(text)
}

/// The texts of so many operands behind each other, where all have texts.
fn texts_in_front(world: &World, first: usize, count: usize) -> Option<Vec<u8>>
    requires sound { IsSound world.now }
    requires room { first + count < 2 ^ 64 }
    requires there { (below : ℕ) → below < count → CanDo world.now (reads (first + below)) }
    ensures { IfSome result (λ text. AreTexts world.now first count text.items) }
{
    law::operands_are_there();
    let mut text = roomy_text(world.alloc)?;
    for below in 0..count {
        let operand = read_register(world, first + below);
        append_text(&mut text, &world.strings, operand)?;
    }
    Some(text)
}

/// An empty text, with room for what most concatenations come to.
fn roomy_text(alloc: Global) -> Option<Vec<u8>>
    ensures { IfSome result (λ text. text.items ≡ []) }
{
    match Vec::with_capacity(alloc, 64) {
        Ok(text) => Some(text),
        Err(_) => None,
    }
}

/// The operands are all in this text. A refusal changes nothing that the world stands for.
pub(crate) fn join_whole(
    world: &mut World,
    first: usize,
    count: usize,
    last: Value,
    text: &[u8],
) -> Allocated<Joined>
    requires sound { IsSound world.old }
    requires frame { HasFrame world.old }
    requires short { length text.now ≤ greatest_string }
    requires whole { AreWhole world.old first count last text.now }
    ensures joins { IfOk result (λ joined. Joins world.old world.new first count last joined) }
    ensures same { ReadsSame world.old world.new }
    ensures sound { IsSound world.new }
    ensures rest { world.new ≡ record world.old { strings = world.new.strings } }
{
    let id = world.intern_new(text)?;
    Ok(Joined::Whole(Value::Str(id)))
}
