// Operands of a concatenation that are joined (luaV_concat of lvm.c).
ghost use Rattle.std.specs.Prelude.{◌≡◌, IfOk};
ghost use Rattle.move_laws.specs.Memory.{IsSound, ReadsSame};
ghost use Rattle.machine_operations.specs.Joining.{CanJoin, Joins};

use crate::concatenation::join_one;
use crate::whole_texts::{join_whole, joined_text};
use int_core::Allocated;
use lua_heap::World;
use meta_ops::{Fault, Outcome};
use table_core::Value;

/// What joining operands came to.
#[derive(Debug, Clone, Copy, PartialEq, Eq)]
pub enum Joined {
    /// They are all in this value.
    Whole(Value),
    /// A handler is to be called.
    Asks(Asked),
    Fails(Fault),
}

/// A handler that is to be called with two of the operands, and how many are left in front of them.
#[derive(Debug, Clone, Copy, PartialEq, Eq)]
pub struct Asked {
    pub handler: Value,
    pub left: Value,
    pub right: Value,
    pub below: usize,
}

/// Joins so many operands, in registers from `first` on, to what stands behind them, from the last one on and as far as no handler is asked for. Where all have
/// texts they are joined at once, so that the texts between make no strings. The world stands for the same as before, also after a refusal.
pub fn join(world: &mut World, first: usize, count: usize, last: Value) -> Allocated<Joined>
    requires { CanJoin world.old first count last }
    ensures joins { IfOk result (λ joined. Joins world.old world.new first count last joined) }
    ensures same { ReadsSame world.old world.new }
    ensures sound { IsSound world.new }
    ensures rest { world.new ≡ record world.old { strings = world.new.strings } }
{
    match joined_text(world, first, count, last) {
        Some(text) => join_whole(world, first, count, last, text.as_slice()),
        None => join_in_turn(world, first, count, last),
    }
}

/// Joins them one after another.
fn join_in_turn(world: &mut World, first: usize, count: usize, last: Value) -> Allocated<Joined>
    requires { CanJoin world.old first count last }
    ensures joins { IfOk result (λ joined. Joins world.old world.new first count last joined) }
    ensures same { ReadsSame world.old world.new }
    ensures sound { IsSound world.new }
    ensures rest { world.new ≡ record world.old { strings = world.new.strings } }
{
    let mut left = count;
    let mut whole = last;
    while left > 0 {
        let below = left - 1;
        match join_one(world, first + below, whole)? {
            Outcome::Found(v) => {
                whole = v;
                left = below;
            }
            Outcome::Ask { handler, first } => {
                return Ok(Joined::Asks(Asked {
                    handler,
                    left: first,
                    right: whole,
                    below,
                }));
            }
            Outcome::Fault(fault) => return Ok(Joined::Fails(fault)),
            Outcome::Done => unreachable!(),
        }
    }
    Ok(Joined::Whole(whole))
}
