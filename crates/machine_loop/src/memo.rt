// Values of variables that stand open in frames below: they stay what they are while the frame on top runs (UpVal of lobject.h).
ghost use Rattle.std.specs.Prelude.{◌≡◌, IfNone, IfSome};
ghost use Rattle.code_core.specs.declared.opcode.Opcode.TheVariants.{GetUpval};
ghost use Rattle.machine_loop.specs.Knowing.{Adds, ReadsKnown, ReadsValue, Remembers, Tells};
ghost use Rattle.machine_view.specs.Law.{HasInstruction};
ghost use Rattle.machine_view.specs.View.{IsAt};

use code_core::{Instruction, Opcode, fetch};
use machine_arms_tables::{Closure, set_register};
use table_core::Value;

/// An upvalue of the function that runs, by its number, and the value of its variable.
#[derive(Clone, Copy, Debug)]
pub struct Known {
    pub upvalue: u8,
    pub value: Value,
}

/// What is known of at most three.
#[derive(Clone, Copy, Debug)]
pub struct Memo {
    pub first: Option<Known>,
    pub second: Option<Known>,
    pub third: Option<Known>,
}

/// One more value. `None` where there is no room for it.
pub fn add_known(memo: Memo, entry: Known) -> Option<Memo>
    ensures { IfSome result (λ more. Adds memo entry more) }
{
    let known = Some(entry);
    if memo.first.is_none() {
        return Some(Memo {
            first: known,
            ..memo
        });
    }
    if memo.second.is_none() {
        return Some(Memo {
            second: known,
            ..memo
        });
    }
    if memo.third.is_none() {
        return Some(Memo {
            third: known,
            ..memo
        });
    }
    None
}

/// The value of an upvalue, where this is known of it.
#[inline(always)]
fn value_of(known: Option<Known>, upvalue: u8) -> Option<Value>
    ensures { IfSome result (λ v. Tells known upvalue v) }
{
    let entry = known?;
    if entry.upvalue != upvalue {
        return None;
    }
    Some(entry.value)
}

/// The value of an upvalue, where it is known.
#[inline(always)]
fn recall(memo: &Memo, upvalue: u8) -> Option<Value>
    ensures { IfSome result (λ v. Remembers memo.now upvalue v) }
{
    if let Some(v) = value_of(memo.first, upvalue) {
        return Some(v);
    }
    if let Some(v) = value_of(memo.second, upvalue) {
        return Some(v);
    }
    value_of(memo.third, upvalue)
}

/// R[A] := UpValue[B], where the value is known. Out of line: in place, each entry into the loop would keep the addresses of the three values.
#[inline(never)]
fn read_value(
    closure: Closure,
    registers: &mut [Value],
    memo: &Memo,
    i: Instruction,
    pc: usize,
) -> Option<usize>
    requires { IsAt GetUpval i closure.words.now closure.constants.now registers.old pc }
    ensures reads { IfSome result (λ to. ReadsValue memo.now i registers.old registers.new pc to) }
    ensures kept { IfNone result (registers.new ≡ registers.old) }
{
    let v = recall(memo, i.b())?;
    set_register(registers, i.a() as usize, v);
    Some(closure.next(pc))
}

/// GETUPVAL of a variable whose value is known, and where the frame goes on. `None`, with all as before, at any other instruction.
#[inline(always)]
pub(crate) fn read_known(
    closure: Closure,
    registers: &mut [Value],
    memo: &Memo,
    pc: usize,
) -> Option<usize>
    requires { HasInstruction closure.words.now closure.constants.now registers.old pc }
    ensures reads { IfSome result (λ to. ReadsKnown closure.entry.words.now memo.now registers.old registers.new pc to) }
    ensures kept { IfNone result (registers.new ≡ registers.old) }
{
    let i = fetch(closure.words, pc);
    if is_empty(memo) {
        return None;
    }
    match i.opcode() {
        Some(Opcode::GetUpval) => read_value(closure, registers, memo, i, pc),
        _ => None,
    }
}

/// Whether no value is known, as most often: then nothing is called for it.
#[inline(always)]
fn is_empty(memo: &Memo) -> bool {
    match memo.first {
        None => true,
        Some(_) => false,
    }
}
