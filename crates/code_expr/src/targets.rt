// Targets of assignments, whose tables and keys wait in registers for the values (Lua 5.4 manual, 3.3.3).
ghost use Rattle.std.specs.Prelude.{◌≡◌, ◌+◌, ◌++◌, [], ◌∷◌, false, Some, OnOk};
ghost use Rattle.tree_core.specs.Plain.{plain_exp};
ghost use Rattle.code_core.specs.declared.proto.Const.TheVariants.{Str};
ghost use Rattle.code_of.specs.Constants.{loads};
ghost use Rattle.code_of.specs.Expressions.{exp_code, made_by};
ghost use Rattle.code_of.specs.Stores.{key_code, field_store};
ghost use Rattle.code_of.specs.StoredValues.{stored_value};
ghost use Rattle.code_of.specs.Targets.{waiting_key, text_key, text_number, global_store, local_store_by, local_store};
ghost use Rattle.code_emitter.specs.Listing.{followed, listed};
ghost use Rattle.code_expr.specs.Stores.{key_seat, is_above, code_if, seat_store};
ghost use Rattle.code_expr.specs.Targets.{stored_step};

use crate::expressions::expression;
use crate::stores::{KeySeat, Slot, name_in, put_store, write_made};
use code_constants::{numeral_of, short};
use code_core::Opcode;
use code_emitter::{Emitter, Step, local_of, next, word_abc};
use int_core::{Allocated, Bytes};
use tree_core::{Exp, ExpNode, Name, Place};

/// The instruction that stores a register's value, or the constant of a number, in a global name, whose key is a constant. A name of another kind has none.
fn global_store(
    place: Place,
    number: usize,
    constant: bool,
    value: usize,
    line: u32,
) -> Option<Step>
    ensures { result ≡ stored_step (global_store place number constant value line) }
{
    let (opcode, table) = match place {
        Place::GlobalIn(register) => (Opcode::SetField, register),
        Place::GlobalOf(upvalue) => (Opcode::SetTabUp, upvalue),
        Place::Unset | Place::Local(_) | Place::Upvalue(_) => return None,
    };
    Some(Step {
        instruction: word_abc(opcode, usize::from(table), number, value, constant),
        line,
    })
}

/// Where the key of a field stands that waits for its value.
#[tactic(auto, using(crate::proofs::TargetSeats::waiting_named, crate::proofs::TargetSeats::waiting_indexed, crate::proofs::TargetSeats::waiting_above))]
fn waiting_seat(emitter: &Emitter, key: &Exp) -> KeySeat
    ensures { result ≡ key_seat (waiting_key emitter.now.constants (plain_exp key.now)) }
{
    if let Some(number) = name_in(emitter, key) {
        return KeySeat::Name(number);
    }
    match numeral_of(key, Some(255)) {
        Some(number) => KeySeat::Index(number),
        None => KeySeat::Above,
    }
}

/// The number of a global name, where a field of 8 bits holds it, or none.
fn text_number(emitter: &Emitter, text: &Bytes) -> Option<usize>
    ensures { result ≡ text_number emitter.now.constants text.now }
{
    short(emitter.constants().number_of_text(text))
}

/// Where the key of a global name stands.
#[tactic(auto, using(crate::proofs::TargetSeats::text_named, crate::proofs::TargetSeats::text_above))]
fn text_seat(emitter: &Emitter, text: &Bytes) -> KeySeat
    ensures { result ≡ key_seat (text_key emitter.now.constants text.now) }
{
    match text_number(emitter, text) {
        Some(number) => KeySeat::Name(number),
        None => KeySeat::Above,
    }
}

/// Writes a key that is a string and is made.
#[tactic(auto, using(crate::proofs::TargetSeats::nothing_listed))]
fn load_key(
    emitter: &mut Emitter,
    stands: KeySeat,
    text: &Bytes,
    target: usize,
    line: u32,
) -> Allocated<()>
    ensures { OnOk result (emitter.new ≡ listed emitter.old (code_if (is_above stands) (loads emitter.old.constants (Str text.now) target line))) }
{
    if !stands.is_above() {
        return Ok(());
    }
    emitter.load_text(text, target, line)
}

/// Writes the table and the key of a field to two registers, but for a key that the store names.
pub fn aim_field(emitter: &mut Emitter, object: &Exp, key: &Exp, register: usize) -> Allocated<()>
    ensures { OnOk result (emitter.new ≡ followed emitter.old (exp_code emitter.old.constants (plain_exp object.now) register emitter.old.made 2 ++ key_code (waiting_key emitter.old.constants (plain_exp key.now)) (exp_code emitter.old.constants (plain_exp key.now) (register + 1) (emitter.old.made + made_by (plain_exp object.now)) 2)) (made_by (plain_exp object.now) + made_by (plain_exp key.now))) }
{
    let above = next(register)?;
    let stands = waiting_seat(emitter, key);
    expression(emitter, object, register, 2)?;
    write_made(emitter, stands.is_above(), key, above)?;
    Ok(())
}

/// Writes the key of a global name to a register, where the store does not name it.
pub fn aim_name(emitter: &mut Emitter, text: &Bytes, target: usize, line: u32) -> Allocated<()>
    ensures { OnOk result (emitter.new ≡ listed emitter.old (key_code (text_key emitter.old.constants text.now) (loads emitter.old.constants (Str text.now) target line))) }
{
    let stands = text_seat(emitter, text);
    load_key(emitter, stands, text, target, line)?;
    Ok(())
}

/// Writes the store of a value by a key, which stands above the table in its register if it is made.
fn put_waiting(
    emitter: &mut Emitter,
    key: KeySeat,
    register: usize,
    value: usize,
    line: u32,
) -> Allocated<()>
    ensures { OnOk result (emitter.new ≡ listed emitter.old (seat_store key register (register + 1) false value line ∷ [])) }
{
    let slot = Slot {
        object: register,
        key,
        above: next(register)?,
        line,
    };
    put_store(emitter, slot, false, value)?;
    Ok(())
}

/// Writes the store of a value in a field, whose table stands in a register with the key above it or in the store.
pub fn store_waiting(
    emitter: &mut Emitter,
    key: &Exp,
    register: usize,
    value: usize,
    line: u32,
) -> Allocated<()>
    ensures { OnOk result (emitter.new ≡ listed emitter.old (field_store (waiting_key emitter.old.constants (plain_exp key.now)) register register value line ∷ [])) }
{
    let stands = waiting_seat(emitter, key);
    put_waiting(emitter, stands, register, value, line)?;
    Ok(())
}

/// Writes the store of a value in a global name, whose table stands in a register with the key above it or in the store.
pub fn store_name(
    emitter: &mut Emitter,
    text: &Bytes,
    register: usize,
    value: usize,
    line: u32,
) -> Allocated<()>
    ensures { OnOk result (emitter.new ≡ listed emitter.old (field_store (text_key emitter.old.constants text.now) register register value line ∷ [])) }
{
    let stands = text_seat(emitter, text);
    put_waiting(emitter, stands, register, value, line)?;
    Ok(())
}

/// The instruction that stores a constant or a local in a name whose key is a constant of this number, or none.
#[tactic(auto, using(crate::proofs::ValueSeats::constant_named, crate::proofs::ValueSeats::local_named, crate::proofs::ValueSeats::none_named))]
fn value_store(
    emitter: &Emitter,
    place: Place,
    number: usize,
    value: &Exp,
    line: u32,
) -> Option<Step>
    ensures { result ≡ stored_step (local_store_by (Some number) (stored_value emitter.now.constants (plain_exp value.now)) place line) }
{
    if let Some(constant) = emitter.constants().literal_number(value) {
        return global_store(place, number, true, constant, line);
    }
    match local_of(value) {
        Some(register) => global_store(place, number, false, register, line),
        None => None,
    }
}

/// The instruction that stores a constant or a local in a name, or none.
fn name_store(emitter: &Emitter, name: &Name, value: &Exp, line: u32) -> Option<Step>
    ensures { result ≡ stored_step (local_store_by (text_number emitter.now.constants name.now.text) (stored_value emitter.now.constants (plain_exp value.now)) name.now.place line) }
{
    match text_number(emitter, &name.text) {
        Some(number) => value_store(emitter, name.place, number, value, line),
        None => None,
    }
}

/// The instruction that alone stores a value in a target: a constant goes to a global name, and so does a local from its own register. For all others none.
pub fn local_store(emitter: &Emitter, target: &Exp, value: &Exp) -> Option<Step>
    ensures { result ≡ stored_step (local_store emitter.now.constants (plain_exp target.now) (plain_exp value.now)) }
{
    match &target.node {
        ExpNode::Var(name) => name_store(emitter, name, value, target.line),
        _ => None,
    }
}
