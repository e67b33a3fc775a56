// Values that are stored in fields, by a statement of their own (Lua 5.4 manual, 3.3.3) or in a constructor (3.4.9).
ghost use Rattle.std.specs.Prelude.{◌≡◌, ◌+◌, [], ◌∷◌, OnOk, IfOk};
ghost use Rattle.tree_core.specs.Tree.{Index};
ghost use Rattle.tree_core.specs.Plain.{plain_exp};
ghost use Rattle.code_of.specs.Expressions.{exp_code, made_by};
ghost use Rattle.code_of.specs.Operands.{seat, unless};
ghost use Rattle.code_of.specs.Parts.{field_code};
ghost use Rattle.code_of.specs.Stores.{name_in, field_key, is_field};
ghost use Rattle.code_of.specs.StoredValues.{stored_value};
ghost use Rattle.code_emitter.specs.Listing.{followed, listed};
ghost use Rattle.code_expr.specs.Stores.{key_seat, is_above, object_at, made_unless, code_if, made_if, seat_store, value_place, is_made, place_store, filled_code, made_in_field};

use crate::expressions::expression;
use crate::quiet::{beside_quiet, is_quiet};
use code_constants::{numeral_of, short};
use code_core::Opcode;
use code_emitter::{Emitter, local_of, next};
use int_core::Allocated;
use tree_core::{Exp, ExpNode};

/// Where the key of a field stands.
#[derive(Clone, Copy, Debug, PartialEq, Eq)]
pub(crate) enum KeySeat {
    /// It is the constant of this number.
    Name(usize),
    /// It is a numeral in the instruction.
    Index(usize),
    /// It is a local in its own register.
    Register(usize),
    /// It is made above the object.
    Above,
}

/// Where the value of a store stands.
#[derive(Clone, Copy, Debug, PartialEq, Eq)]
pub(crate) enum ValueSeat {
    /// It is the constant of this number.
    Constant(usize),
    /// It is a local in its own register.
    Local(usize),
    /// It is made above the key.
    Made,
}

impl KeySeat {
    /// Whether the key is made.
    pub(crate) fn is_above(self) -> bool
        ensures { result ≡ is_above self }
    {
        matches!(self, KeySeat::Above)
    }
}

impl ValueSeat {
    /// Whether the value is made.
    pub(crate) fn is_made(self) -> bool
        ensures { result ≡ is_made self }
    {
        matches!(self, ValueSeat::Made)
    }
}

/// A field that a value is stored in.
#[derive(Clone, Copy, Debug, PartialEq, Eq)]
pub(crate) struct Slot {
    /// The register of the object.
    pub(crate) object: usize,
    /// Where the key stands.
    pub(crate) key: KeySeat,
    /// The register of a key that is made.
    pub(crate) above: usize,
    /// The line of the store.
    pub(crate) line: u32,
}

/// The register in which the object stays, or none for one that is made.
fn object_at(key: KeySeat, quiet: bool, object: &Exp) -> Option<usize>
    ensures { result ≡ object_at key quiet (plain_exp object.now) }
{
    match key {
        KeySeat::Above => None,
        KeySeat::Name(_) => beside_quiet(quiet, local_of(object)),
        KeySeat::Index(_) => beside_quiet(quiet, local_of(object)),
        KeySeat::Register(_) => beside_quiet(quiet, local_of(object)),
    }
}

/// Whether a target of an assignment is a field.
pub fn is_field(target: &Exp) -> bool
    ensures { result ≡ is_field (plain_exp target.now) }
{
    matches!(&target.node, ExpNode::Index(_, _))
}

/// The number of a key that is a string, where a field of 8 bits holds it, or none.
pub(crate) fn name_in(emitter: &Emitter, key: &Exp) -> Option<usize>
    ensures { result ≡ name_in emitter.now.constants (plain_exp key.now) }
{
    match &key.node {
        ExpNode::Str(bytes) => short(emitter.constants().number_of_text(bytes)),
        _ => None,
    }
}

/// Where a key stands beside a value that is stored, which is quiet or not.
#[tactic(auto, using(crate::proofs::FieldSeats::seat_named, crate::proofs::FieldSeats::seat_indexed, crate::proofs::FieldSeats::seat_standing, crate::proofs::FieldSeats::seat_above))]
pub(crate) fn key_seat(emitter: &Emitter, quiet: bool, key: &Exp) -> KeySeat
    ensures { result ≡ key_seat (field_key emitter.now.constants quiet (plain_exp key.now)) }
{
    if let Some(number) = name_in(emitter, key) {
        return KeySeat::Name(number);
    }
    if let Some(number) = numeral_of(key, Some(255)) {
        return KeySeat::Index(number);
    }
    match beside_quiet(quiet, local_of(key)) {
        Some(register) => KeySeat::Register(register),
        None => KeySeat::Above,
    }
}

/// Where a value that is stored stands.
#[tactic(auto, using(crate::proofs::ValueSeats::seat_constant, crate::proofs::ValueSeats::seat_local, crate::proofs::ValueSeats::seat_made))]
pub(crate) fn value_seat(emitter: &Emitter, value: &Exp) -> ValueSeat
    ensures { result ≡ value_place (stored_value emitter.now.constants (plain_exp value.now)) }
{
    if let Some(number) = emitter.constants().literal_number(value) {
        return ValueSeat::Constant(number);
    }
    match local_of(value) {
        Some(register) => ValueSeat::Local(register),
        None => ValueSeat::Made,
    }
}

/// Writes an operand that does not stay in a register, and answers where it stands.
#[tactic(auto, using(crate::proofs::FieldSeats::stays_written))]
fn stand(emitter: &mut Emitter, stays: Option<usize>, exp: &Exp, target: usize) -> Allocated<usize>
    ensures code { OnOk result (emitter.new ≡ followed emitter.old (unless stays (exp_code emitter.old.constants (plain_exp exp.now) target emitter.old.made 2)) (made_unless stays (made_by (plain_exp exp.now)))) }
    ensures place { IfOk result (λ register. register ≡ seat stays target) }
{
    if let Some(register) = stays {
        return Ok(register);
    }
    expression(emitter, exp, target, 2)?;
    Ok(target)
}

/// Writes an expression where it is made, or nothing where it stands elsewhere.
#[cycle(expressions)]
#[tactic(auto, using(code_emitter::proofs::Seats::nothing_more))]
pub(crate) fn write_made(
    emitter: &mut Emitter,
    made: bool,
    exp: &Exp,
    target: usize,
) -> Allocated<()>
    ensures { OnOk result (emitter.new ≡ followed emitter.old (code_if made (exp_code emitter.old.constants (plain_exp exp.now) target emitter.old.made 2)) (made_if made (made_by (plain_exp exp.now)))) }
{
    if !made {
        return Ok(());
    }
    expression(emitter, exp, target, 2)
}

/// Writes the store of a constant or of a register's value.
pub(crate) fn put_store(
    emitter: &mut Emitter,
    slot: Slot,
    constant: bool,
    value: usize,
) -> Allocated<()>
    ensures { OnOk result (emitter.new ≡ listed emitter.old (seat_store slot.key slot.object slot.above constant value slot.line ∷ [])) }
{
    let (opcode, key) = match slot.key {
        KeySeat::Name(number) => (Opcode::SetField, number),
        KeySeat::Index(number) => (Opcode::SetI, number),
        KeySeat::Register(key) => (Opcode::SetTable, key),
        KeySeat::Above => (Opcode::SetTable, slot.above),
    };
    emitter.put_flagged(opcode, slot.object, key, value, constant, slot.line)
}

/// Writes the store of a value, which stands in the register `top` if it is made.
pub(crate) fn put_value(
    emitter: &mut Emitter,
    slot: Slot,
    seat: ValueSeat,
    top: usize,
) -> Allocated<()>
    ensures { OnOk result (emitter.new ≡ listed emitter.old (place_store slot.key seat slot.object slot.above top slot.line ∷ [])) }
{
    match seat {
        ValueSeat::Constant(number) => put_store(emitter, slot, true, number),
        ValueSeat::Local(register) => put_store(emitter, slot, false, register),
        ValueSeat::Made => put_store(emitter, slot, false, top),
    }
}

/// Writes a key and a value where they are made, the value in the register `top`, and the store of it.
#[cycle(expressions)]
pub(crate) fn fill(
    emitter: &mut Emitter,
    slot: Slot,
    key: &Exp,
    seat: ValueSeat,
    value: &Exp,
    top: usize,
) -> Allocated<()>
    ensures { OnOk result (emitter.new ≡ followed emitter.old (filled_code emitter.old.constants slot (plain_exp key.now) seat (plain_exp value.now) top emitter.old.made) (made_if (is_above slot.key) (made_by (plain_exp key.now)) + made_if (is_made seat) (made_by (plain_exp value.now)))) }
{
    write_made(emitter, slot.key.is_above(), key, slot.above)?;
    write_made(emitter, seat.is_made(), value, top)?;
    put_value(emitter, slot, seat, top)?;
    Ok(())
}

/// Writes a value that goes to the field of an object, where the registers from one on are free.
fn store_field(
    emitter: &mut Emitter,
    object: &Exp,
    key: &Exp,
    value: &Exp,
    free: usize,
    line: u32,
) -> Allocated<()>
    ensures { OnOk result (emitter.new ≡ followed emitter.old (field_code emitter.old.constants (Index line (plain_exp object.now) (plain_exp key.now)) (plain_exp value.now) free emitter.old.made (emitter.old.made + (made_by (plain_exp object.now) + made_by (plain_exp key.now)))) (made_by (plain_exp object.now) + made_by (plain_exp key.now) + made_by (plain_exp value.now))) }
{
    let above = next(free)?;
    let top = next(above)?;
    let seat = value_seat(emitter, value);
    let quiet = is_quiet(value);
    let stands = key_seat(emitter, quiet, key);
    let first = stand(emitter, object_at(stands, quiet, object), object, free)?;
    let slot = Slot {
        object: first,
        key: stands,
        above,
        line,
    };
    fill(emitter, slot, key, seat, value, top)?;
    Ok(())
}

/// Writes an assignment of one value to one field, where the registers from one on are free. For another target
/// nothing is written.
#[tactic(auto, using(code_emitter::proofs::Seats::nothing_more))]
pub fn store(emitter: &mut Emitter, target: &Exp, value: &Exp, free: usize) -> Allocated<()>
    ensures { OnOk result (emitter.new ≡ followed emitter.old (field_code emitter.old.constants (plain_exp target.now) (plain_exp value.now) free emitter.old.made (emitter.old.made + made_by (plain_exp target.now))) (made_in_field (plain_exp target.now) (plain_exp value.now))) }
{
    match &target.node {
        ExpNode::Index(object, key) => store_field(emitter, object, key, value, free, target.line),
        _ => Ok(()),
    }
}
