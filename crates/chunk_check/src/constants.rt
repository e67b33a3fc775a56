// Whether the constants, upvalues and functions that an instruction names are there.
ghost use Rattle.std.specs.Prelude.{◌≡◌, slice_get};
ghost use Rattle.std.specs.List.{list_all};
ghost use Rattle.code_core.specs.Check.{there, constant_is, upvalue_there, function_there};
ghost use Rattle.code_core.specs.Fields.{anything, name, integer};
ghost use Rattle.chunk_check.specs.Opcodes.{constants_there, upvalues_there};

use code_core::{Const, Instruction, Opcode, Proto, UpDesc};

/// Whether a constant is there.
fn is_there(proto: &Proto, number: u32) -> bool
    ensures { result ≡ there (constant_is anything) (slice_get proto.now.own.constants number) }
{
    proto.constants.get(number as usize).is_some()
}

/// Whether a constant is there and a string.
fn is_name(proto: &Proto, number: u32) -> bool
    ensures { result ≡ there (constant_is name) (slice_get proto.now.own.constants number) }
{
    match proto.constants.get(number as usize) {
        Some(Const::Str(_)) => true,
        _ => false,
    }
}

/// Whether a constant is there and an integer.
fn is_integer(proto: &Proto, number: u32) -> bool
    ensures { result ≡ there (constant_is integer) (slice_get proto.now.own.constants number) }
{
    match proto.constants.get(number as usize) {
        Some(Const::Int(_)) => true,
        _ => false,
    }
}

/// Whether the constants that an instruction uses are there and of the right sort; `extra` is the field of an EXTRAARG behind it.
pub fn constants_there(proto: &Proto, op: Opcode, word: Instruction, extra: Option<u32>) -> bool
    ensures { result ≡ constants_there proto.now op word extra }
{
    let (b, c) = (u32::from(word.b()), u32::from(word.c()));
    match op {
        Opcode::LoadK => is_there(proto, word.bx()),
        Opcode::LoadKx => match extra {
            Some(number) => is_there(proto, number),
            None => true,
        },
        Opcode::GetTabUp | Opcode::GetField => is_name(proto, c),
        Opcode::SetTabUp | Opcode::SetField => is_name(proto, b)
            && (!word.k() || is_there(proto, c)),
        Opcode::SetTable | Opcode::SetI => !word.k() || is_there(proto, c),
        Opcode::OpSelf => !word.k() || is_name(proto, c),
        Opcode::AddK | Opcode::SubK | Opcode::MulK | Opcode::ModK | Opcode::IDivK => is_integer(
            proto, c,
        ),
        Opcode::BAndK | Opcode::BOrK | Opcode::BXorK => is_integer(proto, c),
        Opcode::MmBinK => is_integer(proto, b),
        Opcode::EqK => is_there(proto, b),
        _ => true,
    }
}

/// Whether the upvalues that an instruction uses are there.
pub fn upvalues_there(proto: &Proto, op: Opcode, word: Instruction) -> bool
    ensures { result ≡ upvalues_there proto.now op word }
{
    match op {
        Opcode::GetUpval | Opcode::SetUpval | Opcode::GetTabUp => (word.b() as usize)
            < proto.upvalues.len(),
        Opcode::SetTabUp => (word.a() as usize) < proto.upvalues.len(),
        _ => true,
    }
}

/// Whether the register or upvalue of which an upvalue is made is there.
fn is_upvalue_there(proto: &Proto, upvalue: &UpDesc) -> bool
    ensures { result ≡ upvalue_there proto.now upvalue.now }
{
    if upvalue.in_stack {
        upvalue.index < proto.stack
    } else {
        (upvalue.index as usize) < proto.upvalues.len()
    }
}

/// Whether all that the upvalues of an inner function are made of is there.
fn captures_there(proto: &Proto, upvalues: &[UpDesc]) -> bool
    ensures { result ≡ list_all (upvalue_there proto.now) upvalues.now }
{
    upvalues
        .iter()
        .all(|upvalue| is_upvalue_there(proto, upvalue))
}

/// Whether a function is there, and what its upvalues are made of.
fn is_function_there(proto: &Proto, protos: &[Proto], number: u32) -> bool
    ensures { result ≡ there (λ inner. list_all (upvalue_there proto.now) inner.own.upvalues) (slice_get protos.now number) }
{
    match protos.get(number as usize) {
        Some(inner) => captures_there(proto, &inner.upvalues),
        None => false,
    }
}

/// Whether the function of which a closure is made is there, and what its upvalues are made of.
pub fn function_there(proto: &Proto, op: Opcode, word: Instruction) -> bool
    ensures { result ≡ function_there proto.now op word }
{
    match op {
        Opcode::Closure => is_function_there(proto, &proto.protos, word.bx()),
        _ => true,
    }
}
