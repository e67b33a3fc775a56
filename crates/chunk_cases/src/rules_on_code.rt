// Each rule on code at its edge, where it holds, and past it, where it is broken, and the order in which functions are numbered.
use chunk_check::{CheckFault, check};
use code_core::{AbsLine, Const, Instruction, Opcode, Proto, UpDesc};
use int_core::Bytes;
use std::alloc::{AllocError, Global};
use std::test::Fail;

mod code;
mod description;

/// An instruction of a case.
#[derive(Clone, Copy)]
enum Word {
    /// The fields A, B and C, without k.
    Abc(Opcode, u8, u8, u8),
    /// The fields A, B and C, with k.
    Abck(Opcode, u8, u8, u8),
    /// The fields A and Bx.
    Abx(Opcode, u8, u16),
    /// An EXTRAARG with this field.
    Extra(u16),
    /// A jump past so many instructions.
    Jump(i16),
    /// The word itself.
    Raw(u32),
}

/// Four instructions, then the place of the first fault and the rule that is broken there, or 0 and 0.
type Case = (Word, Word, Word, Word, u32, u8);

/// An instruction that breaks no rule and has no part in a case.
const SAME: Word = Word::Abc(Opcode::Move, 0, 0, 0);

/// The last instruction of a function.
const LAST: Word = Word::Abc(Opcode::Return0, 0, 1, 0);

fn instruction(word: Word) -> Instruction {
    match word {
        Word::Abc(op, a, b, c) => Instruction::make_abc(op, a, b, c, false),
        Word::Abck(op, a, b, c) => Instruction::make_abc(op, a, b, c, true),
        Word::Abx(op, a, bx) => Instruction::make_abx(op, a, u32::from(bx)),
        Word::Extra(ax) => Instruction::make_ax(Opcode::ExtraArg, u32::from(ax)),
        Word::Jump(by) => Instruction::make_sj(Opcode::Jmp, i32::from(by)),
        Word::Raw(word) => Instruction(word),
    }
}

/// An upvalue made of a register, or of an upvalue.
fn upvalue(in_stack: bool, index: u8) -> UpDesc {
    UpDesc {
        in_stack,
        index,
        kind: 0,
    }
}

/// A function of eight registers with this code and nothing else.
fn bare(alloc: Global, code: &[Word]) -> Result<Proto, AllocError> {
    let mut words = Vec::new(alloc);
    for word in code {
        words.push(instruction(*word))?;
    }
    Ok(Proto {
        source: None,
        line_defined: 0,
        last_line: 0,
        params: 0,
        vararg: false,
        stack: 8,
        code: words,
        constants: Vec::new(alloc),
        upvalues: Vec::new(alloc),
        protos: Vec::new(alloc),
        line_info: Vec::new(alloc),
        abs_lines: Vec::new(alloc),
        locals: Vec::new(alloc),
        up_names: Vec::new(alloc),
    })
}

/// A function with this code: eight registers, the constants "x", 7 and true, two upvalues, and a function that takes its last
/// register and its last upvalue.
fn function(alloc: Global, code: &[Word]) -> Result<Proto, AllocError> {
    let mut inner = bare(alloc, &[LAST])?;
    inner.upvalues = Vec::from_slice(alloc, &[upvalue(true, 7), upvalue(false, 1)])?;
    let mut proto = bare(alloc, code)?;
    let name = Bytes::of(Vec::from_slice(alloc, b"x")?);
    proto.constants.push(Const::Str(name))?;
    proto.constants.push(Const::Int(7))?;
    proto.constants.push(Const::True)?;
    proto.upvalues = Vec::from_slice(alloc, &[upvalue(true, 0), upvalue(false, 0)])?;
    proto.protos.push(inner)?;
    Ok(proto)
}

/// The function and the place of the first fault and the rule that is broken there, or 0, 0 and 0 where the code is kept.
fn first_fault(alloc: Global, proto: Proto) -> (u32, u32, u8) {
    match check(alloc, proto) {
        Err(CheckFault::Refused { function, pc, rule }) => (function, pc, rule),
        Err(CheckFault::Memory) => (0, 0, 255),
        Ok(_) => (0, 0, 0),
    }
}

#[test]
fn functions_are_numbered_as_they_begin(rt: HostRuntime) -> Result<(), Fail> {
    let alloc = rt.alloc();
    let mut first = bare(alloc, &[LAST])?;
    first.protos.push(bare(alloc, &[LAST])?)?;
    let second = bare(alloc, &[LAST, Word::Abc(Opcode::Move, 0, 8, 0)])?;
    let mut main = bare(alloc, &[LAST])?;
    main.protos.push(first)?;
    main.protos.push(second)?;
    assert_eq!(rt; first_fault(alloc, main), (3, 1, 3));
    Ok(())
}
