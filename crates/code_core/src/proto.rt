// The prototypes of functions, as a chunk holds them.
ghost use Rattle.std.specs.Prelude.{◌≡◌, ◌<◌, ◌^◌};

use crate::instruction::Instruction;
use int_core::Bytes;
use std::marker::Model;

/// A constant of a function.
#[derive(Debug, PartialEq, Eq, Drop)]
pub enum Const {
    Nil,
    False,
    True,
    /// An integer.
    Int(i64),
    /// A string.
    Str(Bytes),
}

/// Where a function finds an upvalue when it is made.
#[derive(Clone, Copy, Debug, PartialEq, Eq)]
pub struct UpDesc {
    /// Whether it is a register of the enclosing function; else it is one of that function's upvalues.
    pub in_stack: bool,
    /// The number of the register or upvalue.
    pub index: u8,
    /// The sort of variable; not looked at when code runs.
    pub kind: u8,
}

/// The line of an instruction, given in full.
#[derive(Clone, Copy, Debug, PartialEq, Eq)]
pub struct AbsLine {
    /// The place of the instruction.
    pub pc: u32,
    /// Its line.
    pub line: u32,
}

/// A local variable, for debugging.
#[derive(Debug, PartialEq, Eq, Drop)]
pub struct LocVar {
    /// Its name, if it is known.
    pub name: Option<Bytes>,
    /// The first instruction at which it is active.
    pub start: u32,
    /// The first instruction at which it is no more.
    pub end: u32,
}

/// The prototype of a function (`lobject.h` of Lua 5.4).
#[derive(Drop)]
pub struct Proto {
    /// The name of the source.
    pub source: Option<Bytes>,
    /// The line on which the function begins.
    pub line_defined: u32,
    /// The line on which it ends.
    pub last_line: u32,
    /// How many parameters it has.
    pub params: u8,
    /// Whether it takes extra arguments.
    pub vararg: bool,
    /// How many registers it needs.
    pub stack: u8,
    /// Its instructions.
    pub code: Vec<Instruction>,
    /// Its constants.
    pub constants: Vec<Const>,
    /// Its upvalues.
    pub upvalues: Vec<UpDesc>,
    /// The functions that are defined in it.
    pub protos: Vec<Proto>,
    /// The line of each instruction, less that of the one before it; -128 stands for one of `abs_lines`.
    pub line_info: Vec<i8>,
    /// The lines that are given in full.
    pub abs_lines: Vec<AbsLine>,
    /// Its local variables.
    pub locals: Vec<LocVar>,
    /// The names of its upvalues.
    pub up_names: Vec<Option<Bytes>>,
}

impl Model for Proto {
    ghost use Rattle.std.proofs.Common.{arith};
    ghost use Rattle.code_core.specs.Prototype.{Prototype, inner_count};
    ghost use Rattle.code_core.specs.PrototypeCode.{prototype_code};

    ghost Value = { Prototype };

    ghost coded = { prototype_code };

    ghost use Rattle.code_core.specs.PrototypeView.{view_of, most_below-count};

    ghost view = { view_of };

    ghost size = { inner_count };

    ghost size_decreases = { λ p h. omega (arith, most_below-count p.protos.items) };
}

impl Proto {
    ghost use Rattle.code_core.specs.Prototype.{function_count, instruction_count};

    /// How many functions it is, with all that are defined in it.
    pub(crate) fn function_count(&self) -> u64
        requires { function_count self.now < 2 ^ 64 }
        ensures { result ≡ function_count self.now }
    {
        let mut total = 1;
        for inner in &self.protos {
            total += inner.function_count();
        }
        total
    }

    /// How many instructions it has, with those of all functions that are defined in it.
    pub(crate) fn instruction_count(&self) -> u64
        requires { instruction_count self.now < 2 ^ 64 }
        ensures { result ≡ instruction_count self.now }
    {
        let mut total = self.code.len() as u64;
        for inner in &self.protos {
            total += inner.instruction_count();
        }
        total
    }
}
