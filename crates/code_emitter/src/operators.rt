// Operators, whose operands stand in registers or are numerals.
ghost use Rattle.std.specs.Prelude.{◌≡◌, ◌+◌, [], ◌∷◌, OnOk, IfOk};
ghost use Rattle.code_core.specs.declared.opcode.Opcode.TheVariants.{GetTable, GetI, GetField};
ghost use Rattle.code_of.specs.Coded.{with_abc};
ghost use Rattle.code_of.specs.Operators.{sum_code, truth_code, operator_code, number_code, number_opcode, prefix_code, prefix_opcode};
ghost use Rattle.code_of.specs.Operations.{constant_code};
ghost use Rattle.code_emitter.specs.Listing.{listed};
ghost use Rattle.code_emitter.specs.Operands.{done_code};

use crate::emitter::Emitter;
use crate::operands::{Operands, Second};
use code_core::Opcode;
use int_core::Allocated;
use std::alloc::AllocError;
use tree_core::{BinOp, UnOp};

/// The opcode of a prefix operator.
fn prefix_opcode(op: UnOp) -> Opcode
    ensures { result ≡ prefix_opcode op }
{
    match op {
        UnOp::Neg => Opcode::Unm,
        UnOp::BitNot => Opcode::BNot,
        UnOp::Not => Opcode::Not,
        UnOp::Len => Opcode::Len,
    }
}

/// The field of a numeral, which is 127 more.
pub(crate) fn field_of(number: usize) -> Allocated<usize>
    ensures { IfOk result (λ field. field ≡ number + 127) }
{
    number.checked_add(127).ok_or(AllocError)
}

/// The opcode of a comparison with a numeral; of an operator that does not compare some opcode.
pub(crate) fn number_opcode(op: BinOp) -> Opcode
    ensures { result ≡ number_opcode op }
{
    match op {
        BinOp::Lt => Opcode::LtI,
        BinOp::Le => Opcode::LeI,
        BinOp::Gt => Opcode::GtI,
        BinOp::Ge => Opcode::GeI,
        _ => Opcode::EqI,
    }
}

/// Where a result goes.
#[derive(Clone, Copy)]
struct Target {
    /// The register.
    register: usize,
    /// The line of the instructions that make it.
    line: u32,
}

impl Emitter {
    /// Does a prefix operator to the value of a register.
    pub fn prefix(&mut self, op: UnOp, operand: usize, target: usize, line: u32) -> Allocated<()>
        ensures { OnOk result (self.new ≡ listed self.old (prefix_code op operand target line)) }
    {
        self.put_abc(prefix_opcode(op), target, operand, 0, line)
    }

    /// Does an operator to its operands, where they stand.
    pub fn apply(
        &mut self,
        op: BinOp,
        operands: Operands,
        target: usize,
        line: u32,
    ) -> Allocated<()>
        ensures { OnOk result (self.new ≡ listed self.old (done_code operands.second operands.first (λ x n. constant_code op x n target line) (λ x y. operator_code op x y target line) (λ x n. number_code op x n target line))) }
    {
        let at = Target {
            register: target,
            line,
        };
        match operands.second {
            Second::Constant(number) => self.with_constant(op, operands.first, number, at),
            Second::Number(number) => self.with_number(op, operands.first, number, at),
            Second::Register(register) => self.operator(op, operands.first, register, at),
        }
    }

    /// Reads a field, whose object and key stand somewhere.
    pub fn read_field(&mut self, operands: Operands, target: usize, line: u32) -> Allocated<()>
        ensures { OnOk result (self.new ≡ listed self.old (done_code operands.second operands.first (λ x n. with_abc GetField target x n line ∷ []) (λ x y. with_abc GetTable target x y line ∷ []) (λ x n. with_abc GetI target x n line ∷ []))) }
    {
        match operands.second {
            Second::Constant(number) => {
                self.put_abc(Opcode::GetField, target, operands.first, number, line)
            }
            Second::Number(number) => {
                self.put_abc(Opcode::GetI, target, operands.first, number, line)
            }
            Second::Register(register) => {
                self.put_abc(Opcode::GetTable, target, operands.first, register, line)
            }
        }
    }

    /// Does an operator to the values of two registers. Those of `..` follow each other from the target on.
    fn operator(&mut self, op: BinOp, x: usize, y: usize, at: Target) -> Allocated<()>
        ensures { OnOk result (self.new ≡ listed self.old (operator_code op x y at.register at.line)) }
    {
        match op {
            BinOp::Add => self.arithmetic(Opcode::Add, Opcode::MmBin, 6, x, y, at),
            BinOp::Sub => self.arithmetic(Opcode::Sub, Opcode::MmBin, 7, x, y, at),
            BinOp::Mul => self.arithmetic(Opcode::Mul, Opcode::MmBin, 8, x, y, at),
            BinOp::Mod => self.arithmetic(Opcode::Mod, Opcode::MmBin, 9, x, y, at),
            BinOp::Idiv => self.arithmetic(Opcode::IDiv, Opcode::MmBin, 12, x, y, at),
            BinOp::Band => self.arithmetic(Opcode::BAnd, Opcode::MmBin, 13, x, y, at),
            BinOp::Bor => self.arithmetic(Opcode::BOr, Opcode::MmBin, 14, x, y, at),
            BinOp::Bxor => self.arithmetic(Opcode::BXor, Opcode::MmBin, 15, x, y, at),
            BinOp::Shl => self.arithmetic(Opcode::Shl, Opcode::MmBin, 16, x, y, at),
            BinOp::Shr => self.arithmetic(Opcode::Shr, Opcode::MmBin, 17, x, y, at),
            BinOp::Concat => self.put_abc(Opcode::Concat, at.register, 2, 0, at.line),
            BinOp::Eq => self.truth(Opcode::Eq, x, y, true, at),
            BinOp::Ne => self.truth(Opcode::Eq, x, y, false, at),
            BinOp::Lt => self.truth(Opcode::Lt, x, y, true, at),
            BinOp::Le => self.truth(Opcode::Le, x, y, true, at),
            BinOp::Gt => self.truth(Opcode::Lt, y, x, true, at),
            BinOp::Ge => self.truth(Opcode::Le, y, x, true, at),
        }
    }

    /// Arithmetic of a register and another one or a constant, and the instruction that asks for
    /// its event where it is wanted (`ltm.h` of Lua 5.4 has the numbers of events).
    fn arithmetic(
        &mut self,
        op: Opcode,
        asks: Opcode,
        event: usize,
        x: usize,
        y: usize,
        at: Target,
    ) -> Allocated<()>
        ensures { OnOk result (self.new ≡ listed self.old (with_abc op at.register x y at.line ∷ with_abc asks x y event at.line ∷ [])) }
    {
        self.put_abc(op, at.register, x, y, at.line)?;
        self.put_abc(asks, x, y, event, at.line)
    }

    /// Does an operator to the value of a register and a numeral.
    fn with_number(&mut self, op: BinOp, x: usize, number: usize, at: Target) -> Allocated<()>
        ensures { OnOk result (self.new ≡ listed self.old (number_code op x number at.register at.line)) }
    {
        let raised = field_of(number)?;
        let lowered = 127usize.saturating_sub(number);
        match op {
            BinOp::Add => self.sum(Opcode::AddI, raised, 6, x, number, at),
            BinOp::Sub => self.sum(Opcode::AddI, lowered, 7, x, number, at),
            BinOp::Shl => self.sum(Opcode::ShrI, lowered, 16, x, number, at),
            BinOp::Shr => self.sum(Opcode::ShrI, raised, 17, x, number, at),
            BinOp::Eq => self.truth(Opcode::EqI, x, raised, true, at),
            BinOp::Ne => self.truth(Opcode::EqI, x, raised, false, at),
            BinOp::Lt => self.truth(Opcode::LtI, x, raised, true, at),
            BinOp::Le => self.truth(Opcode::LeI, x, raised, true, at),
            BinOp::Gt => self.truth(Opcode::GtI, x, raised, true, at),
            BinOp::Ge => self.truth(Opcode::GeI, x, raised, true, at),
            _ => Ok(()),
        }
    }

    /// Does an operator to the value of a register and a constant.
    fn with_constant(&mut self, op: BinOp, x: usize, number: usize, at: Target) -> Allocated<()>
        ensures { OnOk result (self.new ≡ listed self.old (constant_code op x number at.register at.line)) }
    {
        let (opcode, event) = match op {
            BinOp::Add => (Opcode::AddK, 6),
            BinOp::Sub => (Opcode::SubK, 7),
            BinOp::Mul => (Opcode::MulK, 8),
            BinOp::Mod => (Opcode::ModK, 9),
            BinOp::Idiv => (Opcode::IDivK, 12),
            BinOp::Band => (Opcode::BAndK, 13),
            BinOp::Bor => (Opcode::BOrK, 14),
            BinOp::Bxor => (Opcode::BXorK, 15),
            BinOp::Eq => return self.truth(Opcode::EqK, x, number, true, at),
            BinOp::Ne => return self.truth(Opcode::EqK, x, number, false, at),
            _ => return Ok(()),
        };
        self.arithmetic(opcode, Opcode::MmBinK, event, x, number, at)
    }

    /// A sum with a numeral, a difference or a shift by one, and its event.
    fn sum(
        &mut self,
        op: Opcode,
        field: usize,
        event: usize,
        x: usize,
        number: usize,
        at: Target,
    ) -> Allocated<()>
        ensures { OnOk result (self.new ≡ listed self.old (sum_code op field event x number at.register at.line)) }
    {
        let operand = field_of(number)?;
        self.put_abc(op, at.register, x, field, at.line)?;
        self.put_abc(Opcode::MmBinI, x, operand, event, at.line)
    }

    /// Whether a comparison of two registers, or of one with a numeral's field or a constant, comes to k.
    fn truth(&mut self, op: Opcode, x: usize, y: usize, k: bool, at: Target) -> Allocated<()>
        ensures { OnOk result (self.new ≡ listed self.old (truth_code op x y k at.register at.line)) }
    {
        self.put_flagged(op, x, y, 0, k, at.line)?;
        self.put_jump_over(1, at.line)?;
        self.put_abc(Opcode::LFalseSkip, at.register, 0, 0, at.line)?;
        self.put_abc(Opcode::LoadTrue, at.register, 0, 0, at.line)
    }
}
