// Tests of registers, and the jumps behind them, which lead over the next instruction or away.
ghost use Rattle.std.specs.Prelude.{◌≡◌, [], ◌∷◌, List, Bool, cond, not, OnOk, IfOk, IfSome, length};
ghost use Rattle.code_core.specs.declared.opcode.Opcode as opcode;
ghost use Rattle.code_core.specs.declared.opcode.Opcode.TheVariants.{LoadFalse, LoadTrue};
ghost use Rattle.code_of.specs.Coded.{Coded, jump_over};
ghost use Rattle.code_of.specs.Truths.{jump_if, pick, compared, load_truth};
ghost use Rattle.code_emitter.specs.Comparing.{compared_by, constant_test, registers_test, number_test};
ghost use Rattle.code_emitter.specs.Leading.{Opened};
ghost use Rattle.code_emitter.specs.Listing.{listed};
ghost use Rattle.code_emitter.specs.Operands.{done_code};

use crate::emitter::Emitter;
use crate::operands::{Operands, Second};
use crate::operators::{field_of, number_opcode};
use code_core::Opcode;
use int_core::Allocated;
use tree_core::BinOp;

/// How a comparison is made.
#[derive(Clone, Copy, Debug, PartialEq, Eq)]
pub struct Comparison {
    /// The operator.
    pub op: BinOp,
    /// The instruction for two registers.
    pub opcode: Opcode,
    /// Whether it takes the right operand first.
    pub swapped: bool,
    /// What it comes to where the operator's result is true.
    pub wanted: bool,
}

/// How an operator compares, or none for one that does not.
pub fn comparing(op: BinOp) -> Option<Comparison>
    ensures code { (other : List Coded) (by : opcode.Opcode → Bool → Bool → List Coded) → compared op other by ≡ compared_by result other by }
    ensures operator { IfSome result (λ comparison. comparison.op ≡ op) }
{
    let (opcode, swapped, wanted) = match op {
        BinOp::Eq => (Opcode::Eq, false, true),
        BinOp::Ne => (Opcode::Eq, false, false),
        BinOp::Lt => (Opcode::Lt, false, true),
        BinOp::Le => (Opcode::Le, false, true),
        BinOp::Gt => (Opcode::Lt, true, true),
        BinOp::Ge => (Opcode::Le, true, true),
        BinOp::Add
        | BinOp::Sub
        | BinOp::Mul
        | BinOp::Mod
        | BinOp::Idiv
        | BinOp::Band
        | BinOp::Bor
        | BinOp::Bxor
        | BinOp::Shl
        | BinOp::Shr
        | BinOp::Concat => return None,
    };
    Some(Comparison {
        op,
        opcode,
        swapped,
        wanted,
    })
}

/// One of two registers.
fn pick(second: bool, x: usize, y: usize) -> usize
    ensures { result ≡ pick second x y }
{
    if second { y } else { x }
}

/// The flag k of a comparison behind which code goes on where the operator's result is this.
pub fn flag(comparison: &Comparison, wanted: bool) -> bool
    ensures { result ≡ cond comparison.now.wanted (not wanted) wanted }
{
    if comparison.wanted { !wanted } else { wanted }
}

/// The opcode that loads a truth.
fn truth_opcode(k: bool) -> Opcode
    ensures { result ≡ cond k LoadTrue LoadFalse }
{
    if k {
        Opcode::LoadTrue
    } else {
        Opcode::LoadFalse
    }
}

/// The places of jumps that lead away.
pub type Places = Vec<usize>;

impl Emitter {
    /// Writes the comparison of operands, where they stand, and the jump behind it.
    pub fn test_operands(
        &mut self,
        comparison: &Comparison,
        operands: Operands,
        k: bool,
        line: u32,
    ) -> Allocated<Places>
        ensures { IfOk result (λ places. Opened self.old self.new (λ ahead. done_code operands.second operands.first (constant_test k ahead line) (registers_test comparison.now k ahead line) (number_test comparison.now k ahead line)) 0 places.items) }
    {
        let first = operands.first;
        match operands.second {
            Second::Constant(number) => self.test(Opcode::EqK, first, number, k, line),
            Second::Number(number) => self.test_number(comparison, first, number, k, line),
            Second::Register(register) => {
                self.test_registers(comparison, first, register, k, line)
            }
        }
    }

    /// Writes the comparison of a register and a numeral, and the jump behind it.
    fn test_number(
        &mut self,
        comparison: &Comparison,
        first: usize,
        number: usize,
        k: bool,
        line: u32,
    ) -> Allocated<Places>
        ensures { IfOk result (λ places. Opened self.old self.new (λ ahead. number_test comparison.now k ahead line first number) 0 places.items) }
    {
        let field = field_of(number)?;
        let opcode = number_opcode(comparison.op);
        let away = self.test(opcode, first, field, k, line)?;
        Ok(away)
    }

    /// Writes the comparison of two registers, and the jump behind it.
    fn test_registers(
        &mut self,
        comparison: &Comparison,
        first: usize,
        second: usize,
        k: bool,
        line: u32,
    ) -> Allocated<Places>
        ensures { IfOk result (λ places. Opened self.old self.new (λ ahead. registers_test comparison.now k ahead line first second) 0 places.items) }
    {
        let x = pick(comparison.swapped, first, second);
        let y = pick(comparison.swapped, second, first);
        let away = self.test(comparison.opcode, x, y, k, line)?;
        Ok(away)
    }

    /// Writes the condition that is always true: no code, or a jump alone.
    pub fn always(&mut self, wanted: bool, line: u32) -> Allocated<Places>
        ensures { IfOk result (λ places. Opened self.old self.new (λ ahead. cond wanted [] (jump_over ahead line ∷ [])) 0 places.items) }
    {
        if wanted {
            return Ok(Vec::new(self.alloc()));
        }
        let away = self.jump_away(line)?;
        Ok(away)
    }

    /// Writes an instruction that tests and the jump behind it, which is taken or passed over.
    pub fn test(&mut self, op: Opcode, x: usize, y: usize, k: bool, line: u32) -> Allocated<Places>
        ensures { IfOk result (λ places. Opened self.old self.new (λ ahead. jump_if op x y k ahead line) 0 places.items) }
    {
        self.put_flagged(op, x, y, 0, k, line)?;
        let away = self.jump_away(line)?;
        Ok(away)
    }

    /// Writes a jump that leads away, and answers its place.
    fn jump_away(&mut self, line: u32) -> Allocated<Places>
        ensures jump { OnOk result (self.new ≡ listed self.old (jump_over 0 line ∷ [])) }
        ensures place { IfOk result (λ away. away.items ≡ length self.old.steps ∷ []) }
    {
        let mut away = Vec::new(self.alloc());
        let place = self.put_open_jump(line)?;
        away.push(place)?;
        Ok(away)
    }

    /// Writes the load of a truth and a jump that leads away.
    pub fn load_truth(&mut self, k: bool, target: usize, line: u32) -> Allocated<Places>
        ensures { IfOk result (λ places. Opened self.old self.new (λ ahead. load_truth k ahead target line) 0 places.items) }
    {
        self.put_abc(truth_opcode(k), target, 0, 0, line)?;
        let away = self.jump_away(line)?;
        Ok(away)
    }
}
