// The form of each instruction.
ghost use Rattle.std.specs.Option.{option_map};
ghost use Rattle.std.specs.Prelude.{◌≡◌, ℕ, ◌+◌, ◌-◌, false, None, pos, cond, Some, slice_get, IfSome, IfNone};
ghost use Rattle.code_core.specs.Instruction.{a_of, b_of, c_of, k_of, sb_of, sc_of};
ghost use Rattle.code_core.specs.Prototype.{Prototype};
ghost use Rattle.machine_core.specs.InstructionRows.{row_of};
ghost use Rattle.instruction_forms.specs.Choice.{IsNone, operators};
ghost use Rattle.instruction_forms.specs.Forms.{text_of};
ghost use Rattle.instruction_forms.specs.Waiting.{form_at};
ghost use Rattle.instruction_forms.specs.declared.operand.Operand.TheVariants.{Register, Constant, Upvalue, Integer, Truth};
ghost use Rattle.instruction_forms.specs.declared.operand.Operands.TheVariants.{One, Twice, Two, Three};
ghost use Rattle.instruction_forms.specs.declared.operand.Operation.TheVariants.{Index, Store, Arithmetic as ByOperator};
ghost use Rattle.instruction_forms.specs.declared.form.After.TheVariants.{ToRegister, ToRegisterBefore, Next as NoValue, Tests};
ghost use Rattle.instruction_forms.specs.declared.form.Form.TheVariants.{Load, Operate, Arithmetic};

use crate::form::{After, Form};
use crate::operand::{Operand, Operands, Operation, Operator};
use code_core::{Instruction, Opcode};

/// The operators whose handlers MMBIN and its kin ask for, from the number of `__add` on, each where its number is (ltm.h of Lua 5.4). Two are of
/// floats, and stand for none.
const OPERATORS: [Operator; 12] = [
    Operator::Add,
    Operator::Sub,
    Operator::Mul,
    Operator::Mod,
    Operator::Add,
    Operator::Add,
    Operator::IDiv,
    Operator::BAnd,
    Operator::BOr,
    Operator::BXor,
    Operator::Shl,
    Operator::Shr,
];

/// The form of an instruction, wherever it stands. `None` of one that no checked code has: whoever does it finds that something is missing.
pub fn form_of(op: Opcode, i: Instruction) -> Option<Form>
    ensures form { IfSome result (λ form. (p : Prototype) (pc : ℕ) → text_of p pc form ≡ row_of p pc op i) }
    ensures none { IfNone result (IsNone op i) }
    ensures is { result ≡ form_at op i }
{
    match op {
        Opcode::Move => Some(load(register(i.b()), i, false)),
        Opcode::LoadI => Some(load(Operand::Integer(i64::from(i.sbx())), i, false)),
        Opcode::LoadK => Some(load(Operand::Constant(i.bx() as usize), i, false)),
        Opcode::LoadKx => Some(Form::LoadFar { to: a(i) }),
        Opcode::LoadFalse => Some(load(Operand::Truth(false), i, false)),
        Opcode::LFalseSkip => Some(load(Operand::Truth(false), i, true)),
        Opcode::LoadTrue => Some(load(Operand::Truth(true), i, false)),
        Opcode::LoadNil => Some(Form::Clear {
            from: a(i),
            count: b(i) + 1,
        }),
        Opcode::GetUpval => Some(load(Operand::Upvalue(b(i)), i, false)),
        Opcode::SetUpval => Some(Form::StoreUpvalue {
            from: a(i),
            upvalue: b(i),
        }),
        Opcode::GetTabUp => Some(index(Operand::Upvalue(b(i)), constant(i.c()), i)),
        Opcode::GetTable => Some(index(register(i.b()), register(i.c()), i)),
        Opcode::GetI => Some(index(register(i.b()), Operand::Integer(i64::from(i.c())), i)),
        Opcode::GetField => Some(index(register(i.b()), constant(i.c()), i)),
        Opcode::SetTabUp => Some(store(Operand::Upvalue(a(i)), constant(i.b()), i)),
        Opcode::SetTable => Some(store(register(i.a()), register(i.b()), i)),
        Opcode::SetI => Some(store(register(i.a()), Operand::Integer(i64::from(i.b())), i)),
        Opcode::SetField => Some(store(register(i.a()), constant(i.b()), i)),
        Opcode::NewTable => Some(Form::NewTable { to: a(i) }),
        Opcode::OpSelf => Some(index_method(i)),
        Opcode::AddI => Some(arithmetic(Operator::Add, register(i.b()), short(i.sc()), i)),
        Opcode::AddK => Some(arithmetic(Operator::Add, register(i.b()), constant(i.c()), i)),
        Opcode::SubK => Some(arithmetic(Operator::Sub, register(i.b()), constant(i.c()), i)),
        Opcode::MulK => Some(arithmetic(Operator::Mul, register(i.b()), constant(i.c()), i)),
        Opcode::ModK => Some(arithmetic(Operator::Mod, register(i.b()), constant(i.c()), i)),
        Opcode::IDivK => Some(arithmetic(Operator::IDiv, register(i.b()), constant(i.c()), i)),
        Opcode::BAndK => Some(arithmetic(Operator::BAnd, register(i.b()), constant(i.c()), i)),
        Opcode::BOrK => Some(arithmetic(Operator::BOr, register(i.b()), constant(i.c()), i)),
        Opcode::BXorK => Some(arithmetic(Operator::BXor, register(i.b()), constant(i.c()), i)),
        Opcode::ShrI => Some(arithmetic(Operator::Shr, register(i.b()), short(i.sc()), i)),
        Opcode::ShlI => Some(arithmetic(Operator::Shl, short(i.sc()), register(i.b()), i)),
        Opcode::Add => Some(arithmetic(Operator::Add, register(i.b()), register(i.c()), i)),
        Opcode::Sub => Some(arithmetic(Operator::Sub, register(i.b()), register(i.c()), i)),
        Opcode::Mul => Some(arithmetic(Operator::Mul, register(i.b()), register(i.c()), i)),
        Opcode::Mod => Some(arithmetic(Operator::Mod, register(i.b()), register(i.c()), i)),
        Opcode::IDiv => Some(arithmetic(Operator::IDiv, register(i.b()), register(i.c()), i)),
        Opcode::BAnd => Some(arithmetic(Operator::BAnd, register(i.b()), register(i.c()), i)),
        Opcode::BOr => Some(arithmetic(Operator::BOr, register(i.b()), register(i.c()), i)),
        Opcode::BXor => Some(arithmetic(Operator::BXor, register(i.b()), register(i.c()), i)),
        Opcode::Shl => Some(arithmetic(Operator::Shl, register(i.b()), register(i.c()), i)),
        Opcode::Shr => Some(arithmetic(Operator::Shr, register(i.b()), register(i.c()), i)),
        Opcode::MmBin => handled(register(i.b()), false, i),
        Opcode::MmBinI => handled(short(i.sb()), i.k(), i),
        Opcode::MmBinK => handled(constant(i.b()), i.k(), i),
        Opcode::Unm => Some(unary(
            Operation::Arithmetic(Operator::Unm),
            Operands::Twice(register(i.b())),
            i,
        )),
        Opcode::BNot => Some(unary(
            Operation::Arithmetic(Operator::BNot),
            Operands::Twice(register(i.b())),
            i,
        )),
        Opcode::Not => Some(Form::Negate {
            from: b(i),
            to: a(i),
        }),
        Opcode::Len => Some(unary(Operation::Length, Operands::One(register(i.b())), i)),
        Opcode::Concat => Some(Form::Concatenate {
            first: a(i),
            count: b(i),
        }),
        Opcode::Close => Some(Form::Close { from: a(i) }),
        Opcode::Tbc => Some(Form::Mark {
            register: a(i),
            ahead: 1,
        }),
        Opcode::Jmp => Some(Form::Jump { by: i.sj() }),
        Opcode::Eq => Some(compare(Operation::Equal, register(i.a()), register(i.b()), i)),
        Opcode::Lt => Some(compare(Operation::Less, register(i.a()), register(i.b()), i)),
        Opcode::Le => Some(compare(Operation::LessEqual, register(i.a()), register(i.b()), i)),
        Opcode::EqK => Some(compare(Operation::Equal, register(i.a()), constant(i.b()), i)),
        Opcode::EqI => Some(compare(Operation::Equal, register(i.a()), short(i.sb()), i)),
        Opcode::LtI => Some(compare(Operation::Less, register(i.a()), short(i.sb()), i)),
        Opcode::LeI => Some(compare(Operation::LessEqual, register(i.a()), short(i.sb()), i)),
        Opcode::GtI => Some(compare(Operation::Less, short(i.sb()), register(i.a()), i)),
        Opcode::GeI => Some(compare(Operation::LessEqual, short(i.sb()), register(i.a()), i)),
        Opcode::Test => Some(Form::Test {
            register: a(i),
            wanted: i.k(),
        }),
        Opcode::TestSet => Some(Form::TestSet {
            from: b(i),
            to: a(i),
            wanted: i.k(),
        }),
        Opcode::Call => Some(Form::Call {
            function: a(i),
            count: b(i),
            keeps: a(i),
            iterates: false,
        }),
        Opcode::TailCall => Some(Form::TailCall {
            function: a(i),
            count: b(i),
        }),
        Opcode::Return => Some(Form::Return {
            from: a(i),
            count: b(i),
        }),
        Opcode::Return0 => Some(Form::ReturnSome {
            from: a(i),
            count: 0,
        }),
        Opcode::Return1 => Some(Form::ReturnSome {
            from: a(i),
            count: 1,
        }),
        Opcode::ForLoop => Some(Form::Loop {
            base: a(i),
            by: i.bx() as usize,
        }),
        Opcode::ForPrep => Some(Form::StartLoop {
            base: a(i),
            by: i.bx() as usize,
        }),
        Opcode::TForPrep => Some(Form::Mark {
            register: a(i) + 3,
            ahead: i.bx() as usize + 1,
        }),
        Opcode::TForCall => Some(Form::Call {
            function: a(i),
            count: 3,
            keeps: a(i) + 4,
            iterates: true,
        }),
        Opcode::TForLoop => Some(Form::LoopOver {
            base: a(i),
            by: i.bx() as usize,
        }),
        Opcode::SetList => Some(Form::FillTable {
            table: a(i),
            count: b(i),
            last: c(i),
            far: i.k(),
        }),
        Opcode::Closure => Some(Form::NewFunction {
            inner: i.bx() as usize,
            to: a(i),
        }),
        Opcode::VarArg => Some(Form::ExtraArguments {
            to: a(i),
            count: c(i),
        }),
        Opcode::VarArgPrep => Some(Form::Next),
        Opcode::LoadF
        | Opcode::PowK
        | Opcode::DivK
        | Opcode::Pow
        | Opcode::Div
        | Opcode::ExtraArg => None,
    }
}

/// The field A.
fn a(i: Instruction) -> usize
    ensures { result ≡ a_of i }
{
    usize::from(i.a())
}

/// The field B.
fn b(i: Instruction) -> usize
    ensures { result ≡ b_of i }
{
    usize::from(i.b())
}

/// The field C.
fn c(i: Instruction) -> usize
    ensures { result ≡ c_of i }
{
    usize::from(i.c())
}

/// The register with this number.
fn register(number: u8) -> Operand
    ensures { result ≡ Register number }
{
    Operand::Register(usize::from(number))
}

/// The constant with this number.
fn constant(number: u8) -> Operand
    ensures { result ≡ Constant number }
{
    Operand::Constant(usize::from(number))
}

/// The integer in a short signed field.
fn short(field: i16) -> Operand
    ensures { result ≡ Integer field }
{
    Operand::Integer(i64::from(field))
}

/// RK(C): with k a constant.
fn register_or_constant(i: Instruction) -> Operand
    ensures { result ≡ cond (k_of i) (Constant (c_of i)) (Register (c_of i)) }
{
    if i.k() {
        constant(i.c())
    } else {
        register(i.c())
    }
}

/// R[A] gets a value.
fn load(from: Operand, i: Instruction, skips: bool) -> Form
    ensures { result ≡ Load from (a_of i) skips }
{
    Form::Load {
        from,
        to: a(i),
        skips,
    }
}

/// R[A] gets the value of a field.
fn index(object: Operand, key: Operand, i: Instruction) -> Form
    ensures { result ≡ Operate Index (Two object key false) None (ToRegister (a_of i)) }
{
    Form::Operate {
        operation: Operation::Index,
        operands: two(object, key),
        also: None,
        after: After::ToRegister(a(i)),
    }
}

/// SELF: R[A] gets the value of a field of R[B], and R[A + 1] R[B] itself.
fn index_method(i: Instruction) -> Form
    ensures { result ≡ Operate Index (Two (Register (b_of i)) (cond (k_of i) (Constant (c_of i)) (Register (c_of i))) false) (Some (a_of i + 1)) (ToRegister (a_of i)) }
{
    Form::Operate {
        operation: Operation::Index,
        operands: two(register(i.b()), register_or_constant(i)),
        also: Some(a(i) + 1),
        after: After::ToRegister(a(i)),
    }
}

/// A field gets the value RK(C).
fn store(object: Operand, key: Operand, i: Instruction) -> Form
    ensures { result ≡ Operate Store (Three object key (cond (k_of i) (Constant (c_of i)) (Register (c_of i)))) None NoValue }
{
    Form::Operate {
        operation: Operation::Store,
        operands: Operands::Three(object, key, register_or_constant(i)),
        also: None,
        after: After::Next,
    }
}

/// R[A] gets the result of an operator on integers.
fn arithmetic(operator: Operator, left: Operand, right: Operand, i: Instruction) -> Form
    ensures { result ≡ Arithmetic operator left right (a_of i) }
{
    Form::Arithmetic {
        operator,
        left,
        right,
        to: a(i),
    }
}

/// R[A] gets the result of an operation with one operand.
fn unary(operation: Operation, operands: Operands, i: Instruction) -> Form
    ensures { result ≡ Operate operation operands None (ToRegister (a_of i)) }
{
    Form::Operate {
        operation,
        operands,
        also: None,
        after: After::ToRegister(a(i)),
    }
}

/// A comparison decides whether the next instruction is passed over.
fn compare(operation: Operation, left: Operand, right: Operand, i: Instruction) -> Form
    ensures { result ≡ Operate operation (Two left right false) None (Tests (k_of i)) }
{
    Form::Operate {
        operation,
        operands: two(left, right),
        also: None,
        after: After::Tests(i.k()),
    }
}

/// The operator numbered C on R[A] and another operand, by a handler.
fn handled(second: Operand, swapped: bool, i: Instruction) -> Option<Form>
    ensures { result ≡ option_map (λ operator. Operate (ByOperator operator) (Two (Register (a_of i)) second swapped) None ToRegisterBefore) (slice_get operators (c_of i - 6)) }
{
    let operator = operator_numbered(c(i))?;
    Some(Form::Operate {
        operation: Operation::Arithmetic(operator),
        operands: Operands::Two {
            first: register(i.a()),
            second,
            swapped,
        },
        also: None,
        after: After::ToRegisterBefore,
    })
}

/// The operator that a handler is asked for by number.
fn operator_numbered(number: usize) -> Option<Operator>
    ensures { result ≡ slice_get operators (number - 6) }
{
    OPERATORS.get(number.saturating_sub(6)).copied()
}

/// Two operands in their order.
fn two(first: Operand, second: Operand) -> Operands
    ensures { result ≡ Two first second false }
{
    Operands::Two {
        first,
        second,
        swapped: false,
    }
}
