// What an instruction does, by its form.

use crate::operand::{Operand, Operands, Operation, Operator};

/// What becomes of the value of an operation.
#[derive(Debug, Clone, Copy, PartialEq, Eq)]
pub enum After {
    /// It goes to a register.
    ToRegister(usize),
    /// It goes to the register of the instruction in front.
    ToRegisterBefore,
    /// There is none.
    Next,
    /// The next instruction is passed over where its truth is another one.
    Tests(bool),
}

/// What an instruction does.
#[derive(Debug, Clone, Copy, PartialEq, Eq)]
pub enum Form {
    /// Nothing: VARARGPREP.
    Next,
    /// A value goes to a register: MOVE, LOADI, LOADK, LOADFALSE, LFALSESKIP, LOADTRUE, GETUPVAL.
    Load {
        from: Operand,
        to: usize,
        /// Whether the next instruction is passed over.
        skips: bool,
    },
    /// The constant that the next word names goes to a register: LOADKX.
    LoadFar {
        to: usize,
    },
    /// So many registers become nil: LOADNIL.
    Clear {
        from: usize,
        count: usize,
    },
    /// A register's value goes to an upvalue: SETUPVAL.
    StoreUpvalue {
        from: usize,
        upvalue: usize,
    },
    /// An operation that a handler may do: GETTABUP, GETTABLE, GETI, GETFIELD, SELF, SETTABUP, SETTABLE, SETI, SETFIELD, MMBIN, MMBINI,
    /// MMBINK, UNM, BNOT, LEN, EQ, LT, LE, EQK, EQI, LTI, LEI, GTI, GEI.
    Operate {
        operation: Operation,
        operands: Operands,
        /// The register that the first operand goes to as well: SELF's.
        also: Option<usize>,
        after: After,
    },
    /// An operator on two integers; the next instruction does what is not on integers: ADD to SHR, ADDK to BXORK, ADDI, SHRI, SHLI.
    Arithmetic {
        operator: Operator,
        left: Operand,
        right: Operand,
        to: usize,
    },
    /// The other truth goes to a register: NOT.
    Negate {
        from: usize,
        to: usize,
    },
    /// Values of so many registers are joined: CONCAT.
    Concatenate {
        first: usize,
        count: usize,
    },
    /// Variables from a register on are closed: CLOSE.
    Close {
        from: usize,
    },
    /// A variable is to be closed, and the frame goes on so far ahead: TBC, TFORPREP.
    Mark {
        register: usize,
        ahead: usize,
    },
    /// JMP.
    Jump {
        by: i32,
    },
    /// TEST.
    Test {
        register: usize,
        wanted: bool,
    },
    /// TESTSET.
    TestSet {
        from: usize,
        to: usize,
        wanted: bool,
    },
    /// FORPREP, which leaves the loop by so much.
    StartLoop {
        base: usize,
        by: usize,
    },
    /// FORLOOP, which goes back by so much.
    Loop {
        base: usize,
        by: usize,
    },
    /// TFORLOOP, which goes back by so much.
    LoopOver {
        base: usize,
        by: usize,
    },
    /// CALL, and TFORCALL, which iterates. The frame keeps the registers in front of `keeps`. Of `count` 0 the arguments are those up to the
    /// end of the open list, else they are one fewer.
    Call {
        function: usize,
        count: usize,
        keeps: usize,
        iterates: bool,
    },
    /// TAILCALL, with `count` as in a call.
    TailCall {
        function: usize,
        count: usize,
    },
    /// RETURN, with `count` as in a call.
    Return {
        from: usize,
        count: usize,
    },
    /// RETURN0 and RETURN1: so many values.
    ReturnSome {
        from: usize,
        count: usize,
    },
    /// NEWTABLE.
    NewTable {
        to: usize,
    },
    /// SETLIST: so many values, or for 0 those up to the end of the open list, go to the indexes behind `last`, to which the next word adds
    /// where it is far.
    FillTable {
        table: usize,
        count: usize,
        last: usize,
        far: bool,
    },
    /// CLOSURE: a function of an inner prototype.
    NewFunction {
        inner: usize,
        to: usize,
    },
    /// VARARG, with `count` as in a call.
    ExtraArguments {
        to: usize,
        count: usize,
    },
}
