// The rules on instructions.
use super::Word::{Abc, Abck, Abx, Extra, Jump, Raw};
use super::*;
use code_core::Opcode::{
    Add, AddK, Call, Closure, Concat, Div, DivK, Eq, EqK, ForLoop, ForPrep, GetField, GetUpval,
    LFalseSkip, LoadF, LoadK, LoadKx, LoadNil, MmBin, MmBinI, MmBinK, Move, NewTable, OpSelf, Pow,
    PowK, Return, Return1, SetField, SetList, SetTabUp, Shr, TForCall, TForLoop, TForPrep,
    TailCall, Test, VarArg, VarArgPrep,
};

/// Code of a function that takes no extra arguments.
static CASES: [Case; 98] = [
    // the opcode is one of code on whole numbers
    (Abc(NewTable, 0, 0, 0), Extra(0), SAME, LAST, 0, 0),
    (Raw(0x53), SAME, SAME, LAST, 0, 2),
    (SAME, Raw(0x7f), SAME, LAST, 1, 2),
    (Abx(LoadF, 0, 0), SAME, SAME, LAST, 0, 2),
    (Abc(PowK, 0, 0, 1), SAME, SAME, LAST, 0, 2),
    (Abc(DivK, 0, 0, 1), SAME, SAME, LAST, 0, 2),
    (Abc(Pow, 0, 0, 0), SAME, SAME, LAST, 0, 2),
    (Abc(Div, 0, 0, 0), SAME, SAME, LAST, 0, 2),
    // registers are there
    (Abc(Move, 7, 7, 0), SAME, SAME, LAST, 0, 0),
    (Abc(Move, 8, 0, 0), SAME, SAME, LAST, 0, 3),
    (Abc(Move, 0, 8, 0), SAME, SAME, LAST, 0, 3),
    (Abc(LoadNil, 0, 7, 0), SAME, SAME, LAST, 0, 0),
    (Abc(LoadNil, 1, 7, 0), SAME, SAME, LAST, 0, 3),
    (Abc(Call, 5, 3, 4), SAME, SAME, LAST, 0, 0),
    (Abc(Call, 5, 4, 1), SAME, SAME, LAST, 0, 3),
    (Abc(Call, 5, 1, 5), SAME, SAME, LAST, 0, 3),
    (Abc(Return, 7, 2, 0), SAME, SAME, LAST, 0, 0),
    (Abc(Return, 7, 3, 0), SAME, SAME, LAST, 0, 3),
    (Abc(Concat, 6, 2, 0), SAME, SAME, LAST, 0, 0),
    (Abc(Concat, 6, 3, 0), SAME, SAME, LAST, 0, 3),
    (Abc(OpSelf, 6, 0, 7), SAME, SAME, LAST, 0, 0),
    (Abc(OpSelf, 7, 0, 7), SAME, SAME, LAST, 0, 3),
    (Abc(SetList, 5, 2, 0), SAME, SAME, LAST, 0, 0),
    (Abc(SetList, 5, 3, 0), SAME, SAME, LAST, 0, 3),
    (Abx(ForPrep, 4, 0), SAME, Abx(ForLoop, 4, 2), LAST, 0, 0),
    (Abx(ForPrep, 5, 0), SAME, Abx(ForLoop, 4, 2), LAST, 0, 3),
    (
        Abx(TForPrep, 1, 0),
        Abc(TForCall, 1, 0, 3),
        Abx(TForLoop, 1, 2),
        LAST,
        0,
        0,
    ),
    (
        Abx(TForPrep, 1, 0),
        Abc(TForCall, 1, 0, 4),
        Abx(TForLoop, 1, 2),
        LAST,
        1,
        3,
    ),
    (
        Abx(TForPrep, 2, 0),
        Abc(TForCall, 2, 0, 1),
        Abx(TForLoop, 2, 2),
        LAST,
        1,
        3,
    ),
    // constants are there, and of the right sort
    (Abx(LoadK, 0, 2), SAME, SAME, LAST, 0, 0),
    (Abx(LoadK, 0, 3), SAME, SAME, LAST, 0, 4),
    (Abc(LoadKx, 0, 0, 0), Extra(2), SAME, LAST, 0, 0),
    (Abc(LoadKx, 0, 0, 0), Extra(3), SAME, LAST, 0, 4),
    (Abc(GetField, 0, 0, 0), SAME, SAME, LAST, 0, 0),
    (Abc(GetField, 0, 0, 1), SAME, SAME, LAST, 0, 4),
    (Abck(SetField, 0, 0, 2), SAME, SAME, LAST, 0, 0),
    (Abck(SetField, 0, 0, 3), SAME, SAME, LAST, 0, 4),
    (Abck(SetField, 0, 1, 2), SAME, SAME, LAST, 0, 4),
    (Abck(OpSelf, 0, 0, 0), SAME, SAME, LAST, 0, 0),
    (Abck(OpSelf, 0, 0, 2), SAME, SAME, LAST, 0, 4),
    (Abc(AddK, 0, 0, 1), Abc(MmBinK, 0, 1, 6), SAME, LAST, 0, 0),
    (Abc(AddK, 0, 0, 0), Abc(MmBinK, 0, 1, 6), SAME, LAST, 0, 4),
    (Abc(AddK, 0, 0, 1), Abc(MmBinK, 0, 2, 6), SAME, LAST, 1, 4),
    (Abc(EqK, 0, 2, 0), Jump(0), SAME, LAST, 0, 0),
    (Abc(EqK, 0, 3, 0), Jump(0), SAME, LAST, 0, 4),
    // upvalues are there
    (Abc(GetUpval, 0, 1, 0), SAME, SAME, LAST, 0, 0),
    (Abc(GetUpval, 0, 2, 0), SAME, SAME, LAST, 0, 5),
    (Abc(SetTabUp, 1, 0, 7), SAME, SAME, LAST, 0, 0),
    (Abc(SetTabUp, 2, 0, 7), SAME, SAME, LAST, 0, 5),
    // the function of which a closure is made is there
    (Abx(Closure, 0, 0), SAME, SAME, LAST, 0, 0),
    (Abx(Closure, 0, 1), SAME, SAME, LAST, 0, 6),
    // jumps land in the code, and on no second half of a pair
    (Jump(2), SAME, SAME, LAST, 0, 0),
    (Jump(3), SAME, SAME, LAST, 0, 7),
    (SAME, Jump(-2), SAME, LAST, 0, 0),
    (SAME, Jump(-3), SAME, LAST, 1, 7),
    (Jump(0), Abc(Add, 0, 0, 0), Abc(MmBin, 0, 0, 6), LAST, 0, 0),
    (Jump(1), Abc(Add, 0, 0, 0), Abc(MmBin, 0, 0, 6), LAST, 0, 7),
    (Jump(1), SAME, Jump(0), LAST, 0, 0),
    (Jump(1), Abc(Test, 0, 0, 0), Jump(0), LAST, 0, 7),
    (Abc(LFalseSkip, 0, 0, 0), SAME, LAST, LAST, 0, 0),
    (
        Abc(LFalseSkip, 0, 0, 0),
        Abc(Test, 0, 0, 0),
        Jump(0),
        LAST,
        0,
        7,
    ),
    (SAME, SAME, Abc(LFalseSkip, 0, 0, 0), LAST, 2, 7),
    (Abx(ForPrep, 0, 1), SAME, Abx(ForLoop, 0, 3), LAST, 0, 0),
    (Abx(ForPrep, 0, 2), SAME, Abx(ForLoop, 0, 2), LAST, 0, 7),
    (Abx(ForPrep, 0, 1), SAME, Abx(ForLoop, 0, 4), LAST, 2, 7),
    (
        Abx(TForPrep, 1, 1),
        Abc(TForCall, 1, 0, 1),
        Abx(TForLoop, 1, 2),
        LAST,
        0,
        7,
    ),
    // pairs
    (Abc(Eq, 0, 1, 0), Jump(0), SAME, LAST, 0, 0),
    (Abc(Eq, 0, 1, 0), SAME, Jump(0), LAST, 0, 8),
    (Abc(Shr, 0, 0, 0), Abc(MmBin, 0, 0, 17), SAME, LAST, 0, 0),
    (Abc(Add, 0, 0, 0), Abc(MmBin, 0, 0, 5), SAME, LAST, 0, 8),
    (Abc(Add, 0, 0, 0), Abc(MmBin, 0, 0, 10), SAME, LAST, 0, 8),
    (Abc(Add, 0, 0, 0), Abc(MmBin, 0, 0, 11), SAME, LAST, 0, 8),
    (Abc(Shr, 0, 0, 0), Abc(MmBin, 0, 0, 18), SAME, LAST, 0, 8),
    (Abc(Add, 0, 0, 0), Abc(MmBinI, 0, 0, 6), SAME, LAST, 0, 8),
    (SAME, Abc(MmBin, 0, 0, 6), SAME, LAST, 1, 8),
    (SAME, Extra(0), SAME, LAST, 1, 8),
    (Abc(NewTable, 0, 0, 0), SAME, SAME, LAST, 0, 8),
    (Abc(LoadKx, 0, 0, 0), SAME, SAME, LAST, 0, 8),
    (Abck(SetList, 0, 1, 0), Extra(1), SAME, LAST, 0, 0),
    (Abck(SetList, 0, 1, 0), SAME, SAME, LAST, 0, 8),
    (Abc(SetList, 0, 1, 0), Extra(1), SAME, LAST, 1, 8),
    (
        SAME,
        Abc(TForCall, 1, 0, 1),
        Abx(TForLoop, 0, 2),
        LAST,
        1,
        8,
    ),
    // the last instruction returns
    (SAME, SAME, SAME, Abc(Return, 0, 1, 0), 0, 0),
    (SAME, SAME, SAME, Abc(Return1, 7, 2, 0), 0, 0),
    (SAME, SAME, SAME, SAME, 3, 9),
    (SAME, SAME, SAME, Jump(-4), 3, 9),
    (SAME, SAME, SAME, Abc(TailCall, 0, 1, 0), 3, 9),
    // an open list is taken by the very next instruction, from its register or one below, and no jump lands there
    (Abc(Call, 1, 1, 0), Abc(Call, 1, 0, 1), SAME, LAST, 0, 0),
    (Abc(Call, 1, 1, 0), Abc(SetList, 0, 0, 0), SAME, LAST, 0, 0),
    (Abc(Call, 1, 1, 0), Abc(Call, 2, 0, 1), SAME, LAST, 0, 10),
    (Abc(Call, 1, 1, 0), SAME, Abc(Return, 1, 0, 0), LAST, 0, 10),
    (Abc(Call, 1, 1, 1), Abc(Return, 1, 0, 0), SAME, LAST, 1, 10),
    (
        Jump(0),
        Abc(Call, 1, 1, 0),
        Abc(Return, 1, 0, 0),
        LAST,
        0,
        0,
    ),
    (
        Jump(1),
        Abc(Call, 1, 1, 0),
        Abc(Return, 1, 0, 0),
        LAST,
        0,
        10,
    ),
    (
        Abc(TailCall, 1, 1, 2),
        Abc(Return, 1, 0, 0),
        SAME,
        LAST,
        0,
        0,
    ),
    (Abc(TailCall, 1, 1, 2), LAST, SAME, LAST, 0, 10),
    // extra arguments are neither set apart nor read
    (Abc(VarArgPrep, 0, 0, 0), SAME, SAME, LAST, 0, 11),
    (SAME, Abc(VarArg, 0, 0, 2), SAME, LAST, 1, 11),
];

/// Code of a function that takes extra arguments.
static VARARG_CASES: [Case; 7] = [
    (
        Abc(VarArgPrep, 0, 0, 0),
        Abc(VarArg, 0, 0, 9),
        SAME,
        LAST,
        0,
        0,
    ),
    (
        Abc(VarArgPrep, 0, 0, 0),
        Abc(VarArg, 0, 0, 10),
        SAME,
        LAST,
        1,
        3,
    ),
    (
        Abc(VarArgPrep, 0, 0, 0),
        Abc(VarArg, 7, 0, 0),
        Abc(Return, 7, 0, 0),
        LAST,
        0,
        0,
    ),
    (
        Abc(VarArgPrep, 0, 0, 0),
        Abc(VarArg, 1, 0, 0),
        SAME,
        LAST,
        1,
        10,
    ),
    (
        Abc(VarArgPrep, 0, 0, 0),
        Abc(VarArgPrep, 0, 0, 0),
        SAME,
        LAST,
        1,
        11,
    ),
    (Abc(VarArg, 0, 0, 2), SAME, SAME, LAST, 0, 11),
    (SAME, SAME, SAME, LAST, 0, 11),
];

#[test]
fn rules_on_instructions_hold_at_their_edge(rt: HostRuntime) -> Result<(), Fail> {
    for (number, (first, second, third, last, pc, rule)) in CASES.iter().copied().enumerate() {
        let proto = function(rt.alloc(), &[first, second, third, last])?;
        assert_eq!(rt;
            first_fault(rt.alloc(), proto),
            (0, pc, rule),
            "case {number}"
        );
    }
    for (number, (first, second, third, last, pc, rule)) in VARARG_CASES
        .iter()
        .copied()
        .enumerate()
    {
        let mut proto = function(rt.alloc(), &[first, second, third, last])?;
        proto.vararg = true;
        assert_eq!(rt;
            first_fault(rt.alloc(), proto),
            (0, pc, rule),
            "vararg case {number}"
        );
    }
    Ok(())
}
