// The opcodes of Lua 5.4's virtual machine.
ghost use Rattle.std.specs.Prelude.{◌≡◌, ◌<◌};

/// An opcode, in the order of its number (`lopcodes.h` of Lua 5.4; `OpSelf` is OP_SELF).
#[derive(Clone, Copy, Debug, PartialEq, Eq)]
pub enum Opcode {
    /// R[A] = R[B].
    Move,
    /// R[A] = sBx.
    LoadI,
    /// A float; no code of whole numbers has it.
    LoadF,
    /// R[A] = K[Bx].
    LoadK,
    /// R[A] = K[Ax of the next instruction].
    LoadKx,
    /// R[A] = false.
    LoadFalse,
    /// R[A] = false, and the next instruction is skipped.
    LFalseSkip,
    /// R[A] = true.
    LoadTrue,
    /// R[A] to R[A+B] = nil.
    LoadNil,
    /// R[A] = U[B].
    GetUpval,
    /// U[B] = R[A].
    SetUpval,
    /// R[A] = U[B][K[C]].
    GetTabUp,
    /// R[A] = R[B][R[C]].
    GetTable,
    /// R[A] = R[B][C].
    GetI,
    /// R[A] = R[B][K[C]].
    GetField,
    /// U[A][K[B]] = RK(C).
    SetTabUp,
    /// R[A][R[B]] = RK(C).
    SetTable,
    /// R[A][B] = RK(C).
    SetI,
    /// R[A][K[B]] = RK(C).
    SetField,
    /// R[A] = a new table.
    NewTable,
    /// OP_SELF: R[A+1] = R[B] and R[A] = R[B][RK(C)].
    OpSelf,
    /// R[A] = R[B] + sC.
    AddI,
    /// R[A] = R[B] + K[C].
    AddK,
    /// R[A] = R[B] - K[C].
    SubK,
    /// R[A] = R[B] * K[C].
    MulK,
    /// R[A] = R[B] % K[C].
    ModK,
    /// R[A] = R[B] ^ K[C], a float.
    PowK,
    /// R[A] = R[B] / K[C], a float.
    DivK,
    /// R[A] = R[B] // K[C].
    IDivK,
    /// R[A] = R[B] & K[C].
    BAndK,
    /// R[A] = R[B] | K[C].
    BOrK,
    /// R[A] = R[B] ~ K[C].
    BXorK,
    /// R[A] = R[B] >> sC.
    ShrI,
    /// R[A] = sC << R[B].
    ShlI,
    /// R[A] = R[B] + R[C].
    Add,
    /// R[A] = R[B] - R[C].
    Sub,
    /// R[A] = R[B] * R[C].
    Mul,
    /// R[A] = R[B] % R[C].
    Mod,
    /// R[A] = R[B] ^ R[C], a float.
    Pow,
    /// R[A] = R[B] / R[C], a float.
    Div,
    /// R[A] = R[B] // R[C].
    IDiv,
    /// R[A] = R[B] & R[C].
    BAnd,
    /// R[A] = R[B] | R[C].
    BOr,
    /// R[A] = R[B] ~ R[C].
    BXor,
    /// R[A] = R[B] << R[C].
    Shl,
    /// R[A] = R[B] >> R[C].
    Shr,
    /// The handler of event C on R[A] and R[B].
    MmBin,
    /// The handler of event C on R[A] and sB.
    MmBinI,
    /// The handler of event C on R[A] and K[B].
    MmBinK,
    /// R[A] = -R[B].
    Unm,
    /// R[A] = ~R[B].
    BNot,
    /// R[A] = not R[B].
    Not,
    /// R[A] = the length of R[B].
    Len,
    /// R[A] = R[A] .. to R[A+B-1].
    Concat,
    /// Closes the variables from R[A] up.
    Close,
    /// R[A] is a variable to be closed.
    Tbc,
    /// A jump by sJ.
    Jmp,
    /// R[A] == R[B], compared with k.
    Eq,
    /// R[A] < R[B], compared with k.
    Lt,
    /// R[A] <= R[B], compared with k.
    Le,
    /// R[A] == K[B], compared with k.
    EqK,
    /// R[A] == sB, compared with k.
    EqI,
    /// R[A] < sB, compared with k.
    LtI,
    /// R[A] <= sB, compared with k.
    LeI,
    /// R[A] > sB, compared with k.
    GtI,
    /// R[A] >= sB, compared with k.
    GeI,
    /// not R[A], compared with k.
    Test,
    /// not R[B], compared with k, or R[A] = R[B].
    TestSet,
    /// R[A](R[A+1] to R[A+B-1]), with C-1 results.
    Call,
    /// The same call in place of the running function.
    TailCall,
    /// Returns R[A] to R[A+B-2].
    Return,
    /// Returns nothing.
    Return0,
    /// Returns R[A].
    Return1,
    /// The end of a round of a numerical loop.
    ForLoop,
    /// The beginning of a numerical loop.
    ForPrep,
    /// The beginning of a generic loop.
    TForPrep,
    /// The call of a generic loop's iterator.
    TForCall,
    /// The end of a round of a generic loop.
    TForLoop,
    /// R[A][C+i] = R[A+i] for i from 1 to B.
    SetList,
    /// R[A] = a closure of the inner function Bx.
    Closure,
    /// C-1 of the extra arguments, from R[A] up.
    VarArg,
    /// Sets the extra arguments apart.
    VarArgPrep,
    /// A wide field Ax of the instruction before it.
    ExtraArg,
}

/// Every opcode, each at the place of its number.
pub const OPCODES: [Opcode; 83] = [
    Opcode::Move,
    Opcode::LoadI,
    Opcode::LoadF,
    Opcode::LoadK,
    Opcode::LoadKx,
    Opcode::LoadFalse,
    Opcode::LFalseSkip,
    Opcode::LoadTrue,
    Opcode::LoadNil,
    Opcode::GetUpval,
    Opcode::SetUpval,
    Opcode::GetTabUp,
    Opcode::GetTable,
    Opcode::GetI,
    Opcode::GetField,
    Opcode::SetTabUp,
    Opcode::SetTable,
    Opcode::SetI,
    Opcode::SetField,
    Opcode::NewTable,
    Opcode::OpSelf,
    Opcode::AddI,
    Opcode::AddK,
    Opcode::SubK,
    Opcode::MulK,
    Opcode::ModK,
    Opcode::PowK,
    Opcode::DivK,
    Opcode::IDivK,
    Opcode::BAndK,
    Opcode::BOrK,
    Opcode::BXorK,
    Opcode::ShrI,
    Opcode::ShlI,
    Opcode::Add,
    Opcode::Sub,
    Opcode::Mul,
    Opcode::Mod,
    Opcode::Pow,
    Opcode::Div,
    Opcode::IDiv,
    Opcode::BAnd,
    Opcode::BOr,
    Opcode::BXor,
    Opcode::Shl,
    Opcode::Shr,
    Opcode::MmBin,
    Opcode::MmBinI,
    Opcode::MmBinK,
    Opcode::Unm,
    Opcode::BNot,
    Opcode::Not,
    Opcode::Len,
    Opcode::Concat,
    Opcode::Close,
    Opcode::Tbc,
    Opcode::Jmp,
    Opcode::Eq,
    Opcode::Lt,
    Opcode::Le,
    Opcode::EqK,
    Opcode::EqI,
    Opcode::LtI,
    Opcode::LeI,
    Opcode::GtI,
    Opcode::GeI,
    Opcode::Test,
    Opcode::TestSet,
    Opcode::Call,
    Opcode::TailCall,
    Opcode::Return,
    Opcode::Return0,
    Opcode::Return1,
    Opcode::ForLoop,
    Opcode::ForPrep,
    Opcode::TForPrep,
    Opcode::TForCall,
    Opcode::TForLoop,
    Opcode::SetList,
    Opcode::Closure,
    Opcode::VarArg,
    Opcode::VarArgPrep,
    Opcode::ExtraArg,
];

impl Opcode {
    ghost use Rattle.code_core.specs.Opcode.{number_of};

    /// Its number.
    pub fn number(self) -> u32
        ensures value { result ≡ number_of self }
        ensures below { result < 83 }
    {
        self as u32
    }
}
