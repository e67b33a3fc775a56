// What a Lua frame does at its word, where that needs no form: calls, returns, concatenations and functions that are made (luaV_execute of lvm.c).
ghost use Rattle.std.specs.Prelude.{◌≡◌, suc, true, IfSome, Some};
ghost use Rattle.code_core.specs.Instruction.{opcode_of};
ghost use Rattle.code_core.specs.declared.opcode.Opcode.TheVariants.{Return};
ghost use Rattle.lua_driver.specs.Words.{IsQuick};

use code_core::Opcode;
use machine_call_rows::CallAt;
use running_frame::Here;

/// What a Lua frame does at its word, where that is done without the instruction's form.
#[derive(Clone, Copy, Debug)]
pub(crate) enum Quick {
    /// A call over the frame.
    Calls(CallAt),
    /// A call in its place: the register of what is called, and one more than the number of the arguments after it or 0 for those up to the end of the open
    /// list.
    TailCalls { function: usize, count: usize },
    /// A return of so many values, one or none.
    Returns { count: usize },
    /// A function that is made: which inner prototype of the function that runs, and the register to which it goes.
    Makes { inner: usize, to: usize },
    /// A concatenation: the first of its registers, and how many there are.
    Concats { first: usize, count: usize },
    /// Any other step.
    Other,
}

/// What a frame does at this word.
pub(crate) fn quick_at(here: Here) -> Quick
    ensures { IsQuick here result }
{
    if !here.runs {
        return Quick::Other;
    }
    let a = usize::from(here.word.a());
    let b = usize::from(here.word.b());
    let inner = here.word.bx() as usize;
    match here.word.opcode() {
        Some(Opcode::Call) => Quick::Calls(CallAt {
            function: a,
            count: b,
            keeps: a,
            iterates: false,
        }),
        Some(Opcode::TForCall) => Quick::Calls(CallAt {
            function: a,
            count: 3,
            keeps: a + 4,
            iterates: true,
        }),
        Some(Opcode::TailCall) => Quick::TailCalls {
            function: a,
            count: b,
        },
        Some(Opcode::Return) => return_at(here),
        Some(Opcode::Return0) => Quick::Returns { count: 0 },
        Some(Opcode::Return1) => Quick::Returns { count: 1 },
        Some(Opcode::Closure) => Quick::Makes { inner, to: a },
        Some(Opcode::Concat) => Quick::Concats { first: a, count: b },
        _ => Quick::Other,
    }
}

/// A return of one value or of none by a RETURN, which is told one more.
fn return_at(here: Here) -> Quick
    requires runs { here.runs ≡ true }
    requires returns { opcode_of here.word ≡ Some Return }
    ensures { IsQuick here result }
{
    let Some(count) = few_of(here.word.b()) else {
        return Quick::Other;
    };
    Quick::Returns { count }
}

/// How many values a RETURN gives that is told one more, where that is one or none.
fn few_of(told: u8) -> Option<usize>
    ensures { IfSome result (λ count. told ≡ suc count) }
{
    match told {
        1 => Some(0),
        2 => Some(1),
        _ => None,
    }
}
