// The lines of instructions.
ghost use Rattle.std.specs.Prelude.{◌≡◌};
ghost use Rattle.code_core.specs.Check.{given_line};

use crate::proto::AbsLine;

/// The line that is given in full for an instruction.
pub fn given_line(lines: &[AbsLine], pc: usize) -> Option<u32>
    ensures { given_line lines.now pc ≡ result }
{
    for line in lines {
        if line.pc as usize == pc {
            return Some(line.line);
        }
    }
    None
}
