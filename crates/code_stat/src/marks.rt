// The ends of scopes, and variables to be closed.
ghost use Rattle.std.specs.Prelude.{◌≡◌, OnOk};
ghost use Rattle.tree_activation.specs.Statements.{is_closed};
ghost use Rattle.code_of.specs.Parts.{close_code, marks_code};
ghost use Rattle.code_emitter.specs.Listing.{listed};

use code_core::Opcode;
use code_emitter::{Emitter, next};
use int_core::Allocated;
use tree_core::{Attrib, Declared};

/// Whether a variable is to be closed.
pub(crate) fn is_closed(attrib: &Attrib) -> bool
    ensures { result ≡ is_closed attrib.now }
{
    matches!(attrib, Attrib::Close)
}

/// Marks the variables of a declaration that are to be closed, of which the first is in a register.
pub fn write_marks(emitter: &mut Emitter, names: &Vec<Declared>, register: usize) -> Allocated<()>
    ensures { OnOk result (emitter.new ≡ listed emitter.old (marks_code names.now.items register)) }
{
    let mut register = register;
    for declared in names.iter() {
        if is_closed(&declared.attrib) {
            emitter.put_abc(Opcode::Tbc, register, 0, 0, declared.name.line)?;
        }
        register = next(register)?;
    }
    Ok(())
}

/// Ends a scope that begins behind some variables and has some more at its end.
pub fn write_close(emitter: &mut Emitter, before: usize, after: usize, line: u32) -> Allocated<()>
    ensures { OnOk result (emitter.new ≡ listed emitter.old (close_code before after line)) }
{
    if before == after {
        return Ok(());
    }
    emitter.put_abc(Opcode::Close, before, 0, 0, line)
}
