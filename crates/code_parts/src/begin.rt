// How a function begins and ends.
ghost use Rattle.std.specs.Prelude.{◌≡◌, OnOk, IfOk};
ghost use Rattle.tree_core.specs.Plain.{plain_block};
ghost use Rattle.code_of.specs.CodeOf.{opening, back_field, first_line, last_line_of};
ghost use Rattle.code_emitter.specs.Listing.{listed};

use code_core::Opcode;
use code_emitter::{Emitter, next};
use int_core::Allocated;
use std::alloc::AllocError;
use tree_core::Block;

/// The line on which a function begins; the main function has line 0, and begins on line 1.
fn first_line(line: u32) -> u32
    ensures { result ≡ first_line line }
{
    if line == 0 { 1 } else { line }
}

/// Puts what a function with `...` begins by last.
pub fn put_opening(emitter: &mut Emitter, vararg: bool, params: usize, line: u32) -> Allocated<()>
    ensures { OnOk result (emitter.new ≡ listed emitter.old (opening vararg params line)) }
{
    if vararg {
        return emitter.put_abc(Opcode::VarArgPrep, params, 0, 0, first_line(line));
    }
    Ok(())
}

/// The field C of a function's returns: one more than the number of parameters where the function
/// has `...`, else 0.
pub fn back_field(vararg: bool, params: usize) -> Allocated<usize>
    ensures { IfOk result (λ field. field ≡ back_field vararg params) }
{
    if vararg { next(params) } else { Ok(0) }
}

/// The line on which a function ends, from its first line; the main function has neither.
pub fn last_line(block: &Block, line: u32) -> u32
    ensures { result ≡ last_line_of (plain_block block.now) line }
{
    if line == 0 { 0 } else { block.line }
}

/// A number of parameters or registers as a prototype keeps it, in 8 bits. The static rules limit
/// variables and held values, so that none should be greater; as no proof says so, a greater one
/// is answered as want of memory.
pub fn byte(number: usize) -> Allocated<u8>
    ensures { IfOk result (λ byte. byte ≡ number) }
{
    u8::try_from(number).map_err(|_| AllocError)
}
