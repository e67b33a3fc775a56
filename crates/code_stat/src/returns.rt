// `return` (Lua 5.4 manual, 3.3.4), where a call that is all of its list takes the place of its caller.
ghost use Rattle.std.specs.Prelude.{◌≡◌, [], ◌∷◌, OnOk};
ghost use Rattle.tree_core.specs.Tree.{exps, Call, Method};
ghost use Rattle.tree_core.specs.Plain.{plain_exp, plain_exps};
ghost use Rattle.code_of.specs.Coded.{leaving_by, leaving_local};
ghost use Rattle.code_of.specs.Expressions.{made_by, made_in};
ghost use Rattle.code_of.specs.Parts.{call_last, method_last, return_code, listed_last, values_last};
ghost use Rattle.code_stat.specs.Tails.{is_called, tail_code};
ghost use Rattle.code_emitter.specs.Listing.{listed, followed};

use crate::targets::count_made;
use code_core::Opcode;
use code_emitter::{Emitter, next};
use code_expr::{expression, list, list_field, lone_local, operand};
use int_core::Allocated;
use tree_core::{Exp, ExpNode, Name};

/// Puts what leaves the function last, a RETURN or a TAILCALL. `back` is its field C; the locals in
/// scope stand below the register.
pub(crate) fn put_leaving(
    emitter: &mut Emitter,
    op: Opcode,
    register: usize,
    field: usize,
    back: usize,
    line: u32,
) -> Allocated<()>
    ensures { OnOk result (emitter.new ≡ listed emitter.old (leaving_by op register field back line ∷ [])) }
{
    emitter.put_flagged(op, register, field, back, 0 < register, line)
}

/// Puts the return of one local, which stays in its register. The locals in scope stand below the other register.
fn put_local(
    emitter: &mut Emitter,
    local: usize,
    register: usize,
    back: usize,
    line: u32,
) -> Allocated<()>
    ensures { OnOk result (emitter.new ≡ listed emitter.old (leaving_local local register back line ∷ [])) }
{
    emitter.put_flagged(Opcode::Return, local, 2, back, 0 < register, line)
}

/// Writes a call in the place of its caller.
fn write_call_last(
    emitter: &mut Emitter,
    called: &Exp,
    arguments: &Vec<Exp>,
    register: usize,
    line: u32,
    back: usize,
) -> Allocated<()>
    ensures { OnOk result (emitter.new ≡ followed emitter.old (call_last emitter.old.constants (plain_exp called.now) (exps (plain_exps arguments.now.items)) register emitter.old.made line back) (made_by (Call line (plain_exp called.now) (exps (plain_exps arguments.now.items))))) }
{
    expression(emitter, called, register, 2)?;
    list(emitter, arguments, None, next(register)?, line)?;
    let field = list_field(0, arguments);
    put_leaving(emitter, Opcode::TailCall, register, field, back, line)?;
    put_leaving(emitter, Opcode::Return, register, 0, back, line)?;
    Ok(())
}

/// Writes the call of a method in the place of its caller.
fn write_method_last(
    emitter: &mut Emitter,
    object: &Exp,
    name: &Name,
    arguments: &Vec<Exp>,
    register: usize,
    line: u32,
    back: usize,
) -> Allocated<()>
    ensures { OnOk result (emitter.new ≡ followed emitter.old (method_last emitter.old.constants (plain_exp object.now) name.now.text (exps (plain_exps arguments.now.items)) register emitter.old.made line back) (made_by (Method line (plain_exp object.now) name.now (exps (plain_exps arguments.now.items))))) }
{
    let above = next(register)?;
    let standing = operand(emitter, object, register)?;
    emitter.look_up_method(&name.text, standing, register, line)?;
    list(emitter, arguments, None, next(above)?, line)?;
    let field = list_field(1, arguments);
    put_leaving(emitter, Opcode::TailCall, register, field, back, line)?;
    put_leaving(emitter, Opcode::Return, register, 0, back, line)?;
    Ok(())
}

/// Whether an expression is a call.
fn is_called(exp: &Exp) -> bool
    ensures { result ≡ is_called (plain_exp exp.now) }
{
    matches!(&exp.node, ExpNode::Call(_, _) | ExpNode::Method(_, _, _))
}

/// Writes a call of either kind in the place of its caller. Of another expression nothing is written.
fn write_tail(emitter: &mut Emitter, call: &Exp, register: usize, back: usize) -> Allocated<()>
    ensures { OnOk result (emitter.new ≡ followed emitter.old (tail_code emitter.old.constants (plain_exp call.now) register emitter.old.made back) (made_by (plain_exp call.now))) }
{
    match &call.node {
        ExpNode::Call(called, arguments) => {
            write_call_last(emitter, called, arguments, register, call.line, back)
        }
        ExpNode::Method(object, name, arguments) => write_method_last(
            emitter, object, name, arguments, register, call.line, back,
        ),
        _ => count_made(emitter, call),
    }
}

/// Writes a list of values to the registers from one on, and the return of them.
fn write_listed_last(
    emitter: &mut Emitter,
    values: &Vec<Exp>,
    register: usize,
    line: u32,
    back: usize,
) -> Allocated<()>
    ensures { OnOk result (emitter.new ≡ followed emitter.old (listed_last emitter.old.constants (exps (plain_exps values.now.items)) register emitter.old.made line back) (made_in (exps (plain_exps values.now.items)))) }
{
    list(emitter, values, None, register, line)?;
    let field = list_field(0, values);
    put_leaving(emitter, Opcode::Return, register, field, back, line)?;
    Ok(())
}

/// Writes the return of a list of values.
fn write_values_last(
    emitter: &mut Emitter,
    values: &Vec<Exp>,
    register: usize,
    line: u32,
    back: usize,
) -> Allocated<()>
    ensures { OnOk result (emitter.new ≡ followed emitter.old (values_last emitter.old.constants (exps (plain_exps values.now.items)) register emitter.old.made line back) (made_in (exps (plain_exps values.now.items)))) }
{
    match lone_local(values) {
        Some(local) => put_local(emitter, local, register, back, line),
        None => write_listed_last(emitter, values, register, line, back),
    }
}

/// Writes `return`, where variables are to be closed or none is. `back` is its field C.
pub fn write_return(
    emitter: &mut Emitter,
    closing: bool,
    values: &Vec<Exp>,
    register: usize,
    line: u32,
    back: usize,
) -> Allocated<()>
    ensures { OnOk result (emitter.new ≡ followed emitter.old (return_code emitter.old.constants closing (exps (plain_exps values.now.items)) register emitter.old.made line back) (made_in (exps (plain_exps values.now.items)))) }
{
    if closing {
        return write_values_last(emitter, values, register, line, back);
    }
    if values.len() != 1 {
        return write_values_last(emitter, values, register, line, back);
    }
    let only = &values[0];
    if is_called(only) {
        return write_tail(emitter, only, register, back);
    }
    write_values_last(emitter, values, register, line, back)
}
