// Expressions (Lua 5.4 manual, 3.4), whose values go to registers.
ghost use Rattle.std.specs.Prelude.{◌≡◌, ◌+◌, ◌++◌, OnOk, IfOk, map, nat_eq};
ghost use Rattle.tree_core.specs.Tree.{exps, fields, Index, Binary, Unary, Table};
ghost use Rattle.tree_core.specs.Plain.{plain_exp, plain_exps, plain_field};
ghost use Rattle.code_of.specs.Expressions.{exp_code, exps_code, list_field, waiting_code, made_by, made_in, made_in_fields, made_by_field};
ghost use Rattle.code_of.specs.Operands.{local_of, seat, unless};
ghost use Rattle.code_of.specs.Parts.{direct_code};
ghost use Rattle.code_emitter.specs.Listing.{followed};
ghost use Rattle.code_emitter.specs.declared.operands.Second.TheVariants.{Register};
ghost use Rattle.code_emitter.specs.Operands.{stays_code, stays_made, stays_at};
ghost use Rattle.code_expr.specs.Parts.{so_many, passed_code, method_code, keyed_code, field_code, items_behind};
ghost use Rattle.code_expr.specs.Testing.{either_value};

use crate::chains::{join, joins};
use crate::items::{Items, item, plus, store_items};
use crate::keeping::keep;
use crate::lists::{field_where, fills, list_field, wanted_where};
use crate::literals::literal;
use crate::quiet::is_quiet;
use crate::stores::{Slot, fill, key_seat, name_in, value_seat};
use code_core::Opcode;
use code_emitter::{Emitter, Operands, Second, key_staying, local_of, next};
use int_core::Allocated;
use tree_core::{BinOp, Exp, ExpNode, Field, Name, UnOp};

/// Writes an expression, whose value goes to a register. `results` is the field C of a call
/// or `...`: one more than the number of values that are wanted, or 0 for all.
#[cycle(expressions)]
#[tactic(auto, using(code_emitter::proofs::Joining::none_made, tree_core::proofs::Rows::exps_of, tree_core::proofs::Rows::fields_of, crate::proofs::Rows::body_line))]
pub fn expression(emitter: &mut Emitter, exp: &Exp, target: usize, results: usize) -> Allocated<()>
    ensures { OnOk result (emitter.new ≡ followed emitter.old (exp_code emitter.old.constants (plain_exp exp.now) target emitter.old.made results) (made_by (plain_exp exp.now))) }
{
    let line = exp.line;
    match &exp.node {
        ExpNode::Nil | ExpNode::True | ExpNode::False | ExpNode::Int(_) | ExpNode::Str(_) => {
            literal(emitter, exp, target)
        }
        ExpNode::Vararg => emitter.put_abc(Opcode::VarArg, target, 0, results, line),
        ExpNode::Function(body) => emitter.put_closure(target, body.line),
        ExpNode::Var(name) => emitter.read_name(name, target, target, line),
        ExpNode::Paren(inner) => expression(emitter, inner, target, 2),
        ExpNode::Unary(op, operand) => unary(emitter, *op, operand, target, target, line),
        ExpNode::Binary(op, left, right) => binary(emitter, *op, left, right, target, line),
        ExpNode::Index(object, key) => index(emitter, object, key, target, target, line),
        ExpNode::And(left, right) => either(emitter, false, left, right, target),
        ExpNode::Or(left, right) => either(emitter, true, left, right, target),
        ExpNode::Call(called, arguments) => {
            let field = pass(emitter, called, arguments, target, line)?;
            emitter.put_abc(Opcode::Call, target, field, results, line)
        }
        ExpNode::Method(object, name, arguments) => {
            let field = pass_method(emitter, object, name, arguments, target, line)?;
            emitter.put_abc(Opcode::Call, target, field, results, line)
        }
        ExpNode::Table(list) => table(emitter, list, target, line),
    }
}

/// Writes a prefix operator and its operand. The value goes to one register, where those from another one on are free.
#[cycle(expressions)]
pub(crate) fn unary(
    emitter: &mut Emitter,
    op: UnOp,
    inner: &Exp,
    target: usize,
    free: usize,
    line: u32,
) -> Allocated<()>
    ensures { OnOk result (emitter.new ≡ followed emitter.old (direct_code emitter.old.constants (Unary line op (plain_exp inner.now)) target free emitter.old.made) (made_by (Unary line op (plain_exp inner.now)))) }
{
    let register = operand(emitter, inner, free)?;
    emitter.prefix(op, register, target, line)?;
    Ok(())
}

/// Writes an operator between two operands and these.
#[cycle(expressions)]
fn binary(
    emitter: &mut Emitter,
    op: BinOp,
    left: &Exp,
    right: &Exp,
    target: usize,
    line: u32,
) -> Allocated<()>
    ensures { OnOk result (emitter.new ≡ followed emitter.old (exp_code emitter.old.constants (Binary line op (plain_exp left.now) (plain_exp right.now)) target emitter.old.made 2) (made_by (Binary line op (plain_exp left.now) (plain_exp right.now)))) }
{
    if joins(op) {
        return join(emitter, left, right, target, line);
    }
    let stays = emitter.standing(op, right);
    let operands = operands(emitter, stays, left, right, target)?;
    emitter.apply(op, operands, target, line)?;
    Ok(())
}

/// Writes two operands, of which the second one stays somewhere or is made, and answers where they stand.
#[cycle(expressions)]
pub(crate) fn operands(
    emitter: &mut Emitter,
    stays: Option<Second>,
    left: &Exp,
    right: &Exp,
    target: usize,
) -> Allocated<Operands>
    ensures code { OnOk result (emitter.new ≡ followed emitter.old (stays_code stays (local_of (plain_exp left.now)) (exp_code emitter.old.constants (plain_exp left.now) target emitter.old.made 2) (exp_code emitter.old.constants (plain_exp right.now) (target + 1) (emitter.old.made + made_by (plain_exp left.now)) 2)) (stays_made stays (made_by (plain_exp left.now)) (made_by (plain_exp right.now)))) }
    ensures places { IfOk result (λ operands. operands ≡ stays_at stays (local_of (plain_exp left.now)) target) }
{
    match stays {
        Some(second) => beside(emitter, left, second, target),
        None => both(emitter, left, right, target),
    }
}

/// Writes the first operand beside a second one that stays where it is.
#[cycle(expressions)]
fn beside(emitter: &mut Emitter, left: &Exp, second: Second, target: usize) -> Allocated<Operands>
    ensures code { OnOk result (emitter.new ≡ followed emitter.old (unless (local_of (plain_exp left.now)) (exp_code emitter.old.constants (plain_exp left.now) target emitter.old.made 2)) (made_by (plain_exp left.now))) }
    ensures places { IfOk result (λ operands. operands ≡ record { first = seat (local_of (plain_exp left.now)) target; second = second }) }
{
    let first = operand(emitter, left, target)?;
    Ok(Operands { first, second })
}

/// Writes both operands into registers.
#[cycle(expressions)]
fn both(emitter: &mut Emitter, left: &Exp, right: &Exp, target: usize) -> Allocated<Operands>
    ensures code { OnOk result (emitter.new ≡ followed emitter.old (exp_code emitter.old.constants (plain_exp left.now) target emitter.old.made 2 ++ exp_code emitter.old.constants (plain_exp right.now) (target + 1) (emitter.old.made + made_by (plain_exp left.now)) 2) (made_by (plain_exp left.now) + made_by (plain_exp right.now))) }
    ensures places { IfOk result (λ operands. operands ≡ record { first = target; second = Register (target + 1) }) }
{
    let above = next(target)?;
    expression(emitter, left, target, 2)?;
    expression(emitter, right, above, 2)?;
    Ok(Operands {
        first: target,
        second: Second::Register(above),
    })
}

/// Writes an operand, if it does not stay in its own register, and answers the register in which it stands.
#[cycle(expressions)]
pub fn operand(emitter: &mut Emitter, exp: &Exp, target: usize) -> Allocated<usize>
    ensures code { OnOk result (emitter.new ≡ followed emitter.old (unless (local_of (plain_exp exp.now)) (exp_code emitter.old.constants (plain_exp exp.now) target emitter.old.made 2)) (made_by (plain_exp exp.now))) }
    ensures place { IfOk result (λ register. register ≡ seat (local_of (plain_exp exp.now)) target) }
{
    if let Some(register) = local_of(exp) {
        return Ok(register);
    }
    expression(emitter, exp, target, 2)?;
    Ok(target)
}

/// Writes a field that goes to one register, where the registers from another one on are free.
#[cycle(expressions)]
pub(crate) fn index(
    emitter: &mut Emitter,
    object: &Exp,
    key: &Exp,
    target: usize,
    free: usize,
    line: u32,
) -> Allocated<()>
    ensures { OnOk result (emitter.new ≡ followed emitter.old (direct_code emitter.old.constants (Index line (plain_exp object.now) (plain_exp key.now)) target free emitter.old.made) (made_by (Index line (plain_exp object.now) (plain_exp key.now)))) }
{
    match name_in(emitter, key) {
        Some(number) => {
            let register = operand(emitter, object, free)?;
            emitter.put_abc(Opcode::GetField, target, register, number, line)
        }
        None => {
            let operands = operands(emitter, key_staying(key), object, key, free)?;
            emitter.read_field(operands, target, line)
        }
    }
}

/// Writes `and` or `or`, where the first operand decides if its truth is `decides`.
#[cycle(expressions)]
fn either(
    emitter: &mut Emitter,
    decides: bool,
    first: &Exp,
    second: &Exp,
    target: usize,
) -> Allocated<()>
    ensures { OnOk result (emitter.new ≡ followed emitter.old (either_value emitter.old.constants decides (plain_exp first.now) (plain_exp second.now) target emitter.old.made) (made_by (plain_exp first.now) + made_by (plain_exp second.now))) }
{
    let decided = keep(emitter, first, decides, target)?;
    expression(emitter, second, target, 2)?;
    let end = emitter.steps().len();
    emitter.lead(&decided, end)?;
    Ok(())
}

/// Writes what is called and the arguments behind it, and answers the field B of the call.
#[cycle(expressions)]
pub fn pass(
    emitter: &mut Emitter,
    called: &Exp,
    arguments: &Vec<Exp>,
    target: usize,
    line: u32,
) -> Allocated<usize>
    ensures code { OnOk result (emitter.new ≡ followed emitter.old (passed_code emitter.old.constants (plain_exp called.now) (exps (plain_exps arguments.now.items)) target emitter.old.made line) (made_by (plain_exp called.now) + made_in (exps (plain_exps arguments.now.items)))) }
    ensures field { IfOk result (λ field. field ≡ list_field 0 (exps (plain_exps arguments.now.items))) }
{
    expression(emitter, called, target, 2)?;
    list(emitter, arguments, None, next(target)?, line)?;
    Ok(list_field(0, arguments))
}

/// Writes a method with its object and the arguments behind them, and answers the field B of the call.
#[cycle(expressions)]
pub fn pass_method(
    emitter: &mut Emitter,
    object: &Exp,
    name: &Name,
    arguments: &Vec<Exp>,
    target: usize,
    line: u32,
) -> Allocated<usize>
    ensures code { OnOk result (emitter.new ≡ followed emitter.old (method_code emitter.old.constants (plain_exp object.now) name.now.text (exps (plain_exps arguments.now.items)) target emitter.old.made line) (made_by (plain_exp object.now) + made_in (exps (plain_exps arguments.now.items)))) }
    ensures field { IfOk result (λ field. field ≡ list_field 1 (exps (plain_exps arguments.now.items))) }
{
    let above = next(target)?;
    let register = operand(emitter, object, target)?;
    emitter.look_up_method(&name.text, register, target, line)?;
    list(emitter, arguments, None, next(above)?, line)?;
    Ok(list_field(1, arguments))
}

/// Writes a list of expressions, whose values go to the registers from one on: as many as are
/// wanted, or an open list.
#[cycle(expressions)]
pub fn list(
    emitter: &mut Emitter,
    list: &Vec<Exp>,
    wanted: Option<usize>,
    target: usize,
    line: u32,
) -> Allocated<()>
    ensures { OnOk result (emitter.new ≡ followed emitter.old (exps_code emitter.old.constants (exps (plain_exps list.now.items)) wanted target emitter.old.made line) (made_in (exps (plain_exps list.now.items)))) }
{
    let mut wanted = wanted;
    let mut register = target;
    let mut left = list.len();
    for exp in list.iter() {
        left -= 1;
        let fills = fills(exp, left);
        expression(emitter, exp, register, field_where(fills, wanted)?)?;
        wanted = wanted_where(fills, wanted);
        register = next(register)?;
    }
    emitter.nils(wanted, register, line)?;
    Ok(())
}

/// Writes a table constructor.
#[cycle(expressions)]
fn table(emitter: &mut Emitter, list: &Vec<Field>, target: usize, line: u32) -> Allocated<()>
    ensures { OnOk result (emitter.new ≡ followed emitter.old (exp_code emitter.old.constants (Table line (fields (map plain_field list.now.items))) target emitter.old.made 2) (made_in_fields (fields (map plain_field list.now.items)))) }
{
    emitter.put_abc(Opcode::NewTable, target, 0, 0, line)?;
    emitter.put_ax(Opcode::ExtraArg, 0, line)?;
    let mut items = Items {
        stored: 0,
        waiting: 0,
    };
    let mut left = list.len();
    for field in list.iter() {
        left -= 1;
        items = table_field(emitter, field, left, items, target, line)?;
    }
    store_items(emitter, items, target, line)?;
    Ok(())
}

/// Writes a field of a constructor behind some items, and answers how many items there are then.
#[cycle(expressions)]
fn table_field(
    emitter: &mut Emitter,
    field: &Field,
    left: usize,
    items: Items,
    target: usize,
    table_line: u32,
) -> Allocated<Items>
    ensures code { OnOk result (emitter.new ≡ followed emitter.old (field_code emitter.old.constants (plain_field field.now) (nat_eq left 0) items target emitter.old.made table_line) (made_by_field (plain_field field.now))) }
    ensures items { IfOk result (λ n. n ≡ items_behind (plain_field field.now) items) }
{
    match field {
        Field::Item(value) => item(
            emitter,
            value,
            fills(value, left),
            items,
            target,
            table_line,
        ),
        Field::Keyed { line, key, value } => {
            keyed(emitter, key, value, items, target, *line, table_line)
        }
    }
}

/// Writes a field of a constructor with its key, behind the items that wait.
#[cycle(expressions)]
fn keyed(
    emitter: &mut Emitter,
    key: &Exp,
    value: &Exp,
    items: Items,
    target: usize,
    line: u32,
    table_line: u32,
) -> Allocated<Items>
    ensures code { OnOk result (emitter.new ≡ followed emitter.old (waiting_code items.stored items.waiting target table_line ++ keyed_code emitter.old.constants (plain_exp key.now) (plain_exp value.now) target emitter.old.made line) (made_by (plain_exp key.now) + made_by (plain_exp value.now))) }
    ensures items { IfOk result (λ n. n ≡ so_many (items.stored + items.waiting) 0) }
{
    let above = next(target)?;
    let top = next(above)?;
    let stored = plus(items.stored, items.waiting)?;
    store_items(emitter, items, target, table_line)?;
    let seat = value_seat(emitter, value);
    let quiet = is_quiet(value);
    let slot = Slot {
        object: target,
        key: key_seat(emitter, quiet, key),
        above,
        line,
    };
    fill(emitter, slot, key, seat, value, top)?;
    Ok(Items { stored, waiting: 0 })
}
