// How many values are held at once while an expression or a statement is evaluated.
ghost use Rattle.std.specs.Prelude.{◌≡◌, ◌+◌, ◌*◌, ◌≤◌, map, min, max, length};
ghost use Rattle.tree_core.specs.Tree.{exps, fields, arms};
ghost use Rattle.tree_core.specs.Plain.{plain_exp, plain_exps, plain_field, plain_arm, plain_stat};
ghost use Rattle.scope_core.specs.Held.{held, held_name, held_behind, held_fields, held_field, held_targets, held_tests, held_stat};

use tree_core::{Arm, Exp, ExpNode, Field, Place, Stat, StatNode};

/// How many values the name of a variable holds: a global one holds `_ENV` and its key.
pub fn held_by_name(place: Place) -> u32
    ensures { result ≡ held_name place }
{
    match place {
        Place::GlobalIn(_) | Place::GlobalOf(_) => 2,
        Place::Unset | Place::Local(_) | Place::Upvalue(_) => 1,
    }
}

/// A number of values, where more than 1000 count as 1000: far more than the limit, and small
/// enough that sums of such numbers are.
fn capped(number: u32) -> u32
    ensures { result ≡ min number 1000 }
{
    number.min(1000)
}

/// How many values an expression holds, up to 1000.
#[cycle(held)]
pub fn held_by(exp: &Exp) -> u32
    ensures { result ≡ min (held (plain_exp exp.now)) 1000 }
{
    match &exp.node {
        ExpNode::Nil | ExpNode::True | ExpNode::False | ExpNode::Int(_) | ExpNode::Str(_) => 1,
        ExpNode::Vararg | ExpNode::Function(_) => 1,
        ExpNode::Var(name) => held_by_name(name.place),
        ExpNode::Unary(_, inner) | ExpNode::Paren(inner) => held_by(inner),
        ExpNode::Index(left, right)
        | ExpNode::Binary(_, left, right)
        | ExpNode::And(left, right)
        | ExpNode::Or(left, right) => capped(held_by(left).max(1 + held_by(right))),
        ExpNode::Call(called, arguments) => {
            let within = held_by(called);
            within.max(held_by_arguments(1, arguments))
        }
        ExpNode::Method(object, _, arguments) => {
            let within = held_by(object);
            within.max(held_by_arguments(2, arguments))
        }
        ExpNode::Table(fields) => held_by_fields(fields).max(1),
    }
}

/// How many values the arguments of a call hold behind some that are held already.
#[cycle(held)]
fn held_by_arguments(before: u32, arguments: &[Exp]) -> u32
    requires { before ≤ 1000 }
    ensures { result ≡ min (max (max 3 (length arguments.now + before)) (held_behind before (exps (plain_exps arguments.now)))) 1000 }
{
    let count = arguments.len().min(1000) as u32;
    let within = held_by_list(before, arguments);
    capped((count + before).max(3)).max(within)
}

/// How many values a list holds behind some that are held already.
#[cycle(held)]
pub fn held_by_list(before: u32, list: &[Exp]) -> u32
    requires { before ≤ 1000 }
    ensures { result ≡ min (held_behind before (exps (plain_exps list.now))) 1000 }
{
    let mut most = 0;
    let mut next = before;
    for exp in list {
        most = most.max(capped(next + held_by(exp)));
        next = capped(next + 1);
    }
    most
}

/// How many values the fields of a table hold besides it.
#[cycle(held)]
fn held_by_fields(list: &[Field]) -> u32
    ensures { result ≡ min (held_fields 0 (fields (map plain_field list.now))) 1000 }
{
    let mut most = 0;
    let mut items = 0;
    for field in list {
        let open = 1 + (items % 50) as u32;
        most = most.max(capped(open + held_by_field(field)));
        items += usize::from(matches!(field, Field::Item(_)));
    }
    most
}

/// How many values a field holds.
#[cycle(held)]
fn held_by_field(field: &Field) -> u32
    ensures { result ≡ min (held_field (plain_field field.now)) 1000 }
{
    match field {
        Field::Item(value) => held_by(value),
        Field::Keyed { key, value, .. } => capped(held_by(key).max(1 + held_by(value))),
    }
}

/// How many values the targets of an assignment hold.
pub fn held_by_targets(targets: &[Exp]) -> u32
    ensures { result ≡ min (held_targets 0 (exps (plain_exps targets.now))) 1000 }
{
    let mut most = 0;
    let mut next = 0;
    for target in targets {
        most = most.max(capped(next + held_by(target)));
        next = capped(next + 2);
    }
    most
}

/// How many values the tests of an `if` hold.
pub fn held_by_tests(list: &[Arm]) -> u32
    ensures { result ≡ min (held_tests (arms (map plain_arm list.now))) 1000 }
{
    let mut most = 0;
    for arm in list {
        most = most.max(held_by(&arm.test));
    }
    most
}

/// How many values a statement holds above the variables in scope before it, without those of
/// its blocks, up to 1000.
pub fn held_by_stat(stat: &Stat) -> u32
    ensures { result ≡ min (held_stat (plain_stat stat.now)) 1000 }
{
    match &stat.node {
        StatNode::Local(_, values) => held_by_list(0, values),
        StatNode::Assign(targets, values) => held_by_assignment(targets, values),
        StatNode::Call(call) => held_by(call),
        StatNode::While(test, _) => held_by(test),
        StatNode::If(list, _) => held_by_tests(list),
        StatNode::NumFor(_, first, limit, step, _) => {
            let values = held_by(first).max(1 + held_by(limit));
            match step {
                Some(step) => capped(values.max(2 + held_by(step))),
                None => capped(values),
            }
        }
        StatNode::GenFor(names, values, _) => {
            let count = names.len().min(1000) as u32;
            capped(held_by_list(0, values).max(4 + count.max(3)))
        }
        StatNode::Empty
        | StatNode::LocalFunction(_, _)
        | StatNode::Do(_)
        | StatNode::Repeat(_, _)
        | StatNode::Label(_)
        | StatNode::Goto(_)
        | StatNode::Break => 0,
    }
}

/// How many values an assignment holds, up to 1000.
#[tactic(auto, using(crate::proofs::Holding::counted, crate::proofs::Holding::counted_behind))]
fn held_by_assignment(targets: &[Exp], values: &[Exp]) -> u32
    ensures { result ≡ min (max (max (held_targets 0 (exps (plain_exps targets.now))) (held_behind (2 * length targets.now) (exps (plain_exps values.now)))) (3 * length targets.now)) 1000 }
{
    let count = targets.len().min(1000) as u32;
    let places = held_by_targets(targets);
    let within = held_by_list(capped(2 * count), values);
    capped(places.max(within).max(3 * count))
}
