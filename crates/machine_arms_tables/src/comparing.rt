// Comparisons of two tables that no handler decides, and of two strings (Lua 5.4's lopcodes.h, EQ, LT and LE; Lua 5.4 manual, 3.4.4).
ghost use Rattle.std.specs.Prelude.{◌≡◌, ◌<◌, List, IfSome, None, [], ◌∷◌, length};
ghost use Rattle.int_core.specs.Operations.{does, equal as is_equal};
ghost use Rattle.lua_heap.specs.Plain.{heap};
ghost use Rattle.lua_heap.specs.Reading.{value};
ghost use Rattle.lua_heap.specs.declared.world.Cell.{Cell};
ghost use Rattle.machine_arms_tables.specs.Fields.{Settles};
ghost use Rattle.machine_arms_tables.specs.Leading.{Gets, IsSite};
ghost use Rattle.machine_arms_tables.specs.Orders.{IsComparison, comparison, order_of};
ghost use Rattle.meta_ops.specs.Outcome.{settled};
ghost use Rattle.table_core.specs.declared.value.Value.TheVariants.{Bool as Boolean, Str};

use crate::fields::table_of;
use crate::site::Site;
use code_core::Opcode;
use lua_heap::Strings;
use machine_arms_numbers::{branch, value_numbered};
use meta_ops::{Heap, Outcome, equal, less, less_equal};
use object_pool::Pool;
use table_core::{StrId, Table, Value};

/// EQ, LT and LE: R[A] == R[B], R[A] < R[B], R[A] <= R[B]. `None` where EQ finds one that is no table or calls a handler, and LT or LE one that is no string.
#[inline(always)]
pub(crate) fn compare(
    op: Opcode,
    site: Site,
    tables: &Pool<Table>,
    registers: &[Value],
) -> Option<usize>
    requires at { IsSite op site registers.now }
    requires form { IsComparison op }
    ensures { IfSome result (λ to. (cells : List Cell) → Gets op site.entry tables.now.objects cells registers.now registers.now to) }
{
    let left = value_numbered(registers, site.word.a() as usize);
    let right = value_numbered(registers, site.word.b() as usize);
    let truth = compared(op, site, tables, left, right)?;
    let to = branch(site.closure.words, site.word, site.pc, truth);
    Some(to)
}

/// The truth of a comparison.
#[inline(always)]
fn compared(op: Opcode, site: Site, tables: &Pool<Table>, left: Value, right: Value) -> Option<bool>
    ensures { IfSome result (λ b. Settles site.entry.strings.now (comparison op) (left ∷ right ∷ []) tables.now.objects tables.now.objects (Boolean b ∷ [])) }
{
    match op {
        Opcode::Eq => are_equal(site.strings, tables, left, right),
        _ => are_ordered(op, site.strings, tables, left, right),
    }
}

/// Whether two tables are equal, where no handler is called for it.
fn are_equal(strings: &Strings, tables: &Pool<Table>, left: Value, right: Value) -> Option<bool>
    ensures { IfSome result (λ b. Settles strings.now is_equal (left ∷ right ∷ []) tables.now.objects tables.now.objects (Boolean b ∷ [])) }
{
    let m = table_of(tables, left)?;
    let n = table_of(tables, right)?;
    let heap = Heap {
        tables,
        strings,
        string_meta: None,
    };
    match equal(heap, Value::Table(m), Value::Table(n)) {
        Outcome::Found(Value::Bool(truth)) => Some(truth),
        _ => None,
    }
}

/// Whether two strings are in the order for which an instruction asks.
#[inline(always)]
fn are_ordered(
    op: Opcode,
    strings: &Strings,
    tables: &Pool<Table>,
    left: Value,
    right: Value,
) -> Option<bool>
    ensures { IfSome result (λ b. Settles strings.now (order_of op) (left ∷ right ∷ []) tables.now.objects tables.now.objects (Boolean b ∷ [])) }
{
    let s = text_in(strings, left)?;
    let t = text_in(strings, right)?;
    match order(op, strings, tables, s, t) {
        Outcome::Found(Value::Bool(truth)) => Some(truth),
        _ => None,
    }
}

/// What the order of an instruction comes to, of two strings.
#[inline(always)]
fn order(op: Opcode, strings: &Strings, tables: &Pool<Table>, s: StrId, t: StrId) -> Outcome
    requires left { s.0 < length strings.now }
    requires right { t.0 < length strings.now }
    ensures { does (order_of op) (value strings.now (Str s) ∷ value strings.now (Str t) ∷ []) (heap strings.now tables.now.objects None) ≡ settled strings.now (heap strings.now tables.now.objects None) (value strings.now (Str t) ∷ []) result }
{
    let heap = Heap {
        tables,
        strings,
        string_meta: None,
    };
    match op {
        Opcode::Lt => less(heap, Value::Str(s), Value::Str(t)),
        _ => less_equal(heap, Value::Str(s), Value::Str(t)),
    }
}

/// The string that a value is.
fn text_in(strings: &Strings, v: Value) -> Option<StrId>
    ensures is { IfSome result (λ id. v ≡ Str id) }
    ensures there { IfSome result (λ id. id.0 < length strings.now) }
{
    match v {
        Value::Str(id) if id.0 < strings.len() => Some(id),
        _ => None,
    }
}
