// Upvalues whose cells are closed (UpVal of lobject.h), and the instructions on them (Lua 5.4's lopcodes.h, GETUPVAL and SETUPVAL).
ghost use Rattle.std.specs.Prelude.{◌≡◌, ◌≢◌, ℕ, List, IfSome, IfNone, Some, None};
ghost use Rattle.code_core.specs.declared.opcode.Opcode.TheVariants.{GetUpval, SetUpval};
ghost use Rattle.machine_arms_tables.specs.Fields.{closed_value, upvalue_in, with_upvalue};
ghost use Rattle.machine_arms_tables.specs.Frame.{LeadsOn, code};
ghost use Rattle.machine_arms_tables.specs.Leading.{IsSite};
ghost use Rattle.table_core.specs.Table.{Contents};

use crate::site::Site;
use lua_heap::Cell;
use machine_arms_numbers::value_numbered;
use object_pool::Pool;
use table_core::{CellId, Value};

/// The value of an upvalue. `None` where its cell is open.
#[inline(always)]
pub(crate) fn upvalue(cells: &Pool<Cell>, upvalues: &[CellId], n: u8) -> Option<Value>
    ensures { result ≡ upvalue_in upvalues.now cells.now.objects n }
{
    let id = *upvalues.get(n as usize)?;
    if id.0 >= cells.len() {
        return None;
    }
    match *cells.get(id.0) {
        Cell::Closed(v) => Some(v),
        Cell::Open { .. } => None,
    }
}

/// Gives a cell a value. `None`, with all as before, where it is open.
#[inline(always)]
fn put_closed(cell: &mut Cell, v: Value) -> Option<()>
    ensures put { IfSome result (λ _. cell.new ≡ Cell.Closed v) }
    ensures closed { IfSome result (λ _. closed_value cell.old ≢ None) }
    ensures kept { IfNone result (cell.new ≡ cell.old) }
{
    match *cell {
        Cell::Closed(_) => {
            *cell = Cell::Closed(v);
            Some(())
        }
        Cell::Open { .. } => None,
    }
}

/// Gives an upvalue a value. `None`, with all as before, where its cell is open.
#[inline(always)]
pub(crate) fn put_upvalue(
    cells: &mut Pool<Cell>,
    upvalues: &[CellId],
    n: u8,
    v: Value,
) -> Option<()>
    ensures put { IfSome result (λ _. Some cells.new.objects ≡ with_upvalue upvalues.now cells.old.objects n v) }
    ensures kept { IfNone result (cells.new ≡ cells.old) }
{
    let id = *upvalues.get(n as usize)?;
    if id.0 >= cells.len() {
        return None;
    }
    put_closed(cells.get_mut(id.0), v)
}

/// GETUPVAL: R[A] := UpValue[B].
#[inline(always)]
pub(crate) fn get_upvalue(site: Site, cells: &Pool<Cell>, registers: &mut [Value]) -> Option<usize>
    requires { IsSite GetUpval site registers.old }
    ensures goes { IfSome result (λ to. (texts : List (List ℕ)) (tables : List Contents) → LeadsOn GetUpval site.entry.word (code site.entry.closure texts) site.entry.pc to tables tables cells.now.objects cells.now.objects registers.old registers.new) }
    ensures kept { IfNone result (registers.new ≡ registers.old) }
{
    let v = upvalue(cells, site.closure.upvalues, site.word.b())?;
    Some(site.store(registers, v))
}

/// SETUPVAL: UpValue[B] := R[A].
#[inline(always)]
pub(crate) fn set_upvalue(site: Site, cells: &mut Pool<Cell>, registers: &[Value]) -> Option<usize>
    requires { IsSite SetUpval site registers.now }
    ensures goes { IfSome result (λ to. (texts : List (List ℕ)) (tables : List Contents) → LeadsOn SetUpval site.entry.word (code site.entry.closure texts) site.entry.pc to tables tables cells.old.objects cells.new.objects registers.now registers.now) }
    ensures kept { IfNone result (cells.new ≡ cells.old) }
{
    let v = value_numbered(registers, site.word.a() as usize);
    put_upvalue(cells, site.closure.upvalues, site.word.b(), v)?;
    Some(site.closure.next(site.pc))
}
