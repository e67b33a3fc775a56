// The border of a table's rows, mended at each write (Lua 5.4 manual, 3.4.7).
ghost use Rattle.std.specs.Prelude.{◌≡◌, ◌≢◌, ◌+◌, ◌-◌, ◌<◌, ◌^◌, ℕ, pos, false, MatchOption};
ghost use Rattle.int_core.specs.Rows.{IsBorder, behind, get};
ghost use Rattle.table_core.specs.Table.{IsBorderBeside};
ghost use Rattle.table_core.specs.Value.{is_nil, lua_values};

use crate::rows::Rows;
use crate::value::Value;

/// The border after a write, from the one before it.
#[inline(always)]
pub(crate) fn mended(rows: &Rows, border: usize, key: Value, value: Value) -> usize
    requires beside { IsBorderBeside rows.now key border }
    requires small { border < 2 ^ 63 }
    requires written { get lua_values rows.now key ≡ value }
    ensures { IsBorder lua_values rows.now result }
{
    match place_of(key) {
        Some(place) if value.is_nil() => border.min(place),
        Some(place) if place == border => raised(rows, border + 1),
        _ => border,
    }
}

/// The border of rows in which each integer up to `from` has a value. Rows that grow at their end have no others, so nothing is looked for then.
#[inline(always)]
fn raised(rows: &Rows, from: usize) -> usize
    requires { (m : ℕ) → m < from → is_nil (behind lua_values rows.now m) ≡ false }
    ensures { IsBorder lua_values rows.now result }
{
    let most = rows.len();
    let ends = from == most;
    if ends {
        return most;
    }
    climbed(rows, from)
}

/// So where there may be others.
#[inline(never)]
fn climbed(rows: &Rows, from: usize) -> usize
    requires { (m : ℕ) → m < from → is_nil (behind lua_values rows.now m) ≡ false }
    ensures { IsBorder lua_values rows.now result }
{
    let most = rows.len();
    for n in from..most {
        if behind(rows, n).is_nil() {
            return n;
        }
    }
    most
}

/// The number that a key lies behind, where it is an integer of at least 1.
#[inline(always)]
fn place_of(key: Value) -> Option<usize>
    ensures { MatchOption result ((m : ℕ) → key ≢ Value.Int (pos (m + 1))) (λ n. key ≡ Value.Int (pos (n + 1))) }
{
    match key {
        Value::Int(n) if n > 0 => Some((n - 1) as usize),
        _ => None,
    }
}

/// The value at the integer behind `n`.
fn behind(rows: &Rows, n: usize) -> Value
    requires { n < 2 ^ 63 - 1 }
    ensures { result ≡ behind lua_values rows.now n }
{
    rows.get(Value::Int(n as i64 + 1))
}
