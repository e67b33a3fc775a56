// The items of a table in ascending order (Lua 5.4 manual, 6.6, `table.sort`; ltablib.c).
ghost use Rattle.std.specs.Prelude.{◌≡◌, ◌<◌, ◌^◌, List, ℕ, OnErr, length, map, true};
ghost use Rattle.std.specs.List.{list_all};
ghost use Rattle.int_core.specs.Value.{a_table, nth, object};
ghost use Rattle.library_rows.specs.Base.{sorts};
ghost use Rattle.lua_heap.specs.Reading.{value};
ghost use Rattle.pure_functions.specs.Answers.{Answers, Changes, Stands, heap_of};
ghost use Rattle.lib_base.specs.Sorting.{AreSorted, AreThere, HasPlaces, IsInOrder, IsSortedOf, NamesNoComparator, TableHasPlaces, bytes_of, fields_put, is_integer, is_item, is_text, items_in, number_of, rows_put};

use crate::lists::items;
use crate::raw::{self, reads_alike};
use library_arguments::{Fault, Refusal};
use lua_heap::World;
use lua_heap::law::strings_are_there;
use pure_functions::{Answer, argument, bad_argument, table_argument};
use table_core::{Table, TableId, Value};

/// `table.sort`: the items 1 to n of a table, which are all integers or all strings, in ascending order. A refusal changes nothing.
///
/// # Errors
///
/// There is a comparator, the items are of another kind, or memory runs out.
pub fn sort(world: &mut World, arguments: &[Value]) -> Result<Answer, Fault>
    requires { Stands world.old arguments.now }
    ensures answers { Answers sorts arguments.now world.old world.new result }
    ensures changes { Changes world.old world.new arguments.now }
    ensures err { OnErr result (world.new ≡ world.old) }
{
    let id = table_argument(world, b"sort", arguments)?;
    no_comparator(arguments)?;
    let sorted = sorted_items(world, arguments, id)?;
    rewrite(world, id, sorted.as_slice());
    Ok(Answer::Gives(Vec::new(world.alloc)))
}

/// The second argument is nil, or refused.
fn no_comparator(arguments: &[Value]) -> Result<(), Refusal>
    ensures { (texts : List (List ℕ)) → NamesNoComparator (nth (map (value texts) arguments.now) 1) result }
{
    match argument(arguments, 1) {
        Value::Nil => Ok(()),
        _ => Err(bad_argument(2, b"sort", b"comparator not supported")),
    }
}

/// The items of a table in ascending order.
fn sorted_items(world: &World, arguments: &[Value], id: TableId) -> Result<Vec<Value>, Fault>
    requires { Stands world.now arguments.now }
    ensures { AreSorted world.now id result }
{
    strings_are_there();
    let many = count(world, id);
    let mut items = items(world, id, many)?;
    put_in_order(world, items.as_mut_slice())?;
    Ok(items)
}

/// How many items a table has, by its border.
fn count(world: &World, id: TableId) -> usize
    ensures count { result ≡ items_in (heap_of world.now) (object a_table id.0) }
    ensures small { result < 2 ^ 63 }
    ensures there { TableHasPlaces world.now.tables.objects id result }
{
    reads_alike(world);
    match raw::table(world, id) {
        Some(table) => table.border() as usize,
        None => 0,
    }
}

/// Puts values in ascending order where they are all integers or all strings.
///
/// # Errors
///
/// They are not.
fn put_in_order(world: &World, items: &mut [Value]) -> Result<(), Refusal>
    requires { AreThere world.now.strings items.old }
    ensures { IsInOrder world.now.strings items.old items.new result }
{
    if are_all(Items::Integers, items) {
        sort_integers(items);
        Ok(())
    } else if are_all(Items::Texts, items) {
        sort_texts(world, items);
        Ok(())
    } else {
        Err(bad_argument(1, b"sort", b"sort takes only integers or only strings"))
    }
}

/// What a table is sorted of.
#[derive(Debug, Clone, Copy, PartialEq, Eq)]
enum Items {
    Integers,
    Texts,
}

/// Whether all values are such items.
fn are_all(wanted: Items, values: &[Value]) -> bool
    ensures { result ≡ list_all (is_item wanted) values.now }
{
    values.iter().all(|value| is_item(wanted, *value))
}

/// Whether a value is such an item.
fn is_item(wanted: Items, v: Value) -> bool
    ensures { result ≡ is_item wanted v }
{
    match wanted {
        Items::Integers => matches!(v, Value::Int(_)),
        Items::Texts => matches!(v, Value::Str(_)),
    }
}

/// Puts integers in ascending order.
fn sort_integers(items: &mut [Value])
    requires { list_all is_integer items.old ≡ true }
    ensures sorted { (texts : List (List ℕ)) → IsSortedOf texts items.old items.new }
    ensures len { length items.new ≡ length items.old }
{
    items.sort_unstable_by_key(|item| number_of(*item));
}

/// The integer that a value is; of another one 0.
fn number_of(v: Value) -> i64
    ensures { result ≡ number_of v }
{
    match v {
        Value::Int(n) => n,
        _ => 0,
    }
}

/// Puts strings in the order of their bytes.
fn sort_texts(world: &World, items: &mut [Value])
    requires texts { list_all is_text items.old ≡ true }
    requires there { AreThere world.now.strings items.old }
    ensures sorted { IsSortedOf world.now.strings items.old items.new }
    ensures len { length items.new ≡ length items.old }
{
    items.sort_unstable_by(|a, b| bytes_of(world, *a).cmp(bytes_of(world, *b)));
}

/// The bytes of a string that is there; of another value none.
fn bytes_of(world: &World, v: Value) -> &[u8]
    ensures { result.now ≡ bytes_of world.now.strings v }
{
    match v {
        Value::Str(id) if id.0 < world.strings.len() => world.strings.bytes(id),
        _ => &[],
    }
}

/// Puts values at 1, 2, 3 and so on of a table, each of which has a row. It takes no memory.
fn rewrite(world: &mut World, id: TableId, values: &[Value])
    requires { TableHasPlaces world.old.tables.objects id (length values.now) }
    ensures heap { heap_of world.new ≡ fields_put (heap_of world.old) (object a_table id.0) 1 (map (value world.old.strings) values.now) }
    ensures rest { world.new ≡ record world.old { tables = world.new.tables } }
{
    reads_alike(world);
    if id.0 < world.tables.len() {
        rewrite_rows(world.tables.get_mut(id.0), values);
    }
}

/// Puts values at 1, 2, 3 and so on, each of which has a row.
fn rewrite_rows(table: &mut Table, values: &[Value])
    requires { HasPlaces table.old.rows (length values.now) }
    ensures rows { table.new.rows ≡ rows_put table.old.rows 1 values.now }
    ensures metatable { table.new.metatable ≡ table.old.metatable }
{
    for at in 0..values.len() {
        table.set_integer(at as i64 + 1, values[at]);
    }
}
