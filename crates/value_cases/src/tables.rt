// What a script sees of a table: walks that clear as they go, refilled rows, and the moment when cleared rows are dropped. Tables are lent to the cases, since
// each way out of a function that owns one would let it go in a proof of its own.
use std::process::Abort;
use std::test::Fail;
use table_core::{Key, NoSuchKey, StrId, Table, TableId, Value};

fn name(number: usize) -> Value {
    Value::Str(StrId(number))
}

/// Sets a key that is not nil.
fn put(table: &mut Table, key: Value, value: Value) -> Result<(), Fail> {
    if let Some(key) = Key::of(key) {
        table.set(key, value)?;
    }
    Ok(())
}

/// The key that `next` gives, or nil at the end.
fn key_after(table: &Table, key: Value) -> Result<Value, NoSuchKey> {
    match table.next(key)? {
        Some((key, _)) => Ok(key.value()),
        None => Ok(Value::Nil),
    }
}

/// Puts the rows 0, 1 and 2 under names, with their numbers as values.
fn put_three_rows(table: &mut Table) -> Result<(), Fail> {
    put(table, name(0), Value::Int(0))?;
    put(table, name(1), Value::Int(1))?;
    put(table, name(2), Value::Int(2))
}

/// Clears each of three rows in a walk.
fn clear_in_a_walk(rt: &impl Abort, table: &mut Table) -> Result<(), Fail> {
    put_three_rows(table)?;
    assert_eq!(rt; key_after(table, Value::Nil), Ok(name(0)));
    for (number, next) in [(0, name(1)), (1, name(2)), (2, Value::Nil)] {
        put(table, name(number), Value::Nil)?;
        assert_eq!(rt; key_after(table, name(number)), Ok(next));
    }
    assert_eq!(rt; table.rows(), 3);
    assert_eq!(rt; key_after(table, Value::Nil), Ok(Value::Nil));
    assert_eq!(rt; key_after(table, name(3)), Err(NoSuchKey));
    Ok(())
}

#[test]
fn a_walk_may_clear_each_row(rt: HostRuntime) -> Result<(), Fail> {
    let mut table = Table::new(rt.alloc());
    clear_in_a_walk(&rt, &mut table)
}

/// Clears a row of three, and puts another value into it.
fn clear_and_put_again(rt: &impl Abort, table: &mut Table) -> Result<(), Fail> {
    put_three_rows(table)?;
    put(table, name(0), Value::Nil)?;
    put(table, name(3), Value::Nil)?;
    assert_eq!(rt; table.rows(), 3);
    put(table, name(3), Value::Int(3))?;
    put(table, name(0), Value::Bool(false))?;
    assert_eq!(rt; table.rows(), 4);
    assert_eq!(rt; key_after(table, Value::Nil), Ok(name(0)));
    assert_eq!(rt; table.get(name(0)), Value::Bool(false));
    Ok(())
}

#[test]
fn a_cleared_key_takes_its_old_place(rt: HostRuntime) -> Result<(), Fail> {
    let mut table = Table::new(rt.alloc());
    clear_and_put_again(&rt, &mut table)
}

/// Clears two rows of three, and puts a new one.
fn clear_most_and_put(rt: &impl Abort, table: &mut Table) -> Result<(), Fail> {
    put_three_rows(table)?;
    put(table, name(0), Value::Nil)?;
    put(table, name(1), Value::Nil)?;
    put(table, name(2), Value::Bool(true))?;
    assert_eq!(rt; table.rows(), 3);
    put(table, name(3), Value::Int(3))?;
    assert_eq!(rt; table.rows(), 2);
    assert_eq!(rt; key_after(table, name(2)), Ok(name(3)));
    assert_eq!(rt; key_after(table, name(0)), Err(NoSuchKey));
    Ok(())
}

#[test]
fn a_new_key_drops_cleared_rows_that_outnumber_the_others(rt: HostRuntime) -> Result<(), Fail> {
    let mut table = Table::new(rt.alloc());
    clear_most_and_put(&rt, &mut table)
}

/// Puts numbers out of order, clears one, pushes a row, and sets a metatable.
fn put_out_of_order(rt: &impl Abort, table: &mut Table) -> Result<(), Fail> {
    assert_eq!(rt; table.border(), 0);
    for number in [3, 1, 2, 5] {
        put(table, Value::Int(number), Value::Bool(true))?;
    }
    assert_eq!(rt; table.border(), 3);
    put(table, Value::Int(2), Value::Nil)?;
    assert_eq!(rt; table.border(), 1);
    if let Some(key) = Key::of(Value::Int(7)) {
        assert_eq!(rt; table.push_row(key, Value::Nil)?, true);
        assert_eq!(rt; table.push_row(key, Value::Bool(true))?, false);
    }
    assert_eq!(rt; table.rows(), 5);
    assert_eq!(rt; table.metatable(), None);
    table.set_metatable(Some(TableId(4)));
    assert_eq!(rt; table.metatable(), Some(TableId(4)));
    Ok(())
}

#[test]
fn borders_rows_and_metatables(rt: HostRuntime) -> Result<(), Fail> {
    let mut table = Table::new(rt.alloc());
    put_out_of_order(&rt, &mut table)
}

/// Puts a number behind the border, with itself as its value.
fn put_next(table: &mut Table) -> Result<(), Fail> {
    let next = table.border().wrapping_add(1);
    put(table, Value::Int(next), Value::Int(next))
}

/// Puts so many numbers behind the border.
fn put_list(table: &mut Table, count: usize) -> Result<(), Fail> {
    for _ in 0..count {
        put_next(table)?;
    }
    Ok(())
}

#[test]
fn a_list_grows_by_its_border(rt: HostRuntime) -> Result<(), Fail> {
    let mut table = Table::new(rt.alloc());
    put_list(&mut table, 200000)?;
    assert_eq!(rt; table.border(), 200000);
    assert_eq!(rt; table.array_len(), 200000);
    assert_eq!(rt; table.get_integer(200000), Value::Int(200000));
    Ok(())
}

/// Clears a number within a list of three, and sets it again.
fn clear_and_fill(rt: &impl Abort, table: &mut Table) -> Result<(), Fail> {
    put_list(table, 3)?;
    assert_eq!(rt; table.set_integer(2, Value::Nil), true);
    assert_eq!(rt; table.border(), 1);
    assert_eq!(rt; table.set_integer(2, Value::Int(5)), true);
    assert_eq!(rt; table.border(), 3);
    assert_eq!(rt; table.set_integer(4, Value::Int(4)), false);
    for (key, next) in [(Value::Nil, 1), (Value::Int(1), 2), (Value::Int(2), 3)] {
        assert_eq!(rt; key_after(table, key), Ok(Value::Int(next)));
    }
    assert_eq!(rt; key_after(table, Value::Int(3)), Ok(Value::Nil));
    Ok(())
}

#[test]
fn a_hole_in_a_list_is_filled_again(rt: HostRuntime) -> Result<(), Fail> {
    let mut table = Table::new(rt.alloc());
    clear_and_fill(&rt, &mut table)
}

/// Clears all numbers of a list but the last, and puts a name.
fn clear_the_front(rt: &impl Abort, table: &mut Table) -> Result<(), Fail> {
    put_list(table, 4)?;
    for number in [1, 2, 3] {
        put(table, Value::Int(number), Value::Nil)?;
    }
    assert_eq!(rt; table.array_len(), 4);
    put(table, name(0), Value::Bool(true))?;
    assert_eq!(rt; table.array_len(), 0);
    assert_eq!(rt; table.rows(), 2);
    assert_eq!(rt; table.get_integer(4), Value::Int(4));
    assert_eq!(rt; table.get_integer(1), Value::Nil);
    assert_eq!(rt; key_after(table, Value::Nil), Ok(Value::Int(4)));
    Ok(())
}

#[test]
fn a_list_whose_first_values_are_dropped_is_found_by_its_keys(rt: HostRuntime) -> Result<(), Fail> {
    let mut table = Table::new(rt.alloc());
    clear_the_front(&rt, &mut table)
}

/// Puts 80 strings, of which some may share a place.
fn put_many_strings(table: &mut Table) -> Result<(), Fail> {
    for number in 0..40 {
        put(table, name(number), Value::Bool(false))?;
        put(table, name(number + 1024), Value::Bool(true))?;
    }
    Ok(())
}

/// Looks at two strings of these, and clears one of them.
fn clear_one(rt: &impl Abort, table: &mut Table, number: usize) {
    assert_eq!(rt; table.get_string(StrId(number)), Value::Bool(false));
    assert_eq!(rt; table.set_string(StrId(number), Value::Nil), true);
    assert_eq!(rt; table.get(name(number)), Value::Nil);
}

/// Puts 80 strings, and clears half of them.
fn put_and_clear_half(rt: &impl Abort, table: &mut Table) -> Result<(), Fail> {
    put_many_strings(table)?;
    for number in 0..40 {
        assert_eq!(rt; table.get_string(StrId(number + 1024)), Value::Bool(true));
        clear_one(rt, table, number);
    }
    assert_eq!(rt; table.set_string(StrId(40), Value::Nil), false);
    assert_eq!(rt; table.rows(), 80);
    Ok(())
}

#[test]
fn many_strings_are_found_and_changed(rt: HostRuntime) -> Result<(), Fail> {
    let mut table = Table::new(rt.alloc());
    put_and_clear_half(&rt, &mut table)
}
