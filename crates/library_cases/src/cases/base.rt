// Tables of a new world, read and written. Expected values are the manual's (6.1 and 3.4.7).
use lib_base::raw::{
    border, equal, make_table, metatable, read_field, row_after, set_metatable, write_field,
};
use lua_heap::World;
use std::test::Fail;
use table_core::{Key, TableId, Value};

/// Puts integers at 1, 2, 3 and so on.
fn fill(world: &mut World, id: TableId, numbers: &[i64]) -> Result<(), Fail> {
    for (at, number) in numbers.iter().enumerate() {
        if let Some(key) = Key::of(Value::Int(at as i64 + 1)) {
            write_field(world, id, key, Value::Int(*number))?;
        }
    }
    Ok(())
}

#[test]
fn a_list_is_read_from_the_start_and_by_its_rows(rt: HostRuntime) -> Result<(), Fail> {
    let mut world = World::new(rt.alloc())?;
    let id = make_table(&mut world)?;
    fill(&mut world, id, &[7, 8, 9])?;
    assert_eq!(rt;
        read_field(&world, Value::Table(id), Value::Int(2)),
        Value::Int(8)
    );
    assert_eq!(rt;
        read_field(&world, Value::Int(2), Value::Int(2)),
        Value::Nil
    );
    assert_eq!(rt; border(&world, id), Some(3));
    if let Ok(Some((key, value))) = row_after(&world, id, Value::Int(2)) {
        assert_eq!(rt; key.value(), Value::Int(3));
        assert_eq!(rt; value, Value::Int(9));
    }
    assert!(rt; row_after(&world, id, Value::Int(4)).is_err());
    Ok(())
}

#[test]
fn a_metatable_is_set_and_taken_off(rt: HostRuntime) -> Result<(), Fail> {
    let mut world = World::new(rt.alloc())?;
    let id = make_table(&mut world)?;
    let other = make_table(&mut world)?;
    set_metatable(&mut world, id, Some(other));
    assert_eq!(rt; metatable(&world, Value::Table(id)), Some(other));
    set_metatable(&mut world, id, None);
    assert_eq!(rt; metatable(&world, Value::Table(id)), None);
    assert!(rt; !equal(&world, Value::Table(id), Value::Table(other)));
    Ok(())
}
