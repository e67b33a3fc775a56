// What is reserved suffices, a mark is come back to, and a place is found in each segment. Pools are lent to the cases, since each way out of a function that owns
// one would let it go in a proof of its own.
use object_pool::Pool;
use std::alloc::Global;
use std::process::Abort;
use std::test::Fail;

/// Places three names in a pool, of which the last two are let go.
fn place_and_come_back(
    rt: &impl Abort,
    alloc: Global,
    pool: &mut Pool<String>,
) -> Result<(), Fail> {
    pool.reserve(3)?;
    assert_eq!(rt; pool.place(String::from_str(alloc, "table")?), 0);
    let mark = pool.mark();
    assert_eq!(rt; pool.place(String::from_str(alloc, "function")?), 1);
    assert_eq!(rt; pool.place(String::from_str(alloc, "cell")?), 2);
    assert_eq!(rt; pool.get(1).as_str(), "function");
    pool.release_to(mark);
    assert_eq!(rt; pool.len(), 1);
    pool.get_mut(0).push_str("s")?;
    assert_eq!(rt; pool.get(0).as_str(), "tables");
    Ok(())
}

#[test]
fn reserved_room_takes_objects_until_the_mark_is_come_back_to(rt: HostRuntime) -> Result<(), Fail> {
    let mut pool = Pool::new(rt.alloc());
    place_and_come_back(&rt, rt.alloc(), &mut pool)
}

/// The object at a place, where there is one.
fn object(pool: &Pool<usize>, at: usize) -> Option<usize> {
    (at < pool.len()).then(|| *pool.get(at))
}

/// Makes room for a number, and places it.
fn add(pool: &mut Pool<usize>, number: usize) -> Result<usize, Fail> {
    pool.reserve(1)?;
    Ok(pool.place(number))
}

/// Lets all objects go but the first ones.
fn keep(pool: &mut Pool<usize>, count: usize) {
    pool.release_to(pool.len().min(count));
}

/// Places 1100 numbers in a pool, of which the first 512 are kept, and one behind these.
fn place_in_segments(rt: &impl Abort, pool: &mut Pool<usize>) -> Result<(), Fail> {
    for number in 0..1100 {
        assert_eq!(rt; add(pool, number)?, number);
    }
    for at in [0, 511, 512, 1023, 1024, 1099] {
        assert_eq!(rt; object(pool, at), Some(at));
    }
    keep(pool, 512);
    assert_eq!(rt; object(pool, 512), None);
    assert_eq!(rt; add(pool, 7)?, 512);
    assert_eq!(rt; object(pool, 511), Some(511));
    assert_eq!(rt; object(pool, 512), Some(7));
    Ok(())
}

#[test]
fn places_are_found_across_segments(rt: HostRuntime) -> Result<(), Fail> {
    let mut pool = Pool::new(rt.alloc());
    place_in_segments(&rt, &mut pool)
}
