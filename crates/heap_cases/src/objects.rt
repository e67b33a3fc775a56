// One number for each content, also after some strings were let go, and one for each object. What is looked at is lent to small functions without clauses: a
// function that owns a world would let it go at each way out, and one that calls the world itself would carry all that its clauses say from call to call.
ghost use Rattle.lua_heap.specs.Codes.{AreCodes};

use lua_heap::{Cell, Coro, Func, Strings, World};
use std::alloc::Global;
use std::process::Abort;
use std::test::Fail;
use table_core::{ProtoId, StrId, Table, Value};

/// The number of a short string, which is added where it is new.
fn number_of(strings: &mut Strings, text: &str) -> Result<usize, Fail> {
    if text.len() > 16 {
        return Err(Fail::new("the string is not short"));
    }
    Ok(strings.intern(text.as_bytes())?.0)
}

/// Lets all strings go but the first ones.
fn keep(strings: &mut Strings, count: usize) {
    strings.release_to(strings.len().min(count));
}

/// Interns contents, of which some are let go.
fn intern_and_let_go(rt: &impl Abort, strings: &mut Strings) -> Result<(), Fail> {
    for (text, number) in [("__index", 0), ("", 1), ("__index", 0)] {
        assert_eq!(rt; number_of(strings, text)?, number);
    }
    assert_eq!(rt; strings.len(), 2);
    assert_eq!(rt; strings.find(b"x"), None);
    assert_eq!(rt; number_of(strings, "x")?, 2);
    keep(strings, 1);
    assert_eq!(rt; strings.find(b"x"), None);
    assert_eq!(rt; number_of(strings, "x")?, 1);
    Ok(())
}

#[test]
fn a_content_has_one_number_until_it_is_let_go(rt: HostRuntime) -> Result<(), Fail> {
    let mut strings = Strings::new(rt.alloc());
    intern_and_let_go(&rt, &mut strings)
}

/// The number of a short string of a world.
fn add_string(world: &mut World, text: &str) -> Result<usize, Fail> {
    if text.len() > 16 {
        return Err(Fail::new("the string is not short"));
    }
    Ok(world.intern(text.as_bytes())?.0)
}

fn add_table(alloc: Global, world: &mut World) -> Result<usize, Fail> {
    Ok(world.add_table(Table::new(alloc))?.0)
}

fn add_cell(world: &mut World) -> Result<usize, Fail> {
    Ok(world.add_cell(Cell::Closed(Value::Int(7)))?.0)
}

fn add_function(alloc: Global, world: &mut World) -> Result<usize, Fail> {
    let func = Func {
        code: ProtoId(0),
        cells: Vec::new(alloc),
    };
    Ok(world.add_func(func)?.0)
}

fn add_coroutine(world: &mut World) -> Result<usize, Fail> {
    Ok(world.add_coro(Coro::Fresh(Value::Nil))?.0)
}

fn print(world: &mut World, text: &str) -> Result<(), Fail> {
    Ok(world.print(text.as_bytes())?)
}

/// Adds objects of each kind behind a string of its own, a table, and what was printed.
fn add_each_kind(rt: &impl Abort, alloc: Global, world: &mut World) -> Result<(), Fail> {
    assert_eq!(rt; add_string(world, "name")?, 26);
    print(world, "1\n")?;
    assert_eq!(rt; add_table(alloc, world)?, 2);
    assert_eq!(rt; add_string(world, "__index")?, 17);
    assert_eq!(rt; add_string(world, "name")?, 26);
    assert_eq!(rt; add_table(alloc, world)?, 3);
    assert_eq!(rt; add_cell(world)?, 0);
    assert_eq!(rt; add_function(alloc, world)?, 0);
    assert_eq!(rt; add_coroutine(world)?, 0);
    assert_eq!(rt; world.printed.as_slice(), b"1\n".as_slice());
    Ok(())
}

#[test]
fn a_world_names_what_is_added(rt: HostRuntime) -> Result<(), Fail> {
    let mut world = World::new(rt.alloc())?;
    add_each_kind(&rt, rt.alloc(), &mut world)
}

/// Places a text and a number in a world in which nothing runs.
fn place_where_nothing_runs(world: &mut World) -> Result<(Value, Value), Fail>
    requires { AreCodes world.old.strings world.old.codes }
{
    let raised = world.raise_text(b"__index")?;
    let seven = world.place_text(Value::Int(7), 0)?;
    Ok((raised, seven))
}

#[test]
fn a_text_gets_no_place_where_nothing_runs(rt: HostRuntime) -> Result<(), Fail> {
    let mut world = World::new(rt.alloc())?;
    let placed = place_where_nothing_runs(&mut world)?;
    assert_eq!(rt; placed, (Value::Str(StrId(17)), Value::Int(7)));
    Ok(())
}

/// Goes into a coroutine that has not begun.
fn go_into_another(world: &mut World) -> Result<(), Fail> {
    let co = world.add_coro(Coro::Fresh(Value::Nil))?;
    world.go_into(co)?;
    Ok(())
}

fn suspend(world: &mut World) {
    world.suspend_running();
}

/// Goes into a coroutine, which is suspended then, and answers how many were in the chain before and after that.
fn run_and_suspend(world: &mut World) -> Result<(usize, usize), Fail> {
    go_into_another(world)?;
    let running = world.chain.len();
    suspend(world);
    Ok((running, world.chain.len()))
}

#[test]
fn a_coroutine_runs_and_waits(rt: HostRuntime) -> Result<(), Fail> {
    let mut world = World::new(rt.alloc())?;
    let counts = run_and_suspend(&mut world)?;
    assert_eq!(rt; counts, (1, 0));
    Ok(())
}
