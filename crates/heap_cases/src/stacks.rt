// Frames are pushed where there is memory, which the contracts leave open. The stack is lent to small functions without clauses, so that none carries what all
// calls say of it.
use lua_stack::{Shape, Stack};
use std::alloc::Global;
use std::process::Abort;
use std::test::Fail;
use table_core::{FuncId, Value};

/// Pushes the frame of a function with two arguments, and that of a `pcall`.
fn push_call(stack: &mut Stack, number: usize) -> Result<(), Fail> {
    let shape = Shape {
        params: 1,
        vararg: true,
        stack: 250,
    };
    stack.enter(FuncId(number), shape, &[Value::Int(1), Value::Int(2)])?;
    stack.push_pcall()?;
    Ok(())
}

/// Pushes a frame of each other kind.
fn push_others(stack: &mut Stack) -> Result<(), Fail> {
    stack.push_xpcall(Value::Bool(true))?;
    stack.push_handler()?;
    stack.push_closing(None, &[Value::Int(3)])?;
    Ok(())
}

/// How many values are pending in a stack.
fn count_pending(alloc: Global, stack: &Stack) -> Result<usize, Fail> {
    Ok(stack.pending_values(alloc)?.len())
}

/// Pushes 203 frames of all kinds.
fn push_frames(rt: &impl Abort, alloc: Global, stack: &mut Stack) -> Result<(), Fail> {
    for number in 0..100 {
        push_call(stack, number)?;
    }
    push_others(stack)?;
    assert_eq!(rt; stack.len(), 203);
    assert_eq!(rt; count_pending(alloc, stack)?, 0);
    Ok(())
}

#[test]
fn frames_are_pushed_with_ample_memory(rt: HostRuntime) -> Result<(), Fail> {
    let mut stack = Stack::new(rt.alloc());
    push_frames(&rt, rt.alloc(), &mut stack)
}
