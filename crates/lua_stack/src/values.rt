// Values in a list, written one after another.
ghost use Rattle.std.specs.Prelude.{◌≡◌, ◌+◌, ◌<◌, ◌≤◌, [], ◌∷◌, Some, length, slice_get, take, IfOk, OnErr, OnOk};
ghost use Rattle.lua_stack.specs.View.{blank, part, put_all};

use std::alloc::AllocError;
use table_core::Value;

/// The place so far behind another, which is no further than `room`.
#[inline(always)]
pub(crate) fn place_of(start: usize, count: usize, room: usize) -> usize
    requires { start + count ≤ room }
    ensures { result ≡ start + count }
{
    let _room = room;
    start + count
}

/// The item at a place.
#[inline(always)]
pub(crate) fn item_at<T: Copy>(items: &[T], at: usize) -> T
    requires { at < length items.now }
    ensures { slice_get items.now at ≡ Some result }
{
    items[at]
}

/// Writes one value.
#[inline(always)]
pub(crate) fn put_one(values: &mut Vec<Value>, at: usize, value: Value)
    requires { at + 1 ≤ length values.old.items }
    ensures { values.new.items ≡ put_all at (value ∷ []) values.old.items }
{
    values[at] = value;
}

/// Copies values to a place.
#[inline]
#[tactic(auto, using(crate::proofs::Parts::put_done))]
pub(crate) fn put(values: &mut Vec<Value>, at: usize, from: &[Value])
    requires { at + length from.now ≤ length values.old.items }
    ensures { values.new.items ≡ put_all at from.now values.old.items }
{
    for k in 0..from.len() {
        values[at + k] = item_at(from, k);
    }
}

/// Sets so many values to nil.
#[inline]
pub(crate) fn clear(values: &mut Vec<Value>, at: usize, count: usize)
    requires { at + count ≤ length values.old.items }
    ensures { values.new.items ≡ put_all at (blank count) values.old.items }
{
    for k in 0..count {
        values[at + k] = Value::Nil;
    }
}

/// Copies values to another place, which may lie over their own.
pub(crate) fn copy(values: &mut Vec<Value>, from: usize, to: usize, count: usize)
    requires from { from + count ≤ length values.old.items }
    requires to { to + count ≤ length values.old.items }
    ensures { values.new.items ≡ put_all to (part from count values.old.items) values.old.items }
{
    let _size = values.len();
    values.copy_within(from..from + count, to);
}

/// Lets the list have at least so many values.
pub(crate) fn grow(values: &mut Vec<Value>, len: usize) -> Result<(), AllocError>
    ensures front { take (length values.old.items) values.new.items ≡ values.old.items }
    ensures longer { length values.old.items ≤ length values.new.items }
    ensures room { OnOk result (len ≤ length values.new.items) }
    ensures err { OnErr result (values.new.items ≡ values.old.items) }
{
    if values.len() < len {
        values.resize(len, Value::Nil)?;
    }
    Ok(())
}

/// A place behind another, where it is a number.
#[inline(always)]
pub(crate) fn end_of(start: usize, count: usize) -> Result<usize, AllocError>
    ensures { IfOk result (λ end. end ≡ start + count) }
{
    start.checked_add(count).ok_or(AllocError)
}
