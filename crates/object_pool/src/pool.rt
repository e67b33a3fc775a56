// A list of objects that are named by their places, with room that can be reserved before it is used.
// They stand in segments of one size, so that an object is never moved where the pool grows.
ghost use Rattle.std.specs.Prelude.{◌≡◌, ℕ, ◌+◌, ◌<◌, ◌≤◌, [], Some, length, IsOk, OnOk, OnErr, slice_get};
ghost use Rattle.std.specs.Borrow.{sem};

use crate::segments::{SEGMENT, cut_to, grow_to, push_object};
use std::alloc::{AllocError, Global};
use std::marker::Model;

/// A list of objects, each named by its place, which it keeps until the list is cut back below it.
///
/// Contracts see the objects, and in `spare` for how many more there is room.
#[derive(Drop)]
pub struct Pool<T> {
    segments: Vec<Vec<T>>,
    /// How many objects there are.
    len: usize,
    /// How many there may be before more room is made.
    places: usize,
}

impl<T> Model for Pool<T> {
    ghost use Rattle.std.specs.Prelude.{◌-◌};
    ghost use Rattle.object_pool.specs.Pool.{Pool as Shown, pool_code};
    ghost use Rattle.object_pool.specs.Segments.{AreSegments, objects_in};

    ghost Value = { Shown T };

    ghost coded = { pool_code T.code };

    ghost view = { λ p. record { objects = objects_in p.segments.items; spare = p.places - p.len } };

    ghost invariant = { λ p. AreSegments p.segments.items p.len p.places };
}

impl<T> Pool<T> {
    ghost use Rattle.object_pool.specs.Pool.{Appends, KeepsFirst};
    ghost use Rattle.object_pool.specs.Lending.{lends_object};

    /// A pool without an object. It takes no memory.
    pub fn new(alloc: Global) -> Pool<T>
        ensures { result.objects ≡ [] }
    {
        Pool {
            segments: Vec::new(alloc),
            len: 0,
            places: 0,
        }
    }

    /// From where its memory comes.
    pub fn allocator(&self) -> Global {
        *self.segments.allocator()
    }

    /// How many objects there are.
    pub fn len(&self) -> usize
        ensures { result ≡ length self.now.objects }
    {
        self.len
    }

    /// The object at a place.
    pub fn get(&self, at: usize) -> &T
        requires { at < length self.now.objects }
        ensures { slice_get self.now.objects at ≡ Some result.now }
    {
        &self.segments[at / SEGMENT][at % SEGMENT]
    }

    /// The object at a place, for writing.
    pub fn get_mut(&mut self, at: usize) -> &mut T
        requires { at < length self.old.objects }
        ensures* writes_back { sem 𝓛 (lends_object T.row self.entry at result) }
        ensures value { slice_get self.old.objects at ≡ Some result.now }
    {
        let segment = &mut self.segments[at / SEGMENT];
        &mut segment[at % SEGMENT]
    }

    /// Makes room for at least `n` more objects. Only want of memory can refuse it.
    pub fn reserve(&mut self, n: usize) -> Result<(), AllocError>
        ensures objects { self.new.objects ≡ self.old.objects }
        ensures room { OnOk result (n ≤ self.new.spare) }
        ensures kept { self.old.spare ≤ self.new.spare }
        ensures at_hand { n ≤ self.old.spare → IsOk result }
        ensures refused { OnErr result (self.new ≡ self.old) }
    {
        let places = self.len.checked_add(n).ok_or(AllocError)?;
        let needed = places.div_ceil(SEGMENT);
        grow_to(&mut self.segments, needed)?;
        self.places = self.places.max(needed.saturating_mul(SEGMENT));
        Ok(())
    }

    /// Places an object at the end, where there is room, and gives its place.
    pub fn place(&mut self, value: T) -> usize
        requires { 0 < self.old.spare }
        ensures place { result ≡ length self.old.objects }
        ensures appended { Appends self.old self.new value }
    {
        let at = self.len;
        push_object(&mut self.segments, at, value);
        self.len = at + 1;
        at
    }

    /// The place that the next object gets, to which `release_to` cuts the pool back.
    pub fn mark(&self) -> usize
        ensures { result ≡ length self.now.objects }
    {
        self.len
    }

    /// Keeps the first `mark` objects and drops the others, whose places are room again.
    pub fn release_to(&mut self, mark: usize)
    where
        T: Drop,
        requires { mark ≤ length self.old.objects }
        ensures { KeepsFirst self.old self.new mark }
    {
        cut_to(&mut self.segments, self.len, mark);
        self.len = mark;
    }
}
