// A value without an object.
ghost use Rattle.std.specs.Prelude.{◌≡◌, ◌+◌, pos, IfOk};
ghost use Rattle.int_core.specs.Value.{integer};
ghost use Rattle.library_arguments.specs.Shapes.{known_of};

use std::alloc::AllocError;

/// A value that a library function writes out: one that is no object.
#[derive(Debug, Drop)]
pub enum Plain {
    Nil,
    Boolean(bool),
    Integer(i64),
    String(Vec<u8>),
    /// A function of the libraries, by its number.
    Primitive(u16),
}

impl Plain {
    /// A number as an integer. One from 2^63 on, which no text in memory has as its length, counts as want of memory.
    pub fn number(n: usize) -> Result<Plain, AllocError>
        ensures { IfOk result (λ value. known_of value ≡ integer (pos n)) }
    {
        Ok(Plain::Integer(whole_number(n)?))
    }

    /// A place that is counted from 0 as an integer that counts from 1.
    pub fn place(at: usize) -> Result<Plain, AllocError>
        ensures { IfOk result (λ value. known_of value ≡ integer (pos (at + 1))) }
    {
        match at.checked_add(1) {
            Some(place) => Ok(Plain::Integer(whole_number(place)?)),
            None => Err(AllocError),
        }
    }
}

/// A number as an integer of 64 bits. One from 2^63 on counts as want of memory.
pub fn whole_number(n: usize) -> Result<i64, AllocError>
    ensures { IfOk result (λ value. value ≡ pos n) }
{
    match i64::try_from(n) {
        Ok(value) => Ok(value),
        Err(_) => Err(AllocError),
    }
}
