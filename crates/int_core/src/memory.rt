// What is made where memory may run out.
use std::alloc::AllocError;

/// A value, or that memory ran out.
pub type Allocated<T> = Result<T, AllocError>;
