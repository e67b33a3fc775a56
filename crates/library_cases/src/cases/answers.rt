// What tests read of a function's answer.
use library_arguments::{Fault, Plain, Results};
use std::alloc::Global;
use std::test::Fail;

/// The one string among some results, and an empty one where there is none.
pub(crate) fn string(answer: &Result<Results, Fault>) -> &[u8] {
    match answer {
        Ok(Results::One(Plain::String(bytes))) => bytes.as_slice(),
        _ => &[],
    }
}

/// The integers among some results; another value counts as -1.
pub(crate) fn integers(alloc: Global, answer: Result<Results, Fault>) -> Result<Vec<i64>, Fail> {
    let mut found = Vec::new(alloc);
    match answer {
        Ok(Results::One(value)) => found.push(integer(&value))?,
        Ok(Results::Many(values)) => {
            for value in &values {
                found.push(integer(value))?;
            }
        }
        Err(_) => {}
    }
    Ok(found)
}

fn integer(value: &Plain) -> i64 {
    match value {
        Plain::Integer(n) => *n,
        _ => -1,
    }
}

/// The text of an error, and an empty one where there is none.
pub(crate) fn error_of(alloc: Global, answer: Result<Results, Fault>) -> Result<Vec<u8>, Fail> {
    match answer {
        Err(Fault::Refused(why)) => Ok(why.text(alloc)?),
        _ => Ok(Vec::new(alloc)),
    }
}
