// Copies of a text.
ghost use Rattle.library_rows.specs.Strings.{rep_row};
ghost use Rattle.library_arguments.specs.Answers.{IsAnswer};
ghost use Rattle.library_arguments.specs.Shapes.{shapes_of};

use crate::faults::string_fault;
use library_arguments::{
    Fault, Results, Shape, argument, integer_argument, text_argument, text_or,
};
use std::alloc::Global;
use text_functions::repeated;

/// `string.rep`: so many copies of a text with another one between them.
///
/// # Errors
///
/// The first or third argument is no text, or the second one no integer; they would have more than 16,777,216 bytes; or memory runs out.
pub fn rep(alloc: Global, shapes: &[Shape]) -> Result<Results, Fault>
    ensures { IsAnswer result (rep_row (shapes_of shapes.now)) }
{
    let text = text_argument(b"rep", 1, argument(shapes, 1))?;
    let count = integer_argument(b"rep", 2, argument(shapes, 2))?;
    let between = text_or(b"", b"rep", 3, argument(shapes, 3))?;
    match repeated(alloc, text.as_slice(), between.as_slice(), count) {
        Ok(bytes) => {
            let results = Results::string(bytes)?;
            Ok(results)
        }
        Err(fault) => Err(string_fault(fault)),
    }
}
