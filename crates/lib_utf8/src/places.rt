// Places in a text, and errors of those that lie outside.
ghost use Rattle.std.specs.Prelude.{◌≡◌, Some};
ghost use Rattle.library_rows.specs.Arguments.{bad_argument};
ghost use Rattle.library_rows.specs.Codepoints.{invalid_code, place_in};
ghost use Rattle.library_arguments.specs.Refusals.{fault_text};

use library_arguments::{Fault, Refusal};

/// A place in a text of so many bytes, from 1. A negative one counts from the end, and is 0 before the first byte.
pub(crate) fn place_in(len: usize, place: i64) -> usize
    ensures { result ≡ place_in len place }
{
    if place >= 0 {
        place as usize
    } else {
        len.saturating_sub(!place as usize)
    }
}

/// The error of an argument that cannot be used.
pub(crate) fn bad_argument(place: usize, function: &'static [u8], what: &'static [u8]) -> Fault
    ensures { fault_text result ≡ Some (bad_argument place function.now what.now) }
{
    Fault::Refused(Refusal::BadArgument {
        place,
        function,
        what,
    })
}

/// The error of bytes that are no sequence.
pub(crate) fn invalid_code() -> Fault
    ensures { fault_text result ≡ Some invalid_code }
{
    Fault::Refused(Refusal::Text(b"invalid UTF-8 code"))
}
