// Why a library function gives no results.
ghost use Rattle.std.specs.Prelude.{◌≡◌, ◌++◌, codes, IfOk};
ghost use Rattle.library_rows.specs.Arguments.{bad_argument};
ghost use Rattle.library_arguments.specs.Refusals.{refusal_text};

use itoa::Buffer;
use std::alloc::{AllocError, AllocFailed, Global};

/// An error of a library function, by what its text says. The place of the caller comes before the text where it is raised.
#[derive(Debug, Clone, Copy)]
pub enum Refusal {
    /// An argument has another type than is wanted.
    WrongType {
        /// The argument's place, from 1.
        place: usize,
        /// The function's last name, as `char`.
        function: &'static [u8],
        /// The type that is wanted.
        wanted: &'static [u8],
        /// The word that `type` has for the argument.
        got: &'static [u8],
    },
    /// An argument has a value that cannot be used.
    BadArgument {
        /// The argument's place, from 1.
        place: usize,
        /// The function's last name, as `char`.
        function: &'static [u8],
        /// What is wrong.
        what: &'static [u8],
    },
    /// An error with a text of its own.
    Text(&'static [u8]),
}

impl Refusal {
    /// The error's text.
    pub fn text(&self, alloc: Global) -> Result<Vec<u8>, AllocError>
        ensures { IfOk result (λ text. text.items ≡ refusal_text self.now) }
    {
        match self {
            Refusal::WrongType {
                place,
                function,
                wanted,
                got,
            } => wrong_type(alloc, *place, function, wanted, got),
            Refusal::BadArgument {
                place,
                function,
                what,
            } => bad_argument(alloc, *place, function, what),
            Refusal::Text(text) => text.to_vec(alloc),
        }
    }
}

/// Why a library function gives no results.
#[derive(Debug, Clone, Copy)]
pub enum Fault {
    /// The error that it raises.
    Refused(Refusal),
    /// Memory ran out.
    Memory,
}

impl From<Refusal> for Fault {
    ghost use Rattle.library_arguments.specs.declared.refusal.Fault.TheVariants.{Refused};

    ghost from_gives = { λ why made. made ≡ Refused why };

    fn from(why: Refusal) -> Fault {
        Fault::Refused(why)
    }
}

impl From<AllocError> for Fault {
    ghost use Rattle.library_arguments.specs.declared.refusal.Fault.TheVariants.{Memory};

    ghost from_gives = { λ _ made. made ≡ Memory };

    fn from(_: AllocError) -> Fault {
        Fault::Memory
    }
}

impl<T: Drop> From<AllocFailed<T>> for Fault {
    ghost use Rattle.library_arguments.specs.declared.refusal.Fault.TheVariants.{Memory};

    ghost from_gives = { λ _ made. made ≡ Memory };

    fn from(_: AllocFailed<T>) -> Fault {
        Fault::Memory
    }
}

/// `bad argument #1 to 'f' (what)`
fn bad_argument(
    alloc: Global,
    place: usize,
    function: &[u8],
    what: &[u8],
) -> Result<Vec<u8>, AllocError>
    ensures { IfOk result (λ text. text.items ≡ bad_argument place function.now what.now) }
{
    let mut buffer = Buffer::new();
    let mut text = Vec::new(alloc);
    text.extend_from_slice(b"bad argument #")?;
    text.extend_from_slice(buffer.format(place).as_bytes())?;
    text.extend_from_slice(b" to '")?;
    text.extend_from_slice(function)?;
    text.extend_from_slice(b"' (")?;
    text.extend_from_slice(what)?;
    text.extend_from_slice(b")")?;
    Ok(text)
}

/// `bad argument #1 to 'f' (number expected, got nil)`
fn wrong_type(
    alloc: Global,
    place: usize,
    function: &[u8],
    wanted: &[u8],
    got: &[u8],
) -> Result<Vec<u8>, AllocError>
    ensures { IfOk result (λ text. text.items ≡ bad_argument place function.now (wanted.now ++ codes " expected, got " ++ got.now)) }
{
    let mut what = Vec::new(alloc);
    what.extend_from_slice(wanted)?;
    what.extend_from_slice(b" expected, got ")?;
    what.extend_from_slice(got)?;
    bad_argument(alloc, place, function, what.as_slice())
}
