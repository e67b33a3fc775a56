// The results of a library function.
ghost use Rattle.std.specs.Prelude.{◌≡◌, map};
ghost use Rattle.int_core.specs.Value.{string};
ghost use Rattle.library_rows.specs.Plainly.{fits_length, results};
ghost use Rattle.library_rows.specs.Arguments.{one};
ghost use Rattle.std.specs.List.{list_all};
ghost use Rattle.library_arguments.specs.Shapes.{known_of};
ghost use Rattle.library_arguments.specs.Answers.{IsLimited, results_of};

use crate::plain::Plain;
use crate::refusal::Refusal;

/// The greatest number of bytes in a string.
const MAX_STRING: usize = 16_777_216;

/// The results of a library function. One result takes no memory of its own.
#[derive(Debug, Drop)]
pub enum Results {
    One(Plain),
    Many(Vec<Plain>),
}

impl Results {
    /// One string.
    ///
    /// # Errors
    ///
    /// `resulting string too large` where it has more than 16,777,216 bytes.
    pub fn string(bytes: Vec<u8>) -> Result<Results, Refusal>
        ensures { IsLimited result (one (string bytes.items)) }
    {
        if bytes.len() > MAX_STRING {
            return Err(Refusal::Text(b"resulting string too large"));
        }
        Ok(Results::One(Plain::String(bytes)))
    }

    /// Some values.
    ///
    /// # Errors
    ///
    /// `resulting string too large` where one has more than 16,777,216 bytes.
    pub fn many(values: Vec<Plain>) -> Result<Results, Refusal>
        ensures { IsLimited result (results (results_of (Results.Many values))) }
    {
        if fit_lengths(&values) {
            Ok(Results::Many(values))
        } else {
            Err(Refusal::Text(b"resulting string too large"))
        }
    }
}

/// Whether each string has at most 16,777,216 bytes.
pub fn fit_lengths(values: &[Plain]) -> bool
    ensures { result ≡ list_all fits_length (map known_of values.now) }
{
    for value in values {
        if !fits_length(value) {
            return false;
        }
    }
    true
}

fn fits_length(value: &Plain) -> bool
    ensures { result ≡ fits_length (known_of value.now) }
{
    match value {
        Plain::String(bytes) => bytes.len() <= MAX_STRING,
        _ => true,
    }
}
