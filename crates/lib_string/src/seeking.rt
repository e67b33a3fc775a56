// The next match, for `gmatch` and `gsub`, which are Lua text.
ghost use Rattle.std.specs.Prelude.{◌≡◌, ◌∷◌, true, Ok, IfOk, IfSome, length, map};
ghost use Rattle.std.specs.List.{list_all};
ghost use Rattle.library_rows.specs.Plainly.{fits_length};
ghost use Rattle.library_rows.specs.Searches.{captured_or_whole, gives_hit, natural, seeks, whole};
ghost use Rattle.text_match.specs.Told.{IsWithin, told_hit};
ghost use Rattle.library_arguments.specs.Shapes.{known_of, shapes_of};
ghost use Rattle.lib_string.specs.Searches.{IsSought, hit_of};

use crate::faults::pattern_fault;
use crate::matching::append_captures;
use library_arguments::{
    Fault, Plain, Refusal, Shape, argument, fit_lengths, integer_argument, text_argument,
    whole_number,
};
use std::alloc::{AllocError, Global};
use text_match::{Hit, next_hit};

/// A match as `seek` gives it.
#[derive(Debug, Drop)]
pub struct Sought {
    /// The place of its first byte, from 1.
    pub start: i64,
    /// The place behind it, from 1.
    pub next: i64,
    /// The whole match, and then its captures, or the whole once more where the pattern has none.
    pub values: Vec<Plain>,
}

/// The next match from a place on. It is private to the libraries' Lua text, which gets the values in a new table, at 0 and on, with the
/// number of the captures at `n`.
///
/// # Errors
///
/// The text or the pattern is none, a place no integer, the pattern is refused, or a value has more than 16,777,216 bytes; or memory runs
/// out.
pub fn seek(alloc: Global, shapes: &[Shape]) -> Result<Option<Sought>, Fault>
    ensures row { IsSought result (seeks (shapes_of shapes.now)) }
    ensures fits { IfOk result (λ found. IfSome found (λ s. list_all fits_length (map known_of s.values.items) ≡ true)) }
{
    let text = text_argument(b"seek", 1, argument(shapes, 1))?;
    let pattern = text_argument(b"seek", 2, argument(shapes, 2))?;
    let at = natural(integer_argument(b"seek", 3, argument(shapes, 3))?);
    let last = natural(integer_argument(b"seek", 4, argument(shapes, 4))?);
    let raw = argument(shapes, 5).holds();
    let subject = text.as_slice();
    let from = at.saturating_sub(1);
    match next_hit(alloc, subject, pattern.as_slice(), from, last, raw) {
        Ok(hit) => {
            let sought = given(alloc, subject, hit)?;
            Ok(sought)
        }
        Err(fault) => Err(pattern_fault(fault)),
    }
}

/// A match with its values, where there is one.
fn given(alloc: Global, subject: &[u8], hit: Option<Hit>) -> Result<Option<Sought>, Fault>
    requires { IfSome hit (IsWithin (length subject.now)) }
    ensures row { IsSought result (gives_hit subject.now (Ok (told_hit hit))) }
    ensures fits { IfOk result (λ found. IfSome found (λ s. list_all fits_length (map known_of s.values.items) ≡ true)) }
{
    let Some(hit) = hit else {
        return Ok(None);
    };
    let values = values_of(alloc, subject, &hit)?;
    if !fit_lengths(&values) {
        return Err(Fault::Refused(Refusal::Text(b"resulting string too large")));
    }
    Ok(Some(Sought {
        start: whole_number(hit.start + 1)?,
        next: whole_number(hit.end + 1)?,
        values,
    }))
}

/// The whole match, and then its captures, or the whole once more.
fn values_of(alloc: Global, subject: &[u8], hit: &Hit) -> Result<Vec<Plain>, AllocError>
    requires { IsWithin (length subject.now) hit.now }
    ensures { IfOk result (λ values. map known_of values.items ≡ whole subject.now (hit_of hit.now) ∷ captured_or_whole subject.now (hit_of hit.now)) }
{
    let bytes = &subject[hit.start..hit.end];
    let mut values = Vec::new(alloc);
    values.push(Plain::String(bytes.to_vec(alloc)?))?;
    if hit.captures.is_empty() {
        values.push(Plain::String(bytes.to_vec(alloc)?))?;
        return Ok(values);
    }
    append_captures(alloc, &mut values, subject, hit)?;
    Ok(values)
}

/// An integer, or 0 where it is negative.
fn natural(n: i64) -> usize
    ensures { result ≡ natural n }
{
    if n < 0 { 0 } else { n as usize }
}
