// The first match at one of some places.
ghost use Rattle.std.specs.Prelude.{◌≡◌, ◌≤◌, ◌+◌, [], length, IfOk, IfSome, IfNone};
ghost use Rattle.lua_pattern.specs.Answer.{first_found};
ghost use Rattle.lua_pattern.specs.Firsts.{IsInside};
ghost use Rattle.library_rows.specs.Searches.{counts, ends_there, first_hit};
ghost use Rattle.text_match.specs.Told.{IsWithin, hit_to, told_hit};

use lua_pattern::{Capture, Pattern};
use std::alloc::{AllocError, Global};

/// A match by its places in the subject, from 0.
#[derive(Debug, Drop)]
pub struct Hit {
    /// The place of its first byte.
    pub start: usize,
    /// The place behind it.
    pub end: usize,
    /// The captures, in the order of their opening brackets.
    pub captures: Vec<Capture>,
}

/// The first match at one of the places from `at` on, the last of which is `left` further. What counts at a place is the
/// first of all matches there, unless it ends at `barred`. Places whose byte begins no match are passed over.
pub fn first_hit(
    alloc: Global,
    subject: &[u8],
    items: &Pattern,
    barred: Option<usize>,
    at: usize,
    left: usize,
) -> Result<Option<Hit>, AllocError>
    requires { at + left ≤ length subject.now }
    ensures first { IfOk result (λ hit. told_hit hit ≡ first_hit barred subject.now items.now at left) }
    ensures inside { IfOk result (λ hit. IfSome hit (IsWithin (length subject.now))) }
{
    let mut captures = Vec::new(alloc);
    let mut place = items.next_start(subject, at, left);
    let mut more = at + left - place;
    'places: loop {
        let found = counted_end(subject, items, barred, place, &mut captures)?;
        if let Some(end) = found {
            return Ok(Some(Hit {
                start: place,
                end,
                captures,
            }));
        }
        if more == 0 {
            return Ok(None);
        }
        let next = items.next_start(subject, place + 1, more - 1);
        more -= next - place;
        place = next;
    }
}

/// The end of what counts at a place, and its captures in the list, which is empty before; it is empty again where nothing counts.
fn counted_end(
    subject: &[u8],
    items: &Pattern,
    barred: Option<usize>,
    at: usize,
    captures: &mut Vec<Capture>,
) -> Result<Option<usize>, AllocError>
    requires place { at ≤ length subject.now }
    requires empty { captures.old.items ≡ [] }
    ensures first { IfOk result (λ end. hit_to at end captures.new.items ≡ counts barred at (first_found subject.now items.now at)) }
    ensures none { IfOk result (λ end. IfNone end (captures.new.items ≡ [])) }
    ensures inside { IfOk result (λ end. IfSome end (λ place. IsInside (length subject.now) at place captures.new.items)) }
{
    let Some(end) = items.end_at(subject, at, captures)? else {
        return Ok(None);
    };
    if ends_there(barred, end) {
        captures.clear();
        return Ok(None);
    }
    Ok(Some(end))
}

fn ends_there(barred: Option<usize>, end: usize) -> bool
    ensures { result ≡ ends_there barred end }
{
    match barred {
        Some(barred) => barred == end,
        None => false,
    }
}
