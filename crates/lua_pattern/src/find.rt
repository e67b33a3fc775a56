// The search for a pattern at one place of a subject.
ghost use Rattle.std.specs.Prelude.{◌≡◌, ◌≤◌, length, count_by, IfOk, IfSome};
ghost use Rattle.lua_pattern.specs.Answer.{IsAnswer, answer_of, is_counted};
ghost use Rattle.lua_pattern.specs.Firsts.{IsInside};

use crate::answer::{Capture, Match, PatternFault};
use crate::begins::next_start;
use crate::item::Item;
use crate::matching::first_match;
use crate::reading::read_pattern;
use std::alloc::{AllocError, Global};
use std::marker::Model;

/// How many captures and quantifiers a pattern can have together.
const MAX_COUNTED: usize = 200;

/// A pattern that is read, to be tried at any number of places. Contracts see its items.
#[derive(Drop)]
pub struct Pattern {
    items: Vec<Item>,
}

impl Model for Pattern {
    ghost use Rattle.std.specs.Prelude.{List};
    ghost use Rattle.lua_pattern.specs.declared.item.Item.{Item as Piece};

    ghost Value = { List Piece };

    ghost view = { λ pattern. pattern.items.items };
}

impl Pattern {
    ghost use Rattle.std.specs.Prelude.{◌≡◌, ◌≤◌, ◌+◌, [], length, count_by, Ok, IfOk, IfErr, IfSome, IfNone};
    ghost use Rattle.lua_pattern.specs.Answer.{IsFaultOf, first_found, found_of, found_to, is_counted};
    ghost use Rattle.lua_pattern.specs.Begins.{IsPassed};
    ghost use Rattle.lua_pattern.specs.Firsts.{IsInside};
    ghost use Rattle.lua_pattern.specs.Reading.{items_of};

    /// Reads a pattern whole (Lua 5.4 manual, 6.4.1). A `^` before it is no anchor here: it stands for itself.
    ///
    /// # Errors
    ///
    /// The first rule that it breaks, or else that it has more than 200 captures and quantifiers; or memory runs out.
    pub fn read(alloc: Global, pattern: &[u8]) -> Result<Pattern, PatternFault>
        ensures read { IfOk result (λ items. items_of pattern.now ≡ Ok items) }
        ensures few { IfOk result (λ items. count_by is_counted items ≤ 200) }
        ensures refused { IfErr result (λ fault. IsFaultOf fault (items_of pattern.now)) }
    {
        let items = read_pattern(alloc, pattern)?;
        if counted(&items) > MAX_COUNTED {
            return Err(PatternFault::TooComplex);
        }
        Ok(Pattern { items })
    }

    /// The first match that begins at a place of the subject, from 0. `None` says that there is no match at this place.
    pub fn first_at(
        &self,
        alloc: Global,
        subject: &[u8],
        at: usize,
    ) -> Result<Option<Match>, AllocError>
        requires { at ≤ length subject.now }
        ensures first { IfOk result (λ found. found_of found ≡ first_found subject.now self.now at) }
        ensures inside { IfOk result (λ found. IfSome found
            (λ match. IsInside (length subject.now) at match.end match.captures.items)) }
    {
        let mut captures = Vec::new(alloc);
        match first_match(subject, &self.items, at, &mut captures)? {
            Some(end) => Ok(Some(Match { end, captures })),
            None => Ok(None),
        }
    }

    /// The end of the first match that begins at a place of the subject, from 0, and its captures in the list, which is empty before. `None` says that
    /// there is no match at this place; then the list is empty again.
    pub fn end_at(
        &self,
        subject: &[u8],
        at: usize,
        captures: &mut Vec<Capture>,
    ) -> Result<Option<usize>, AllocError>
        requires place { at ≤ length subject.now }
        requires empty { captures.old.items ≡ [] }
        ensures first { IfOk result (λ end. found_to end captures.new.items ≡ first_found subject.now self.now at) }
        ensures none { IfOk result (λ end. IfNone end (captures.new.items ≡ [])) }
        ensures inside { IfOk result (λ end. IfSome end
            (λ place. IsInside (length subject.now) at place captures.new.items)) }
    {
        match first_match(subject, &self.items, at, captures)? {
            Some(end) => Ok(Some(end)),
            None => Ok(None),
        }
    }

    /// The first place from `at` on, and at most `left` further, before which no match begins.
    pub fn next_start(&self, subject: &[u8], at: usize, left: usize) -> usize
        requires { at + left ≤ length subject.now }
        ensures from { at ≤ result }
        ensures within { result ≤ at + left }
        ensures passed { IsPassed subject.now self.now at result }
    {
        next_start(subject, &self.items, at, left)
    }
}

/// The first match of a pattern that begins at a place of the subject, from 0 (Lua 5.4 manual, 6.4.1).
///
/// The pattern is read whole first. A `^` before it is no anchor here: it stands for itself. `None` says that there is no match at this place.
pub fn find_at(
    alloc: Global,
    subject: &[u8],
    pattern: &[u8],
    at: usize,
) -> Result<Option<Match>, PatternFault>
    requires { at ≤ length subject.now }
    ensures answer { IsAnswer result (answer_of subject.now pattern.now at) }
    ensures inside { IfOk result (λ found. IfSome found
        (λ match. IsInside (length subject.now) at match.end match.captures.items)) }
{
    let pattern = Pattern::read(alloc, pattern)?;
    Ok(pattern.first_at(alloc, subject, at)?)
}

/// How many captures and quantifiers there are.
fn counted(items: &[Item]) -> usize
    ensures { result ≡ count_by is_counted items.now }
{
    items.iter().filter(|item| item.is_counted()).count()
}
