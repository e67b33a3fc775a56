// Searches from a place on.
ghost use Rattle.std.specs.Prelude.{◌≡◌, ◌≤◌, ◌<◌, ◌-◌, ◌+◌, drop, length, false, IsTrue, Ok, IfOk, IfErr, IfSome};
ghost use Rattle.library_rows.specs.Searches.{barred_end, hit_from, is_anchored, next_hit, pattern_items, search};
ghost use Rattle.std.specs.List.{list_any};
ghost use Rattle.text_match.specs.Ordinary.{is_special, plain_hit};
ghost use Rattle.text_match.specs.Told.{IsFound, IsRefusedAs, IsWithin, told_hit};

use crate::hits::{Hit, first_hit};
use crate::plain::find_plain;
use lua_pattern::{Pattern, PatternFault};
use std::alloc::{AllocError, Global};

/// The items of a pattern, in which a `^` stands for itself.
///
/// # Errors
///
/// The first rule that it breaks, or else that it is too complex; or memory runs out.
pub fn read_items(alloc: Global, pattern: &[u8]) -> Result<Pattern, PatternFault>
    ensures read { IfOk result (λ items. pattern_items pattern.now ≡ Ok items) }
    ensures refused { IfErr result (λ fault. IsRefusedAs fault (pattern_items pattern.now)) }
{
    let items = Pattern::read(alloc, pattern)?;
    Ok(items)
}

/// The match that is found, if there is one, or why a pattern gives none.
pub type Searched = Result<Option<Hit>, PatternFault>;

/// The first match from a place on; with a `^` before the pattern at that place alone. A pattern in which each byte stands for itself is
/// searched as a plain text.
///
/// # Errors
///
/// The first rule that the pattern breaks, or else that it is too complex; or memory runs out.
pub fn search(alloc: Global, subject: &[u8], pattern: &[u8], at: usize) -> Searched
    requires { at ≤ length subject.now }
    ensures found { IsFound result (search subject.now pattern.now at) }
    ensures inside { IfOk result (λ hit. IfSome hit (IsWithin (length subject.now))) }
{
    if has_special(pattern) {
        let hit = search_items(alloc, subject, pattern, at)?;
        return Ok(hit);
    }
    let place = find_plain(subject, pattern, at);
    Ok(plain_hit(alloc, pattern, subject.len(), place))
}

/// Whether a pattern has bytes, each of which stands for itself.
fn is_plain(pattern: &[u8]) -> bool
    ensures some { IsTrue result → 0 < length pattern.now }
    ensures ordinary { IsTrue result → list_any is_special pattern.now ≡ false }
{
    !pattern.is_empty() && !has_special(pattern)
}

/// Whether a byte of a pattern stands for something else.
fn has_special(pattern: &[u8]) -> bool
    ensures { result ≡ list_any is_special pattern.now }
{
    pattern.iter().any(|byte| is_special(*byte))
}

fn is_special(byte: u8) -> bool
    ensures { result ≡ is_special byte }
{
    matches!(
        byte,
        b'$' | b'%' | b'(' | b')' | b'*' | b'+' | b'-' | b'.' | b'?' | b'[' | b'^'
    )
}

/// The match of a plain text at a place, within so many bytes.
fn plain_hit(alloc: Global, text: &[u8], len: usize, place: Option<usize>) -> Option<Hit>
    requires { IfSome place (λ start. start + length text.now ≤ len) }
    ensures told { told_hit result ≡ plain_hit text.now place }
    ensures inside { IfSome result (IsWithin len) }
{
    let start = place?;
    Some(Hit {
        start,
        end: start + text.len(),
        captures: Vec::new(alloc),
    })
}

/// The first match of a pattern by its items.
fn search_items(alloc: Global, subject: &[u8], pattern: &[u8], at: usize) -> Searched
    requires { at ≤ length subject.now }
    ensures found { IsFound result (search subject.now pattern.now at) }
    ensures inside { IfOk result (λ hit. IfSome hit (IsWithin (length subject.now))) }
{
    if is_anchored(pattern) {
        let items = read_items(alloc, without_anchor(pattern))?;
        let hit = first_hit(alloc, subject, &items, None, at, 0)?;
        return Ok(hit);
    }
    let items = read_items(alloc, pattern)?;
    let hit = first_hit(alloc, subject, &items, None, at, subject.len() - at)?;
    Ok(hit)
}

/// The next match from a place on whose next place, from 1, is not `last`. With a `^` before the pattern it is tried at the
/// place alone, unless it is `raw`. A pattern in which each byte stands for itself is searched as a plain text, where it cannot end too early.
///
/// # Errors
///
/// The first rule that the pattern breaks, or else that it is too complex; or memory runs out.
pub fn next_hit(
    alloc: Global,
    subject: &[u8],
    pattern: &[u8],
    at: usize,
    last: usize,
    raw: bool,
) -> Searched
    ensures found { IsFound result (next_hit subject.now pattern.now at last raw) }
    ensures inside { IfOk result (λ hit. IfSome hit (IsWithin (length subject.now))) }
{
    if at <= subject.len() && last <= at + 1 && is_plain(pattern) {
        let place = find_plain(subject, pattern, at);
        return Ok(plain_hit(alloc, pattern, subject.len(), place));
    }
    if is_anchored(pattern) && !raw {
        let items = read_items(alloc, without_anchor(pattern))?;
        let hit = hit_from(alloc, subject, &items, at, last, 0)?;
        return Ok(hit);
    }
    let items = read_items(alloc, pattern)?;
    let hit = hit_from(
        alloc,
        subject,
        &items,
        at,
        last,
        subject.len().saturating_sub(at),
    )?;
    Ok(hit)
}

/// The first match from a place on whose next place, from 1, is not `last`; none from past the end.
fn hit_from(
    alloc: Global,
    subject: &[u8],
    items: &Pattern,
    at: usize,
    last: usize,
    left: usize,
) -> Result<Option<Hit>, AllocError>
    requires { left ≤ length subject.now - at }
    ensures found { IfOk result (λ hit. hit_from subject.now at last left (Ok items.now) ≡ Ok (told_hit hit)) }
    ensures inside { IfOk result (λ hit. IfSome hit (IsWithin (length subject.now))) }
{
    if subject.len() < at {
        return Ok(None);
    }
    let hit = first_hit(alloc, subject, items, barred_end(last), at, left)?;
    Ok(hit)
}

/// A pattern without its first byte.
fn without_anchor(pattern: &[u8]) -> &[u8]
    requires { 0 < length pattern.now }
    ensures { result.now ≡ drop 1 pattern.now }
{
    let (_, rest) = pattern.split_at(1);
    rest
}

fn is_anchored(pattern: &[u8]) -> bool
    ensures told { result ≡ is_anchored pattern.now }
    ensures some { IsTrue result → 0 < length pattern.now }
{
    match pattern.first() {
        Some(byte) => *byte == b'^',
        None => false,
    }
}

fn barred_end(last: usize) -> Option<usize>
    ensures { result ≡ barred_end last }
{
    if last == 0 { None } else { Some(last - 1) }
}
