// Searches for a text as it stands (Lua 5.4 manual, 6.4, `string.find` with `plain`).
ghost use Rattle.std.specs.Prelude.{◌≡◌, ◌≤◌, ◌+◌, Some, drop, length, nat_eq, slice_get, IfSome};
ghost use Rattle.std.specs.List.{starts_with};
ghost use Rattle.memchr.specs.Find.{FindsNeedle, IsFirstByte, is_byte};
ghost use Rattle.library_rows.specs.Searches.{text_from};

use memchr::{memchr, memmem};

/// The first place from `at` on, from 0, at which a text stands.
pub fn find_plain(subject: &[u8], text: &[u8], at: usize) -> Option<usize>
    requires { at ≤ length subject.now }
    ensures first { result ≡ text_from text.now at (drop at subject.now) }
    ensures inside { IfSome result (λ place. place + length text.now ≤ length subject.now) }
{
    let (_, rest) = subject.split_at(at);
    match found_in(rest, text) {
        Some(place) => Some(at + place),
        None => None,
    }
}

/// The first place at which a text stands. The place where its first byte first stands is looked at before a search for the whole is made ready.
fn found_in(rest: &[u8], text: &[u8]) -> Option<usize>
    ensures { FindsNeedle rest.now text.now 0 result }
{
    match first_byte(text) {
        Some(first) => found_by(rest, text, first),
        None => memmem::find(rest, text),
    }
}

fn first_byte(text: &[u8]) -> Option<u8>
    ensures { result ≡ slice_get text.now 0 }
{
    text.get(0).copied()
}

/// The first place of a text that begins with a byte.
fn found_by(rest: &[u8], text: &[u8], first: u8) -> Option<usize>
    requires { slice_get text.now 0 ≡ Some first }
    ensures { FindsNeedle rest.now text.now 0 result }
{
    match memchr(first, rest) {
        Some(place) => found_at(rest, text, first, place),
        None => None,
    }
}

/// The same, where that byte stands first at a place.
fn found_at(rest: &[u8], text: &[u8], first: u8, place: usize) -> Option<usize>
    requires text { slice_get text.now 0 ≡ Some first }
    requires byte { IsFirstByte (is_byte first) rest.now (Some place) }
    ensures { FindsNeedle rest.now text.now 0 result }
{
    if stands_at(rest, place, text) {
        return Some(place);
    }
    memmem::find(rest, text)
}

fn stands_at(rest: &[u8], place: usize, text: &[u8]) -> bool
    requires { place ≤ length rest.now }
    ensures { result ≡ starts_with nat_eq (drop place rest.now) text.now }
{
    let (_, behind) = rest.split_at(place);
    behind.starts_with(text)
}
