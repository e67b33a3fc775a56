// Places of sequences counted from a place, all from 0 (Lua 5.4 manual, 6.5, `utf8.offset`).
ghost use Rattle.std.specs.Prelude.{◌≡◌, ◌≤◌, ◌+◌, ◌<◌, ◌^◌, length, drop};
ghost use Rattle.library_rows.specs.Codepoints.{continued, continues_at, sequence_start, sequences_back, sequences_on};

use crate::decoding::{behind, continued, is_continuation};

/// Whether a byte stands at a place that continues a sequence.
pub fn continues_at(text: &[u8], at: usize) -> bool
    ensures { result ≡ continues_at text.now at }
{
    match text.get(at) {
        Some(byte) => is_continuation(*byte),
        None => false,
    }
}

/// The first byte of the sequence at a place.
pub fn sequence_start(text: &[u8], at: usize) -> usize
    requires { at ≤ length text.now }
    ensures start { result ≡ sequence_start text.now at }
    ensures before { result ≤ at }
{
    let mut place = at;
    while place > 0 {
        if !continues_at(text, place) {
            return place;
        }
        place -= 1;
    }
    place
}

/// The place so many sequences further on; none past the end.
pub fn forward(text: &[u8], many: u64, at: usize) -> Option<usize>
    requires { at ≤ length text.now }
    ensures { result ≡ sequences_on text.now many at }
{
    let mut place = at;
    for _ in 0..many {
        if place >= text.len() {
            return None;
        }
        place += 1 + continued(behind(text, place + 1));
    }
    Some(place)
}

/// The place so many sequences before; none before the first.
pub fn back(text: &[u8], many: u64, at: usize) -> Option<usize>
    requires { at ≤ length text.now }
    ensures { result ≡ sequences_back text.now many at }
{
    let mut place = at;
    for _ in 0..many {
        if place == 0 {
            return None;
        }
        place = sequence_start(text, place - 1);
    }
    Some(place)
}
