// Places in a text, from 1 on; a negative one counts from the end (Lua 5.4 manual, 6.4).
ghost use Rattle.std.specs.Prelude.{◌≡◌, length};
ghost use Rattle.library_rows.specs.Strings.{start_place, end_place, part};

/// Where a part of a text of so many bytes begins: at the first byte at the earliest.
pub fn start_place(len: usize, place: i64) -> usize
    ensures { result ≡ start_place len place }
{
    if place >= 0 {
        (place as usize).max(1)
    } else {
        len.saturating_sub(!place as usize).max(1)
    }
}

/// Where a part of a text of so many bytes ends: at the last byte at the latest, and at 0 before the first.
pub fn end_place(len: usize, place: i64) -> usize
    ensures { result ≡ end_place len place }
{
    if place >= 0 {
        (place as usize).min(len)
    } else {
        let back = !place as usize;
        len.saturating_sub(back)
    }
}

/// The bytes from one place up to another one, both included.
pub fn part(text: &[u8], first: i64, last: i64) -> &[u8]
    ensures { result.now ≡ part text.now first last }
{
    let start = start_place(text.len(), first) - 1;
    let end = end_place(text.len(), last);
    if start < end { &text[start..end] } else { &[] }
}
