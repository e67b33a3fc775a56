// How many sequences a text has (Lua 5.4 manual, 6.5, `utf8.len`).
ghost use Rattle.std.specs.Prelude.{◌≡◌, ◌≤◌, drop, length};
ghost use Rattle.library_rows.specs.Codepoints.{counted_until};
ghost use Rattle.utf8_core.specs.Told.{told_count};

use crate::decoding::{behind, decode};

/// How many sequences begin from one place on and before another one, both from 0.
///
/// # Errors
///
/// The place, from 0, of the first byte that begins none where one should.
pub fn count(text: &[u8], from: usize, end: usize, lax: bool) -> Result<usize, usize>
    requires { from ≤ length text.now }
    ensures { counted_until lax 0 from end (drop from text.now) 0 ≡ told_count result }
{
    let mut at = from;
    let mut found = 0;
    while at < end {
        if at >= text.len() {
            return Ok(found);
        }
        let Some(decoded) = decode(behind(text, at), lax) else {
            return Err(at);
        };
        at += 1 + decoded.more;
        found += 1;
    }
    Ok(found)
}
