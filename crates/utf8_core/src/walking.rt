// One sequence after another (Lua 5.4 manual, 6.5, `utf8.codes`).
ghost use Rattle.std.specs.Prelude.{◌≡◌, ◌≤◌, length};
ghost use Rattle.library_rows.specs.Codepoints.{walked};
ghost use Rattle.utf8_core.specs.Told.{told_step};

use crate::decoding::{behind, decode, is_continuation};

/// What stands at a place of a text.
#[derive(Clone, Copy, Debug, PartialEq, Eq)]
pub enum Step {
    /// The end.
    End,
    /// A byte that begins no sequence, or a sequence with a byte too many behind it.
    Invalid,
    /// The sequence of this number.
    Code(u64),
}

/// What stands at a place from 0.
pub fn walk(text: &[u8], at: usize, lax: bool) -> Step
    requires { at ≤ length text.now }
    ensures { walked lax text.now at ≡ told_step at result }
{
    let here = behind(text, at);
    let Some((_, rest)) = here.split_first() else {
        return Step::End;
    };
    let Some(decoded) = decode(here, lax) else {
        return Step::Invalid;
    };
    match rest.get(decoded.more) {
        Some(byte) if is_continuation(*byte) => Step::Invalid,
        _ => Step::Code(decoded.code),
    }
}
