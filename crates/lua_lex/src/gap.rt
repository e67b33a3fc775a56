// Skipped text: white space and comments.
ghost use Rattle.std.specs.Prelude.{◌≤◌, ◌<◌, ℕ, List, length, drop, IfSome, IfNone};
ghost use Rattle.lua_lex.specs.Lexical.{Gap, Skips};

use crate::bracket::long_bracket;
use crate::kind::{Kind, kind_of};
use crate::line::{behind, line_len};
use memchr::memchr2;

/// How many bytes at the front of the text are skipped.
pub fn gap_len(text: &[u8]) -> usize
    ensures bound { result ≤ length text.now }
    ensures skipped { Gap text.now (drop result text.now) }
    ensures whole { (rest : List ℕ) → Skips (drop result text.now) rest → ⊥ }
{
    let mut len = 0;
    while let Some(piece) = piece_len(behind(text, len)) {
        len += piece;
    }
    len
}

// How many bytes the piece has that is skipped at the front of the text, if one stands there.
fn piece_len(text: &[u8]) -> Option<usize>
    ensures found { IfSome result (λ len. Skips text.now (drop len text.now)) }
    ensures bound { IfSome result (λ len. (0 < len) × (len ≤ length text.now)) }
    ensures none { IfNone result ((rest : List ℕ) → Skips text.now rest → ⊥) }
{
    match kind_of(text) {
        Kind::Space => Some(1),
        Kind::Comment => Some(2 + line_len(behind(text, 2))),
        Kind::LongComment => {
            let (_, len) = long_bracket(behind(text, 2))?;
            Some(2 + len)
        }
        _ => None,
    }
}
