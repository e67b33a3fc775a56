// All the tokens of a source.
ghost use Rattle.std.specs.Prelude.{◌≡◌, ◌+◌, ◌<◌, ◌≤◌, ◌↔◌, ℕ, List, length, IfOk, Err};
ghost use Rattle.lua_lex.specs.declared.token.Token.{Token};
ghost use Rattle.lua_lex.specs.declared.source.LexFault.TheVariants.{Limit, Memory};
ghost use Rattle.lua_lex.specs.Lexical.{TokensOf, BadToken, EndsOnce};
ghost use Rattle.lua_lex.specs.Answers.{OnRefused};

use crate::gap::gap_len;
use crate::line::{behind, line_behind};
use crate::scan::token_at;
use crate::token::{Token, Tokens};
use std::alloc::{AllocError, AllocFailed, Global};
use thiserror::Error;

/// The greatest number of bytes in a source.
pub const MAX_SOURCE: usize = 1_048_576;

/// Why a source has no tokens.
#[derive(Debug, PartialEq, Eq, Drop, Error)]
pub enum LexFault {
    /// A place of the source is refused, the first of them on this line.
    #[error("source refused at line {line}")]
    Refused { line: u32 },
    /// The source has more than `MAX_SOURCE` bytes.
    #[error("source of more than {MAX_SOURCE} bytes")]
    Limit,
    /// Memory ran out.
    #[error("out of memory")]
    Memory,
}

impl From<AllocError> for LexFault {
    ghost from_gives = { λ _ made. made ≡ Memory };

    fn from(_error: AllocError) -> Self {
        LexFault::Memory
    }
}

impl<T: Drop> From<AllocFailed<T>> for LexFault {
    ghost from_gives = { λ _ made. made ≡ Memory };

    fn from(_error: AllocFailed<T>) -> Self {
        LexFault::Memory
    }
}

/// The tokens of a source, the end included (Lua 5.4 manual, 3.1).
///
/// # Errors
///
/// `Refused` where a place of the source begins no token, `Limit` at more than `MAX_SOURCE`
/// bytes, and `Memory` where memory runs out.
pub fn tokens(alloc: Global, source: &[u8]) -> Result<Tokens, LexFault>
    ensures limit { (result ≡ Err Limit) ↔ (1048576 < length source.now) }
    ensures found { IfOk result (λ list. TokensOf source.now list) }
    ensures only { IfOk result (λ list. (other : List (Token × ℕ)) → TokensOf source.now other → other ≡ list) }
    ensures refused { OnRefused result (λ line. BadToken source.now line) }
    ensures only_refused { OnRefused result (λ line. (other : ℕ) → BadToken source.now other → other ≡ line) }
    ensures not_refused { IfOk result (λ list. (line : ℕ) → BadToken source.now line → ⊥) }
    ensures no_tokens { OnRefused result (λ line. (list : List (Token × ℕ)) → TokensOf source.now list → ⊥) }

    // The end stands last, and nowhere else.
    ensures ends { IfOk result EndsOnce }

    // Each token but the end has a byte of its own.
    ensures count { IfOk result (λ list. length list ≤ length source.now + 1) }
{
    if source.len() > MAX_SOURCE {
        return Err(LexFault::Limit);
    }
    let mut items = Vec::new(alloc);
    let mut text = source;
    let mut line = 1;
    loop {
        let gap = gap_len(text);
        line = line_behind(line, text, gap);
        text = behind(text, gap);
        if text.is_empty() {
            items.push((Token::End, line))?;
            return Ok(Tokens::of(items));
        }
        let Some((token, len)) = token_at(alloc, text)? else {
            return Err(LexFault::Refused { line });
        };
        items.push((token, line))?;
        line = line_behind(line, text, len);
        text = behind(text, len);
    }
}
