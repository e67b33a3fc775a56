// The tree of a whole source, which the manual calls a chunk (Lua 5.4 manual, 3.3.2).
ghost use Rattle.std.specs.Prelude.{◌≡◌, IfOk, IfErr};
ghost use Rattle.tree_core.specs.Plain.{plain_block};
ghost use Rattle.lua_lex.specs.Lexical.{EndsOnce};
ghost use Rattle.lua_parse.specs.Reading.{Derives};
ghost use Rattle.lua_parse.specs.Answers.{Refuses, IsOnlyTree};

use crate::block::block;
use crate::fault::{Fault, ParseFault};
use crate::room::Room;
use lua_lex::Tokens;
use std::alloc::Global;
use token_cursor::Cursor;
use token_cursor::token::is_end;
use tree_core::Block;

/// The tree of the tokens, the last of which is the end (Lua 5.4 manual, 9). A refusal has the
/// line of the first token that can't stand where it does.
pub fn parse(alloc: Global, tokens: Tokens) -> Result<Block, ParseFault>
    requires { EndsOnce tokens }
    ensures found { IfOk result (λ block. Derives tokens (plain_block block)) }
    ensures only { IfOk result (λ block. IsOnlyTree tokens (plain_block block)) }
    ensures refused { IfErr result (λ fault. Refuses tokens fault) }
{
    // The tokens of a block are counted in 32 bits.
    if tokens.len() > u32::MAX as usize {
        return Err(ParseFault::Memory);
    }
    let mut cursor = Cursor::new(tokens);
    match block(alloc, &mut cursor, Room { max: 400 }) {
        Ok(found) => {
            if !is_end(cursor.peek()) {
                return Err(ParseFault::Refused {
                    line: cursor.line(),
                });
            }
            Ok(found.node)
        }
        Err(Fault::Refused) => Err(ParseFault::Refused {
            line: cursor.line(),
        }),
        Err(Fault::Memory) => Err(ParseFault::Memory),
    }
}
