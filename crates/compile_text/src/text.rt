// The tree of a source.
ghost use Rattle.std.specs.Prelude.{IfOk, IfErr};
ghost use Rattle.compile_text.specs.Source.{IsTreeOf, IsRefused};

use crate::fault::TextFault;
use lua_lex::tokens;
use lua_parse::parse;
use lua_scope::resolve;
use scope_core::Resolved;
use std::alloc::Global;

/// The tree of a source, with the places of all names set (Lua 5.4 manual, 3 and 9).
///
/// # Errors
///
/// In this order: `Rule` 13 at line 1 where the source has more than 1,048,576 bytes; `Source` with the line of the
/// first place that begins no token, or else of the token at which the grammar refuses the tokens; `Rule` for the
/// least violation of the static rules by line, and on one line by the rule's number. `Memory` can be answered of
/// every source.
pub fn source_tree(alloc: Global, source: &[u8]) -> Result<Resolved, TextFault>
    ensures tree { IfOk result (λ resolved. IsTreeOf source.now resolved) }
    ensures refused { IfErr result (λ fault. IsRefused source.now fault) }
{
    let tokens = tokens(alloc, source)?;
    let block = parse(alloc, tokens)?;
    let resolved = resolve(alloc, block)?;
    Ok(resolved)
}
