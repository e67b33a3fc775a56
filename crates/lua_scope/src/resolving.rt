// The static rules of a source, and the places of its names.
ghost use Rattle.std.specs.Prelude.{◌≡◌, [], None, IfOk, IfErr};
ghost use Rattle.tree_core.specs.Plain.{plain_block, plain_body};
ghost use Rattle.scope_core.specs.Answers.{IsResolved, IsFaultOf};
ghost use Rattle.lua_scope.specs.Met.{met_body};

use crate::walk::meet_body;
use int_core::Allocated;
use scope_core::{Least, Nesting, Resolved, ScopeFault, Violation, place};
use std::alloc::Global;
use tree_core::{Block, Body};

/// Sets the place of the name of every variable in a source that keeps the static rules, and the
/// upvalues of every function (Lua 5.4 manual, 2.2, 3.3.4, 3.3.5, 3.3.7, 3.3.8, 3.4.11 and 3.5).
/// Where rules are broken the error is the least violation by line, and on one line by the rule's
/// number. The other error is that the memory is not there. With an error the source is given up.
pub fn resolve(alloc: Global, block: Block) -> Result<Resolved, ScopeFault>
    ensures resolved { IfOk result (λ resolved. IsResolved (plain_block block) resolved) }
    ensures refused { IfErr result (λ fault. IsFaultOf (plain_block block) fault) }
{
    let main = match place(alloc, block) {
        Ok(main) => main,
        Err(_) => return Err(ScopeFault::Memory),
    };
    match least_violation(alloc, &main) {
        Ok(None) => Ok(Resolved { main }),
        Ok(Some(violation)) => Err(ScopeFault::Refused {
            rule: violation.rule,
            line: violation.line,
        }),
        Err(_) => Err(ScopeFault::Memory),
    }
}

/// The least of the violations in a source whose places are set, where there is one.
fn least_violation(alloc: Global, main: &Body) -> Allocated<Option<Violation>>
    ensures { IfOk result (λ least. least ≡ met_body [] None (plain_body main.now)) }
{
    let mut nesting = Nesting::new(alloc);
    let mut least = Least { violation: None };
    meet_body(&mut nesting, alloc, &mut least, main)?;
    Ok(least.violation)
}
