// Texts that are made piece by piece.
ghost use Rattle.std.specs.Prelude.{◌≡◌, ◌+◌, ◌≤◌, ◌++◌, length, OnOk, OnErr};
ghost use Rattle.int_core.specs.Value.{greatest_string};
ghost use Rattle.lib_string.specs.Faults.{IsNoRoom};

use crate::faults::string_fault;
use library_arguments::Fault;
use text_functions::Builder;

/// Puts a piece at the end.
///
/// # Errors
///
/// There is no room for all of it; or memory runs out.
pub(crate) fn push(text: &mut Builder, piece: &[u8]) -> Result<(), Fault>
    ensures joined { OnOk result (text.new ≡ text.old ++ piece.now) }
    ensures fits { OnOk result (length text.old + length piece.now ≤ greatest_string) }
    ensures refused { OnErr result (IsNoRoom (length text.old + length piece.now) result) }
{
    match text.push(piece) {
        Ok(()) => Ok(()),
        Err(fault) => Err(string_fault(fault)),
    }
}
