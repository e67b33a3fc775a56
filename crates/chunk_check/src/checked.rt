// The check of a function and of all that are defined in it.
ghost use Rattle.chunk_check.specs.Answers.{CheckAnswers};

use crate::fault::CheckFault;
use crate::walk::{inner_fault, own_fault};
use crate::writable::is_writable;
use code_core::{Checked, Proto};
use std::alloc::Global;

/// Keeps a function as checked if it and all that are defined in it meet the twelve rules, and answers the first fault if not.
/// It takes no memory.
pub fn check(_alloc: Global, proto: Proto) -> Result<Checked, CheckFault>
    ensures { CheckAnswers proto result }
{
    own_fault(&proto, 0, is_writable(&proto))?;
    inner_fault(&proto, 1)?;
    Ok(Checked::keep(proto))
}
