// Functions in the trees of prototypes, by their numbers.
ghost use Rattle.std.specs.Prelude.{◌≡◌, ◌+◌, ◌∷◌, Some, IfOk, IfErr, slice_get};
ghost use Rattle.code_core.specs.Prototype.{function_count};
ghost use Rattle.lua_heap.specs.Codes.{preorder};

use code_core::Proto;

/// The function of a number, where the prototype has number 0; else the number is told that it has behind the prototype's functions.
pub(crate) fn find(proto: &Proto, number: usize) -> Result<&Proto, usize>
    ensures found { IfOk result (λ p. slice_get (proto.now ∷ preorder proto.now.inner) number ≡ Some p.now) }
    ensures left { IfErr result (λ left. number ≡ function_count proto.now + left) }
{
    if number == 0 {
        return Ok(proto);
    }
    let mut left = number - 1;
    for inner in &proto.protos {
        match find(inner, left) {
            Ok(found) => return Ok(found),
            Err(rest) => left = rest,
        }
    }
    Err(left)
}
