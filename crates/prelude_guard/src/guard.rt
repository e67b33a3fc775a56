// Whether the prelude's functions keep the environment to themselves.
ghost use Rattle.std.specs.Prelude.{◌≡◌, length, nat_eq};
ghost use Rattle.std.specs.List.{list_all};
ghost use Rattle.code_core.specs.declared.proto.UpDesc.{UpDesc};
ghost use Rattle.code_core.specs.Prototype.{list_of};
ghost use Rattle.prelude_guard.specs.Checks as checks;

use crate::apart::code_is_apart;
use code_core::{Proto, UpDesc};

/// Whether an upvalue is a register of the enclosing function.
fn in_stack(upvalue: &UpDesc) -> bool
    ensures { result ≡ upvalue.now.in_stack }
{
    upvalue.in_stack
}

/// Whether upvalues are registers of the enclosing function.
fn all_in_stack(upvalues: &[UpDesc]) -> bool
    ensures { result ≡ list_all (λ (u : UpDesc). u.in_stack) upvalues.now }
{
    upvalues.iter().all(|upvalue| in_stack(upvalue))
}

/// The functions that are defined in one.
fn inner_of(proto: &Proto) -> &[Proto]
    ensures { result.now ≡ list_of proto.now.inner }
{
    &proto.protos
}

/// Whether no function is defined in one.
fn makes_none(proto: &Proto) -> bool
    ensures { result ≡ nat_eq (length (list_of proto.now.inner)) 0 }
{
    inner_of(proto).len() == 0
}

/// Whether a function that another one makes shares only registers with it, makes none itself, and keeps the environment to itself.
fn inner_is_apart(outer: &Proto, own: &Proto) -> bool
    ensures { result ≡ checks.inner_is_apart outer.now own.now }
{
    all_in_stack(&own.upvalues) && (makes_none(own) && code_is_apart(outer, own, true))
}

/// The same of all functions that one makes.
fn all_inner(outer: &Proto, protos: &[Proto]) -> bool
    ensures { result ≡ list_all (checks.inner_is_apart outer.now) protos.now }
{
    protos.iter().all(|own| inner_is_apart(outer, own))
}

/// Whether a function of the prelude keeps the environment to itself.
fn is_guarded(proto: &Proto) -> bool
    ensures { result ≡ checks.is_guarded proto.now }
{
    code_is_apart(proto, proto, false) && all_inner(proto, inner_of(proto))
}

/// The same of functions.
fn each_guarded(protos: &[Proto]) -> bool
    ensures { result ≡ list_all checks.is_guarded protos.now }
{
    protos.iter().all(|proto| is_guarded(proto))
}

/// Whether all functions that are defined in the prelude's text keep the environment to themselves.
pub fn all_guarded(prelude: &Proto) -> bool
    ensures { result ≡ checks.all_guarded prelude.now }
{
    each_guarded(inner_of(prelude))
}
