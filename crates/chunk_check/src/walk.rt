// The walk through the places of a function, and through the functions in it.
ghost use Rattle.std.specs.Prelude.{◌≡◌, ◌+◌, ◌<◌, ◌^◌, true, IfOk, length, drop};
ghost use Rattle.code_core.specs.Prototype.{count};
ghost use Rattle.code_core.specs.Writable.{is_writable};
ghost use Rattle.chunk_check.specs.Faults.{first_broken, first_rules, own_faults, code_faults, inner_faults};
ghost use Rattle.chunk_check.specs.Finds.{Finds};

use crate::description::{is_described, is_sized};
use crate::fault::CheckFault;
use crate::places::at;
use crate::rules::broken;
use code_core::Proto;

/// The least rule that is broken at the first place of a function, the rules on the function as a whole included.
#[tactic(auto, using(crate::proofs::WalkLemmas::first_broken_append))]
fn first_place(proto: &Proto, writable: bool) -> Option<u8>
    requires { writable ≡ is_writable proto.now }
    ensures { first_broken (first_rules proto.now proto.now.own.code) ≡ result }
{
    if !is_sized(proto) {
        return Some(1);
    }
    if let Some(word) = at(proto, 0) {
        if let Some(rule) = broken(proto, 0, word) {
            return Some(rule);
        }
    }
    if is_described(proto, writable) {
        None
    } else {
        Some(12)
    }
}

/// The first fault of a function without those that are defined in it.
#[tactic(auto, using(crate::proofs::WalkLemmas::own_passes, crate::proofs::WalkLemmas::code_below_there))]
pub fn own_fault(proto: &Proto, function: u32, writable: bool) -> Result<(), CheckFault>
    requires { writable ≡ is_writable proto.now }
    ensures { Finds (own_faults function proto.now proto.now.own.code) result }
{
    if let Some(rule) = first_place(proto, writable) {
        return Err(CheckFault::Refused {
            function,
            pc: 0,
            rule,
        });
    }
    other_places(proto, function)
}

/// The first fault at the places of a function behind its first.
#[tactic(auto, using(crate::proofs::WalkLemmas::none_past_all))]
fn other_places(proto: &Proto, function: u32) -> Result<(), CheckFault>
    requires { length proto.now.own.code < 2 ^ 31 }
    ensures { Finds (code_faults function proto.now 1 (drop 1 proto.now.own.code)) result }
{
    for pc in 1..proto.code.len() {
        if let Some(rule) = broken(proto, pc, proto.code[pc]) {
            return Err(CheckFault::Refused {
                function,
                pc: pc as u32,
                rule,
            });
        }
    }
    Ok(())
}

/// The first fault of the functions in a function, the first of which has this number, or the number behind theirs.
pub fn inner_fault(proto: &Proto, first: u32) -> Result<u32, CheckFault>
    requires writable { is_writable proto.now ≡ true }
    requires numbers { first + count proto.now.inner < 2 ^ 32 }
    ensures found { Finds (inner_faults first proto.now.inner) result }
    ensures behind { IfOk result (λ next. next ≡ first + count proto.now.inner) }
{
    let mut next = first;
    for inner in &proto.protos {
        own_fault(inner, next, true)?;
        next = inner_fault(inner, next + 1)?;
    }
    Ok(next)
}
