// Code that is fit to run.
ghost use Rattle.std.specs.Prelude.{◌≡◌};
ghost use Rattle.code_core.specs.Prototype.{function_count, instruction_count};
ghost use Rattle.code_core.specs.Check.{IsChecked};

use crate::proto::Proto;
use std::marker::Model;

/// A prototype that meets the twelve rules on code, as do all that are defined in it. Contracts see the prototype.
#[derive(Drop)]
pub struct Checked {
    proto: Proto,
}

impl Model for Checked {
    ghost use Rattle.code_core.specs.Prototype.{Prototype};
    ghost use Rattle.code_core.specs.PrototypeCode.{prototype_code};
    ghost use Rattle.code_core.specs.Check.{IsChecked};

    ghost Value = { Prototype };

    ghost coded = { prototype_code };

    ghost view = { λ checked. checked.proto };

    ghost invariant = { λ checked. IsChecked checked.proto };
}

impl Checked {
    /// Keeps a prototype as checked.
    pub fn keep(proto: Proto) -> Checked
        requires { IsChecked proto }
        ensures { result ≡ proto }
    {
        Checked { proto }
    }

    /// The prototype.
    pub fn proto(&self) -> &Proto
        ensures same { result.now ≡ self.now }
        ensures checked { IsChecked self.now }
    {
        &self.proto
    }

    /// How many functions there are, with all that are defined in the prototype.
    #[tactic(auto, using(crate::proofs::CheckedLemmas::checked_functions))]
    pub fn functions(&self) -> u64
        ensures { result ≡ function_count self.now }
    {
        self.proto.function_count()
    }

    /// How many instructions all these functions have.
    #[tactic(auto, using(crate::proofs::CheckedLemmas::checked_instructions))]
    pub fn instructions(&self) -> u64
        ensures { result ≡ instruction_count self.now }
    {
        self.proto.instruction_count()
    }
}
