// The violations of the static rules, of which the least is answered.
ghost use Rattle.std.specs.Prelude.{◌≡◌, ◌++◌, List, [], ◌∷◌, None};
ghost use Rattle.scope_core.specs.Least.{IsLeastOf, is_before, meet};

/// A static rule that is broken, and the line.
#[derive(Debug, Clone, Copy, PartialEq, Eq)]
pub struct Violation {
    /// The line of what breaks the rule.
    pub line: u32,
    /// The number of the rule, from 1 to 12.
    pub rule: u8,
}

impl Violation {
    /// Whether this one is answered rather than the other: it stands on an earlier line, or on
    /// the same line and breaks an earlier rule.
    fn is_before(self, other: Violation) -> bool
        ensures { result ≡ is_before self other }
    {
        self.line < other.line || self.line == other.line && self.rule < other.rule
    }
}

/// The least of the violations that were met so far.
#[derive(Drop)]
pub struct Least {
    /// None where none was met.
    pub violation: Option<Violation>,
}

impl Least {
    /// Takes one more violation.
    #[tactic(auto, using(crate::proofs::Leasts::first_met, crate::proofs::Leasts::earlier_met, crate::proofs::Leasts::later_met))]
    pub fn meet(&mut self, violation: Violation)
        ensures value { self.new.violation ≡ meet self.old.violation violation }
        ensures met { (all : List Violation) → IsLeastOf all self.old.violation → IsLeastOf (all ++ violation ∷ []) self.new.violation }
    {
        match self.violation {
            None => self.violation = Some(violation),
            Some(least) => {
                if violation.is_before(least) {
                    self.violation = Some(violation);
                }
            }
        }
    }
}
