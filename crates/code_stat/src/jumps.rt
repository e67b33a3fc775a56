// Jumps whose ends are not known yet (Lua 5.4 manual, 3.3.4).
ghost use Rattle.std.specs.Prelude.{◌≡◌, List, [], ◌∷◌, cond, Some, bytes_eq, take, drop};
ghost use Rattle.code_of.specs.Jumps.{Visible, Reach, label_in};
ghost use Rattle.code_of.specs.Statements.{in_loop};
ghost use Rattle.code_emitter.specs.declared.emitter.Step.{Step};
ghost use Rattle.code_stat.specs.Drafts.{among, landing, landing_if, newest_first, is_break, is_to, leads_to, arrives, within, fill};

use int_core::Bytes;

/// Where a jump leads.
#[derive(Clone, Copy, Debug, PartialEq, Eq)]
pub(crate) struct Destination {
    /// The place in the code.
    pub(crate) place: usize,
    /// How many locals stay in scope.
    pub(crate) level: usize,
}

/// A label that was passed.
#[derive(Drop)]
pub(crate) struct Passed {
    /// Its name.
    pub(crate) name: Bytes,
    /// Where it stands.
    pub(crate) landing: Destination,
}

/// A `goto` or a `break` in the code.
#[derive(Drop)]
pub(crate) struct Jump {
    /// The place of its first instruction.
    pub(crate) place: usize,
    /// Its line.
    pub(crate) line: u32,
    /// The label of a `goto`.
    pub(crate) label: Option<Bytes>,
    /// Whether a CLOSE stands in front of its JMP.
    pub(crate) closes: bool,
    /// Where it leads, as far as that is known.
    pub(crate) landing: Option<Destination>,
    /// Whether it leads nowhere else, whatever comes.
    pub(crate) settled: bool,
}

/// The landing of a label if it has this name, or else another one.
fn nearer(label: &Passed, name: &Bytes, other: Option<Destination>) -> Option<Destination>
    ensures { landing_if result ≡ cond (bytes_eq label.now.name name.now) (Some (landing label.now.landing)) (landing_if other) }
{
    if label.name == *name {
        return Some(label.landing);
    }
    other
}

/// Where the label of a name is, the last one that was passed.
fn find(passed: &Vec<Passed>, name: &Bytes) -> Option<Destination>
    ensures { landing_if result ≡ label_in name.now (newest_first passed.now.items []) }
{
    let mut found = None;
    for label in passed.iter() {
        found = nearer(label, name, found);
    }
    found
}

impl Jump {
    /// Whether the jump is a `goto` to a label of this name.
    fn is_to(&self, name: &Bytes) -> bool
        ensures { result ≡ is_to self.now.label name.now }
    {
        match &self.label {
            Some(label) => *name == *label,
            None => false,
        }
    }

    /// Whether the jump is a `break` whose end is not known.
    fn is_break(&self) -> bool
        ensures { result ≡ is_break self.now.label self.now.landing }
    {
        match &self.label {
            Some(_) => false,
            None => self.landing.is_none(),
        }
    }

    /// Where the label of a `goto` was passed.
    fn find(&self, passed: &Vec<Passed>) -> Option<Destination>
        ensures { landing_if result ≡ among self.now.label (newest_first passed.now.items []) }
    {
        match &self.label {
            Some(name) => find(passed, name),
            None => None,
        }
    }

    /// The statement in a block that holds the jump has ended, with these labels passed in front of it.
    #[tactic(auto, using(crate::proofs::Leading::settle_settled, crate::proofs::Leading::settle_known, crate::proofs::Leading::settle_new))]
    fn settle(&mut self, passed: &Vec<Passed>)
        ensures place { self.new.place ≡ self.old.place }
        ensures line { self.new.line ≡ self.old.line }
        ensures closes { self.new.closes ≡ self.old.closes }
        ensures leads { (ahead : List Visible) (reach : Reach) → leads_to ahead reach self.new ≡ arrives (within ahead (newest_first passed.now.items []) reach) self.old }
    {
        if self.settled {
            return;
        }
        match self.landing {
            Some(_) => self.settled = true,
            None => self.landing = self.find(passed),
        }
    }

    /// A label has come in the block.
    #[tactic(auto, using(crate::proofs::Leading::meet_settled, crate::proofs::Leading::meet_not, crate::proofs::Leading::meet_here))]
    fn meet(&mut self, name: &Bytes, to: Destination)
        ensures place { self.new.place ≡ self.old.place }
        ensures line { self.new.line ≡ self.old.line }
        ensures closes { self.new.closes ≡ self.old.closes }
        ensures leads { (ahead : List Visible) (reach : Reach) → leads_to ahead reach self.new ≡ leads_to (record { name = name.now; landing = landing to } ∷ ahead) reach self.old }
    {
        if self.settled {
            return;
        }
        if !self.is_to(name) {
            return;
        }
        self.landing = Some(to);
        self.settled = true;
    }

    /// The loop around has ended.
    #[tactic(auto, using(crate::proofs::Leading::leave_settled, crate::proofs::Leading::leave_not, crate::proofs::Leading::leave_here))]
    fn leave(&mut self, to: Destination)
        ensures place { self.new.place ≡ self.old.place }
        ensures line { self.new.line ≡ self.old.line }
        ensures closes { self.new.closes ≡ self.old.closes }
        ensures leads { (reach : Reach) → arrives reach self.new ≡ arrives (in_loop reach to.place to.level) self.old }
    {
        if self.settled {
            return;
        }
        if !self.is_break() {
            return;
        }
        self.landing = Some(to);
        self.settled = true;
    }
}

/// A statement has ended that holds the jumps from one on, with these labels passed in front of it.
pub(crate) fn settle_all(jumps: &mut Vec<Jump>, from: usize, passed: &Vec<Passed>)
    ensures front { take from jumps.new.items ≡ take from jumps.old.items }
    ensures leads { (ahead : List Visible) (reach : Reach) (xs : List Step) → fill (leads_to ahead reach) (drop from jumps.new.items) xs ≡ fill (arrives (within ahead (newest_first passed.now.items []) reach)) (drop from jumps.old.items) xs }
{
    let mut i = from;
    while i < jumps.len() {
        jumps[i].settle(passed);
        i += 1;
    }
}

/// A label has come in the block that holds the jumps from one on.
pub(crate) fn meet_all(jumps: &mut Vec<Jump>, from: usize, name: &Bytes, to: Destination)
    ensures front { take from jumps.new.items ≡ take from jumps.old.items }
    ensures leads { (ahead : List Visible) (reach : Reach) (xs : List Step) → fill (leads_to ahead reach) (drop from jumps.new.items) xs ≡ fill (leads_to (record { name = name.now; landing = landing to } ∷ ahead) reach) (drop from jumps.old.items) xs }
{
    let mut i = from;
    while i < jumps.len() {
        jumps[i].meet(name, to);
        i += 1;
    }
}

/// The loop has ended that holds the jumps from one on.
pub(crate) fn leave_all(jumps: &mut Vec<Jump>, from: usize, to: Destination)
    ensures front { take from jumps.new.items ≡ take from jumps.old.items }
    ensures leads { (reach : Reach) (xs : List Step) → fill (arrives reach) (drop from jumps.new.items) xs ≡ fill (arrives (in_loop reach to.place to.level)) (drop from jumps.old.items) xs }
{
    let mut i = from;
    while i < jumps.len() {
        jumps[i].leave(to);
        i += 1;
    }
}
