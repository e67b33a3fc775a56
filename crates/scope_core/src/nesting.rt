// The functions around a place while the places of names are set.
ghost use Rattle.std.specs.Prelude.{◌≡◌, [], length, OnOk, IfOk};
ghost use Rattle.scope_core.specs.Scopes.{declare, declare_all, numeric_hidden, generic_hidden, names_fixed};
ghost use Rattle.scope_core.specs.Places.{place_of, next_register};
ghost use Rattle.scope_core.specs.Walked.{own_variables, own_upvalues, kept, entered, left, named, main_frames};

use crate::frame::{FunctionScope, Source, as_byte};
use crate::functions::Functions;
use crate::variable::Variable;
use int_core::{Allocated, Bytes};
use std::alloc::Global;
use std::marker::Model;
use tree_core::{Place, UpName};

/// The functions around a place. Contracts see their frames, the innermost first.
#[derive(Drop)]
pub struct Nesting {
    functions: Functions,
}

impl Model for Nesting {
    ghost use Rattle.std.specs.Prelude.{List, reverse};
    ghost use Rattle.scope_core.specs.Scopes.{Frame};

    ghost Value = { List Frame };

    ghost view = { λ nesting. reverse nesting.functions.scopes.items };
}

impl Nesting {
    /// No function.
    pub fn new(alloc: Global) -> Nesting
        ensures { result ≡ [] }
    {
        Nesting {
            functions: Functions {
                scopes: Vec::new(alloc),
            },
        }
    }

    /// The main function, which has the one upvalue `_ENV`.
    pub fn main(alloc: Global) -> Allocated<Nesting>
        ensures { IfOk result (λ nesting. nesting ≡ main_frames) }
    {
        let mut scope = FunctionScope::new(alloc);
        let environment = Bytes::of(b"_ENV".to_vec(alloc)?);
        let outside = Source {
            in_stack: true,
            index: 0,
        };
        scope.capture(environment, outside)?;
        let scopes = vec![in alloc; scope]?;
        Ok(Nesting {
            functions: Functions { scopes },
        })
    }

    /// Goes into a function, which has no variables yet.
    pub fn enter(&mut self, alloc: Global) -> Allocated<()>
        ensures { OnOk result (self.new ≡ entered self.old) }
    {
        self.functions.scopes.push(FunctionScope::new(alloc))?;
        Ok(())
    }

    /// Goes out of a function, and gives the upvalues that it has by then.
    pub fn leave(&mut self, alloc: Global) -> Vec<UpName>
        ensures left { self.new ≡ left self.old }
        ensures upvalues { result.items ≡ own_upvalues self.old }
    {
        match self.functions.scopes.pop() {
            Some(scope) => scope.into_upvalues(),
            None => Vec::new(alloc),
        }
    }

    /// Sets the place of a name, for which the functions around get the upvalues that it needs.
    pub fn name(&mut self, alloc: Global, text: &Bytes) -> Allocated<Place>
        ensures named { OnOk result (self.new ≡ named text.now self.old) }
        ensures place { IfOk result (λ place. place ≡ place_of text.now self.new) }
    {
        self.functions.place(alloc, text)
    }

    /// Whether a name means a variable that is never assigned.
    #[tactic(auto, using(crate::proofs::Variables::frame_decides, crate::proofs::Variables::frame_passed))]
    pub fn names_fixed(&self, name: &Bytes) -> bool
        ensures { result ≡ names_fixed name.now self.now }
    {
        let mut count = self.functions.scopes.len();
        while count > 0 {
            count -= 1;
            if let Some(fixed) = self.functions.scopes[count].fixed(name) {
                return fixed;
            }
        }
        false
    }

    /// Brings a variable into scope.
    pub fn declare(&mut self, variable: Variable) -> Allocated<()>
        ensures { OnOk result (self.new ≡ declare self.old variable) }
    {
        let count = self.functions.scopes.len();
        if count == 0 {
            return Ok(());
        }
        self.functions.scopes[count - 1].declare(variable)?;
        Ok(())
    }

    /// Brings the three hidden variables of a numeric `for` into scope.
    pub fn hide_numeric(&mut self) -> Allocated<()>
        ensures { OnOk result (self.new ≡ declare_all self.old numeric_hidden) }
    {
        self.declare(Variable::Hidden)?;
        self.declare(Variable::Hidden)?;
        self.declare(Variable::Hidden)
    }

    /// Brings the four hidden variables of a generic `for` into scope.
    pub fn hide_generic(&mut self) -> Allocated<()>
        ensures { OnOk result (self.new ≡ declare_all self.old generic_hidden) }
    {
        self.hide_numeric()?;
        self.declare(Variable::Hidden)
    }

    /// How many variables of the innermost function are in scope.
    pub fn count(&self) -> usize
        ensures { result ≡ length (own_variables self.now) }
    {
        match self.functions.scopes.last() {
            Some(scope) => scope.len(),
            None => 0,
        }
    }

    /// The register of the variable that is declared next; 255 where it is greater.
    pub fn next_register(&self) -> u8
        ensures { result ≡ next_register self.now }
    {
        as_byte(self.count())
    }

    /// Ends the scope of every variable of the innermost function but the first so many.
    pub fn keep(&mut self, count: usize)
        ensures { self.new ≡ kept count self.old }
    {
        let functions = self.functions.scopes.len();
        if functions == 0 {
            return;
        }
        self.functions.scopes[functions - 1].keep(count);
    }
}
