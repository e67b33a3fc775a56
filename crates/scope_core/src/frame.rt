// The scope of one function while it is walked through.
ghost use Rattle.std.specs.Prelude.{◌≡◌, List, [], ◌∷◌, length, drop, find, option_map, ◌-◌, ◌≤◌, ◌++◌, OnOk, IfOk};
ghost use Rattle.scope_core.specs.Scopes.{Frame, register_of, upvalue_of, is_local, has_name, is_fixed_variable};
ghost use Rattle.scope_core.specs.Places.{as_byte};
ghost use Rattle.scope_core.specs.Reaching.{source_in, up_name_at, captured_at, local_place, global_place_at};

use crate::variable::Variable;
use int_core::{Allocated, Bytes};
use std::alloc::Global;
use std::marker::Model;
use tree_core::{Place, UpName};

/// Where a function finds a variable that it makes an upvalue of.
#[derive(Debug, Clone, Copy, PartialEq, Eq)]
pub struct Source {
    /// Whether the function just around has it as a local variable.
    pub in_stack: bool,
    /// Its register there, or its place among that function's upvalues; 255 where it is greater.
    pub index: u8,
}

impl Source {
    /// The place of a name whose variable is found here.
    pub fn local_place(self) -> Place
        ensures { result ≡ local_place self }
    {
        if self.in_stack {
            return Place::Local(self.index);
        }
        Place::Upvalue(self.index)
    }

    /// The place of a global name whose `_ENV` is found here.
    pub fn global_place(self) -> Place
        ensures { result ≡ global_place_at self }
    {
        if self.in_stack {
            return Place::GlobalIn(self.index);
        }
        Place::GlobalOf(self.index)
    }
}

/// The variables and upvalues of a function at a place in it. Contracts see the frame, whose
/// variables begin with the one that was declared last.
#[derive(Drop)]
pub struct FunctionScope {
    variables: Vec<Variable>,
    upvalues: Vec<UpName>,
}

impl Model for FunctionScope {
    ghost use Rattle.std.specs.Prelude.{reverse};
    ghost use Rattle.scope_core.specs.Scopes.{Frame};

    ghost Value = { Frame };

    ghost view = { λ scope. record { variables = reverse scope.variables.items; upvalues = scope.upvalues.items } };
}

impl FunctionScope {
    /// The scope at the front of a function.
    pub fn new(alloc: Global) -> FunctionScope
        ensures variables { result.variables ≡ [] }
        ensures upvalues { result.upvalues ≡ [] }
    {
        FunctionScope {
            variables: Vec::new(alloc),
            upvalues: Vec::new(alloc),
        }
    }

    /// The upvalues alone.
    pub fn into_upvalues(self) -> Vec<UpName>
        ensures { result.items ≡ self.upvalues }
    {
        self.upvalues
    }

    /// How many variables are in scope.
    pub fn len(&self) -> usize
        ensures { result ≡ length self.now.variables }
    {
        self.variables.len()
    }

    /// Brings a variable into scope.
    pub fn declare(&mut self, variable: Variable) -> Allocated<()>
        ensures declared { OnOk result (self.new.variables ≡ variable ∷ self.old.variables) }
        ensures upvalues { self.new.upvalues ≡ self.old.upvalues }
    {
        self.variables.push(variable)?;
        Ok(())
    }

    /// Ends the scope of every variable but the first so many.
    pub fn keep(&mut self, count: usize)
        ensures kept { self.new.variables ≡ drop (length self.old.variables - count) self.old.variables }
        ensures upvalues { self.new.upvalues ≡ self.old.upvalues }
    {
        self.variables.truncate(count);
    }

    /// The register of the variable that was declared last under a name.
    #[tactic(auto, using(crate::proofs::Variables::found_last, crate::proofs::Variables::passed_last))]
    pub fn register_of(&self, name: &Bytes) -> Option<usize>
        ensures { result ≡ register_of name.now self.now.variables }
    {
        let mut register = self.variables.len();
        while register > 0 {
            register -= 1;
            if self.variables[register].has_name(name) {
                return Some(register);
            }
        }
        None
    }

    /// Whether the variable that was declared last under a name is never assigned.
    #[tactic(auto, using(crate::proofs::Variables::first_named, crate::proofs::Variables::first_passed))]
    pub fn fixed(&self, name: &Bytes) -> Option<bool>
        ensures { result ≡ option_map is_fixed_variable (find (has_name name.now) self.now.variables) }
    {
        let mut register = self.variables.len();
        while register > 0 {
            register -= 1;
            if self.variables[register].has_name(name) {
                return Some(self.variables[register].is_fixed());
            }
        }
        None
    }

    /// Whether a local variable in scope has the name.
    pub fn has_local(&self, name: &Bytes) -> bool
        ensures { result ≡ is_local name.now self.now }
    {
        self.register_of(name).is_some()
    }

    /// The place of a name among the upvalues.
    pub fn upvalue_of(&self, name: &Bytes) -> Option<usize>
        ensures { result ≡ upvalue_of name.now self.now.upvalues }
    {
        self.upvalues
            .iter()
            .position(|upvalue| upvalue.text == *name)
    }

    /// Where this function has a variable that it declares or has named before.
    pub fn source_of(&self, name: &Bytes) -> Option<Source>
        ensures { result ≡ source_in name.now self.now }
    {
        if let Some(register) = self.register_of(name) {
            return Some(Source {
                in_stack: true,
                index: as_byte(register),
            });
        }
        self.upvalue_of(name).map(|place| Source {
            in_stack: false,
            index: as_byte(place),
        })
    }

    /// Makes an upvalue of a variable that it has not, and answers where a function within it
    /// finds it.
    pub fn capture(&mut self, name: Bytes, source: Source) -> Allocated<Source>
        ensures captured { IfOk result (λ inner. (self.new.upvalues ≡ self.old.upvalues ++ up_name_at name source ∷ []) × (inner ≡ captured_at (length self.old.upvalues))) }
        ensures variables { self.new.variables ≡ self.old.variables }
    {
        let index = as_byte(self.upvalues.len());
        self.upvalues.push(UpName {
            text: name,
            in_stack: source.in_stack,
            index: source.index,
        })?;
        Ok(Source {
            in_stack: false,
            index,
        })
    }
}

/// A number as a tree has it.
pub fn as_byte(number: usize) -> u8
    ensures { result ≡ as_byte number }
{
    if number < 255 { number as u8 } else { 255 }
}
