// The local variables of a function while its code is written.
ghost use Rattle.std.specs.Prelude.{◌≡◌, ◌++◌, [], ◌∷◌, Some, OnOk, IfOk, length, map};
ghost use Rattle.code_parts.specs.Scopes.{begun, hidden_from, ended, ended_from, finished};

use code_core::LocVar;
use int_core::{Allocated, Bytes};
use std::alloc::{AllocError, Global};
use std::marker::Model;
use tree_core::{Declared, Name};

/// A local variable, whose scope may go on.
#[derive(Drop)]
pub struct Variable {
    /// Its name; a hidden variable of a loop has none.
    pub name: Option<Bytes>,
    /// The place of the code from which on it is in scope.
    pub start: u32,
    /// Where its scope ends, if it does.
    pub end: Option<u32>,
}

/// The local variables of a function in the order of their declarations. Contracts see the list.
#[derive(Drop)]
pub struct Variables {
    list: Vec<Variable>,
}

impl Model for Variables {
    ghost use Rattle.std.specs.Prelude.{List};
    ghost use Rattle.code_parts.specs.declared.variables.Variable.{Variable};

    ghost Value = { List Variable };

    ghost view = { λ variables. variables.list.items };
}

/// A place of the code. For more instructions than 32 bits count there is no memory.
fn place_at(number: usize) -> Allocated<u32>
    ensures { IfOk result (λ place. place ≡ number) }
{
    u32::try_from(number).map_err(|_| AllocError)
}

/// Ends the scope of a variable at a place, unless it ended before.
fn end_scope(variable: &mut Variable, place: u32)
    ensures { variable.new ≡ ended place variable.old }
{
    if variable.end.is_none() {
        variable.end = Some(place);
    }
}

/// Ends at a place the scopes of the variables behind some first ones.
#[tactic(auto, using(crate::proofs::Ending::passed, crate::proofs::Ending::next_ended))]
fn end_behind(list: &mut Vec<Variable>, first: usize, place: u32)
    ensures { list.new.items ≡ ended_from first place list.old.items }
{
    let mut number = first;
    while number < list.len() {
        end_scope(&mut list[number], place);
        number += 1;
    }
}

impl Variables {
    /// No variables.
    pub fn new(alloc: Global) -> Variables
        ensures { result ≡ [] }
    {
        Variables {
            list: Vec::new(alloc),
        }
    }

    /// How many there are.
    pub fn count(&self) -> usize
        ensures { result ≡ length self.now }
    {
        self.list.len()
    }

    /// Begins the scope of a variable with a name, or of a hidden one.
    fn begin(&mut self, name: Option<Bytes>, start: usize) -> Allocated<()>
        ensures { OnOk result (self.new ≡ self.old ++ begun name start ∷ []) }
    {
        let start = place_at(start)?;
        self.list.push(Variable {
            name,
            start,
            end: None,
        })?;
        Ok(())
    }

    /// Begins the scope of a variable.
    pub fn declare(&mut self, alloc: Global, name: &Name, start: usize) -> Allocated<()>
        ensures { OnOk result (self.new ≡ self.old ++ begun (Some name.now.text) start ∷ []) }
    {
        let text = Bytes::of(name.text.as_slice().to_vec(alloc)?);
        self.begin(Some(text), start)?;
        Ok(())
    }

    /// Begins the scope of variables that are declared together.
    pub fn declare_names(&mut self, alloc: Global, names: &[Name], start: usize) -> Allocated<()>
        ensures { OnOk result (self.new ≡ self.old ++ map (λ name. begun (Some name.text) start) names.now) }
    {
        for name in names {
            self.declare(alloc, name, start)?;
        }
        Ok(())
    }

    /// Begins the scope of the variables of a `local`.
    pub fn declare_locals(
        &mut self,
        alloc: Global,
        names: &[Declared],
        start: usize,
    ) -> Allocated<()>
        ensures { OnOk result (self.new ≡ self.old ++ map (λ d. begun (Some d.name.text) start) names.now) }
    {
        for declared in names {
            self.declare(alloc, &declared.name, start)?;
        }
        Ok(())
    }

    /// Begins the scope of the hidden variables of a loop.
    pub fn hide(&mut self, count: u8, start: usize) -> Allocated<()>
        ensures { OnOk result (self.new ≡ self.old ++ hidden_from count start) }
    {
        for _ in 0..count {
            self.begin(None, start)?;
        }
        Ok(())
    }

    /// Ends at a place the scopes of all variables behind the first ones that go on.
    pub fn end_scopes(&mut self, first: usize, place: usize) -> Allocated<()>
        ensures { OnOk result (self.new ≡ ended_from first place self.old) }
    {
        let place = place_at(place)?;
        end_behind(&mut self.list, first, place);
        Ok(())
    }

    /// The list of a prototype.
    pub fn into_vec(self, alloc: Global) -> Allocated<Vec<LocVar>>
        ensures { IfOk result (λ list. list.items ≡ map finished self) }
    {
        let mut list = Vec::new(alloc);
        for variable in self.list {
            list.push(LocVar {
                name: variable.name,
                start: variable.start,
                end: variable.end.unwrap_or(0),
            })?;
        }
        Ok(list)
    }
}
