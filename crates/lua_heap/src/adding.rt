// Code that is added to a world.
ghost use Rattle.std.specs.Prelude.{◌≡◌, ℕ, List, [], ◌∷◌, ◌++◌, true, length, map, IfOk, OnOk, OnErr};
ghost use Rattle.std.specs.List.{list_all};
ghost use Rattle.int_core.specs.Value.{known};
ghost use Rattle.code_core.specs.Check.{IsChecked};
ghost use Rattle.code_core.specs.Writable.{constant_fits};
ghost use Rattle.machine_core.specs.Text.{constant};
ghost use Rattle.lua_heap.specs.Reading.{value};
ghost use Rattle.lua_heap.specs.Codes.{functions, preorder, AreCodes};
ghost use Rattle.lua_heap.specs.Adding.{Begins, IsOwnCode, AddsFunctions, AddsCode, KeepsCode};

use crate::codes::{Code, Codes, Tree};
use crate::strings::Strings;
use crate::world::World;
use code_core::{Checked, Const, Proto};
use int_core::Allocated;
use std::alloc::Global;
use table_core::{ProtoId, Value};

impl World {
    /// Adds code: its function goes last, then those that are defined in it, in the order of the text.
    /// A sound world stays what it is; a refusal changes nothing.
    pub fn add_code(&mut self, code: Checked) -> Allocated<ProtoId>
        requires { AreCodes self.old.strings self.old.codes }
        ensures id { IfOk result (λ id. id.0 ≡ length (functions self.old.codes)) }
        ensures added { OnOk result (AddsCode self.old self.new code) }
        ensures err { OnErr result (KeepsCode self.old self.new) }
    {
        let id = self.codes.add(&mut self.strings, code)?;
        Ok(id)
    }
}

impl Codes {
    /// Adds code, and its strings where they are not there. A refusal changes nothing.
    fn add(&mut self, strings: &mut Strings, code: Checked) -> Allocated<ProtoId>
        ensures id { IfOk result (λ id. id.0 ≡ length self.old.list.items) }
        ensures trees { IfOk result (λ id. self.new.trees.items ≡ self.old.trees.items ++ record { first = id.0; code = code } ∷ []) }
        ensures list { OnOk result (AddsFunctions strings.new self.old.list.items self.new.list.items (code ∷ preorder code.inner)) }
        ensures strings { OnOk result (Begins (List ℕ) strings.old strings.new) }
        ensures err_trees { OnErr result (self.new.trees.items ≡ self.old.trees.items) }
        ensures err_list { OnErr result (self.new.list.items ≡ self.old.list.items) }
        ensures err_strings { OnErr result (strings.new ≡ strings.old) }
    {
        let kept = strings.len();
        let first = self.list.len();
        self.trees.reserve(1)?;
        match add_function(strings, &mut self.list, code.proto()) {
            Ok(()) => {
                self.trees.push_reserved(Tree { first, code });
                Ok(ProtoId(first))
            }
            Err(refusal) => {
                self.list.truncate(first);
                strings.release_to(kept);
                Err(refusal)
            }
        }
    }
}

/// Adds a function, then those that are defined in it. What a refusal leaves begins with what was there.
fn add_function(strings: &mut Strings, list: &mut Vec<Code>, proto: &Proto) -> Allocated<()>
    requires { IsChecked proto.now }
    ensures strings { Begins (List ℕ) strings.old strings.new }
    ensures begins { Begins Code list.old.items list.new.items }
    ensures added { OnOk result (AddsFunctions strings.new list.old.items list.new.items (proto.now ∷ preorder proto.now.inner)) }
{
    let place = list.len();
    let alloc = *list.allocator();
    let code = own_code(strings, proto, alloc)?;
    list.push(code)?;
    let mut inner = Vec::new(alloc);
    for function in &proto.protos {
        inner.push(ProtoId(list.len()))?;
        add_function(strings, list, function)?;
    }
    list[place].inner = inner;
    Ok(())
}

/// What is kept of a function, without the numbers of those that are defined in it.
fn own_code(strings: &mut Strings, proto: &Proto, alloc: Global) -> Allocated<Code>
    requires { IsChecked proto.now }
    ensures strings { Begins (List ℕ) strings.old strings.new }
    ensures code { IfOk result (λ code. IsOwnCode strings.new proto.now code) }
{
    let constants = values_of(strings, &proto.constants, alloc)?;
    let words = Vec::from_slice(alloc, &proto.code)?;
    let upvalues = Vec::from_slice(alloc, &proto.upvalues)?;
    Ok(Code {
        words,
        constants,
        stack: proto.stack,
        params: proto.params,
        vararg: proto.vararg,
        upvalues,
        inner: Vec::new(alloc),
    })
}

/// The values of constants, whose strings are added where they are not there.
fn values_of(strings: &mut Strings, constants: &[Const], alloc: Global) -> Allocated<Vec<Value>>
    requires { list_all constant_fits constants.now ≡ true }
    ensures strings { Begins (List ℕ) strings.old strings.new }
    ensures values { IfOk result (λ vs. map (value strings.new) vs.items ≡ map (λ c. known (constant c)) constants.now) }
{
    let mut values = Vec::with_capacity(alloc, constants.len())?;
    for literal in constants {
        let read = value_of(strings, literal)?;
        values.push(read)?;
    }
    Ok(values)
}

/// The value of a constant.
fn value_of(strings: &mut Strings, literal: &Const) -> Allocated<Value>
    requires { constant_fits literal.now ≡ true }
    ensures strings { Begins (List ℕ) strings.old strings.new }
    ensures value { IfOk result (λ v. value strings.new v ≡ known (constant literal.now)) }
{
    match literal {
        Const::Nil => Ok(Value::Nil),
        Const::False => Ok(Value::Bool(false)),
        Const::True => Ok(Value::Bool(true)),
        Const::Int(n) => Ok(Value::Int(*n)),
        Const::Str(bytes) => {
            let id = strings.intern(bytes.as_slice())?;
            Ok(Value::Str(id))
        }
    }
}
