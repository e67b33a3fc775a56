// The functions around a place in a source.
ghost use Rattle.std.specs.Prelude.{◌≡◌, ◌≤◌, ◌<◌, length, reverse, take, drop, OnOk, IfOk};
ghost use Rattle.scope_core.specs.Places.{up_name, place_of};
ghost use Rattle.scope_core.specs.Scopes.{is_variable, needed};
ghost use Rattle.scope_core.specs.Reaching.{reached, up_name_at};

use crate::frame::{FunctionScope, Source};
use int_core::{Allocated, Bytes};
use std::alloc::Global;
use tree_core::Place;

/// The functions around a place, the outermost first.
#[derive(Drop)]
pub struct Functions {
    /// The scope of each.
    pub scopes: Vec<FunctionScope>,
}

impl Functions {
    /// Finds the variable that a name in the last function needs, and answers the name's place.
    pub fn place(&mut self, alloc: Global, name: &Bytes) -> Allocated<Place>
        ensures len { length self.new.scopes.items ≡ length self.old.scopes.items }
        ensures reached { OnOk result (reverse self.new.scopes.items ≡ reached (reverse self.old.scopes.items) (needed name.now (reverse self.old.scopes.items))) }
        ensures place { IfOk result (λ place. place ≡ place_of name.now (reverse self.new.scopes.items)) }
    {
        let count = self.scopes.len();
        if self.has_variable(name) {
            let source = self.reach(alloc, count, name)?;
            return Ok(source.local_place());
        }
        let environment = Bytes::of(b"_ENV".to_vec(alloc)?);
        let source = self.reach(alloc, count, &environment)?;
        Ok(source.global_place())
    }

    /// Whether a name is that of a local variable of one of the functions, or `_ENV`.
    pub fn has_variable(&self, name: &Bytes) -> bool
        ensures { result ≡ is_variable name.now (reverse self.now.scopes.items) }
    {
        if name.as_slice() == b"_ENV".as_slice() {
            return true;
        }
        for scope in self.scopes.iter() {
            if scope.has_local(name) {
                return true;
            }
        }
        false
    }

    /// Makes a variable an upvalue of each of the first functions that needs it where the last of
    /// them names it, and answers where a function within that one finds it.
    pub fn reach(&mut self, alloc: Global, count: usize, name: &Bytes) -> Allocated<Source>
        requires { count ≤ length self.old.scopes.items }
        ensures len { length self.new.scopes.items ≡ length self.old.scopes.items }
        ensures inner { drop count self.new.scopes.items ≡ drop count self.old.scopes.items }
        ensures reached { OnOk result (reverse (take count self.new.scopes.items) ≡ reached (reverse (take count self.old.scopes.items)) name.now) }
        ensures source { IfOk result (λ source. up_name (reverse (take count self.new.scopes.items)) name.now ≡ up_name_at name.now source) }
    {
        if count == 0 {
            return Ok(Source {
                in_stack: true,
                index: 0,
            });
        }
        let last = count - 1;
        if let Some(source) = self.scopes[last].source_of(name) {
            return Ok(source);
        }
        let outer = self.reach(alloc, last, name)?;
        let text = Bytes::of(name.as_slice().to_vec(alloc)?);
        let source = self.scopes[last].capture(text, outer)?;
        Ok(source)
    }
}
