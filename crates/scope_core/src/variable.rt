// Local variables as they stand in a scope.
ghost use Rattle.std.specs.Prelude.{◌≡◌};
ghost use Rattle.scope_core.specs.Scopes.{has_name, is_fixed_variable};

use int_core::Bytes;

/// A local variable in scope (Lua 5.4 manual, 3.3.5, 3.3.7 and 3.5).
#[derive(Debug, PartialEq, Eq, Drop)]
pub enum Variable {
    /// One that is declared in the source.
    Named {
        /// Its name.
        text: Bytes,
        /// Whether it is declared `const` or `close`, and so never assigned.
        fixed: bool,
    },
    /// One of a `for`, which no name means.
    Hidden,
}

impl Variable {
    /// Whether it has this name.
    pub fn has_name(&self, name: &Bytes) -> bool
        ensures { result ≡ has_name name.now self.now }
    {
        match self {
            Variable::Named { text, .. } => text == name,
            Variable::Hidden => false,
        }
    }
    /// Whether it is never assigned.
    pub fn is_fixed(&self) -> bool
        ensures { result ≡ is_fixed_variable self.now }
    {
        match self {
            Variable::Named { fixed, .. } => *fixed,
            Variable::Hidden => false,
        }
    }
}
