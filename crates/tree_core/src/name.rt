// The names that stand in a tree, and where the value of each is found.
use int_core::Bytes;

/// Where the value of a variable's name is found (Lua 5.4 manual, 2.2 and 3.5).
#[derive(Debug, Clone, Copy, PartialEq, Eq)]
pub enum Place {
    /// Not looked up yet, or the name is no variable.
    Unset,
    /// A local variable of the function, by its register.
    Local(u8),
    /// A variable of an enclosing function, by its place among the function's upvalues.
    Upvalue(u8),
    /// A global name, whose `_ENV` is a local variable in this register.
    GlobalIn(u8),
    /// A global name, whose `_ENV` is the upvalue at this place.
    GlobalOf(u8),
}

/// A variable of an enclosing function that a function names.
#[derive(Debug, PartialEq, Eq, Drop)]
pub struct UpName {
    /// The variable's name.
    pub text: Bytes,
    /// Whether the function just around has it as a local variable.
    pub in_stack: bool,
    /// Its register there, or its place among that function's upvalues.
    pub index: u8,
}

/// A name as it stands in the source. The name of a label, of a `goto` or of a method is no
/// variable, and its place stays `Unset`.
#[derive(Debug, PartialEq, Eq, Drop)]
pub struct Name {
    /// The name's bytes.
    pub text: Bytes,
    /// The line of the name.
    pub line: u32,
    /// Where the variable's value is found.
    pub place: Place,
}

/// The attribute of a declared local variable (Lua 5.4 manual, 3.3.7).
#[derive(Debug, PartialEq, Eq, Drop)]
pub enum Attrib {
    /// None is written.
    Plain,
    /// `const`.
    Const,
    /// `close`.
    Close,
    /// Another word, which the static rules refuse.
    Other(Bytes),
}

/// A local variable in its declaration.
#[derive(Debug, PartialEq, Eq, Drop)]
pub struct Declared {
    /// The variable's name.
    pub name: Name,
    /// Its attribute.
    pub attrib: Attrib,
    /// The line of the attribute's word, or of the name where there is none.
    pub attrib_line: u32,
}
