// What a library function may see of a value.
ghost use Rattle.std.specs.Prelude.{◌≡◌};
ghost use Rattle.int_core.specs.Value.{holds};
ghost use Rattle.int_core.specs.Operations.{type_name};
ghost use Rattle.library_arguments.specs.Shapes.{shape_of};

/// The kind of an object.
#[derive(Debug, Clone, Copy, PartialEq, Eq)]
pub enum Kind {
    Table,
    Function,
    Coroutine,
}

/// All that a library function sees of a value: the value itself, or the kind of an object.
#[derive(Debug, Clone, Copy)]
pub enum Shape<'a> {
    Nil,
    Boolean(bool),
    Integer(i64),
    String(&'a [u8]),
    /// A function of the libraries, by its number.
    Primitive(u16),
    Object(Kind),
}

impl<'a> Shape<'a> {
    /// The word that `type` has for the value (Lua 5.4 manual, 6.1).
    pub fn type_name(&self) -> &'static [u8]
        ensures { result.now ≡ type_name (shape_of self.now) }
    {
        match self {
            Shape::Nil => b"nil",
            Shape::Boolean(_) => b"boolean",
            Shape::Integer(_) => b"number",
            Shape::String(_) => b"string",
            Shape::Primitive(_) => b"function",
            Shape::Object(Kind::Table) => b"table",
            Shape::Object(Kind::Function) => b"function",
            Shape::Object(Kind::Coroutine) => b"thread",
        }
    }

    /// Whether it counts as true: all but nil and false do.
    pub fn holds(&self) -> bool
        ensures { result ≡ holds (shape_of self.now) }
    {
        match self {
            Shape::Nil => false,
            Shape::Boolean(truth) => *truth,
            _ => true,
        }
    }
}
