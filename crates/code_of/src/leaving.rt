// How the code of one function's statements leaves scopes.

/// What the code of a function's statements hangs on besides its constants.
#[derive(Clone, Copy, Debug, PartialEq, Eq)]
pub struct Leaving {
    /// The field C of each RETURN: one more than the number of parameters of a function with `...`, else 0.
    pub back: usize,
    /// Whether the function makes functions, which may capture its locals: then a jump closes the locals that it leaves.
    pub closes: bool,
}
