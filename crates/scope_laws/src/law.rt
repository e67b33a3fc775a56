// The law of resolved trees.
ghost use Rattle.scope_laws.specs.Law.{ResolvedNamesFit};

/// In the tree of a source that keeps the static rules each name is that of a local in scope that has
/// a name, or of an upvalue of its function; each upvalue is found in the function around; and no more
/// locals are in scope, and no more values held, than the limits allow. Each `goto` has its label and
/// each `break` its loop.
pub fn resolved_names_fit()
    ensures { ResolvedNamesFit }
{}
