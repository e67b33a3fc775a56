// The law of compiled code.
ghost use Rattle.stat_laws.specs.Law.{CodeMeansBody};

/// The code that a function's body is compiled to means the body, where the body fits: it makes the
/// same asks on any arguments and any answers that fit, and so do the functions in it. `BodyFits` says
/// what names, labels, constants and registers have to be there.
pub fn code_means_body()
    ensures { CodeMeansBody }
{}
