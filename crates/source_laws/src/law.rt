// The laws of compiled sources.
ghost use Rattle.source_laws.specs.Checked.{CodeOfSourcesIsChecked};
ghost use Rattle.source_laws.specs.Fields.{CodeFitsItsFields};
ghost use Rattle.source_laws.specs.Fitting.{BodiesFit};
ghost use Rattle.source_laws.specs.Meaning.{CodeMeansSource};
ghost use Rattle.source_laws.specs.Nearing.{BodiesAreNear};

/// A body whose names are in scope and which keeps the limits of the static rules fits: what the law
/// of compiled code supposes of it and of the functions in it is there. Of its forms only those are
/// looked at that the grammar has, and of its size the weight and the number of its functions.
pub fn bodies_fit()
    ensures { BodiesFit }
{}

/// The code of each source that keeps the grammar, the static rules and the limit on its bytes means
/// the source's tree with its places set, whether lines and names are kept or not. So do the
/// functions in it.
pub fn code_means_source()
    ensures { CodeMeansSource }
{}

/// A body that keeps the static rules, the grammar and the limits on sources is near, and so are the
/// functions in it: registers have 8 bits, upvalues are there, and no part of its code has more
/// entries than instructions can name.
pub fn bodies_are_near()
    ensures { BodiesAreNear }
{}

/// The code of each source that keeps the grammar, the static rules and the limit on its bytes is
/// checked code, and so is that of the functions in it.
pub fn code_of_sources_is_checked()
    ensures { CodeOfSourcesIsChecked }
{}

/// The code of a source of at most 1,048,576 bytes that keeps the static rules fits the fields of
/// instructions: each function in its placed tree has at most 2^24 instructions, fewer than 2^25
/// constants and at most 2^17 functions of its own, and the jumps of each `for` are short enough.
pub fn code_fits_its_fields()
    ensures { CodeFitsItsFields }
{}
