// The laws of the rows of library functions.
ghost use Rattle.library_rows.specs.Plainly.{PlainRowsAreFunctions};

/// A row that looks at no table is a function of the shapes of its arguments, and leaves all tables
/// as they are.
pub fn plain_rows_are_functions()
    ensures { PlainRowsAreFunctions }
{}
