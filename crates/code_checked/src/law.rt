// The law of rules on code.
ghost use Rattle.code_checked.specs.Law.{CodeIsChecked};

/// The code that a function's body is compiled to keeps all twelve rules on code, and so does that of
/// the functions in it, where the body is near: registers have 8 bits, upvalues are there, what the
/// tree writes fits, and no part has more entries than instructions and chunks can name.
pub fn code_is_checked()
    ensures { CodeIsChecked }
{}
