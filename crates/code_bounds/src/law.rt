// The laws of what code has, and how much of it.
ghost use Rattle.code_bounds.specs.Constants.{ConstantsAreNumbered};
ghost use Rattle.code_bounds.specs.Functions.{FunctionsAreNumbered};
ghost use Rattle.code_bounds.specs.Registers.{RegistersAreCounted, RegistersAreEnough};
ghost use Rattle.code_bounds.specs.Sizes.{CodeIsShort, ConstantsAreFew, FunctionsAreFew};

/// Code has at most six instructions for each unit of its tree's weight: of an expression, of a
/// statement, of a block that stands in others, and of a function's whole body.
pub fn code_is_short()
    ensures { CodeIsShort }
{}

/// A function has at most as many constants as its tree weighs.
pub fn constants_are_few()
    ensures { ConstantsAreFew }
{}

/// A function makes at most the functions that are written in it, and these are at most as many as
/// its tree weighs.
pub fn functions_are_few()
    ensures { FunctionsAreFew }
{}

/// Each constant that a function's block names is among the function's constants, at its number.
pub fn constants_are_numbered()
    ensures { ConstantsAreNumbered }
{}

/// Each function that a body makes is among the functions of its code, at its number, and there are
/// no others.
pub fn functions_are_numbered()
    ensures { FunctionsAreNumbered }
{}

/// The code of a body, whatever it is, has each register that one of its instructions names.
pub fn registers_are_counted()
    ensures { RegistersAreCounted }
{}

/// A body whose names are in scope and that keeps the static rules, among them the limits on locals and
/// held values, has code with at most 250 registers, and these are all that its statements need.
pub fn registers_are_enough()
    ensures { RegistersAreEnough }
{}
