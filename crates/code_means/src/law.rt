// The law of code that means a tree.
ghost use Rattle.code_means.specs.Asks.{AsksTheSame};

/// Where code means a function's body, both make the same asks, in the same order and with the same
/// lines and values, on any arguments and on any answers that fit.
pub fn asks_the_same()
    ensures { AsksTheSame }
{}
