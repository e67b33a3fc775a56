// The law of whole runs of trees and of code.
ghost use Rattle.runs_alike.specs.Alike.{OpeningsAlike, WholeRunsEndAlike};

/// Where code means a script's main function, and in the world before the script each function of code
/// means the tree of the same number, all else being the same, then the script's tree and its code
/// print the same and end alike, for all lines of input and every budget. What the one means, the
/// other means as well, both ways.
pub fn whole_runs_end_alike()
    ensures { WholeRunsEndAlike }
{}

/// Worlds of the libraries are so alike, where the prelude's functions of the same place have the same
/// name and home, and code means the tree.
pub fn openings_are_alike()
    ensures { OpeningsAlike }
{}
