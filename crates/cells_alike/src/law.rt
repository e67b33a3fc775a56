// The laws of whole runs in the two forms of cells.
ghost use Rattle.cells_alike.specs.Alike.{CodeKeepsTheLetter, OpeningsAreReady, RunsDoNotShowCells};

/// A script whose locals get their cells as they are declared, and the same script whose locals get
/// them before the first function that captures them, print the same and end alike, for all lines
/// of input and every budget. What the one means, the other means as well, both ways. In the world
/// before the script no coroutine waits, and the cells that functions name are there.
pub fn runs_do_not_show_cells()
    ensures { RunsDoNotShowCells }
{}

/// The worlds of the libraries are such worlds, with any prelude.
pub fn openings_are_ready()
    ensures { OpeningsAreReady }
{}

/// Where code means a script's main function and the functions before it, it prints the same and ends
/// alike as the tree whose locals get their cells as they are declared, both ways.
pub fn code_keeps_the_letter()
    ensures { CodeKeepsTheLetter }
{}
