// The laws of cells.
ghost use Rattle.meaning_cells.specs.Alike.{CellsDoNotShow};
ghost use Rattle.meaning_cells.specs.Opening.{OpeningChangesNothing};

/// The opening of cells for locals in scope changes no variable of the activation: it goes on as
/// it would have done without, and holds cells for these locals.
pub fn opening_changes_nothing()
    ensures { OpeningChangesNothing }
{}

/// An activation whose locals get their cells as they are declared, and one whose locals get them
/// before the first function that captures them, ask the same on the same answers, but for the
/// opening of cells and their numbers. After each ask of both, cells that stand for one variable have
/// the same value. While an activation waits others may act.
pub fn cells_do_not_show()
    ensures { CellsDoNotShow }
{}
