// The laws of worlds that agree.
ghost use Rattle.machine_alike.specs.Laws.{AgreementComposes, MovesKeep, RowsKeep, StepsKeep, TurnsBegin, TurnsEnd};

/// Every move keeps the agreement of two worlds, and so does every row that makes no function, and any number of steps of
/// the machine, whatever the rows of its primitives are: both trap, or both end in the same way in worlds that agree again.
/// The move that makes a function is kept where neither world traps; the machine's own rows open what a function shares.
pub fn worlds_run_alike()
    ensures moves { MovesKeep }
    ensures rows { RowsKeep }
    ensures steps { StepsKeep }
{}

/// Worlds that agree between turns agree within a turn once both have the same values on their way and the same budget,
/// and what agrees within a turn agrees at its end.
pub fn turns_begin_and_end()
    ensures begin { TurnsBegin }
    ensures end { TurnsEnd }
{}

/// Agreement composes: where a world agrees with a second one, and that with a third, the first agrees with the third.
pub fn agreement_composes()
    ensures { AgreementComposes }
{}
