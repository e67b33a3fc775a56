// The laws that turns end.
ghost use Rattle.meaning_ends.specs.Asking.{AsksAtLast};
ghost use Rattle.meaning_ends.specs.Turns.{EveryScriptHasAMeaning, TurnsEnd};
ghost use Rattle.meaning_ends.specs.Units.{FallsBetweenUnits};

/// Between two units of fuel that an activation pays it comes nearer to an end with each step: a
/// measure of its state falls with each step of its own, and across each ask, whatever is answered.
pub fn falls_between_units()
    ensures { FallsBetweenUnits }
{}

/// An activation never goes on by itself for ever: after finitely many steps of its own it asks,
/// or nothing more is done.
pub fn asks_at_last()
    ensures { AsksAtLast }
{}

/// From each world that a run comes to, finitely many steps lead to the end of the turn.
pub fn turns_end()
    ensures { TurnsEnd }
{}

/// Every script has a meaning, on all lines and with every budget: some number of steps a turn
/// suffices for it.
pub fn every_script_has_a_meaning()
    ensures { EveryScriptHasAMeaning }
{}
