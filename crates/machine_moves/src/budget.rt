// What is left of a turn's budget. It stands beside the world in memory.
ghost use Rattle.machine_moves.specs.Moves.{Pays};

/// Pays one unit, and says whether one was left.
pub fn pay(fuel: &mut u64) -> bool
    ensures { Pays fuel.old fuel.new result }
{
    if *fuel == 0 {
        return false;
    }
    *fuel -= 1;
    true
}
