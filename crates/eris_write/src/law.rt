//! Laws on what was written.
ghost use Rattle.eris_write.specs.Law.{WrittenIsSavable};

/// What was written could be written: no coroutine of it runs or resumed another, so the laws on loading speak of it.
pub fn written_worlds_are_savable()
    ensures { WrittenIsSavable }
{}
