// The laws of the running frame.
ghost use Rattle.machine_focus.specs.Law.{HeldIsRun, HeldIsStep, ReadyFramesStand};

/// In a sound world the running frame is at an instruction whose registers are there, and its values are valid.
pub fn ready_frames_stand()
    ensures { ReadyFramesStand }
{}

/// What a text does to what is held apart is what it does to the world.
pub fn held_texts_run()
    ensures { HeldIsRun }
{}

/// An instruction that the frame does by itself is one step of the machine, and the world is sound after it.
pub fn held_frames_step()
    ensures { HeldIsStep }
{}
