// The laws of a loop over the instructions of one frame.
ghost use Rattle.machine_view.specs.Law.{ReadyIsAt, DoingIsStep};

/// In a sound world the running frame is at an instruction of its code.
pub fn ready_frames_have_instructions()
    ensures { ReadyIsAt }
{}

/// What an instruction does to its frame is one step of the machine, and the world is sound after it.
pub fn doing_is_step()
    ensures { DoingIsStep }
{}
