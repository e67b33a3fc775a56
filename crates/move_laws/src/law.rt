// The laws of moves on the running stack in memory.
ghost use Rattle.move_laws.specs.Law.{StackRuns, ChangedStackIsPut};

/// Where a coroutine runs, its stack is kept at the number that stands last in the chain.
pub fn running_stack_is_kept()
    ensures { StackRuns }
{}

/// A change of the running stack is a change of its coroutine's frames.
pub fn changed_stack_is_put()
    ensures { ChangedStackIsPut }
{}
