// The laws, each with what it speaks of in `specs/`.
ghost use Rattle.machine_means.specs.Laws.{EndsJoined, FailsJoined, ResumesJoined, WritesJoined, YieldsJoined};
ghost use Rattle.machine_means.specs.Stands.{AskedSteps, CoroutinesBegin, CoroutinesClosed, ErrorsRaised, ErrorsReach, HandingSteps, ProtectedCalls, ResultsReach, TextsRaised};

/// A cell that is written keeps a world of the machine and one of talking activations joined, whether it is closed or open, and in the
/// frames of whichever coroutine, the one that runs or another one.
pub fn writes_keep_worlds_joined()
    ensures { WritesJoined }
{}

/// Where the running coroutine gives way to the one that resumed it, both worlds stay joined, and the same values are on their way to the
/// frame on top: where it yields, where it ends, and where an error leaves it, after which both keep the same values that it still has to
/// close. So it is where a coroutine that has begun is resumed, or refused with the same text.
pub fn switches_keep_worlds_joined()
    ensures yields { YieldsJoined }
    ensures ends { EndsJoined }
    ensures fails { FailsJoined }
    ensures resumes { ResumesJoined }
{}

/// What frames that are no Lua functions' do keeps both worlds joined, with the same results, the same error or the same call on their
/// way: results and errors that reach a call by `pcall` or `xpcall`, a message handler's call or the closing of a coroutine; an error that
/// is raised, with the same place in front of its text, and who catches it; the frames that `pcall` and `xpcall` push; and
/// `coroutine.close`, after which both close the same values in the same order.
pub fn frames_keep_worlds_joined()
    ensures results { ResultsReach }
    ensures errors { ErrorsReach }
    ensures texts { TextsRaised }
    ensures raised { ErrorsRaised }
    ensures protected { ProtectedCalls }
    ensures closed { CoroutinesClosed }
{}

/// So from a sound world in which results are handed to a frame that is no Lua function's, or an error is raised or reaches such a
/// frame, one step of the machine is one step of the world in which activations talk, and both stand alike again.
pub fn handing_steps_keep_worlds_joined()
    ensures { HandingSteps }
{}

/// And from a sound world in which a value is to be called and no Lua function's frame asks for it, one step of the machine comes to where
/// the other world, which has called it already, stands: a function runs in both, a primitive is called with the same arguments, nothing
/// is left to pay with, or the call is refused with the same error.
pub fn asked_steps_keep_worlds_joined()
    ensures { AskedSteps }
{}

/// Where a coroutine that has not begun is resumed, its function runs in both worlds, or the primitive that it is made of is called with the
/// same arguments, or too many others are resumed already, which both say.
pub fn first_calls_keep_worlds_joined()
    ensures { CoroutinesBegin }
{}
