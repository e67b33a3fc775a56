// How a step of the machine ends.

/// What is to be done next.
#[derive(Debug, Clone, Copy, PartialEq, Eq)]
pub enum Ending {
    /// The Lua frame on top runs, or gets what moves.
    Go,
    /// Results move, for a frame that is no Lua function's, or for the coroutine's end.
    Returned,
    /// A value moves with the arguments that it is to be called with.
    Asks,
    /// The arguments of a primitive move.
    CallsPrimitive(u16),
    /// An error moves, and it is to be found who catches it.
    Raised,
    /// An error moves, and the frame on top is left with it.
    Unwinding,
    /// The budget is spent.
    Spent,
    /// The main coroutine waits to be resumed.
    MainYielded,
    /// The main script has ended.
    MainReturned,
    /// The main script has failed.
    MainFailed,
}
