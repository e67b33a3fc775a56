// The session that a call ran.
ghost use Rattle.std.specs.Prelude.{◌≡◌};
ghost use Rattle.lua_feed.specs.Closes.{close_of};
ghost use Rattle.program.specs.Sessions.{state_of};

use lua_feed::Close;
use lua_heap::World;

/// Whether a session goes on where it is handed a line.
#[derive(Debug, Clone, Copy, PartialEq, Eq)]
pub enum SessionState {
    /// It waits for a line.
    Suspended,
    /// Its script returned or failed, or a turn spent its budget.
    Ended,
}

/// A session that ran, as it stands at the end of the call.
#[derive(Drop)]
pub struct Session {
    pub world: World,
    pub state: SessionState,
}

/// The state of a session that closed.
pub fn state_at(close: Close) -> SessionState
    ensures { result ≡ state_of (close_of close) }
{
    match close {
        Close::Suspended => SessionState::Suspended,
        Close::Returned | Close::Failed | Close::Spent => SessionState::Ended,
    }
}
