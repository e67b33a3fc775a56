// Which calls of a device in memory are to fail, and what it has counted.
ghost use Rattle.std.specs.Prelude.{◌≡◌, is_err, true};
ghost use Rattle.io_edge.specs.Causes.{HasCause};
ghost use Rattle.io_edge.specs.Schedules.{Counted, is_listed, untouched};

use crate::fault::{Failed, FaultCount};
use int_core::Numbers;

/// The calls that are to fail, by their numbers from 0, and the counts of calls and of faults so far.
#[derive(Debug, Drop)]
pub(crate) struct Schedule {
    failing: Numbers,
    calls: u64,
    faults: FaultCount,
}

impl Schedule {
    /// No call has been made.
    pub(crate) fn new(failing: Numbers) -> Schedule
        ensures { result ≡ untouched failing }
    {
        Schedule {
            failing,
            calls: 0,
            faults: FaultCount::new(),
        }
    }

    /// How many calls there have been.
    pub(crate) fn calls(&self) -> u64
        ensures { result ≡ self.now.calls }
    {
        self.calls
    }

    /// Counts a call, and answers `Failed`, as a counted fault, where its number is listed.
    pub(crate) fn begin_call(&mut self) -> Result<(), Failed>
        ensures listed { is_err result ≡ is_listed self.old }
        ensures cause { HasCause self.old.faults self.new.faults (is_err result) }
        ensures counted { Counted self.old self.new }
    {
        let listed = self.failing.as_slice().contains(&self.calls);
        self.calls = self.calls.saturating_add(1);
        if listed { Err(self.fail()) } else { Ok(()) }
    }

    /// Counts a fault that no number asked for.
    pub(crate) fn fail(&mut self) -> Failed
        ensures cause { HasCause self.old.faults self.new.faults true }
        ensures calls { self.new.calls ≡ self.old.calls }
        ensures failing { self.new.failing ≡ self.old.failing }
    {
        self.faults.fail()
    }
}
