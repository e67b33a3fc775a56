// A sink in memory, for tests.
use crate::device::Sink;
use crate::fault::Failed;
use crate::schedule::Schedule;
use int_core::Numbers;
use std::alloc::Global;

/// A sink that keeps and tells what it is given, and of which the listed calls of `write` fail.
#[derive(Debug, Drop)]
pub struct MemSink {
    written: Vec<u8>,
    schedule: Schedule,
}

impl MemSink {
    ghost use Rattle.std.specs.Prelude.{◌≡◌, []};
    ghost use Rattle.io_edge.specs.Schedules.{bytes_written, sink_schedule, untouched};

    /// An empty sink. `failing` lists the numbers of the calls that are to fail, from 0.
    pub fn new(alloc: Global, failing: Numbers) -> MemSink
        ensures written { bytes_written result ≡ [] }
        ensures schedule { sink_schedule result ≡ untouched failing }
    {
        MemSink {
            written: Vec::new(alloc),
            schedule: Schedule::new(failing),
        }
    }

    /// The bytes that were written.
    pub fn written(&self) -> &[u8]
        ensures { result.now ≡ bytes_written self.now }
    {
        self.written.as_slice()
    }

    /// How many calls of `write` there have been, which stops at 2^64 - 1.
    pub fn calls(&self) -> u64
        ensures { result ≡ (sink_schedule self.now).calls }
    {
        self.schedule.calls()
    }
}

impl Sink for MemSink {
    ghost use Rattle.std.specs.Prelude.{◌≡◌, ◌<◌, ◌≤◌, ◌++◌, Some, IfOk, IsErr, IsTrue, OnErr, length, is_err, take};
    ghost use Rattle.io_edge.specs.Causes.{HasCause};
    ghost use Rattle.io_edge.specs.Schedules.{Counted, bytes_written, is_listed, sink_schedule};

    ghost faults = { λ sink. (sink_schedule sink).faults };

    ghost written = { λ sink. Some (bytes_written sink) };

    /// Also fails, as a counted fault, where there is no memory for the bytes.
    fn write(&mut self, bytes: &[u8]) -> Result<usize, Failed>
        ensures cause { HasCause (sink_schedule self.old).faults (sink_schedule self.new).faults (is_err result) }
        ensures within { IfOk result (λ count. count ≤ length bytes.now) }
        ensures some { IfOk result (λ count. 0 < length bytes.now → 0 < count) }
        ensures appended { IfOk result (λ count. bytes_written self.new ≡ bytes_written self.old ++ take count bytes.now) }
        ensures failed { OnErr result (bytes_written self.new ≡ bytes_written self.old) }
        ensures listed { IsTrue (is_listed (sink_schedule self.old)) → IsErr result }
        ensures counted { Counted (sink_schedule self.old) (sink_schedule self.new) }
    {
        self.schedule.begin_call()?;
        match self.written.extend_from_slice(bytes) {
            Ok(()) => Ok(bytes.len()),
            Err(_) => Err(self.schedule.fail()),
        }
    }
}
