// A source in memory, for tests.
ghost use Rattle.std.specs.Prelude.{◌≤◌, length};

use crate::device::Source;
use crate::fault::Failed;
use crate::schedule::Schedule;
use int_core::{Bytes, Numbers};

/// A source of given bytes, which tells what is left, and of which the listed calls of `read` fail.
#[derive(Debug, Drop)]
pub struct MemSource {
    bytes: Bytes,
    next: usize,
    schedule: Schedule,
    ghost within: { next ≤ length bytes },
}

impl MemSource {
    ghost use Rattle.std.specs.Prelude.{◌≡◌};
    ghost use Rattle.io_edge.specs.Schedules.{bytes_left, source_schedule, untouched};

    /// A source of these bytes. `failing` lists the numbers of the calls that are to fail, from 0.
    pub fn new(bytes: Bytes, failing: Numbers) -> MemSource
        ensures left { bytes_left result ≡ bytes }
        ensures schedule { source_schedule result ≡ untouched failing }
    {
        MemSource {
            bytes,
            next: 0,
            schedule: Schedule::new(failing),
        }
    }

    /// The bytes that are left.
    pub fn left(&self) -> &[u8]
        ensures { result.now ≡ bytes_left self.now }
    {
        &self.bytes.as_slice()[self.next..]
    }

    /// How many calls of `read` there have been, which stops at 2^64 - 1.
    pub fn calls(&self) -> u64
        ensures { result ≡ (source_schedule self.now).calls }
    {
        self.schedule.calls()
    }
}

impl Source for MemSource {
    ghost use Rattle.std.specs.Prelude.{◌≡◌, ◌<◌, ◌≤◌, ◌++◌, [], Some, IfOk, IfSome, OnErr, length, is_err, take};
    ghost use Rattle.std.specs.Option.{option_map};
    ghost use Rattle.io_edge.specs.Causes.{HasCause};
    ghost use Rattle.io_edge.specs.Content.{MayEndTelling};
    ghost use Rattle.io_edge.specs.Schedules.{Counted, bytes_left, is_listed, source_schedule};

    ghost faults = { λ source. (source_schedule source).faults };

    ghost left = { λ source. Some (bytes_left source) };

    fn read(&mut self, buf: &mut [u8]) -> Result<usize, Failed>
        ensures cause { HasCause (source_schedule self.old).faults (source_schedule self.new).faults (is_err result) }
        ensures within { IfOk result (λ count. count ≤ length buf.new) }
        ensures taken { IfOk result (λ count. bytes_left self.old ≡ take count buf.new ++ bytes_left self.new) }
        ensures end { IfOk result (λ count. count ≡ 0 → 0 < length buf.new → bytes_left self.old ≡ []) }
        ensures failed { OnErr result (bytes_left self.new ≡ bytes_left self.old) }
        ensures listed { is_err result ≡ is_listed (source_schedule self.old) }
        ensures counted { Counted (source_schedule self.old) (source_schedule self.new) }
    {
        self.schedule.begin_call()?;
        let rest = &self.bytes.as_slice()[self.next..];
        let count = rest.len().min(buf.len());
        buf[..count].copy_from_slice(&rest[..count]);
        self.next += count;
        Ok(count)
    }
}
