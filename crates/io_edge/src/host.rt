// The standard streams and the file system as devices, which tell nothing of what they hold.
//
// No contract can say what the system takes or gives. So a body that reads or writes nothing, or the wrong stream,
// or that answers `Absent` for every file, would be proved too: that these don't is shown by running them.
ghost use Rattle.std.specs.Prelude.{◌≡◌, None};
ghost use Rattle.std.specs.Io.{WritesAtMost};
ghost use Rattle.io_edge.specs.Host.{input_faults, stream_faults, stream_of, system_faults};

use crate::device::{Files, Sink, Source};
use crate::fault::{Failed, FaultCount, FileFault};
use std::alloc::Global;
use std::fs::File;
use std::io::{ErrorKind, Read, Write};
use std::{fs, io};

/// The greatest number of bytes of a file that is read.
const MAX_FILE_BYTES: u64 = (1 << 31) - 1;

/// Standard input.
#[derive(Drop)]
pub struct HostSource {
    runtime: HostRuntime,
    faults: FaultCount,
}

/// One of the two streams that a process writes to.
#[derive(Clone, Copy, Debug, PartialEq, Eq)]
pub enum OutputStream {
    /// Standard output.
    Output,
    /// Standard error.
    Error,
}

/// Standard output or standard error.
#[derive(Drop)]
pub struct HostSink {
    runtime: HostRuntime,
    stream: OutputStream,
    faults: FaultCount,
}

/// The file system.
#[derive(Drop)]
pub struct HostFiles {
    runtime: HostRuntime,
    faults: FaultCount,
}

impl HostSource {
    /// Standard input, which has not failed yet.
    pub fn new(runtime: HostRuntime) -> HostSource
        ensures { input_faults result ≡ 0 }
    {
        HostSource {
            runtime,
            faults: FaultCount::new(),
        }
    }
}

impl Source for HostSource {
    ghost faults = { input_faults };

    ghost left = { λ _. None };

    fn read(&mut self, buf: &mut [u8]) -> Result<usize, Failed> {
        match self.runtime.stdin().read(buf) {
            Ok(count) => Ok(count),
            Err(_) => Err(self.faults.fail()),
        }
    }
}

impl HostSink {
    /// The given stream, which has not failed yet.
    pub fn new(runtime: HostRuntime, stream: OutputStream) -> HostSink
        ensures faults { stream_faults result ≡ 0 }
        ensures stream { stream_of result ≡ stream }
    {
        HostSink {
            runtime,
            stream,
            faults: FaultCount::new(),
        }
    }

    /// One write by the system.
    fn write_some(&self, bytes: &[u8]) -> io::Result<usize>
        ensures { WritesAtMost result bytes.now }
    {
        match self.stream {
            OutputStream::Output => self.runtime.stdout().write(bytes),
            OutputStream::Error => self.runtime.stderr().write(bytes),
        }
    }
}

impl Sink for HostSink {
    ghost faults = { stream_faults };

    ghost written = { λ _. None };

    /// A write that takes none of the bytes is a fault too.
    fn write(&mut self, bytes: &[u8]) -> Result<usize, Failed> {
        match self.write_some(bytes) {
            Ok(count) if count > 0 || bytes.is_empty() => Ok(count),
            _ => Err(self.faults.fail()),
        }
    }
}

impl HostFiles {
    /// The file system, which has not failed yet.
    pub fn new(runtime: HostRuntime) -> HostFiles
        ensures { system_faults result ≡ 0 }
    {
        HostFiles {
            runtime,
            faults: FaultCount::new(),
        }
    }

    /// The bytes of a file that isn't too large.
    fn read_whole(&self, alloc: Global, name: &str) -> io::Result<Vec<u8>> {
        let mut file = Vec::new(alloc);
        let size = File::open(&self.runtime, name)?
            .take(MAX_FILE_BYTES + 1)
            .read_to_end(&mut file)?;
        if size as u64 > MAX_FILE_BYTES {
            return Err(io::Error::from(ErrorKind::FileTooLarge));
        }
        Ok(file)
    }
}

impl Files for HostFiles {
    ghost faults = { system_faults };

    ghost held = { λ _. None };

    /// A folder in the place of a file, and a file of more than 2^31 - 1 bytes, are faults too.
    fn get(&mut self, alloc: Global, name: &str) -> Result<Vec<u8>, FileFault> {
        let error = match self.read_whole(alloc, name) {
            Ok(file) => return Ok(file),
            Err(error) => error,
        };
        match error.kind() {
            ErrorKind::NotFound => Err(FileFault::Absent),
            ErrorKind::OutOfMemory => Err(FileFault::Memory),
            _ => Err(self.faults.fail().into()),
        }
    }

    fn put(&mut self, name: &str, bytes: &[u8]) -> Result<(), Failed> {
        match fs::write(&self.runtime, name, bytes) {
            Ok(()) => Ok(()),
            Err(_) => Err(self.faults.fail()),
        }
    }
}
