//! The devices of a program: what it reads from, what it writes to, and its files, which fail only by counted faults.
#![tactic(auto)]

mod device;
mod fault;
mod host;
mod lines;
mod mem_files;
mod mem_sink;
mod mem_source;
mod output;
mod schedule;

pub use device::{Files, Sink, Source};
pub use fault::{Failed, FileFault};
pub use host::{HostFiles, HostSink, HostSource, OutputStream};
pub use lines::{LineFault, LineReader};
pub use mem_files::MemFiles;
pub use mem_sink::MemSink;
pub use mem_source::MemSource;
pub use output::write_all;
