//! Lua 5.4 whose suspended scripts survive on disk: the program over the system's files and streams.
#![tactic(auto)]

mod words;

use io_edge::{HostFiles, HostSink, HostSource, OutputStream};
use program::{luaris, report};
use std::mem::forget;
use std::process::ExitCode;

/// Runs the program over the system's files and streams.
fn main(rt: HostRuntime) -> ExitCode {
    let mut err = HostSink::new(rt, OutputStream::Error);
    let words = match words::program_words(&rt) {
        Ok(words) => words,
        Err(fault) => {
            let _ = report(&mut err, &fault);
            return ExitCode::from(fault.status());
        }
    };
    let mut files = HostFiles::new(rt);
    let mut input = HostSource::new(rt);
    let mut out = HostSink::new(rt, OutputStream::Output);
    let mut last = None;
    let status = luaris(
        rt.alloc(),
        words.as_slice(),
        &mut files,
        &mut input,
        &mut out,
        &mut err,
        &mut last,
    );
    // The program ends here, and the system takes the session's memory back as a whole: giving back each table and each string takes up to a fifth of the time of a
    // script.
    forget(last);
    ExitCode::from(status)
}
