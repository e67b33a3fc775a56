// Calls of the program over devices in memory. The session that ran is let go in one function here, since each way out of a function that owns one has to let
// go all objects of a world, in a proof of its own.
use int_core::{Bytes, Numbers};
use io_edge::{Files, MemFiles, MemSink, MemSource};
use program::{SessionState, luaris};
use std::alloc::{AllocError, Global};
use std::process::Abort;
use std::test::Fail;

/// The bytes of the input, and which calls of each stream fail.
#[derive(Clone, Copy)]
pub(crate) struct Streams<'a> {
    pub input: &'a [u8],
    pub failing_input: &'a [u64],
    pub failing_out: &'a [u64],
    pub failing_err: &'a [u64],
}

impl<'a> Streams<'a> {
    /// Streams of which no call fails.
    pub(crate) fn of(input: &'a [u8]) -> Streams<'a> {
        Streams {
            input,
            failing_input: &[],
            failing_out: &[],
            failing_err: &[],
        }
    }
}

/// What a call answered and wrote, and the state of the session that ran.
#[derive(Drop)]
pub(crate) struct Outcome {
    pub status: u8,
    pub out: Vec<u8>,
    pub err: Vec<u8>,
    pub state: Option<SessionState>,
}

fn numbers(alloc: Global, calls: &[u64]) -> Result<Numbers, AllocError> {
    Ok(Numbers::of(calls.to_vec(alloc)?))
}

/// The arguments of a line, with a space between two of them.
fn words(alloc: Global, line: &str) -> Result<Vec<String>, AllocError> {
    let mut words = Vec::new(alloc);
    for word in line.split(' ') {
        words.push(String::from_str(alloc, word)?)?;
    }
    Ok(words)
}

/// Calls the program, and answers the status and the state of the session that ran.
fn answer(
    alloc: Global,
    words: &[String],
    files: &mut MemFiles,
    input: &mut MemSource,
    out: &mut MemSink,
    err: &mut MemSink,
) -> (u8, Option<SessionState>) {
    let mut last = None;
    let status = luaris(alloc, words, files, input, out, err, &mut last);
    let state = match &last {
        Some(session) => Some(session.state),
        None => None,
    };
    (status, state)
}

/// Calls the program with the arguments of a line.
pub(crate) fn call(
    alloc: Global,
    line: &str,
    files: &mut MemFiles,
    streams: &Streams<'_>,
) -> Result<Outcome, Fail> {
    let words = words(alloc, line)?;
    let mut input = MemSource::new(
        Bytes::of(streams.input.to_vec(alloc)?),
        numbers(alloc, streams.failing_input)?,
    );
    let mut out = MemSink::new(alloc, numbers(alloc, streams.failing_out)?);
    let mut err = MemSink::new(alloc, numbers(alloc, streams.failing_err)?);
    let (status, state) = answer(
        alloc,
        words.as_slice(),
        files,
        &mut input,
        &mut out,
        &mut err,
    );
    Ok(Outcome {
        status,
        out: out.written().to_vec(alloc)?,
        err: err.written().to_vec(alloc)?,
        state,
    })
}

/// Files of which one is there, and of which these calls fail, where the first one puts that file.
pub(crate) fn files_with(
    alloc: Global,
    name: &str,
    content: &[u8],
    failing: &[u64],
) -> Result<MemFiles, Fail> {
    let mut files = MemFiles::new(alloc, numbers(alloc, failing)?);
    files.put(name, content)?;
    Ok(files)
}

/// A copy of a file, which is empty where there is none.
pub(crate) fn copied(alloc: Global, files: &MemFiles, name: &str) -> Result<Vec<u8>, AllocError> {
    match files.file(name) {
        Some(bytes) => bytes.to_vec(alloc),
        None => Ok(Vec::new(alloc)),
    }
}

pub(crate) fn check(rt: &impl Abort, outcome: &Outcome, status: u8, out: &[u8], err: &str) {
    assert_eq!(rt; outcome.status, status);
    assert!(rt; outcome.out.as_slice() == out);
    assert!(rt; outcome.err.as_slice() == err.as_bytes());
}

/// Calls the program with the arguments of a line over such files, and looks at what it gives.
pub(crate) fn check_call(
    rt: &impl Abort,
    alloc: Global,
    line: &str,
    files: &mut MemFiles,
    streams: &Streams<'_>,
    wanted: (u8, &[u8], &str),
) -> Result<(), Fail> {
    let outcome = call(alloc, line, files, streams)?;
    check(rt, &outcome, wanted.0, wanted.1, wanted.2);
    Ok(())
}

/// Runs the script in `s.lua` over streams that do not fail, and looks at what the call gives.
pub(crate) fn check_run(
    rt: &impl Abort,
    alloc: Global,
    script: &[u8],
    input: &[u8],
    wanted: (u8, &[u8], &str),
) -> Result<(), Fail> {
    check_over(rt, alloc, "run s.lua", ("s.lua", script), input, wanted)
}

/// Calls the program over one file and streams that do not fail, and looks at what the call gives.
pub(crate) fn check_over(
    rt: &impl Abort,
    alloc: Global,
    line: &str,
    file: (&str, &[u8]),
    input: &[u8],
    wanted: (u8, &[u8], &str),
) -> Result<(), Fail> {
    let (name, content) = file;
    let mut files = files_with(alloc, name, content, &[])?;
    check_call(rt, alloc, line, &mut files, &Streams::of(input), wanted)
}
