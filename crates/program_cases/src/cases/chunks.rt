// Chunks that are checked, made and run. The expected chunk is that of stock luac.
use crate::cases::calling::{Streams, check_call, check_over, copied, files_with};
use io_edge::Files;
use std::alloc::{AllocError, Global};
use std::process::Abort;
use std::test::Fail;

/// The chunk that luac writes for `print("hi")` with its debug information stripped.
const PRINT_HI: [u8; 80] = [
    0x1b, 0x4c, 0x75, 0x61, 0x54, 0x00, 0x19, 0x93, 0x0d, 0x0a, 0x1a, 0x0a, 0x04, 0x08, 0x08, 0x78,
    0x56, 0x00, 0x00, 0x00, 0x00, 0x00, 0x00, 0x00, 0x00, 0x00, 0x00, 0x00, 0x28, 0x77, 0x40, 0x01,
    0x80, 0x80, 0x80, 0x00, 0x01, 0x02, 0x85, 0x51, 0x00, 0x00, 0x00, 0x0b, 0x00, 0x00, 0x00, 0x83,
    0x80, 0x00, 0x00, 0x44, 0x00, 0x02, 0x01, 0x46, 0x00, 0x01, 0x01, 0x82, 0x04, 0x86, 0x70, 0x72,
    0x69, 0x6e, 0x74, 0x04, 0x83, 0x68, 0x69, 0x81, 0x01, 0x00, 0x00, 0x80, 0x80, 0x80, 0x80, 0x80,
];

/// A place in the chunk, four bytes for it, and why the chunk is refused then.
static REFUSED: [(usize, [u8; 4], &str); 4] = [
    (4, [0x53, 0x00, 0x19, 0x93], "kind 2"),
    (47, [0x26, 0x00, 0x00, 0x00], "rule 2 at function 0 pc 2"),
    (47, [0x83, 0x80, 0x02, 0x00], "rule 4 at function 0 pc 2"),
    (55, [0x83, 0x80, 0x00, 0x00], "rule 9 at function 0 pc 4"),
];

/// That chunk with other bytes at a place.
fn altered(alloc: Global, place: usize, bytes: [u8; 4]) -> Result<Vec<u8>, AllocError> {
    let mut chunk = PRINT_HI.to_vec(alloc)?;
    for (there, byte) in chunk.iter_mut().skip(place).zip(bytes) {
        *there = byte;
    }
    Ok(chunk)
}

/// Checks a chunk, and looks at what the call gives.
fn check_chunk(
    rt: &impl Abort,
    alloc: Global,
    chunk: &[u8],
    wanted: (u8, &[u8], &str),
) -> Result<(), Fail> {
    check_over(rt, alloc, "check c.luac", ("c.luac", chunk), b"", wanted)
}

/// The line of a chunk that is refused.
fn refusal(alloc: Global, why: &str) -> Result<String, AllocError> {
    format!(in alloc; "luaris: chunk refused: {why}\n")
}

#[test]
fn chunks_are_checked(rt: HostRuntime) -> Result<(), Fail> {
    let alloc = rt.alloc();
    for (place, bytes, why) in REFUSED.iter().copied() {
        let chunk = altered(alloc, place, bytes)?;
        let told = refusal(alloc, why)?;
        check_chunk(&rt, alloc, chunk.as_slice(), (8, b"", told.as_str()))?;
    }
    check_chunk(&rt, alloc, &PRINT_HI, (0, b"ok 1 5\n", ""))?;
    let mut longer = PRINT_HI.to_vec(alloc)?;
    longer.push(0)?;
    check_chunk(&rt, alloc, longer.as_slice(), (0, b"ok 1 5\n", ""))
}

/// Compiles `s.lua` into `c.luac`, which has to be this chunk then.
fn check_compiled(
    rt: &impl Abort,
    alloc: Global,
    line: &str,
    script: &[u8],
    chunk: &[u8],
) -> Result<(), Fail> {
    let mut files = files_with(alloc, "s.lua", script, &[])?;
    check_call(rt, alloc, line, &mut files, &Streams::of(b""), (0, b"", ""))?;
    assert!(rt; files.file("c.luac") == Some(chunk));
    Ok(())
}

/// Words and the text of `s.lua`, of which each makes the chunk of luac.
static COMPILED: [(&str, &str); 4] = [
    ("compile s.lua c.luac --strip", "print('hi')"),
    ("compile --strip s.lua c.luac", "print('hi')"),
    ("compile s.lua --strip c.luac", "print('hi')"),
    (
        "compile s.lua c.luac --strip",
        "#!/usr/bin/env luaris\nprint('hi')",
    ),
];

#[test]
fn scripts_are_compiled(rt: HostRuntime) -> Result<(), Fail> {
    for (line, script) in COMPILED.iter().copied() {
        check_compiled(&rt, rt.alloc(), line, script.as_bytes(), &PRINT_HI)?;
    }
    Ok(())
}

/// Words, the status, and what is told, where `s.lua` breaks a rule.
static NOT_COMPILED: [(&str, u8, &str); 6] = [
    (
        "compile s.lua c.luac",
        5,
        "luaris: source refused by rule 5 at line 2\n",
    ),
    ("compile s.lua", 2, "luaris: wrong words\n"),
    ("compile --strip s.lua", 2, "luaris: wrong words\n"),
    ("compile s.lua c.luac more", 2, "luaris: wrong words\n"),
    ("compile s.lua -c", 2, "luaris: wrong words\n"),
    ("compile gone.lua c.luac", 11, "luaris: no such file\n"),
];

#[test]
fn what_is_not_compiled_is_told(rt: HostRuntime) -> Result<(), Fail> {
    let alloc = rt.alloc();
    let mut files = files_with(alloc, "s.lua", b"local x\nbreak", &[])?;
    for (line, status, told) in NOT_COMPILED.iter().copied() {
        let wanted = (status, b"".as_slice(), told);
        check_call(&rt, alloc, line, &mut files, &Streams::of(b""), wanted)?;
        assert!(rt; files.file("c.luac").is_none());
    }
    Ok(())
}

#[test]
fn a_chunk_that_is_not_put_is_told(rt: HostRuntime) -> Result<(), Fail> {
    // The calls of the files are: to put the script, to get it, and to put the chunk.
    let mut files = files_with(rt.alloc(), "s.lua", b"print('hi')", &[2])?;
    let line = "compile s.lua c.luac";
    let wanted = (6, b"".as_slice(), "luaris: device fault\n");
    check_call(&rt, rt.alloc(), line, &mut files, &Streams::of(b""), wanted)
}

/// Words that compile, the text of `s.lua`, and the status and the output of what runs the chunk.
static RUN: [(&str, &str, u8, &str); 3] = [
    (
        "compile s.lua o --strip",
        "print(\"hi\")",
        0,
        "hi\nreturn\n",
    ),
    (
        "compile s.lua o",
        "local x = nil + 1",
        1,
        "error\ts.lua:1: attempt to perform arithmetic on a nil value\n",
    ),
    (
        "compile s.lua o --strip",
        "local x = nil + 1",
        1,
        "error\tattempt to perform arithmetic on a nil value\n",
    ),
];

#[test]
fn chunks_run(rt: HostRuntime) -> Result<(), Fail> {
    let compiled = (0, b"".as_slice(), "");
    let alloc = rt.alloc();
    for (line, script, status, printed) in RUN.iter().copied() {
        let mut files = files_with(alloc, "s.lua", script.as_bytes(), &[])?;
        check_call(&rt, alloc, line, &mut files, &Streams::of(b""), compiled)?;
        let wanted = (status, printed.as_bytes(), "");
        check_call(&rt, alloc, "run o", &mut files, &Streams::of(b""), wanted)?;
    }
    Ok(())
}

/// Checks a chunk with the names and lines of its script, and runs one of another version.
fn check_and_run(rt: &impl Abort, alloc: Global) -> Result<(), Fail> {
    let mut files = files_with(alloc, "s.lua", b"print('hi')", &[])?;
    let (none, made) = (Streams::of(b""), (0, b"".as_slice(), ""));
    check_call(rt, alloc, "compile s.lua o", &mut files, &none, made)?;
    let counts = (0, b"ok 1 5\n".as_slice(), "");
    check_call(rt, alloc, "check o", &mut files, &none, counts)?;
    let mut chunk = copied(alloc, &files, "o")?;
    if let Some(version) = chunk.get_mut(4) {
        *version = 0x53;
    }
    files.put("o", chunk.as_slice())?;
    let refused = (8, b"".as_slice(), "luaris: chunk refused: kind 2\n");
    check_call(rt, alloc, "run o", &mut files, &none, refused)
}

#[test]
fn chunks_with_names_are_checked_and_refused_ones_do_not_run(rt: HostRuntime) -> Result<(), Fail> {
    check_and_run(&rt, rt.alloc())
}
