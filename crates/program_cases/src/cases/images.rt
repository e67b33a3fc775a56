// Images that are saved, and images that are altered. Expected values are worked out by hand from the format of images.
use crate::cases::calling::{Streams, call, check_call, copied, files_with};
use io_edge::Files;
use program::SessionState;
use std::alloc::Global;
use std::process::Abort;
use std::test::Fail;

/// Counts in a coroutine, whose upvalue the main coroutine shows.
const COUNTING: &[u8] =
    b"local n=0 local function bump() n=n+1 return n end local a=coroutine.wrap(function() while true do coroutine.yield(bump()) end end) while true do coroutine.yield(a(),n) end";

/// Yields the length of each line.
const LENGTHS: &[u8] = b"local s=0 while true do local l=coroutine.yield(s) s=#l end";

/// The image of the script that counts, saved after one line.
fn counting_image(alloc: Global) -> Result<Vec<u8>, Fail> {
    let mut files = files_with(alloc, "s.lua", COUNTING, &[])?;
    call(
        alloc,
        "run s.lua --save img",
        &mut files,
        &Streams::of(b"x\n"),
    )?;
    Ok(copied(alloc, &files, "img")?)
}

#[test]
fn no_line_leaves_the_image(rt: HostRuntime) -> Result<(), Fail> {
    let alloc = rt.alloc();
    let image = counting_image(alloc)?;
    assert!(rt; !image.is_empty());
    let mut files = files_with(alloc, "img", image.as_slice(), &[])?;
    let (line, wanted) = ("resume img --save other", (3, b"".as_slice(), ""));
    check_call(&rt, alloc, line, &mut files, &Streams::of(b""), wanted)?;
    assert!(rt; files.file("other") == Some(image.as_slice()));
    Ok(())
}

/// Words, the input and what is printed, of sessions that leave one script in the same state.
static SAME_STATE: [(&str, &str, &str); 2] = [
    (
        "run s.lua --save a",
        "ab\nc\n",
        "yield\t0\nyield\t2\nyield\t1\n",
    ),
    (
        "run s.lua --save=b",
        "x\ny\nz\n",
        "yield\t0\nyield\t1\nyield\t1\nyield\t1\n",
    ),
];

#[test]
fn an_image_tells_the_state_and_not_the_lines(rt: HostRuntime) -> Result<(), Fail> {
    let alloc = rt.alloc();
    let mut files = files_with(alloc, "s.lua", LENGTHS, &[])?;
    for (line, input, printed) in SAME_STATE.iter().copied() {
        let wanted = (3, printed.as_bytes(), "");
        let streams = Streams::of(input.as_bytes());
        check_call(&rt, alloc, line, &mut files, &streams, wanted)?;
    }
    assert!(rt; files.file("a").is_some());
    assert!(rt; files.file("a") == files.file("b"));
    Ok(())
}

/// Resumes from these bytes, which have to be refused so.
fn refused(rt: &impl Abort, alloc: Global, image: &[u8], told: &str) -> Result<(), Fail> {
    let mut files = files_with(alloc, "img", image, &[])?;
    let (line, wanted) = ("resume img --save img", (8, b"".as_slice(), told));
    check_call(rt, alloc, line, &mut files, &Streams::of(b"y\n"), wanted)?;
    assert!(rt; files.file("img") == Some(image));
    Ok(())
}

#[test]
fn altered_images_are_refused(rt: HostRuntime) -> Result<(), Fail> {
    let alloc = rt.alloc();
    let mut image = counting_image(alloc)?;
    for length in 0..image.len() {
        let told = "luaris: image refused: kind 3\n";
        refused(&rt, alloc, &image[..length], told)?;
    }
    image.push(0)?;
    let told = "luaris: image refused: kind 10\n";
    refused(&rt, alloc, image.as_slice(), told)?;
    if let Some(first) = image.get_mut(0) {
        *first = 0x4d;
    }
    let told = "luaris: image refused: kind 1\n";
    refused(&rt, alloc, image.as_slice(), told)
}

/// The input, and the calls of the files and of the output that fail. The calls of the files are: to put the script, to get it, and to put the image.
static FAILING: [(&str, u64, u64); 2] = [("x\n", 9, 1), ("", 2, 9)];

#[test]
fn failing_devices_save_nothing(rt: HostRuntime) -> Result<(), Fail> {
    let alloc = rt.alloc();
    for (input, files_call, out_call) in FAILING.iter().copied() {
        let mut files = files_with(alloc, "s.lua", COUNTING, &[files_call])?;
        let streams = Streams {
            input: input.as_bytes(),
            failing_input: &[],
            failing_out: &[out_call],
            failing_err: &[],
        };
        let wanted = (6, b"yield\t1\t1\n".as_slice(), "luaris: device fault\n");
        let line = "run s.lua --save img";
        check_call(&rt, alloc, line, &mut files, &streams, wanted)?;
        assert!(rt; files.file("img").is_none());
    }
    Ok(())
}

/// Words, the status, the output and the line on standard error, where `s.lua` returns and there is no image.
static CALLS: [(&str, u8, &str, &str); 6] = [
    ("run s.lua --save img", 0, "return\n", ""),
    ("resume img", 11, "", "luaris: no such file\n"),
    ("resume s.lua", 8, "", "luaris: image refused: kind 1\n"),
    ("run s.lua --save", 2, "", "luaris: wrong words\n"),
    ("run s.lua --save=", 2, "", "luaris: wrong words\n"),
    ("check s.lua --save img", 2, "", "luaris: wrong words\n"),
];

#[test]
fn nothing_is_saved_at_another_ending(rt: HostRuntime) -> Result<(), Fail> {
    let alloc = rt.alloc();
    let mut files = files_with(alloc, "s.lua", b"--  ", &[])?;
    for (line, status, out, told) in CALLS.iter().copied() {
        let wanted = (status, out.as_bytes(), told);
        check_call(&rt, alloc, line, &mut files, &Streams::of(b"x\n"), wanted)?;
        assert!(rt; files.file("img").is_none());
    }
    Ok(())
}

/// Words, the text of `s.lua`, the status, and the state of the session that is handed back.
static ENDINGS: [(&str, &str, u8, Option<SessionState>); 7] = [
    (
        "run s.lua",
        "coroutine.yield()",
        3,
        Some(SessionState::Suspended),
    ),
    (
        "run s.lua --save img",
        "coroutine.yield()",
        3,
        Some(SessionState::Suspended),
    ),
    ("run s.lua --save img", "", 0, Some(SessionState::Ended)),
    ("run s.lua", "error()", 1, Some(SessionState::Ended)),
    (
        "run s.lua --budget 9",
        "while true do end",
        4,
        Some(SessionState::Ended),
    ),
    ("run", "", 2, None),
    ("run s.lua", "$", 5, None),
];

#[test]
fn the_session_that_ran_is_handed_back(rt: HostRuntime) -> Result<(), Fail> {
    let alloc = rt.alloc();
    for (line, script, status, state) in ENDINGS.iter().copied() {
        let mut files = files_with(alloc, "s.lua", script.as_bytes(), &[])?;
        let outcome = call(alloc, line, &mut files, &Streams::of(b""))?;
        assert_eq!(rt; outcome.status, status);
        assert!(rt; outcome.state == state);
    }
    Ok(())
}
