// Words that are no command, files that are not there, and work. Expected lines are those of the statuses.
use crate::cases::calling::{Streams, check_call, files_with};
use std::test::Fail;

/// Words that are no command.
static NO_COMMANDS: [&str; 26] = [
    "",
    "run",
    "walk s.lua",
    "run -s.lua",
    "run s.lua more",
    "run s.lua --strip",
    "run s.lua --budget",
    "run s.lua --budget 0",
    "run s.lua --budget=",
    "run s.lua --budget +5",
    "run s.lua --budget 0x5",
    "run s.lua --budget 1000000000000000",
    "run s.lua --budget 5 --budget 5",
    "run --budget -- s.lua",
    "run -- s.lua --budget 5",
    "check s.lua --budget 5",
    "compile s.lua c.luac --budget 5",
    "--budget 5 run s.lua",
    "work",
    "work 0",
    "work 10001",
    "work +3",
    "work 0000000000000003",
    "work 3 4",
    "work 3 --strip",
    "work --budget 5 3",
];

/// Commands over files that are not there.
static ABSENT: [&str; 4] = [
    "run gone.lua",
    "run --budget=5 gone.lua",
    "run gone.lua --budget 999999999999999",
    "run -- -s.lua",
];

#[test]
fn words_and_files_decide_before_the_source(rt: HostRuntime) -> Result<(), Fail> {
    let mut files = files_with(rt.alloc(), "s.lua", b"print(1)", &[])?;
    for line in NO_COMMANDS.iter().copied() {
        let wanted = (2, b"".as_slice(), "luaris: wrong words\n");
        check_call(&rt, rt.alloc(), line, &mut files, &Streams::of(b""), wanted)?;
    }
    for line in ABSENT.iter().copied() {
        let wanted = (11, b"".as_slice(), "luaris: no such file\n");
        check_call(&rt, rt.alloc(), line, &mut files, &Streams::of(b""), wanted)?;
    }
    Ok(())
}

/// Words that ask for work, and what is written: the sum of the numbers, the end of the script, and the numbers of its functions and of its bytes.
static WORKS: [(&str, &str); 5] = [
    ("work 3", "6\nreturn\nwork 3 166\n"),
    ("work -- 3", "6\nreturn\nwork 3 166\n"),
    ("work 1", "1\nreturn\nwork 1 68\n"),
    ("work 000000000000010", "55\nreturn\nwork 10 510\n"),
    ("work 10000", "50005000\nreturn\nwork 10000 518913\n"),
];

#[test]
fn work_is_done(rt: HostRuntime) -> Result<(), Fail> {
    let mut files = files_with(rt.alloc(), "s.lua", b"", &[])?;
    for (line, printed) in WORKS.iter().copied() {
        let wanted = (0, printed.as_bytes(), "");
        check_call(&rt, rt.alloc(), line, &mut files, &Streams::of(b""), wanted)?;
    }
    Ok(())
}
