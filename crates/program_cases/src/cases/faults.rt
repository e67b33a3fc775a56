// Devices that fail: what is told of it, and what was written before.
use crate::cases::calling::{Streams, check_call, files_with};
use std::test::Fail;

/// Yields the length of each line.
const LENGTHS: &str = "local s=0 while true do local l=coroutine.yield(s) s=#l end";

/// What is told of a device that fails.
const TOLD: &str = "luaris: device fault\n";

/// Words, the text of `s.lua`, the calls of the files, the input, the output and standard error that fail, the status, and what is written. The first call of
/// the files puts the script.
static FAULTS: [(&str, &str, [u64; 4], u8, &str, &str); 11] = [
    ("run s.lua", "print(1)", [9, 0, 9, 9], 0, "1\nreturn\n", ""),
    ("run s.lua", "print(1)", [1, 0, 9, 9], 6, "", TOLD),
    ("run s.lua", "print(1)", [9, 0, 0, 9], 6, "", TOLD),
    ("run s.lua", "print(1)", [1, 0, 9, 0], 6, "", ""),
    ("work 3", "", [9, 9, 0, 9], 6, "", TOLD),
    ("work 3", "", [9, 9, 1, 9], 6, "6\nreturn\n", TOLD),
    (
        "run s.lua",
        "x",
        [9, 9, 9, 1],
        5,
        "",
        "luaris: source refused at line ",
    ),
    (
        "run s.lua",
        "x",
        [9, 9, 9, 2],
        5,
        "",
        "luaris: source refused at line 1",
    ),
    ("run s.lua", LENGTHS, [9, 0, 9, 9], 6, "yield\t0\n", TOLD),
    ("run s.lua", LENGTHS, [9, 9, 0, 9], 6, "", TOLD),
    ("run s.lua", LENGTHS, [9, 9, 1, 9], 6, "yield\t0\n", TOLD),
];

#[test]
fn failing_devices_are_told(rt: HostRuntime) -> Result<(), Fail> {
    for (line, script, failing, status, printed, told) in FAULTS.iter().copied() {
        let [files_call, input_call, out_call, err_call] = failing;
        let mut files = files_with(rt.alloc(), "s.lua", script.as_bytes(), &[files_call])?;
        let streams = Streams {
            input: b"ab\nc\n",
            failing_input: &[input_call],
            failing_out: &[out_call],
            failing_err: &[err_call],
        };
        let wanted = (status, printed.as_bytes(), told);
        check_call(&rt, rt.alloc(), line, &mut files, &streams, wanted)?;
    }
    Ok(())
}
