// Runs on lines of input. Expected values are worked out by hand from the manual, and the limits on lines.
use crate::cases::calling::check_run;
use std::test::Fail;

/// A script in `s.lua`, the bytes of the input, and what the call gives.
struct Case {
    script: &'static str,
    input: &'static str,
    status: u8,
    out: &'static str,
}

/// Scripts that wait for lines.
static LINES: [Case; 10] = [
    Case {
        script: "local s=0 while true do local l=coroutine.yield(s) s=#l end",
        input: "ab\nc\n",
        status: 3,
        out: "yield\t0\nyield\t2\nyield\t1\n",
    },
    Case {
        script: "local s=0 while true do local l=coroutine.yield(s) s=#l end",
        input: "x\ny\nz\n",
        status: 3,
        out: "yield\t0\nyield\t1\nyield\t1\nyield\t1\n",
    },
    Case {
        script: "local s=0 while true do local l=coroutine.yield(s) s=#l end",
        input: "ab\n\nz",
        status: 3,
        out: "yield\t0\nyield\t2\nyield\t0\nyield\t1\n",
    },
    Case {
        script: "local s=0 while true do local l=coroutine.yield(s) s=#l end",
        input: "ab\r\n",
        status: 3,
        out: "yield\t0\nyield\t3\n",
    },
    Case {
        script: "local room,bag=\"hall\",{} while true do local c=coroutine.yield(room..\": \"..#bag..\" items\") local v,o=c:match(\"^(%a+)%s*(.*)$\") if v==\"go\" then room=o elseif v==\"take\" then table.insert(bag,o) elseif v==\"quit\" then return table.concat(bag,\",\") end end",
        input: "take lamp\ngo cellar\ntake rope\nquit\n",
        status: 0,
        out: "yield\thall: 0 items\nyield\thall: 1 items\nyield\tcellar: 1 items\nyield\tcellar: 2 items\nreturn\tlamp,rope\n",
    },
    Case {
        script: "local n=0 local function bump() n=n+1 return n end local a=coroutine.wrap(function() while true do coroutine.yield(bump()) end end) while true do coroutine.yield(a(),n) end",
        input: "x\ny\n",
        status: 3,
        out: "yield\t1\t1\nyield\t2\t2\nyield\t3\t3\n",
    },
    Case {
        script: "local t={} t[t]=t coroutine.yield() print(t[t]==t)",
        input: "x\n",
        status: 0,
        out: "yield\ntrue\nreturn\n",
    },
    Case {
        script: "local t={a=1,b=2,c=3} for k in pairs(t) do t[k]=nil coroutine.yield(k) end",
        input: "x\nx\nx\n",
        status: 0,
        out: "yield\ta\nyield\tb\nyield\tc\nreturn\n",
    },
    Case {
        script: "print(pcall(function() local c <close> = setmetatable({},{__close=function(v,e) print(\"closed\",e) end}) coroutine.yield(\"in\") error(\"stop\",0) end))",
        input: "x\n",
        status: 0,
        out: "yield\tin\nclosed\tstop\nfalse\tstop\nreturn\n",
    },
    Case {
        script: "local t=setmetatable({},{__index=function(t,k) return coroutine.yield(k) end}) print(t.color)",
        input: "red\n",
        status: 0,
        out: "yield\tcolor\nred\nreturn\n",
    },
];

#[test]
fn lines_are_handed_over(rt: HostRuntime) -> Result<(), Fail> {
    for case in LINES.iter() {
        let wanted = (case.status, case.out.as_bytes(), "");
        check_run(
            &rt,
            rt.alloc(),
            case.script.as_bytes(),
            case.input.as_bytes(),
            wanted,
        )?;
    }
    Ok(())
}

/// Yields the length of each line.
const LENGTHS: &[u8] = b"local s=0 while true do local l=coroutine.yield(s) s=#l end";

/// The length of a line, the status, and what is printed and told.
static LENGTHS_OF_LINES: [(usize, u8, &str, &str); 2] = [
    (1_048_576, 3, "yield\t0\nyield\t1048576\n", ""),
    (1_048_577, 7, "yield\t0\n", "luaris: input limit\n"),
];

#[test]
fn long_lines_are_refused(rt: HostRuntime) -> Result<(), Fail> {
    let alloc = rt.alloc();
    for (length, status, printed, told) in LENGTHS_OF_LINES.iter().copied() {
        let input = vec![in alloc; b'x'; length]?;
        let wanted = (status, printed.as_bytes(), told);
        check_run(&rt, alloc, LENGTHS, input.as_slice(), wanted)?;
    }
    Ok(())
}
