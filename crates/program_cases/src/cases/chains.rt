// Scripts that are cut into sessions. Expected values are worked out by hand from the manual: those of the script that is not cut.
use crate::cases::calling::{Streams, call, files_with};
use std::alloc::Global;
use std::process::Abort;
use std::test::Fail;

/// A script, the lines of its sessions and what each of them writes, with `|` at each cut, and the status of the last one.
struct Chain {
    script: &'static str,
    lines: &'static str,
    out: &'static str,
    status: u8,
}

static CHAINS: [Chain; 9] = [
    Chain {
        script: "local n=0 local function bump() n=n+1 return n end local a=coroutine.wrap(function() while true do coroutine.yield(bump()) end end) while true do coroutine.yield(a(),n) end",
        lines: "x\n|y\n",
        out: "yield\t1\t1\nyield\t2\t2\n|yield\t3\t3\n",
        status: 3,
    },
    Chain {
        script: "local t={} t[t]=t coroutine.yield() print(t[t]==t)",
        lines: "|x\n",
        out: "yield\n|true\nreturn\n",
        status: 0,
    },
    Chain {
        script: "local t={a=1,b=2,c=3} for k in pairs(t) do t[k]=nil coroutine.yield(k) end",
        lines: "|x\n|x\n|x\n",
        out: "yield\ta\n|yield\tb\n|yield\tc\n|return\n",
        status: 0,
    },
    Chain {
        script: "print(pcall(function() local c <close> = setmetatable({},{__close=function(v,e) print(\"closed\",e) end}) coroutine.yield(\"in\") error(\"stop\",0) end))",
        lines: "|x\n",
        out: "yield\tin\n|closed\tstop\nfalse\tstop\nreturn\n",
        status: 0,
    },
    Chain {
        script: "local t=setmetatable({},{__index=function(t,k) return coroutine.yield(k) end}) print(t.color)",
        lines: "|red\n",
        out: "yield\tcolor\n|red\nreturn\n",
        status: 0,
    },
    Chain {
        script: "local room,bag=\"hall\",{} while true do local c=coroutine.yield(room..\": \"..#bag..\" items\") local v,o=c:match(\"^(%a+)%s*(.*)$\") if v==\"go\" then room=o elseif v==\"take\" then table.insert(bag,o) elseif v==\"quit\" then return table.concat(bag,\",\") end end",
        lines: "take lamp\ngo cellar\n|take rope\nquit\n",
        out: "yield\thall: 0 items\nyield\thall: 1 items\nyield\tcellar: 1 items\n|yield\tcellar: 2 items\nreturn\tlamp,rope\n",
        status: 0,
    },
    Chain {
        script: "local room,bag=\"hall\",{} while true do local c=coroutine.yield(room..\": \"..#bag..\" items\") local v,o=c:match(\"^(%a+)%s*(.*)$\") if v==\"go\" then room=o elseif v==\"take\" then table.insert(bag,o) elseif v==\"quit\" then return table.concat(bag,\",\") end end",
        lines: "|take lamp\n|go cellar\n|take rope\n|quit\n",
        out: "yield\thall: 0 items\n|yield\thall: 1 items\n|yield\tcellar: 1 items\n|yield\tcellar: 2 items\n|return\tlamp,rope\n",
        status: 0,
    },
    Chain {
        script: "local e={} local f=load(\"local n=0 x=coroutine.yield return function() n=n+1 return n end\",\"=f\",\"t\",setmetatable(e,{__index=_G}))() coroutine.yield(f()) print(f(),x==nil,e.x==coroutine.yield) print(load(\"return 1+\"..coroutine.yield())())",
        lines: "|a\n|41\n",
        out: "yield\t1\n|2\ttrue\ttrue\nyield\n|42\nreturn\n",
        status: 0,
    },
    Chain {
        script: "local l=coroutine.yield(1) error(\"no \"..l,0)",
        lines: "|x\n",
        out: "yield\t1\n|error\tno x\n",
        status: 1,
    },
];

/// The arguments of a session.
fn words_of(is_first: bool) -> &'static str {
    if is_first {
        "run s.lua --save img"
    } else {
        "resume img --save img"
    }
}

/// Runs the sessions of a script, each but the first from the image that the one before saved.
fn run_chain(rt: &impl Abort, alloc: Global, chain: &Chain) -> Result<(), Fail> {
    let mut files = files_with(alloc, "s.lua", chain.script.as_bytes(), &[])?;
    let mut is_first = true;
    let mut status = 3;
    for (lines, out) in chain.lines.split('|').zip(chain.out.split('|')) {
        assert_eq!(rt; status, 3);
        let outcome = call(
            alloc,
            words_of(is_first),
            &mut files,
            &Streams::of(lines.as_bytes()),
        )?;
        assert!(rt; outcome.out.as_slice() == out.as_bytes());
        status = outcome.status;
        is_first = false;
    }
    assert_eq!(rt; status, chain.status);
    Ok(())
}

#[test]
fn cuts_do_not_show(rt: HostRuntime) -> Result<(), Fail> {
    for chain in CHAINS.iter() {
        run_chain(&rt, rt.alloc(), chain)?;
    }
    Ok(())
}
