// Scripts that load sources while they run. Expected values are worked out by hand from the manual.
use crate::scripts::{Case, run_cases, run_printing};
use std::test::Fail;

/// Sources that are loaded while the script runs.
static LOADS: [(&str, &str); 14] = [
    ("print(load(\"return 1+1\")())", "2\nreturn\n"),
    (
        "print(load(\"x =\"))",
        "nil\t[string]:1: source refused\nreturn\n",
    ),
    (
        "local t={} load(\"x = 1\",\"=n\",\"t\",t)() print(t.x,x)",
        "1\tnil\nreturn\n",
    ),
    (
        "print(load(\"return 1\",\"n\",\"b\"))",
        "nil\tattempt to load a text chunk (mode is 'b')\nreturn\n",
    ),
    (
        "print(load(\"\\27Lua\"))",
        "nil\tbinary chunks are not loaded\nreturn\n",
    ),
    (
        "print((pcall(load)),(pcall(load,\"\",{})),(pcall(load(\"return x\",\"n\",\"t\",nil))))",
        "false\tfalse\tfalse\nreturn\n",
    ),
    (
        "local n=0 print(load(function() n=n+1 return ({\"return \",\"4\",\"2\"})[n] end)())",
        "42\nreturn\n",
    ),
    (
        "print(load(\"local x <const> = 1 x = 2\",\"@f.lua\"))",
        "nil\tf.lua:1: source refused by rule 1\nreturn\n",
    ),
    (
        "print(load(\"x = 1\\ny = = 2\"))",
        "nil\t[string]:2: source refused\nreturn\n",
    ),
    (
        "print(load(\"local a <foo> = 1\"))",
        "nil\t[string]:1: source refused by rule 7\nreturn\n",
    ),
    (
        "print(pcall(load(\"\\nlocal a = nil + 1\",\"=n\")))",
        "false\tn:2: attempt to perform arithmetic on a nil value\nreturn\n",
    ),
    (
        "x=1 local f=load(\"x=x+1 return x\") print(f(),f(),x)",
        "2\t3\t3\nreturn\n",
    ),
    (
        "print(load(57)) print(load(\"return ...\")(1,2))",
        "nil\t[string]:1: source refused\n1\t2\nreturn\n",
    ),
    (
        "print(load(string.rep(\" \",1048577)))",
        "nil\t[string]:1: source refused by rule 13\nreturn\n",
    ),
];

/// The same with input, or with a budget that is spent.
static LIMITED_LOADS: [Case; 2] = [
    Case {
        options: "",
        script: "print(load(\"return coroutine.yield(7)\")())",
        input: "a\n",
        status: 0,
        out: "yield\t7\na\nreturn\n",
        err: "",
    },
    Case {
        options: "--budget 3",
        script: "local f=load(\"while true do end\") f()",
        input: "",
        status: 4,
        out: "",
        err: "luaris: budget spent\n",
    },
];

#[test]
fn loaded_sources_run(rt: HostRuntime) -> Result<(), Fail> {
    let alloc = rt.alloc();
    run_printing(&rt, alloc, &LOADS)?;
    run_cases(&rt, alloc, &LIMITED_LOADS)
}
