// Whole scripts. Expected values are worked out by hand from the manual, and the costs of calls and jumps.
use int_core::{Bytes, Numbers};
use io_edge::{Files, MemFiles, MemSink, MemSource};
use program::luaris;
use std::alloc::Global;
use std::process::Abort;
use std::test::Fail;

/// A script in `s.lua`, the options of the call, the bytes of the input, and what the call gives.
#[derive(Clone, Copy)]
pub(crate) struct Case {
    pub options: &'static str,
    pub script: &'static str,
    pub input: &'static str,
    pub status: u8,
    pub out: &'static str,
    pub err: &'static str,
}

fn no_failures(alloc: Global) -> Numbers {
    Numbers::of(Vec::new(alloc))
}

/// The arguments that run `s.lua` with these options.
fn words(alloc: Global, options: &str) -> Result<Vec<String>, Fail> {
    let mut words = Vec::new(alloc);
    words.push(String::from_str(alloc, "run")?)?;
    words.push(String::from_str(alloc, "s.lua")?)?;
    for word in options.split_whitespace() {
        words.push(String::from_str(alloc, word)?)?;
    }
    Ok(words)
}

/// Runs a script, and looks at what the call gives.
fn run_case(rt: &impl Abort, alloc: Global, case: &Case) -> Result<(), Fail> {
    let mut files = MemFiles::new(alloc, no_failures(alloc));
    files.put("s.lua", case.script.as_bytes())?;
    let bytes = Bytes::of(case.input.as_bytes().to_vec(alloc)?);
    let mut input = MemSource::new(bytes, no_failures(alloc));
    let mut out = MemSink::new(alloc, no_failures(alloc));
    let mut err = MemSink::new(alloc, no_failures(alloc));
    let words = words(alloc, case.options)?;
    let mut last = None;
    let status = luaris(
        alloc, &words, &mut files, &mut input, &mut out, &mut err, &mut last,
    );
    assert_eq!(rt; status, case.status);
    assert!(rt; out.written() == case.out.as_bytes());
    assert!(rt; err.written() == case.err.as_bytes());
    Ok(())
}

/// Runs each of these scripts.
pub(crate) fn run_cases(rt: &impl Abort, alloc: Global, cases: &[Case]) -> Result<(), Fail> {
    for case in cases.iter() {
        run_case(rt, alloc, case)?;
    }
    Ok(())
}

/// Runs scripts without options and input, each of which returns and prints this.
pub(crate) fn run_printing(
    rt: &impl Abort,
    alloc: Global,
    scripts: &[(&'static str, &'static str)],
) -> Result<(), Fail> {
    for (script, out) in scripts.iter() {
        run_case(rt, alloc, &budgeted("", *script, Some(*out)))?;
    }
    Ok(())
}

/// The case of a script that returns and prints this, or spends its budget before it prints.
fn budgeted(options: &'static str, script: &'static str, out: Option<&'static str>) -> Case {
    let (status, out, err) = match out {
        Some(out) => (0, out, ""),
        None => (4, "", "luaris: budget spent\n"),
    };
    Case {
        options,
        script,
        input: "",
        status,
        out,
        err,
    }
}

/// Expressions and statements.
static SIMPLE: [(&str, &str); 7] = [
    ("", "return\n"),
    ("-- nothing\n", "return\n"),
    ("print(7//-2, 7%-2, -7//2)", "-4\t-1\t-4\nreturn\n"),
    (
        "print(9223372036854775807+1)",
        "-9223372036854775808\nreturn\n",
    ),
    (
        "local s=0 for i=1,4 do if i%2==0 then s=s+i end end return s",
        "return\t6\n",
    ),
    (
        "print(\"10\"+5,3 ..\"x\",#\"abc\",({4,5,6})[2])",
        "15\t3x\t3\t5\nreturn\n",
    ),
    ("local x = 6 local y = x * 7 print(y - x)", "36\nreturn\n"),
];

/// Calls and jumps back that a budget allows, and one more.
static BUDGETS: [(&str, &str, Option<&str>); 15] = [
    ("--budget 3", "while true do end", None),
    ("--budget 3", "for i=1,4 do end", Some("return\n")),
    ("--budget=3", "for i=1,5 do end", None),
    (
        "--budget 5",
        "for k in pairs({a=1}) do end",
        Some("return\n"),
    ),
    ("--budget 4", "for k in pairs({a=1}) do end", None),
    (
        "--budget 2",
        "local function f() end f() f()",
        Some("return\n"),
    ),
    ("--budget 1", "local function f() end f() f()", None),
    (
        "--budget 2",
        "local n=0 ::top:: n=n+1 if n<3 then goto top end return n",
        Some("return\t3\n"),
    ),
    (
        "--budget 1",
        "local n=0 ::top:: n=n+1 if n<3 then goto top end return n",
        None,
    ),
    (
        "--budget 5",
        "local function it(s,c) if c<s then return c+1 end end for i in it,2,0 do end",
        Some("return\n"),
    ),
    (
        "--budget 4",
        "local function it(s,c) if c<s then return c+1 end end for i in it,2,0 do end",
        None,
    ),
    (
        "--budget 2",
        "local function f(...) local a=... return a end f(1) f()",
        Some("return\n"),
    ),
    (
        "--budget 1",
        "local function f(...) local a=... return a end f(1) f()",
        None,
    ),
    (
        "--budget 2",
        "for i=1,3 do local t={i} end",
        Some("return\n"),
    ),
    ("--budget 1", "for i=1,3 do local t={i} end", None),
];

/// Turns, each of which has the whole budget.
static TURNS: [Case; 2] = [
    Case {
        options: "--budget 4",
        script: "while true do coroutine.yield() for i=1,3 do end end",
        input: "a\nb\n",
        status: 3,
        out: "yield\nyield\nyield\n",
        err: "",
    },
    Case {
        options: "--budget 3",
        script: "while true do coroutine.yield() for i=1,3 do end end",
        input: "a\nb\n",
        status: 4,
        out: "yield\n",
        err: "luaris: budget spent\n",
    },
];

/// Sources that are refused.
static REFUSALS: [Case; 3] = [
    Case {
        options: "",
        script: "print(1/2)",
        input: "",
        status: 5,
        out: "",
        err: "luaris: source refused at line 1\n",
    },
    Case {
        options: "",
        script: "do goto x local a ::x:: print(a) end",
        input: "",
        status: 5,
        out: "",
        err: "luaris: source refused by rule 4 at line 1\n",
    },
    Case {
        options: "",
        script: "local x <const> = 1 x = 2",
        input: "",
        status: 5,
        out: "",
        err: "luaris: source refused by rule 1 at line 1\n",
    },
];

/// Functions, their variables, arguments and results.
static FUNCTIONS: [(&str, &str); 12] = [
    (
        "local f={} for i=1,3 do if i==2 then goto continue end f[#f+1]=function() i=i+1 return i end ::continue:: end print(f[1](),f[1](),f[2]())",
        "2\t3\t4\nreturn\n",
    ),
    (
        "local function fact(n) if n<2 then return 1 end return n*fact(n-1) end print(fact(20))",
        "2432902008176640000\nreturn\n",
    ),
    (
        "local function two(...) return ... end print((two(1,2)),two(3,4))",
        "1\t3\t4\nreturn\n",
    ),
    (
        "local function mk() local n=0 return function() n=n+1 return n end,function() return n end end local a,b=mk() a() a() print(b())",
        "2\nreturn\n",
    ),
    (
        "local a=1 local function f() a=10 return 1 end print(a+f())",
        "2\nreturn\n",
    ),
    (
        "local function it(s,c) if c<s then return c+1 end end for i in it,3,0 do print(i) end",
        "1\n2\n3\nreturn\n",
    ),
    (
        "local function one(...) local a=... return a end local function two(...) local a,b=... return a,b end local function three(x,...) local a,b,c=... return x,a,b,c end print(one(),one(1,2),two(),two(1),(two(1,2))) print(two(1,2,3)) print(three(0,1,2),three(0,1,2,3,4))",
        "nil\t1\tnil\t1\t1\n1\t2\n0\t0\t1\t2\t3\nreturn\n",
    ),
    (
        "local function it(s,c) c=c+1 if c<=s then return c,c*c,c+s end end for i,q in it,2,0 do print(i,q) end for i,q,r in it,1,0 do print(i,q,r) end local n=0 for i in function(...) n=n+1 if n<3 then return select('#',...) end end do print(i) end",
        "1\t1\n2\t4\n1\t1\t2\n2\n2\nreturn\n",
    ),
    (
        "local f={} local function it(s,c) if c<s then return c+1 end end for i in it,3,0 do f[i]=function() i=i+1 return i end end print(f[1](),f[1](),f[3]()) print(pcall(function() for i in function() error(\"stop\",0) end do end end)) local function y(s,c) return coroutine.yield(c) end local co=coroutine.wrap(function() for i in y,nil,0 do print(i) end return \"end\" end) print(co(),co(5),co())",
        "2\t3\t4\nfalse\tstop\n5\n0\t5\tend\nreturn\n",
    ),
    (
        "local function it(s,c) if c<s then return c+1 end end for i in it,3,0,setmetatable({},{__close=function() print(\"closed\") end}) do if i==2 then break end print(i) end for i in setmetatable({},{__call=function(o,s,c) if c<2 then return c+1 end end}),nil,0 do print(i) end print(pcall(function() for i in 5 do end end))",
        "1\nclosed\n1\n2\nfalse\ts.lua:1: attempt to call a number value\nreturn\n",
    ),
    (
        "local a,b,c,d=1,2,3,4 local function sum(n) local s=0 for i=1,n do s=s+a+b+c+d+a end return s end print(sum(3)) local function bump() a=a+1 end local function both(n) local s=0 for i=1,n do s=s+a+b if i%2==0 then bump() end s=s+a end return s end print(both(4)) a=10 print(sum(2),both(1)) local n=0 local function count(k) for i=1,k do n=n+i if n>5 then n=n-1 end end return n end print(count(4),n)",
        "33\n22\n58\t22\n8\t8\nreturn\n",
    ),
    (
        "local x,y=1,2 local co=coroutine.wrap(function() local z=3 local function own() local s=0 for i=1,3 do s=s+x+y+z end return s end for i=1,3 do x=x+i coroutine.yield(x,own()) z=z+1 end end) print(co()) y=20 print(co()) x=100 print(co()) local t={} for i=1,4 do local j=i*2 if i%2==0 then t[#t+1]=function() j=j+1 return j end end end print(t[1](),t[1](),t[2]()) local function deep(n) local s=0 for i=1,n do s=s+x+y if i==2 and n>2 then s=s+deep(n-1) x=x-1 end end return s end print(deep(4),x)",
        "2\t21\n4\t84\n103\t384\n5\t6\t9\n1102\t101\nreturn\n",
    ),
];

/// Tables and metatables.
static TABLES: [(&str, &str); 12] = [
    ("local t={1,2,nil,4} print(#t,next({}))", "2\tnil\nreturn\n"),
    (
        "print(pcall(function() local a <close> = setmetatable({},{__close=function(v,e) print(\"a\",e) end}) local b <close> = setmetatable({},{__close=function() error(\"two\",0) end}) error(\"one\",0) end))",
        "a\ttwo\nfalse\ttwo\nreturn\n",
    ),
    (
        "local v=setmetatable({x=1},{__add=function(a,b) return a.x+b.x end,__index=function(t,k) return k..\"!\" end,__call=function(s,n) return n*2 end}) print(v+v,v.y,v(21))",
        "2\ty!\t42\nreturn\n",
    ),
    (
        "local A={f=1} A.__index=A local B=setmetatable({g=2},A) B.__index=B local o=setmetatable({},B) print(o.f,o.g,o.h,o['f'],rawget(o,'f')) o.f=3 print(o.f,A.f) function A:m(n) return self.f+n end print(o:m(4))",
        "1\t2\tnil\t1\tnil\n3\t1\n7\nreturn\n",
    ),
    (
        "local log={} local o=setmetatable({},{__index=function(t,k) return end,__newindex=function(t,k,v) log[#log+1]=k..v return 1,2 end}) print(o.a,o[1]) o.b=2 o[3]=4 print(table.concat(log,',')) local s=0 local p=setmetatable({},{__index=function(_,k) return k*k end}) for i=1,5 do s=s+p[i] end print(s)",
        "nil\tnil\nb2,34\n55\nreturn\n",
    ),
    (
        "local P=setmetatable({},{__index=function(_,k) error(\"no \"..k,0) end}) print(pcall(function() return P.x end)) local co=coroutine.wrap(function(t) return t.k+1 end) local Q=setmetatable({},{__index=function(_,k) return coroutine.yield(k) end}) print(co(Q)) print(co(41)) local n=setmetatable({},{__unm=function() return 7 end,__add=function(a,b) return \"sum\",2 end}) print(-n,n+1,1+n)",
        "false\tno x\nk\n42\n7\tsum\tsum\nreturn\n",
    ),
    (
        "print(tostring(setmetatable({},{__name=\"room\"})),select(-1,1,2,3),tonumber(\"ff\",16))",
        "room: object\t3\t255\nreturn\n",
    ),
    (
        "local t={3,1,2} table.sort(t) print(table.concat(t,\",\"),math.abs(-4),math.tointeger(\"x\"))",
        "1,2,3\t4\tnil\nreturn\n",
    ),
    (
        "local a=1 local m=setmetatable({},{__add=function() a=10 return 1 end}) print(a+(m+1))",
        "2\nreturn\n",
    ),
    (
        "local t={} for i=1,200000 do t[#t+1]=i end print(#t,t[200000])",
        "200000\t200000\nreturn\n",
    ),
    (
        "local t={1,2,3} t[2]=nil print(#t) t[2]=5 print(#t) for k in next,t do print(k) end",
        "1\n3\n1\n2\n3\nreturn\n",
    ),
    (
        "print(1 ..2 ..3,\"a\"..-1 ..\"b\"..\"\"..0) local m=setmetatable({},{__concat=function(a,b) local s=type(a)==\"table\" and \"T\" or a local t=type(b)==\"table\" and \"T\" or b return \"(\"..s..t..\")\" end}) print(\"a\"..1 ..m..\"b\"..\"c\",m..\"x\"..\"y\",\"x\"..\"y\"..m) print(pcall(function() return \"a\"..\"b\"..nil..\"c\"..\"d\" end))",
        "123\ta-1b0\na1(Tbc)\t(Txy)\tx(yT)\nfalse\ts.lua:1: attempt to concatenate a nil value\nreturn\n",
    ),
];

/// Lists of constructors, and what the table library does with lists.
static LISTS: [(&str, &str); 3] = [
    (
        "local t={1} print(#t,t[1]) local u={n=1,2} print(#u,u[1],u.n) local function g(...) return {...} end print(#g(),#g(7),g(7)[1],#g(1,2,3)) local v={{{5}}} print(v[1][1][1]) local w={(g(1,2))} print(#w,#w[1]) local x={nil} print(#x,next(x))",
        "1\t1\n1\t2\t1\n0\t1\t7\t3\n5\n1\t2\n0\tnil\nreturn\n",
    ),
    (
        "local t={} for i=1,5 do table.insert(t,i*i) end table.insert(t,1,0) print(#t,t[1],t[6],table.remove(t),table.remove(t,1),#t) for i,v in ipairs(t) do print(i,v) end print(select('#',table.unpack({1,nil,3},1,3)),table.concat(t,'-'))",
        "6\t0\t25\t25\t0\t4\n1\t1\n2\t4\n3\t9\n4\t16\n3\t1-4-9-16\nreturn\n",
    ),
    (
        "local f={} for i=1,3 do local r={i} f[i]=function() r[1]=r[1]+1 return r end end print(f[1]()[1],f[1]()[1],f[3]()[1],f[1]()==f[1](),f[1]()==f[2]()) local t={} for i=1,4 do t[i]=i end t[3]=nil t[5]=5 print(t[5],t[3],rawlen({1,2,3}))",
        "2\t3\t4\ttrue\tfalse\n5\tnil\t3\nreturn\n",
    ),
];

/// Errors, and functions that catch them.
static ERRORS: [Case; 5] = [
    Case {
        options: "",
        script: "local x = nil + 1",
        input: "",
        status: 1,
        out: "error\ts.lua:1: attempt to perform arithmetic on a nil value\n",
        err: "",
    },
    Case {
        options: "",
        script: "print(xpcall(function() error(\"a\",0) end,function(m) return m..\"b\" end))",
        input: "",
        status: 0,
        out: "false\tab\nreturn\n",
        err: "",
    },
    Case {
        options: "",
        script: "print(1//0)",
        input: "",
        status: 1,
        out: "error\ts.lua:1: attempt to perform 'n//0'\n",
        err: "",
    },
    Case {
        options: "",
        script: "print(pcall(error,\"x\",0))",
        input: "",
        status: 0,
        out: "false\tx\nreturn\n",
        err: "",
    },
    Case {
        options: "",
        script: "#!/usr/bin/env luaris\nlocal x = nil + 1",
        input: "",
        status: 1,
        out: "error\ts.lua:2: attempt to perform arithmetic on a nil value\n",
        err: "",
    },
];

/// Coroutines within the script.
static COROUTINES: [(&str, &str); 2] = [
    (
        "local co=coroutine.create(function() local c <close> = setmetatable({},{__close=function() print(\"c\") end}) coroutine.yield() end) coroutine.resume(co) print(coroutine.close(co),coroutine.status(co))",
        "c\ntrue\tdead\nreturn\n",
    ),
    (
        "local co=coroutine.create(function(a) local b=coroutine.yield(a+1) error(\"e\"..b,0) end) print(coroutine.resume(co,1)) print(coroutine.resume(co,2)) print(coroutine.status(co))",
        "true\t2\nfalse\te2\ndead\nreturn\n",
    ),
];

/// Functions of the libraries.
static LIBRARIES: [(&str, &str); 3] = [
    (
        "print((\"hello\"):gsub(\"l\",\"L\"),string.format(\"%05d|%-4s|%x\",42,\"ab\",255),utf8.len(\"\\u{E9}a\"),select(\"#\",nil,nil))",
        "heLLo\t00042|ab  |ff\t2\t2\nreturn\n",
    ),
    (
        "print((\"THE (quick) fox\"):find(\"%((%a+)%)\"))",
        "5\t11\tquick\nreturn\n",
    ),
    (
        "for k,v in (\"a=1,b=2\"):gmatch(\"(%w)=(%w)\") do print(k,v) end",
        "a\t1\nb\t2\nreturn\n",
    ),
];

/// Limits on calls, chains of handlers and strings.
static LIMITS: [Case; 4] = [
    Case {
        options: "",
        script: "local function f(n) return 1+f(n) end f(1)",
        input: "",
        status: 1,
        out: "error\ts.lua:1: stack overflow\n",
        err: "",
    },
    Case {
        options: "",
        script: "local t={} setmetatable(t,{__index=t}) print(t.k)",
        input: "",
        status: 1,
        out: "error\ts.lua:1: '__index' chain too long; possibly a loop\n",
        err: "",
    },
    Case {
        options: "",
        script: "print(pcall(string.rep,\"x\",16777217))",
        input: "",
        status: 0,
        out: "false\ts.lua:1: resulting string too large\nreturn\n",
        err: "",
    },
    Case {
        options: "",
        script: "local k=string.rep(\"x\",8388608) print(pcall(function() return k..k..\"y\" end)) print(#(k..k..\"\")) print(pcall(function() return \"y\"..k..k end))",
        input: "",
        status: 0,
        out: "false\ts.lua:1: resulting string too large\n16777216\nfalse\ts.lua:1: resulting string too large\nreturn\n",
        err: "",
    },
];

#[test]
fn expressions_and_statements_run(rt: HostRuntime) -> Result<(), Fail> {
    run_printing(&rt, rt.alloc(), &SIMPLE)
}

#[test]
fn budgets_are_spent(rt: HostRuntime) -> Result<(), Fail> {
    let alloc = rt.alloc();
    for (options, script, out) in &BUDGETS {
        run_case(&rt, alloc, &budgeted(*options, *script, *out))?;
    }
    run_cases(&rt, alloc, &TURNS)
}

#[test]
fn sources_are_refused(rt: HostRuntime) -> Result<(), Fail> {
    run_cases(&rt, rt.alloc(), &REFUSALS)
}

#[test]
fn functions_run(rt: HostRuntime) -> Result<(), Fail> {
    run_printing(&rt, rt.alloc(), &FUNCTIONS)
}

#[test]
fn lists_run(rt: HostRuntime) -> Result<(), Fail> {
    run_printing(&rt, rt.alloc(), &LISTS)
}

#[test]
fn tables_and_metatables_run(rt: HostRuntime) -> Result<(), Fail> {
    run_printing(&rt, rt.alloc(), &TABLES)
}

#[test]
fn errors_are_caught_or_end_the_run(rt: HostRuntime) -> Result<(), Fail> {
    run_cases(&rt, rt.alloc(), &ERRORS)
}

#[test]
fn coroutines_run(rt: HostRuntime) -> Result<(), Fail> {
    run_printing(&rt, rt.alloc(), &COROUTINES)
}

#[test]
fn libraries_run(rt: HostRuntime) -> Result<(), Fail> {
    run_printing(&rt, rt.alloc(), &LIBRARIES)
}

#[test]
fn limits_end_in_errors(rt: HostRuntime) -> Result<(), Fail> {
    run_cases(&rt, rt.alloc(), &LIMITS)
}
