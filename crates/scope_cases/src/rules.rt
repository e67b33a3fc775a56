// Outside cases, worked out by hand from the Lua 5.4 manual, 2.2, 3.3.4, 3.3.7, 3.3.8, 3.4.11 and 3.5.
use lua_lex::tokens;
use lua_parse::parse;
use lua_scope::resolve;
use scope_core::ScopeFault;
use std::alloc::Global;
use std::test::Fail;
use tree_core::{Block, Body, ExpNode, Place};

// Sources, and where they are refused the line and the rule.
static SOURCES: [(&[u8], Option<(u32, u8)>); 82] = [
    (b"", None),
    (b"local x <const> = 1 return x", None),
    (b"local x <const> = 1 x = 2", Some((1, 1))),
    (b"local x <close> = nil\nx = 2", Some((2, 1))),
    (b"local x <const> = 1 x.y = 2", None),
    (b"local x <const> = 1 local x x = 2", None),
    (b"local x <const> = 1 do local x x = 2 end", None),
    (b"local x do local x <const> = 1 end x = 2", None),
    (b"local x <const> = 1\nlocal y\ny, y,\nx = 1", Some((4, 1))),
    (
        b"local x <const> = 1 local function f()\nx = 2 end",
        Some((2, 1)),
    ),
    (b"local x <const> = 1 local function f(x) x = 2 end", None),
    (b"local x <const> = 1\nfunction x() end", Some((2, 1))),
    (b"local x <const> = 1 for x = 1, 2 do x = 3 end", None),
    (b"goto a ::a::", None),
    (b"::a:: goto a", None),
    (b"goto a", Some((1, 2))),
    (b"do\ngoto a end ::b::", Some((2, 2))),
    (b"do goto a end ::a::", None),
    (b"do ::a:: end goto a", Some((1, 2))),
    (b"goto a do ::a:: end", Some((1, 2))),
    (b"while x do\ngoto continue end", Some((2, 2))),
    (b"while x do goto continue f() ::continue:: end", None),
    (b"::a:: local function f()\ngoto a end", Some((2, 2))),
    (b"local function f() goto a end ::a::", Some((1, 2))),
    (b"::a:: local function f() goto a ::a:: end goto a", None),
    (b"::a:: ::b::", None),
    (b"::a::\n::a::", Some((2, 3))),
    (b"::a:: do\n::a:: end", Some((2, 3))),
    (b"do ::a:: end ::a::", None),
    (b"do ::a:: end do ::a:: end", None),
    (b"::a:: local function f() ::a:: end", None),
    (b"if x then ::a:: else ::a:: end", None),
    (b"goto a local x ::a:: f()", Some((1, 4))),
    (b"\ngoto a local function f() end ::a:: f()", Some((2, 4))),
    (b"goto a local x ::a::", None),
    (b"goto a local x ::a:: ; ::b:: ;", None),
    (b"goto a local x ::a:: return", Some((1, 4))),
    (b"goto a local x ::a:: do end", Some((1, 4))),
    (b"do goto a end local x ::a:: f()", Some((1, 4))),
    (b"do goto a local x ::a:: end f()", None),
    (b"if x then goto a local y ::a:: elseif z then end", None),
    (b"if x then goto a local y ::a:: else end", None),
    (b"while x do goto a local y ::a:: end", None),
    (b"::a:: local x f() goto a", None),
    (
        b"repeat goto continue local x ::continue:: until x",
        Some((1, 4)),
    ),
    (b"repeat goto continue ::continue:: until x", None),
    (b"repeat local x goto continue ::continue:: until x", None),
    (b"repeat do goto a local x ::a:: end until x", None),
    (b"break", Some((1, 5))),
    (b"while x do break end", None),
    (b"repeat if x then break end until y", None),
    (b"for i = 1, 2 do do break end end", None),
    (b"for k in p do break end", None),
    (b"if x then\nbreak end", Some((2, 5))),
    (b"while x do end\nbreak", Some((2, 5))),
    (
        b"while x do local function f()\nbreak end end",
        Some((2, 5)),
    ),
    (b"local a <close>, b <const>, c = 1, 2", None),
    (b"local a <close> = nil local b <close> = nil", None),
    (b"local a <close>, b, c\n<\nclose> = nil", Some((3, 6))),
    (b"local a <const>, b <const> = 1, 2", None),
    (b"local a\n<\nfoo> = 1", Some((3, 7))),
    (b"local a <Const> = 1", Some((1, 7))),
    (b"return ...", None),
    (b"local function f(...) return ... end", None),
    (b"local function f(x)\nreturn x, ... end", Some((2, 8))),
    (
        b"local function f(...) return function() return ... end end",
        Some((1, 8)),
    ),
    (b"local function f() return {f(...)} end", Some((1, 8))),
    (b"function o:m(...) return ... end", None),
    // of two violations on a line the lesser rule is answered, whichever comes first
    (b"break goto a", Some((1, 2))),
    (b"goto a break", Some((1, 2))),
    (b"local a <foo>, b <close>, c <close> = 1", Some((1, 6))),
    (b"local a <close>, b <close>, c <foo> = 1", Some((1, 6))),
    (
        b"local x <const> = 1 local function f() x = ... end",
        Some((1, 1)),
    ),
    (b"::a:: do goto a local x ::a:: f() end", Some((1, 3))),
    (b"::a:: break ::a::", Some((1, 3))),
    // and else the earlier line
    (b"break\ngoto a", Some((1, 5))),
    (
        b"local a <foo>\nlocal b <close>, c <close> = 1",
        Some((1, 7)),
    ),
    (b"local x <const> = 1\nbreak\nx = 2", Some((2, 5))),
    (b"::a:: do\ngoto a local x\n::a:: f() end", Some((2, 4))),
    (
        b"return function()\nreturn ... end,\nfunction() break end",
        Some((2, 8)),
    ),
    (b"local a <\nfoo> = function() break end", Some((2, 5))),
    (b"x = {\nfunction() break end,\n...}", Some((2, 5))),
];

// What stands before, a part that may stand so many times, what stands behind, and the line and
// the rule where it stands once more.
static LIMITS: [(&[u8], &[u8], u16, &[u8], (u32, u8)); 26] = [
    (b"", b"local x ", 200, b"", (1, 9)),
    (b"do ", b"local x ", 200, b"end local x", (1, 9)),
    (b"", b"local function f() end ", 200, b"", (1, 9)),
    (b"local x", b", x", 199, b"", (1, 9)),
    (b"function f(", b"x, ", 199, b"\nx) end", (2, 9)),
    (b"function f(", b"x, ", 199, b"...) local x end", (1, 9)),
    (b"", b"local x ", 196, b"for\ni = 1, 2 do end", (2, 9)),
    (b"", b"local x, x ", 98, b"for\ni = 1, 2 do end", (1, 9)),
    (b"", b"local x ", 195, b"for\nk in p do end", (2, 9)),
    (b"", b"local x, x, x ", 65, b"for\nk in p do end", (1, 9)),
    (b"f(1", b", 1", 248, b")", (1, 11)),
    (b"local x f(1", b", 1", 247, b")", (1, 11)),
    (b"o:m(1", b", 1", 247, b")", (1, 11)),
    (b"return 1", b" .. 1", 249, b"", (1, 11)),
    (b"\nreturn 1", b", 1", 249, b"", (2, 11)),
    (b"local x =\n1", b", 1", 249, b"", (1, 11)),
    (b"x.y", b", x.y", 82, b" = 1", (1, 11)),
    (b"x = 1", b", 1", 247, b"", (1, 11)),
    (b"\nwhile x", b" .. 1", 249, b" do end", (2, 11)),
    (b"repeat\nuntil x", b" .. 1", 249, b"", (1, 11)),
    (b"repeat local y until x", b" .. 1", 248, b"", (1, 11)),
    (b"if x", b" .. 1", 249, b" then end", (1, 11)),
    (b"return {[1] = 1", b" .. 1", 247, b"}", (1, 11)),
    (b"for i = 1, 1", b" .. 1", 248, b" do end", (1, 11)),
    (b"for i = 1, 2 do ", b";", 16000, b"end", (1, 12)),
    (b"\nfor k in p do ", b";", 16000, b"end", (2, 12)),
];

// Sources that return a function, with its upvalues and those of the function that it returns:
// the name and `r` for a register of the function around, or `u` for one of its upvalues.
static UPVALUES: [(&[u8], &[u8], &[u8]); 10] = [
    (
        b"local x, y return function() return y, x, y end",
        b"y=r1 x=r0 ",
        b"",
    ),
    (
        b"local x return function() return x, print end",
        b"x=r0 _ENV=u0 ",
        b"",
    ),
    (
        b"local x return function() print(x) end",
        b"_ENV=u0 x=r0 ",
        b"",
    ),
    (
        b"local x, y return function() local function f() return x end return y end",
        b"x=r0 y=r1 ",
        b"",
    ),
    (b"local x return function(x) return x end", b"", b""),
    (
        b"local x local x return function() return x end",
        b"x=r1 ",
        b"",
    ),
    (
        b"do local y end local x return function() return x end",
        b"x=r0 ",
        b"",
    ),
    (
        b"local _ENV return function() return print end",
        b"_ENV=r0 ",
        b"",
    ),
    (
        b"local x, y return function() return function() return y, x end end",
        b"y=r1 x=r0 ",
        b"y=u0 x=u1 ",
    ),
    (
        b"local x return function(y) return function() return y, x, print end end",
        b"x=r0 _ENV=u0 ",
        b"y=r0 x=u0 _ENV=u1 ",
    ),
];

// Sources that return the value of a name, and its place.
static PLACES: [(&[u8], Place); 8] = [
    (b"local x, y return y", Place::Local(1)),
    (b"local x local x return x", Place::Local(1)),
    (b"local x do local y end local z return z", Place::Local(1)),
    (b"local x = x return x", Place::Local(0)),
    (b"local function f() end return f", Place::Local(0)),
    (b"return x", Place::GlobalOf(0)),
    (b"local _ENV = {} return x", Place::GlobalIn(0)),
    (b"return _ENV", Place::Upvalue(0)),
];

fn tree(alloc: Global, source: &[u8]) -> Result<Block, Fail> {
    let list = tokens(alloc, source)?;
    match parse(alloc, list) {
        Ok(block) => Ok(block),
        Err(fault) => Err(Fail::from(fault)),
    }
}

fn violation(alloc: Global, source: &[u8]) -> Result<Option<(u32, u8)>, Fail> {
    match resolve(alloc, tree(alloc, source)?) {
        Ok(_) => Ok(None),
        Err(ScopeFault::Refused { rule, line }) => Ok(Some((line, rule))),
        Err(ScopeFault::Memory) => Err(Fail::from("out of memory")),
    }
}

#[test]
fn the_least_violation_is_answered(rt: HostRuntime) -> Result<(), Fail> {
    for (source, refusal) in SOURCES.iter().copied() {
        assert_eq!(rt; violation(rt.alloc(), source)?, refusal);
    }
    Ok(())
}

fn append(source: &mut Vec<u8>, part: &[u8], count: usize) -> Result<(), Fail> {
    for _ in 0..count {
        source.extend_from_slice(part)?;
    }
    Ok(())
}

#[test]
fn one_more_than_a_limit_is_refused(rt: HostRuntime) -> Result<(), Fail> {
    for (before, part, most, behind, (line, rule)) in LIMITS.iter().copied() {
        let most = usize::from(most);
        for (count, refusal) in [(most, None), (most + 1, Some((line, rule)))] {
            let mut source = Vec::new(rt.alloc());
            append(&mut source, before, 1)?;
            append(&mut source, part, count)?;
            append(&mut source, behind, 1)?;
            assert_eq!(rt; violation(rt.alloc(), &source)?, refusal);
        }
    }
    Ok(())
}

// `a000` and so on, so many names, each between two parts
fn append_names(
    source: &mut Vec<u8>,
    before: &[u8],
    letter: u8,
    count: u8,
    behind: &[u8],
) -> Result<(), Fail> {
    for number in 0..count {
        source.extend_from_slice(before)?;
        source.push(letter)?;
        source.push(b'0' + number / 100)?;
        source.push(b'0' + number / 10 % 10)?;
        source.push(b'0' + number % 10)?;
        source.extend_from_slice(behind)?;
    }
    Ok(())
}

// 128 variables of the main function and some of the next one are named in a third
#[test]
fn a_function_has_255_upvalues(rt: HostRuntime) -> Result<(), Fail> {
    for (count, refusal) in [(127, None), (128, Some((2, 10)))] {
        let mut source = Vec::new(rt.alloc());
        append_names(&mut source, b"local ", b'a', 128, b" ")?;
        append(&mut source, b"local function f() ", 1)?;
        append_names(&mut source, b"local ", b'b', count, b" ")?;
        append(&mut source, b"\nlocal function g() ", 1)?;
        append_names(&mut source, b"", b'a', 128, b" = 1 ")?;
        append_names(&mut source, b"", b'b', count, b" = 1 ")?;
        append(&mut source, b"end end", 1)?;
        assert_eq!(rt; violation(rt.alloc(), &source)?, refusal);
    }
    Ok(())
}

fn resolved(alloc: Global, source: &[u8]) -> Result<Body, Fail> {
    match resolve(alloc, tree(alloc, source)?) {
        Ok(resolved) => Ok(resolved.main),
        Err(_) => Err(Fail::from("refused")),
    }
}

fn returned_function(block: &Block) -> Option<&Body> {
    match block.result.as_ref()?.first()?.node {
        ExpNode::Function(ref body) => Some(body),
        _ => None,
    }
}

fn returned_place(block: &Block) -> Option<Place> {
    match block.result.as_ref()?.first()?.node {
        ExpNode::Var(ref name) => Some(name.place),
        _ => None,
    }
}

fn upvalues(alloc: Global, function: Option<&Body>) -> Result<Vec<u8>, Fail> {
    let mut list = Vec::new(alloc);
    let Some(body) = function else {
        return Ok(list);
    };
    for upvalue in &body.upvalues {
        list.extend_from_slice(upvalue.text.as_slice())?;
        list.push(b'=')?;
        list.push(if upvalue.in_stack { b'r' } else { b'u' })?;
        list.push(b'0' + upvalue.index % 10)?;
        list.push(b' ')?;
    }
    Ok(list)
}

#[test]
fn upvalues_stand_in_the_order_in_which_they_are_first_named(rt: HostRuntime) -> Result<(), Fail> {
    for (source, outer, inner) in UPVALUES.iter().copied() {
        let main = resolved(rt.alloc(), source)?;
        assert_eq!(rt;
            upvalues(rt.alloc(), Some(&main))?.as_slice(),
            b"_ENV=r0 ".as_slice()
        );
        let function = returned_function(&main.block);
        assert_eq!(rt; upvalues(rt.alloc(), function)?.as_slice(), outer);
        let within = function.and_then(|body| returned_function(&body.block));
        assert_eq!(rt; upvalues(rt.alloc(), within)?.as_slice(), inner);
    }
    Ok(())
}

#[test]
fn a_name_has_the_place_of_its_variable(rt: HostRuntime) -> Result<(), Fail> {
    for (source, place) in PLACES.iter().copied() {
        let main = resolved(rt.alloc(), source)?;
        assert_eq!(rt; returned_place(&main.block), Some(place));
    }
    Ok(())
}
