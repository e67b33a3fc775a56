// The keys of the libraries' functions (Lua 5.4 manual, 6).
ghost use Rattle.std.specs.Prelude.{◌≡◌, map};
ghost use Rattle.library_rows.specs.Library.{all_entries, key_of};
ghost use Rattle.library_rows.specs.PreludeText.{function_keys};

/// The keys of the primitives, each at its number. A key is the function's name among the globals, as `type` or
/// `math.max`, and begins with `prelude.` where scripts cannot name the function.
pub fn names() -> &'static [&'static str]
    ensures { map (λ name. name.now) result.now ≡ map key_of all_entries }
{
    &[
        "assert",
        "collectgarbage",
        "error",
        "getmetatable",
        "next",
        "pcall",
        "rawequal",
        "rawget",
        "rawlen",
        "rawset",
        "select",
        "setmetatable",
        "tonumber",
        "type",
        "xpcall",
        "coroutine.close",
        "coroutine.create",
        "coroutine.isyieldable",
        "coroutine.resume",
        "coroutine.running",
        "coroutine.status",
        "coroutine.yield",
        "string.byte",
        "string.char",
        "string.find",
        "string.len",
        "string.lower",
        "string.match",
        "string.rep",
        "string.reverse",
        "string.sub",
        "string.upper",
        "table.pack",
        "table.sort",
        "math.abs",
        "math.fmod",
        "math.max",
        "math.min",
        "math.tointeger",
        "math.type",
        "math.ult",
        "utf8.char",
        "utf8.codepoint",
        "utf8.codes",
        "utf8.len",
        "utf8.offset",
        "prelude.build",
        "prelude.expand",
        "prelude.from",
        "prelude.join",
        "prelude.kinds",
        "prelude.layout",
        "prelude.meta",
        "prelude.out",
        "prelude.seek",
        "prelude.spread",
        "prelude.text",
        "prelude.toint",
        "prelude.walk",
        "prelude.walk_lax",
    ]
}

/// The keys of the prelude's functions, in the order of the text.
pub fn functions() -> &'static [&'static str]
    ensures { map (λ name. name.now) result.now ≡ function_keys }
{
    &[
        "prelude.bad",
        "prelude.tabl",
        "prelude.int",
        "prelude.str",
        "tostring",
        "print",
        "prelude.inext",
        "ipairs",
        "pairs",
        "table.insert",
        "table.remove",
        "table.concat",
        "table.unpack",
        "table.move",
        "string.gmatch",
        "string.gsub",
        "string.format",
        "load",
        "prelude.after",
        "coroutine.wrap",
    ]
}
