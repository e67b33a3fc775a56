// The tables of the libraries, row by row in the order of the names (luaL_Reg of Lua's sources).
ghost use Rattle.std.specs.Prelude.{◌≡◌, ◌↔◌, ℕ, ◌+◌, ◌<◌, List, [], true, map, length, IfOk, OnOk, IsTrue};
ghost use Rattle.std.specs.List.{list_all};
ghost use Rattle.code_core.specs.Prototype.{Prototype};
ghost use Rattle.library_rows.specs.PreludeText.{prelude_functions};
ghost use Rattle.lua_heap.specs.Adding.{Begins};
ghost use Rattle.lua_heap.specs.Plain.{table};
ghost use Rattle.lua_meaning.specs.Libraries.{environment};
ghost use Rattle.lua_meaning.specs.Opening.{prelude_of};
ghost use Rattle.lua_opening.specs.Opened.{AddsTable, fits, meant, tables_of};

use crate::comparing::has_rows;
use crate::rows::{Item, fill};
use lua_heap::{Strings, law};
use object_pool::Pool;
use std::alloc::{AllocError, Global};
use table_core::Table;

/// `utf8.charpattern`, which matches one character (6.5).
const CHARACTER_PATTERN: &[u8] = b"[\x00-\x7f\xc2-\xfd][\x80-\xbf]*";

/// The globals (Lua 5.4 manual, 6.1).
static GLOBALS: [(&str, Item); 27] = [
    ("_G", Item::Table(0)),
    ("_VERSION", Item::Text(b"Lua 5.4")),
    ("assert", Item::Primitive(0)),
    ("collectgarbage", Item::Primitive(1)),
    ("coroutine", Item::Table(2)),
    ("error", Item::Primitive(2)),
    ("getmetatable", Item::Primitive(3)),
    ("ipairs", Item::Function(7)),
    ("load", Item::Function(17)),
    ("math", Item::Table(5)),
    ("next", Item::Primitive(4)),
    ("pairs", Item::Function(8)),
    ("pcall", Item::Primitive(5)),
    ("print", Item::Function(5)),
    ("rawequal", Item::Primitive(6)),
    ("rawget", Item::Primitive(7)),
    ("rawlen", Item::Primitive(8)),
    ("rawset", Item::Primitive(9)),
    ("select", Item::Primitive(10)),
    ("setmetatable", Item::Primitive(11)),
    ("string", Item::Table(3)),
    ("table", Item::Table(4)),
    ("tonumber", Item::Primitive(12)),
    ("tostring", Item::Function(4)),
    ("type", Item::Primitive(13)),
    ("utf8", Item::Table(6)),
    ("xpcall", Item::Primitive(14)),
];

/// The library `coroutine` (6.2).
static COROUTINES: [(&str, Item); 8] = [
    ("close", Item::Primitive(15)),
    ("create", Item::Primitive(16)),
    ("isyieldable", Item::Primitive(17)),
    ("resume", Item::Primitive(18)),
    ("running", Item::Primitive(19)),
    ("status", Item::Primitive(20)),
    ("wrap", Item::Function(19)),
    ("yield", Item::Primitive(21)),
];

/// The library `string` (6.4).
static STRINGS: [(&str, Item); 13] = [
    ("byte", Item::Primitive(22)),
    ("char", Item::Primitive(23)),
    ("find", Item::Primitive(24)),
    ("format", Item::Function(16)),
    ("gmatch", Item::Function(14)),
    ("gsub", Item::Function(15)),
    ("len", Item::Primitive(25)),
    ("lower", Item::Primitive(26)),
    ("match", Item::Primitive(27)),
    ("rep", Item::Primitive(28)),
    ("reverse", Item::Primitive(29)),
    ("sub", Item::Primitive(30)),
    ("upper", Item::Primitive(31)),
];

/// The library `table` (6.6).
static TABLES: [(&str, Item); 7] = [
    ("concat", Item::Function(11)),
    ("insert", Item::Function(9)),
    ("move", Item::Function(13)),
    ("pack", Item::Primitive(32)),
    ("remove", Item::Function(10)),
    ("sort", Item::Primitive(33)),
    ("unpack", Item::Function(12)),
];

/// The library `math` of whole numbers (6.7).
static INTEGERS: [(&str, Item); 9] = [
    ("abs", Item::Primitive(34)),
    ("fmod", Item::Primitive(35)),
    ("max", Item::Primitive(36)),
    ("maxinteger", Item::Integer(i64::MAX)),
    ("min", Item::Primitive(37)),
    ("mininteger", Item::Integer(i64::MIN)),
    ("tointeger", Item::Primitive(38)),
    ("type", Item::Primitive(39)),
    ("ult", Item::Primitive(40)),
];

/// The library `utf8` (6.5).
static CHARACTERS: [(&str, Item); 6] = [
    ("char", Item::Primitive(41)),
    ("charpattern", Item::Text(CHARACTER_PATTERN)),
    ("codepoint", Item::Primitive(42)),
    ("codes", Item::Primitive(43)),
    ("len", Item::Primitive(44)),
    ("offset", Item::Primitive(45)),
];

/// The prelude's environment: all functions. Of several with one name the first counts.
static ENVIRONMENT: [(&str, Item); 77] = [
    ("abs", Item::Primitive(34)),
    ("after", Item::Function(18)),
    ("assert", Item::Primitive(0)),
    ("bad", Item::Function(0)),
    ("build", Item::Primitive(46)),
    ("byte", Item::Primitive(22)),
    ("char", Item::Primitive(23)),
    ("close", Item::Primitive(15)),
    ("codepoint", Item::Primitive(42)),
    ("codes", Item::Primitive(43)),
    ("collectgarbage", Item::Primitive(1)),
    ("concat", Item::Function(11)),
    ("create", Item::Primitive(16)),
    ("error", Item::Primitive(2)),
    ("expand", Item::Primitive(47)),
    ("find", Item::Primitive(24)),
    ("fmod", Item::Primitive(35)),
    ("format", Item::Function(16)),
    ("from", Item::Primitive(48)),
    ("getmetatable", Item::Primitive(3)),
    ("gmatch", Item::Function(14)),
    ("gsub", Item::Function(15)),
    ("inext", Item::Function(6)),
    ("insert", Item::Function(9)),
    ("int", Item::Function(2)),
    ("ipairs", Item::Function(7)),
    ("isyieldable", Item::Primitive(17)),
    ("join", Item::Primitive(49)),
    ("kinds", Item::Primitive(50)),
    ("layout", Item::Primitive(51)),
    ("len", Item::Primitive(25)),
    ("load", Item::Function(17)),
    ("lower", Item::Primitive(26)),
    ("match", Item::Primitive(27)),
    ("max", Item::Primitive(36)),
    ("meta", Item::Primitive(52)),
    ("min", Item::Primitive(37)),
    ("move", Item::Function(13)),
    ("next", Item::Primitive(4)),
    ("offset", Item::Primitive(45)),
    ("out", Item::Primitive(53)),
    ("pack", Item::Primitive(32)),
    ("pairs", Item::Function(8)),
    ("pcall", Item::Primitive(5)),
    ("print", Item::Function(5)),
    ("rawequal", Item::Primitive(6)),
    ("rawget", Item::Primitive(7)),
    ("rawlen", Item::Primitive(8)),
    ("rawset", Item::Primitive(9)),
    ("remove", Item::Function(10)),
    ("rep", Item::Primitive(28)),
    ("resume", Item::Primitive(18)),
    ("reverse", Item::Primitive(29)),
    ("running", Item::Primitive(19)),
    ("seek", Item::Primitive(54)),
    ("select", Item::Primitive(10)),
    ("setmetatable", Item::Primitive(11)),
    ("sort", Item::Primitive(33)),
    ("spread", Item::Primitive(55)),
    ("status", Item::Primitive(20)),
    ("str", Item::Function(3)),
    ("sub", Item::Primitive(30)),
    ("tabl", Item::Function(1)),
    ("text", Item::Primitive(56)),
    ("toint", Item::Primitive(57)),
    ("tointeger", Item::Primitive(38)),
    ("tonumber", Item::Primitive(12)),
    ("tostring", Item::Function(4)),
    ("type", Item::Primitive(13)),
    ("ult", Item::Primitive(40)),
    ("unpack", Item::Function(12)),
    ("upper", Item::Primitive(31)),
    ("walk", Item::Primitive(58)),
    ("walk_lax", Item::Primitive(59)),
    ("wrap", Item::Function(19)),
    ("xpcall", Item::Primitive(14)),
    ("yield", Item::Primitive(21)),
];

/// The metatable of strings: by `__index` a string has its library's functions as methods (6.4).
static STRING_METATABLE: [(&str, Item); 1] = [("__index", Item::Table(3))];

/// The tables of the libraries, each at its number.
pub(crate) fn library_tables(
    strings: &mut Strings,
    alloc: Global,
) -> Result<Pool<Table>, AllocError>
    ensures strings { OnOk result (Begins (List ℕ) strings.old strings.new) }
    ensures tables { IfOk result (λ tables. (codes : List Prototype) → length codes ≡ length prelude_functions → map (table strings.new) tables.objects ≡ tables_of (prelude_of codes)) }
{
    let mut tables = Pool::new(alloc);
    add_tables(strings, &mut tables)?;
    Ok(tables)
}

/// Adds them where there is no table yet.
fn add_tables(strings: &mut Strings, tables: &mut Pool<Table>) -> Result<(), AllocError>
    requires { tables.old.objects ≡ [] }
    ensures strings { OnOk result (Begins (List ℕ) strings.old strings.new) }
    ensures tables { OnOk result ((codes : List Prototype) → length codes ≡ length prelude_functions → map (table strings.new) tables.new.objects ≡ tables_of (prelude_of codes)) }
{
    tables.reserve(8)?;
    add_table(strings, tables, &GLOBALS)?;
    add_table(strings, tables, &ENVIRONMENT)?;
    add_table(strings, tables, &COROUTINES)?;
    add_table(strings, tables, &STRINGS)?;
    add_table(strings, tables, &TABLES)?;
    add_table(strings, tables, &INTEGERS)?;
    add_table(strings, tables, &CHARACTERS)?;
    add_table(strings, tables, &STRING_METATABLE)?;
    strings.len();
    law::tables_are_read();
    Ok(())
}

/// Adds a table with these rows.
fn add_table(
    strings: &mut Strings,
    tables: &mut Pool<Table>,
    rows: &[(&'static str, Item)],
) -> Result<(), AllocError>
    requires fits { list_all (λ r. fits r.0.now r.1) rows.now ≡ true }
    requires room { 0 < tables.old.spare }
    ensures added { OnOk result (AddsTable strings.old strings.new tables.old.objects tables.new.objects (map (λ r. meant r.0.now r.1) rows.now)) }
    ensures room { OnOk result (tables.new.spare + 1 ≡ tables.old.spare) }
{
    let mut table = Table::new(tables.allocator());
    fill(strings, &mut table, rows)?;
    tables.place(table);
    Ok(())
}

/// Whether a table is the prelude's environment as it is made.
pub fn is_environment(strings: &Strings, held: &Table) -> bool
    ensures { (codes : List Prototype) → length codes ≡ length prelude_functions → (IsTrue result ↔ (table strings.now held.now ≡ environment (prelude_of codes))) }
{
    match held.metatable() {
        Some(_) => false,
        None => has_rows(strings, held, &ENVIRONMENT),
    }
}
