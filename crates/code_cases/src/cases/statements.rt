// The words of whole sources, worked out by hand from the opcodes and fields that lopcodes.h of Lua 5.4 has.
use crate::cases::reading::{main_of, words};
use code_constants::Constants;
use code_stat::{Written, write_body};
use std::alloc::Global;
use std::test::Fail;

// Sources without constants, and the words of their code.
static WORDS: [(&[u8], &[u32]); 19] = [
    (
        b"local t, i = {}, 1 t[1] = i t[i] = i",
        &[
            0x51,
            0x13,
            0x52,
            0x8000_0081,
            0x0101_0011,
            0x0101_0010,
            0x0101_8146,
        ],
    ),
    // the store names a numeral, and a local is copied, since another store may write it
    (
        b"local t, i = {}, 1 t[1], t[i] = i, t",
        &[
            0x51,
            0x13,
            0x52,
            0x8000_0081,
            0x0100,
            0x0200,
            0x0001_0280,
            0x0001_0300,
            0x0380,
            0x0705_0210,
            0x0601_0111,
            0x0101_8146,
        ],
    ),
    // the second one of two values goes straight to its local, before the first one is stored
    (
        b"local a, b a, b = b, a",
        &[
            0x51,
            0x0001_0008,
            0x0001_0200,
            0x80,
            0x0004_0000,
            0x0101_8146,
        ],
    ),
    (
        b"while true do break end",
        &[0x51, 0x8000_0038, 0x7fff_feb8, 0x0101_0046],
    ),
    (
        b"for i = 1, 2 do end",
        &[
            0x51,
            0x8000_0001,
            0x8000_8081,
            0x8000_0101,
            0x004a,
            0x8049,
            0x0101_0046,
        ],
    ),
    // where a function is made each round closes its variables
    (
        b"for i = 1, 2 do local function f() return i end end",
        &[
            0x51,
            0x8000_0001,
            0x8000_8081,
            0x8000_0101,
            0x0001_004a,
            0x024f,
            0x01b6,
            0x0001_8049,
            0x0101_0046,
        ],
    ),
    (b"goto a ::a::", &[0x51, 0x7fff_ffb8, 0x0101_0046]),
    (
        b"repeat local x until x",
        &[0x51, 0x08, 0x8042, 0x8000_0038, 0x7fff_fdb8, 0x0101_0046],
    ),
    // a register is nil before CLOSURE only where the function has it as an upvalue
    (b"local function f() end", &[0x51, 0x4f, 0x0101_80c6]),
    (
        b"local function f() return f end",
        &[0x51, 0x08, 0x4f, 0x0101_80c6],
    ),
    (
        b"local x if x then x = nil else x = 1 end",
        &[
            0x51,
            0x08,
            0x42,
            0x8000_00b8,
            0x08,
            0x8000_0038,
            0x8000_0001,
            0x0101_80c6,
        ],
    ),
    (
        b"local x if x then x = nil else ; end",
        &[0x51, 0x08, 0x42, 0x8000_0038, 0x08, 0x0101_80c6],
    ),
    // no instruction tests what is always true, and none stands for an arm without code
    (b"if true then end", &[0x51, 0x0101_0046]),
    (
        b"repeat until true",
        &[0x51, 0x8000_0038, 0x7fff_feb8, 0x0101_0046],
    ),
    // LT leads to its jump where it comes to false
    (
        b"local a, b while a < b do end",
        &[
            0x51,
            0x0001_0008,
            0x0001_003a,
            0x8000_0038,
            0x7fff_fe38,
            0x0101_8146,
        ],
    ),
    // the first operand leads into the block, and the second one past it
    (
        b"local a, b if a == b or a > b then b = a end",
        &[
            0x51,
            0x0001_0008,
            0x0001_8039,
            0x8000_00b8,
            0xba,
            0x8000_0038,
            0x0080,
            0x0101_8146,
        ],
    ),
    (
        b"local a, b if not (a and b) then b = a end",
        &[
            0x51,
            0x0001_0008,
            0x42,
            0x8000_00b8,
            0x80c2,
            0x8000_0038,
            0x0080,
            0x0101_8146,
        ],
    ),
    (
        b"local f return f()",
        &[0x51, 0x08, 0x80, 0x0101_80c5, 0x0100_80c6],
    ),
    (
        b"local f for k in f do end",
        &[
            0x51,
            0x08,
            0x80,
            0x0002_0108,
            0x00cb,
            0x0100_00cc,
            0x0001_00cd,
            0xb6,
            0x0101_80c6,
        ],
    ),
];

// Sources without constants, and their local variables: the byte of each one's name, and the places of the
// code where its scope begins and ends. The hidden ones of a loop have a blank.
static VARIABLES: [(&[u8], &[u32]); 7] = [
    // the inner block ends with its last instruction
    (
        b"local a do local b end local c",
        &[0x61, 2, 5, 0x62, 3, 3, 0x63, 4, 5],
    ),
    // and where a function is made behind its CLOSE
    (
        b"local a do local b local function g() end end",
        &[0x61, 2, 6, 0x62, 3, 5, 0x67, 4, 5],
    ),
    // from FORPREP to the end of the loop, and in the block
    (
        b"for i = 1, 2 do local x end",
        &[0x20, 4, 7, 0x20, 4, 7, 0x20, 4, 7, 0x69, 5, 6, 0x78, 6, 6],
    ),
    (
        b"for k in nil do end",
        &[0x20, 3, 7, 0x20, 3, 7, 0x20, 3, 7, 0x20, 3, 7, 0x6b, 4, 4],
    ),
    // the test is in the scope
    (b"repeat local a until a", &[0x61, 2, 5]),
    // from CLOSURE on where there is a LOADNIL, and else from behind it
    (b"local function f() end", &[0x66, 2, 3]),
    // the first arm has a jump behind it
    (
        b"if true then local a else local b end",
        &[0x61, 2, 2, 0x62, 4, 4],
    ),
];

fn source_code(alloc: Global, source: &[u8]) -> Result<Written, Fail> {
    let main = main_of(alloc, source)?;
    Ok(write_body(alloc, Constants::new(alloc), &main)?)
}

// each name and what stands behind it is a byte of its own: a hidden variable is a blank
fn source_variables(alloc: Global, source: &[u8]) -> Result<Vec<u32>, Fail> {
    let Written { variables, .. } = source_code(alloc, source)?;
    let mut list = Vec::new(alloc);
    for variable in variables.into_vec(alloc)? {
        let name = match &variable.name {
            Some(name) => name.as_slice().first().copied(),
            None => None,
        };
        list.push(u32::from(name.unwrap_or(b' ')))?;
        list.push(variable.start)?;
        list.push(variable.end)?;
    }
    Ok(list)
}

#[test]
fn sources_have_their_words(rt: HostRuntime) -> Result<(), Fail> {
    for (source, expected) in WORDS.iter().copied() {
        let Written { emitter, .. } = source_code(rt.alloc(), source)?;
        let words = words(&emitter, rt.alloc())?;
        assert_eq!(rt; words.as_slice(), expected);
    }
    Ok(())
}

#[test]
fn variables_have_their_scopes(rt: HostRuntime) -> Result<(), Fail> {
    for (source, expected) in VARIABLES.iter().copied() {
        let variables = source_variables(rt.alloc(), source)?;
        assert_eq!(rt; variables.as_slice(), expected);
    }
    Ok(())
}
