// The words of expressions, worked out by hand from the opcodes and fields that lopcodes.h of Lua 5.4 has.
use crate::cases::reading::{main_of, words};
use code_constants::Constants;
use code_emitter::Emitter;
use code_expr::{expression, list};
use std::alloc::{AllocError, Global};
use std::test::Fail;
use tree_core::{Block, Body, Exp};

// Sources that return an expression, the register for its value, and the words of its code.
static WORDS: [(&[u8], u8, &[u32]); 37] = [
    (b"return nil", 3, &[0x188]),
    (b"return 5", 0, &[0x8002_0001]),
    (b"return 65537", 1, &[0x83]),
    (b"return 1 + 2", 0, &[0x8000_0001, 0x8100_0015, 0x0681_002f]),
    // bits are moved up by SHRI with the opposite, but not by 0
    (
        b"return 1 << 3",
        0,
        &[0x8000_0001, 0x7c00_0020, 0x1082_002f],
    ),
    (
        b"return 1 << 0",
        0,
        &[0x8000_0001, 0x7fff_8081, 0x0100_002c, 0x1001_002e],
    ),
    (b"return 'a' .. 'b'", 0, &[0x03, 0x8083, 0x0002_0035]),
    // a chain on one line is joined by one instruction; in brackets, or on another line, a `..` has its own
    (
        b"return 'a' .. 'b' .. 'c'",
        0,
        &[0x03, 0x8083, 0x0001_0103, 0x0003_0035],
    ),
    (
        b"return 'a' .. ('b' .. 'c')",
        0,
        &[0x03, 0x8083, 0x0001_0103, 0x0002_00b5, 0x0002_0035],
    ),
    (
        b"return 'a' .. \n 'b' .. 'c'",
        0,
        &[0x03, 0x8083, 0x0001_0103, 0x0002_00b5, 0x0002_0035],
    ),
    (b"return not true", 0, &[0x07, 0x33]),
    (b"return _ENV", 0, &[0x09]),
    (b"return function() end", 2, &[0x014f]),
    (b"return (print('hi'))", 0, &[0x0b, 0x8083, 0x0202_0044]),
    (
        b"return (f(g()))",
        0,
        &[0x0b, 0x0100_008b, 0x0001_00c4, 0x0200_0044],
    ),
    (
        b"local x, y return x and y",
        2,
        &[0x0143, 0x8000_0038, 0x0001_0100],
    ),
    // a value that decides is kept by the test, and one that is not wanted is only tested
    (
        b"local x, y return x or (x < y)",
        2,
        &[
            0x8143,
            0x8000_01b8,
            0x0001_803a,
            0x8000_0038,
            0x0106,
            0x0107,
        ],
    ),
    (
        b"local x, y return x < y and x or y",
        2,
        &[0x0001_003a, 0x8000_00b8, 0x8143, 0x8000_0038, 0x0001_0100],
    ),
    // a truth is loaded only where it decides
    (
        b"local x, y return x < y and x",
        2,
        &[0x0001_803a, 0x8000_00b8, 0x0105, 0x8000_0038, 0x0100],
    ),
    (
        b"local x return true or x",
        1,
        &[0x87, 0x80c2, 0x8000_0038, 0x80],
    ),
    (
        b"local x, y return x < y",
        2,
        &[0x0001_803a, 0x8000_0038, 0x0106, 0x0107],
    ),
    (
        b"local x, y return x > y",
        2,
        &[0x80ba, 0x8000_0038, 0x0106, 0x0107],
    ),
    // a numeral of at most 128 stands in the instruction, or 127 behind a minus, and a local in its own register
    (b"local x return x - 1", 1, &[0x7e00_0095, 0x0780_002f]),
    (b"local x return (x) >> 128", 1, &[0xff00_00a0, 0x11ff_002f]),
    // other integers, strings, nil, false and true are constants in it
    (b"local x return x + 129", 1, &[0x96, 0x0600_0030]),
    (b"local x return (x) & 7", 1, &[0x9d, 0x0d00_0030]),
    (
        b"local x return x == 'a'",
        1,
        &[0x803c, 0x8000_0038, 0x86, 0x87],
    ),
    (
        b"local x return x ~= nil",
        1,
        &[0x3c, 0x8000_0038, 0x86, 0x87],
    ),
    (
        b"local x, y return -x * y",
        2,
        &[0x0131, 0x0102_0124, 0x0801_012e],
    ),
    (
        b"local x return 1 >= x",
        1,
        &[0x8000_0081, 0x0001_803b, 0x8000_0038, 0x86, 0x87],
    ),
    (
        b"local x return x ~= 0",
        1,
        &[0x007f_003d, 0x8000_0038, 0x86, 0x87],
    ),
    (
        b"local x, y return #x:m(y)",
        2,
        &[0x8114, 0x0001_0200, 0x0203_0144, 0x0002_0134],
    ),
    (b"return {...}", 0, &[0x13, 0x52, 0xd0, 0x4e]),
    // a string and a numeral are keys in the instruction, a constant is its value, and locals stay in their registers
    (
        b"local x return {a = x, [x] = x, [2] = 1}",
        1,
        &[0x93, 0x52, 0x92, 0x90, 0x0102_8091],
    ),
    // constants, locals and `not` of these wait above the table, and are stored together in front of a key and at the end
    (
        b"local x return {x, 7, not x, [x] = x, x}",
        1,
        &[
            0x93,
            0x52,
            0x0100,
            0x8003_0181,
            0x0233,
            0x0003_00ce,
            0x90,
            0x0100,
            0x0301_00ce,
        ],
    ),
    // they are stored in front of an item that asks for something
    (
        b"local x return {x, #x, x}",
        1,
        &[
            0x93,
            0x52,
            0x0100,
            0x0001_00ce,
            0x0134,
            0x0101_00ce,
            0x0100,
            0x0201_00ce,
        ],
    ),
    (
        b"local x return {x, x, ...}",
        1,
        &[0x93, 0x52, 0x0100, 0x0180, 0x0002_00ce, 0x0150, 0x0200_00ce],
    ),
];

// The expressions behind the `return` of a source.
fn returned(alloc: Global, source: &[u8]) -> Result<Vec<Exp>, Fail> {
    let Body { block, .. } = main_of(alloc, source)?;
    let Block { result, .. } = block;
    match result {
        Some(list) => Ok(list),
        None => Err(Fail::from("no return")),
    }
}

fn expression_words(alloc: Global, exp: &Exp, target: usize) -> Result<Vec<u32>, AllocError> {
    let mut constants = Constants::new(alloc);
    constants.add_exp(alloc, exp)?;
    let mut emitter = Emitter::new(alloc, constants);
    expression(&mut emitter, exp, target, 2)?;
    words(&emitter, alloc)
}

#[test]
fn expressions_have_their_words(rt: HostRuntime) -> Result<(), Fail> {
    for (source, target, expected) in WORDS.iter().copied() {
        let list = returned(rt.alloc(), source)?;
        let Some(exp) = list.first() else {
            return Err(Fail::from("an empty list"));
        };
        let words = expression_words(rt.alloc(), exp, usize::from(target))?;
        assert_eq!(rt; words.as_slice(), expected);
    }
    Ok(())
}

// a local, a string, and all arguments
#[test]
fn open_lists_end_by_all_values(rt: HostRuntime) -> Result<(), Fail> {
    let alloc = rt.alloc();
    let values = returned(alloc, b"local x return x, 'a', ...")?;
    let mut constants = Constants::new(alloc);
    constants.add_exps(alloc, &values)?;
    let mut emitter = Emitter::new(alloc, constants);
    list(&mut emitter, &values, None, 1, 1)?;
    assert_eq!(rt;
        words(&emitter, alloc)?.as_slice(),
        [0x80, 0x0103, 0x01d0].as_slice()
    );
    Ok(())
}

// behind the fiftieth item all are stored, and the next one waits alone
#[test]
fn fifty_items_are_stored_at_once(rt: HostRuntime) -> Result<(), Fail> {
    let alloc = rt.alloc();
    let mut source = Vec::new(alloc);
    source.extend_from_slice(b"return {")?;
    for _ in 0..51 {
        source.extend_from_slice(b"0,")?;
    }
    source.extend_from_slice(b"}")?;
    let list = returned(alloc, source.as_slice())?;
    let Some(exp) = list.first() else {
        return Err(Fail::from("an empty list"));
    };
    let words = expression_words(alloc, exp, 0)?;
    let code = words.as_slice();
    assert_eq!(rt; code.len(), 55);
    assert_eq!(rt;
        &code[..4],
        [0x13, 0x52, 0x7fff_8081, 0x7fff_8101].as_slice()
    );
    assert_eq!(rt;
        &code[51..],
        [0x7fff_9901, 0x0032_004e, 0x7fff_8081, 0x3201_004e].as_slice()
    );
    Ok(())
}
