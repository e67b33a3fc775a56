// The parts of prototypes that are not their code, worked out by hand.
use crate::cases::reading::main_of;
use code_constants::Constants;
use code_core::{AbsLine, Const, Instruction, UpDesc};
use code_emitter::{Emitter, Step};
use code_parts::{
    Variables, back_field, block_constants, byte, changes, far_lines, inner_bodies, last_line,
    prototype, put_opening, room, up_names, upvalues,
};
use int_core::{Bytes, write_integer};
use std::alloc::{AllocError, Global};
use std::process::Abort;
use std::test::Fail;
use tree_core::{Block, Body};

// Sources and the constants of their main functions, with a blank behind each.
static CONSTANTS: [(&[u8], &[u8]); 9] = [
    (b"", b""),
    (
        b"local a = 'x' print(a, 100000, 'x') goto on ::on::",
        b"x print 100000 ",
    ),
    (
        b"while f() do local t = {70000, k = 2} end repeat g() until 'k'",
        b"f 70000 k 2 g ",
    ),
    (
        b"if a then b() elseif c then d() else e() end",
        b"a b c d e ",
    ),
    (
        b"for i = 70001, 70002, 70003 do f(i) end",
        b"70001 70002 70003 f ",
    ),
    (b"for i = 70001, 70002 do f(i) end", b"70001 70002 f "),
    (b"for k in p() do q = k end", b"p q "),
    (
        b"local function h() return 'inner' end return h, 'outer'",
        b"outer ",
    ),
    (b"do x.y = z end", b"x y z "),
];

// Words, the number of registers that are there in any case, and how many are needed.
static ROOMS: [(&[u32], u8, u8); 7] = [
    (&[], 3, 3),
    (&[0x0100, 0x0001_0180], 0, 4),
    (&[0x0104_02c4], 0, 9),
    (&[0x0500_00cc], 0, 10),
    (&[0x0003_0108], 0, 6),
    (&[0x0001_0246], 1, 1),
    (&[0x7f], 2, 2),
];

// The first function that is made in a block.
fn first_function(alloc: Global, block: &Block) -> Result<&Body, Fail> {
    let bodies = inner_bodies(alloc, block)?;
    match bodies.first() {
        Some(body) => Ok(*body),
        None => Err(Fail::from("no function")),
    }
}

fn written(alloc: Global, constants: &[Const]) -> Result<Vec<u8>, AllocError> {
    let mut text = Vec::new(alloc);
    for constant in constants {
        match constant {
            Const::Int(integer) => {
                let mut digits = [0; 20];
                let count = write_integer(*integer, &mut digits);
                text.extend_from_slice(&digits[..count])?;
            }
            Const::Str(bytes) => text.extend_from_slice(bytes.as_slice())?,
            _ => text.push(b'?')?,
        }
        text.push(b' ')?;
    }
    Ok(text)
}

fn names(alloc: Global, names: &[Option<Bytes>]) -> Result<Vec<u8>, AllocError> {
    let mut text = Vec::new(alloc);
    for name in names {
        if let Some(bytes) = name {
            text.extend_from_slice(bytes.as_slice())?;
        }
        text.push(b' ')?;
    }
    Ok(text)
}

// instructions, each with a line
fn steps(alloc: Global, words: &[u32], lines: &[u32]) -> Result<Vec<Step>, AllocError> {
    let mut steps = Vec::new(alloc);
    for (word, line) in words.iter().zip(lines.iter()) {
        steps.push(Step {
            instruction: Instruction(*word),
            line: *line,
        })?;
    }
    Ok(steps)
}

#[test]
fn constants_are_those_of_the_source(rt: HostRuntime) -> Result<(), Fail> {
    for (source, expected) in CONSTANTS.iter().copied() {
        let Body { block, .. } = main_of(rt.alloc(), source)?;
        let constants = block_constants(rt.alloc(), &block)?.into_vec();
        let text = written(rt.alloc(), &constants)?;
        assert_eq!(rt; text.as_slice(), expected);
    }
    Ok(())
}

#[test]
fn frames_have_room_for_all_registers(rt: HostRuntime) -> Result<(), Fail> {
    for (words, least, expected) in ROOMS.iter().copied() {
        let steps = steps(rt.alloc(), words, &[1, 1])?;
        assert_eq!(rt; room(&steps, usize::from(least)), usize::from(expected));
    }
    Ok(())
}

// Looks at the lines that are given in full, of a function that begins on line 1.
fn check_far(rt: &impl Abort, alloc: Global, steps: &[Step], far: &[AbsLine]) -> Result<(), Fail> {
    assert_eq!(rt; far_lines(alloc, 1, steps)?.as_slice(), far);
    Ok(())
}

// distances of 127 and -127 are kept, and 197 and -128 are too far
#[test]
fn lines_are_kept_by_their_distances(rt: HostRuntime) -> Result<(), Fail> {
    let alloc = rt.alloc();
    let steps = steps(alloc, &[0; 7], &[1, 3, 200, 199, 72, 199, 71])?;
    assert_eq!(rt;
        changes(alloc, 1, &steps)?.as_slice(),
        [0, 2, -128, -1, -127, 127, -128].as_slice()
    );
    let far = [AbsLine { pc: 2, line: 200 }, AbsLine { pc: 6, line: 71 }];
    check_far(&rt, alloc, &steps, &far)
}

// the 128th and the 256th of 300 instructions on line 1
#[test]
fn each_128th_line_is_kept_in_full(rt: HostRuntime) -> Result<(), Fail> {
    let alloc = rt.alloc();
    let steps = steps(alloc, &[0; 300], &[1; 300])?;
    let far = [AbsLine { pc: 127, line: 1 }, AbsLine { pc: 255, line: 1 }];
    check_far(&rt, alloc, &steps, &far)
}

// a local of the function around, and an upvalue of it
#[test]
fn upvalues_are_found_around(rt: HostRuntime) -> Result<(), Fail> {
    let alloc = rt.alloc();
    let Body { block, .. } = main_of(alloc, b"local a return function() return a, b end")?;
    let inner = first_function(alloc, &block)?;
    let expected = [
        UpDesc {
            in_stack: true,
            index: 0,
            kind: 0,
        },
        UpDesc {
            in_stack: false,
            index: 0,
            kind: 0,
        },
    ];
    assert_eq!(rt;
        upvalues(alloc, &inner.upvalues)?.as_slice(),
        expected.as_slice()
    );
    let list = up_names(alloc, &inner.upvalues)?;
    let text = names(alloc, &list)?;
    assert_eq!(rt; text.as_slice(), b"a _ENV ".as_slice());
    Ok(())
}

// each with its last line, which is that of its last `return` where it has one
#[test]
fn inner_functions_stand_in_the_order_of_the_text(rt: HostRuntime) -> Result<(), Fail> {
    let alloc = rt.alloc();
    let source = b"local function f() end
while f() do
local g = {function() end}
end
return function()
return function() end
end";
    let Body { block, .. } = main_of(alloc, source)?;
    let mut lines = Vec::new(alloc);
    for body in inner_bodies(alloc, &block)?.iter() {
        lines.push(body.line)?;
        lines.push(last_line(&body.block, body.line))?;
    }
    assert_eq!(rt; lines.as_slice(), [1, 1, 3, 3, 5, 6].as_slice());
    assert_eq!(rt; last_line(&block, 0), 0);
    Ok(())
}

#[test]
fn functions_with_more_arguments_begin_by_varargprep(rt: HostRuntime) -> Result<(), Fail> {
    let alloc = rt.alloc();
    let mut emitter = Emitter::new(alloc, Constants::new(alloc));
    put_opening(&mut emitter, true, 2, 7)?;
    put_opening(&mut emitter, false, 2, 8)?;
    put_opening(&mut emitter, true, 0, 0)?;
    let expected = [
        Step {
            instruction: Instruction(0x0151),
            line: 7,
        },
        Step {
            instruction: Instruction(0x0051),
            line: 1,
        },
    ];
    assert_eq!(rt; emitter.steps().as_slice(), expected.as_slice());
    assert_eq!(rt; back_field(true, 2)?, 3);
    assert_eq!(rt; back_field(false, 2)?, 0);
    assert_eq!(rt; byte(255)?, 255);
    Ok(())
}

// two parameters up to place 9, and a hidden variable in a loop up to place 5
#[test]
fn scopes_end_from_the_inside(rt: HostRuntime) -> Result<(), Fail> {
    let alloc = rt.alloc();
    let Body { block, .. } = main_of(alloc, b"return function(x, y) end")?;
    let inner = first_function(alloc, &block)?;
    let mut variables = Variables::new(alloc);
    variables.declare_names(alloc, &inner.params, 0)?;
    let first = variables.count();
    variables.hide(1, 2)?;
    variables.end_scopes(first, 5)?;
    variables.end_scopes(0, 9)?;
    let mut places = Vec::new(alloc);
    let mut list = Vec::new(alloc);
    for variable in variables.into_vec(alloc)? {
        places.push(variable.start)?;
        places.push(variable.end)?;
        list.push(variable.name)?;
    }
    let text = names(alloc, &list)?;
    assert_eq!(rt; text.as_slice(), b"x y  ".as_slice());
    assert_eq!(rt; places.as_slice(), [0, 9, 0, 9, 2, 5].as_slice());
    Ok(())
}

// MOVE 2 1 and RETURN 2 2 on line 3, of a function that begins on line 2
#[test]
fn prototypes_have_their_parts(rt: HostRuntime) -> Result<(), Fail> {
    let alloc = rt.alloc();
    let Body { block, .. } = main_of(
        alloc,
        b"local z
return function(x, y)
z = y end",
    )?;
    let inner = first_function(alloc, &block)?;
    let steps = steps(alloc, &[0x0001_0100, 0x0002_0146], &[3, 3])?;
    let source = Some(Bytes::of(b"s".to_vec(alloc)?));
    let made = prototype(
        alloc,
        &source,
        inner,
        &steps,
        Vec::new(alloc),
        Vec::new(alloc),
        Vec::new(alloc),
    )?;
    assert_eq!(rt; made.line_defined, 2);
    assert_eq!(rt; made.last_line, 3);
    assert_eq!(rt; made.params, 2);
    assert_eq!(rt; made.stack, 3);
    assert_eq!(rt;
        made.code.as_slice(),
        [Instruction(0x0001_0100), Instruction(0x0002_0146)].as_slice()
    );
    assert_eq!(rt; made.line_info.as_slice(), [1, 0].as_slice());
    let text = names(alloc, &made.up_names)?;
    assert_eq!(rt; text.as_slice(), b"z ".as_slice());
    Ok(())
}
