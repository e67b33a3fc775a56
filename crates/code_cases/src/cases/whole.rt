// Whole sources, compiled by the public call from their bytes, against prototypes worked out by hand.
use code_core::{Checked, Proto};
use compiler::compile;
use lua_lex::tokens;
use lua_parse::parse;
use lua_scope::resolve;
use std::alloc::{AllocError, Global};
use std::test::Fail;

// Sources, and for the main function and then for each function in it: the parameters, whether it
// has `...`, the registers, upvalues, constants and functions, and the words of its code.
static WHOLE: [(&[u8], &[usize]); 3] = [
    (
        b"print('hi')",
        &[
            0,
            1,
            2,
            1,
            2,
            0,
            0x51,
            0x0b,
            0x8083,
            0x0102_0044,
            0x0101_0046,
        ],
    ),
    (
        b"local function f(a) return a end return f, function() end",
        &[
            0,
            1,
            3,
            1,
            0,
            2,
            0x51,
            0x4f,
            0x80,
            0x814f,
            0x0103_80c6,
            1,
            0,
            1,
            0,
            0,
            0,
            0x0002_8046,
            0,
            0,
            0,
            0,
            0,
            0,
            0x0001_0046,
        ],
    ),
    (
        b"local x = 70000 return function(y) x = y return function() return x end end",
        &[
            0,
            1,
            2,
            1,
            1,
            1,
            0x51,
            0x03,
            0xcf,
            0x0102_80c6,
            1,
            0,
            4,
            1,
            0,
            1,
            0x0180,
            0x018a,
            0xcf,
            0x0002_80c6,
        ],
    ),
];

/// The code of a source that is named `s`, with its lines or without.
fn compiled(alloc: Global, source: &[u8], lines: bool) -> Result<Checked, Fail> {
    let list = tokens(alloc, source)?;
    let Ok(block) = parse(alloc, list) else {
        return Err(Fail::from("no tree"));
    };
    let Ok(tree) = resolve(alloc, block) else {
        return Err(Fail::from("against the rules"));
    };
    Ok(compile(alloc, &tree, b"s", lines)?)
}

/// Lists what is compared of a function.
fn list_numbers(list: &mut Vec<usize>, proto: &Proto) -> Result<(), AllocError> {
    list.push(usize::from(proto.params))?;
    list.push(usize::from(proto.vararg))?;
    list.push(usize::from(proto.stack))?;
    list.push(proto.upvalues.len())?;
    list.push(proto.constants.len())?;
    list.push(proto.protos.len())?;
    for word in &proto.code {
        list.push(word.0 as usize)?;
    }
    Ok(())
}

#[test]
fn sources_have_their_prototypes(rt: HostRuntime) -> Result<(), Fail> {
    let alloc = rt.alloc();
    for (source, expected) in WHOLE.iter().copied() {
        let checked = compiled(alloc, source, false)?;
        let mut list = Vec::new(alloc);
        list_numbers(&mut list, checked.proto())?;
        for inner in &checked.proto().protos {
            list_numbers(&mut list, inner)?;
        }
        assert_eq!(rt; list.as_slice(), expected);
    }
    Ok(())
}

// VARARGPREP and LOADI on line 1, LOADNIL and RETURN on line 2
#[test]
fn a_named_source_keeps_lines_and_variables(rt: HostRuntime) -> Result<(), Fail> {
    let alloc = rt.alloc();
    let checked = compiled(alloc, b"local x = 1\nlocal y", true)?;
    let proto = checked.proto();
    let mut text = Vec::new(alloc);
    let mut places = Vec::new(alloc);
    for local in &proto.locals {
        if let Some(name) = &local.name {
            text.extend_from_slice(name.as_slice())?;
        }
        places.push(local.start)?;
        places.push(local.end)?;
    }
    assert_eq!(rt; proto.line_info.as_slice(), [1, 0, 1, 0].as_slice());
    assert_eq!(rt; text.as_slice(), b"xy".as_slice());
    assert_eq!(rt; places.as_slice(), [2, 4, 3, 4].as_slice());
    Ok(())
}
