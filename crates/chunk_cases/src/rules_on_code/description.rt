// The rules on functions as a whole, and what closures take.
use super::*;
use code_core::Opcode::Closure;

/// How a function differs from one that breaks no rule.
#[derive(Clone, Copy)]
enum Change {
    /// It has no code.
    NoCode,
    /// It has so many parameters.
    Params(u8),
    /// It has so many upvalues.
    Upvalues(u16),
    /// Its inner function's upvalue is made of a register, or of an upvalue.
    Takes(bool, u8),
    /// Its first upvalue is of this kind.
    Kind(u8),
    /// It begins on this line.
    Begins(u32),
    /// It has so many changes of lines.
    Changes(u8),
    /// It has so many names of upvalues.
    Names(u8),
    /// It, or its inner function, has a source.
    Sources(bool, bool),
    /// It has a constant string of so many bytes.
    Text(u32),
    /// Functions are nested so deep in it, itself included.
    Depth(u16),
}

use Change::{Begins, Changes, Depth, Kind, Names, NoCode, Params, Sources, Takes, Text, Upvalues};

/// Each change with the rule that is broken at place 0 of main, or 0.
static CHANGES: [(Change, u8); 31] = [
    (NoCode, 1),
    (Params(8), 0),
    (Params(9), 1),
    (Upvalues(255), 0),
    (Upvalues(256), 1),
    (Takes(true, 7), 0),
    (Takes(true, 8), 6),
    (Takes(false, 1), 0),
    (Takes(false, 2), 6),
    (Kind(3), 0),
    (Kind(4), 12),
    (Begins(0x7fff_ffff), 0),
    (Begins(0x8000_0000), 12),
    (Changes(0), 0),
    (Changes(3), 12),
    (Changes(4), 0),
    (Changes(5), 12),
    (Names(0), 0),
    (Names(1), 12),
    (Names(2), 0),
    (Names(3), 12),
    (Sources(false, false), 0),
    (Sources(false, true), 0),
    (Sources(true, true), 0),
    (Sources(true, false), 12),
    (Text(0), 0),
    (Text(16_777_216), 0),
    (Text(16_777_217), 12),
    (Depth(2), 0),
    (Depth(500), 0),
    (Depth(501), 12),
];

/// The line on which a function begins, the changes of its lines, the place and line of one that is given in full, and the rule
/// that is broken, or 0.
static LINES: [(u32, [i8; 4], (u32, u32), u8); 14] = [
    (0, [127, 127, 127, 127], (9, 9), 0),
    (127, [-127, 0, 0, 0], (9, 9), 0),
    (126, [-127, 0, 0, 0], (9, 9), 12),
    (300, [-128, 0, 0, 0], (9, 9), 12),
    (300, [-128, 0, 0, 0], (0, 9), 0),
    (300, [0, -128, 0, 0], (0, 9), 12),
    (300, [0, -128, 0, 0], (1, 9), 0),
    (300, [0, -128, -9, 0], (1, 9), 0),
    (300, [0, -128, -10, 0], (1, 9), 12),
    (300, [0, 0, 0, -128], (3, 0x7fff_ffff), 0),
    (300, [0, 0, 0, -128], (3, 0x8000_0000), 12),
    (0x7fff_ffff, [0, 0, 0, 0], (9, 9), 0),
    (0x7fff_ffff, [1, 0, 0, 0], (9, 9), 12),
    (0x7fff_ffff, [1, -1, 0, 0], (9, 9), 12),
];

/// A text of so many bytes.
fn text(alloc: Global, len: u32) -> Result<Bytes, AllocError> {
    Ok(Bytes::of(vec![in alloc; 0; len as usize]?))
}

/// Functions that are nested so deep.
fn nested(alloc: Global, depth: u16) -> Result<Proto, AllocError> {
    let mut proto = bare(alloc, &[LAST])?;
    for _ in 1..depth {
        let mut outer = bare(alloc, &[LAST])?;
        outer.protos.push(proto)?;
        proto = outer;
    }
    Ok(proto)
}

/// The inner function of `function`, with a source or without.
fn sourced(alloc: Global, has_source: bool) -> Result<Proto, AllocError> {
    let mut proto = bare(alloc, &[LAST])?;
    if has_source {
        proto.source = Some(text(alloc, 1)?);
    }
    Ok(proto)
}

/// A function with a change.
fn changed(alloc: Global, change: Change) -> Result<Proto, AllocError> {
    let mut proto = function(alloc, &[Word::Abx(Closure, 0, 0), SAME, SAME, LAST])?;
    match change {
        NoCode => proto.code = Vec::new(alloc),
        Params(params) => proto.params = params,
        Upvalues(len) => proto.upvalues = vec![in alloc; upvalue(true, 0); len as usize]?,
        Takes(in_stack, index) => {
            let mut inner = bare(alloc, &[LAST])?;
            inner.upvalues.push(upvalue(in_stack, index))?;
            proto.protos = Vec::new(alloc);
            proto.protos.push(inner)?;
        }
        Kind(kind) => {
            let of_kind = UpDesc {
                in_stack: true,
                index: 0,
                kind,
            };
            proto.upvalues = Vec::from_slice(alloc, &[of_kind, upvalue(true, 0)])?;
        }
        Begins(line) => proto.line_defined = line,
        Changes(len) => proto.line_info = vec![in alloc; 0; len as usize]?,
        Names(len) => {
            for _ in 0..len {
                proto.up_names.push(None)?;
            }
        }
        Sources(own, inner) => {
            proto = sourced(alloc, own)?;
            proto.protos.push(sourced(alloc, inner)?)?;
        }
        Text(len) => proto.constants.push(Const::Str(text(alloc, len)?))?,
        Depth(depth) => proto = nested(alloc, depth)?,
    }
    Ok(proto)
}

#[test]
fn rules_on_functions_hold_at_their_edge(rt: HostRuntime) -> Result<(), Fail> {
    let alloc = rt.alloc();
    for (number, (change, rule)) in CHANGES.iter().copied().enumerate() {
        let proto = changed(alloc, change)?;
        assert_eq!(rt; first_fault(alloc, proto), (0, 0, rule), "change {number}");
    }
    for (number, (begins, changes, (pc, line), rule)) in LINES.iter().copied().enumerate() {
        let mut proto = changed(alloc, Begins(begins))?;
        proto.line_info = changes.to_vec(alloc)?;
        proto.abs_lines.push(AbsLine { pc, line })?;
        assert_eq!(rt; first_fault(alloc, proto), (0, 0, rule), "lines {number}");
    }
    Ok(())
}
