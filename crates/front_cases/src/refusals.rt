// What no clause says of refusals: which sources have one, and on which line.
use crate::cases::{LEVELS, TOKEN_REFUSALS, TREE_REFUSALS};
use lua_lex::{LexFault, tokens};
use lua_parse::{ParseFault, parse};
use std::alloc::Global;
use std::test::Fail;

// The line of the refusal, or 0 where the source has tokens.
fn line_without_tokens(alloc: Global, source: &[u8]) -> Result<u32, LexFault> {
    match tokens(alloc, source) {
        Ok(_) => Ok(0),
        Err(LexFault::Refused { line }) => Ok(line),
        Err(fault) => Err(fault),
    }
}

// The line of the refusal, or 0 where the source has a tree.
fn line_without_tree(alloc: Global, source: &[u8]) -> Result<u32, Fail> {
    let list = tokens(alloc, source)?;
    match parse(alloc, list) {
        Ok(_) => Ok(0),
        Err(ParseFault::Refused { line }) => Ok(line),
        Err(fault) => Err(Fail::from(fault)),
    }
}

#[test]
fn refusals_have_their_lines(rt: HostRuntime) -> Result<(), Fail> {
    for (source, line) in &TOKEN_REFUSALS {
        assert_eq!(rt; line_without_tokens(rt.alloc(), source)?, *line);
    }
    for (source, line) in &TREE_REFUSALS {
        assert_eq!(rt; line_without_tree(rt.alloc(), source)?, *line);
    }
    Ok(())
}

#[test]
fn the_level_401_is_refused(rt: HostRuntime) -> Result<(), Fail> {
    for (before, open, within, close, most) in &LEVELS {
        for count in [*most, *most + 1] {
            let mut source = Vec::new(rt.alloc());
            for (part, times) in [(before, 1), (open, count), (within, 1), (close, count)] {
                for _ in 0..times {
                    source.extend_from_slice(part)?;
                }
            }
            let line = u32::from(count > *most);
            assert_eq!(rt; line_without_tree(rt.alloc(), &source)?, line);
        }
    }
    Ok(())
}
