// Sources whose code is looked at, and its words.
use code_emitter::Emitter;
use lua_lex::tokens;
use lua_parse::parse;
use lua_scope::resolve;
use scope_core::Resolved;
use std::alloc::{AllocError, Global};
use std::test::Fail;
use tree_core::Body;

/// The main function of a source.
pub(crate) fn main_of(alloc: Global, source: &[u8]) -> Result<Body, Fail> {
    let list = tokens(alloc, source)?;
    let Ok(block) = parse(alloc, list) else {
        return Err(Fail::from("no tree"));
    };
    let Ok(Resolved { main }) = resolve(alloc, block) else {
        return Err(Fail::from("against the rules"));
    };
    Ok(main)
}

/// The words of the code that was written.
pub(crate) fn words(emitter: &Emitter, alloc: Global) -> Result<Vec<u32>, AllocError> {
    let mut words = Vec::new(alloc);
    for step in emitter.steps().iter() {
        words.push(step.instruction.0)?;
    }
    Ok(words)
}
