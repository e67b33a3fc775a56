// The prelude's text, which no clause reads: the grammar and the static rules accept it.
use lua_lex::tokens;
use lua_parse::parse;
use lua_scope::resolve;
use std::test::Fail;

#[test]
fn the_prelude_is_accepted(rt: HostRuntime) -> Result<(), Fail> {
    let alloc = rt.alloc();
    let list = tokens(alloc, lua_prelude::text().as_bytes())?;
    let block = parse(alloc, list)?;
    let resolved = resolve(alloc, block);
    assert!(rt; resolved.is_ok());
    Ok(())
}
