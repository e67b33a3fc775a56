// What no clause says: the spellings behind the numbers, from the Lua 5.4 manual, 3.1.
use lua_lex::tokens;
use std::test::Fail;
use token_cursor::{Cursor, word};

#[test]
fn words_are_spelled_as_they_are_named(rt: HostRuntime) -> Result<(), Fail> {
    let source = b"and while // ~= ( ... ::";
    let list = tokens(rt.alloc(), source.as_slice())?;
    let mut cursor = Cursor::new(list);
    for wanted in [
        word::AND,
        word::WHILE,
        word::FLOOR_DIVISION,
        word::NOT_EQUAL,
        word::OPEN_ROUND,
        word::DOTS,
        word::LABEL,
    ] {
        assert!(rt; cursor.take(wanted));
    }
    Ok(())
}
