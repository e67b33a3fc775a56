// What no clause says of tokens.
use crate::cases::{INTEGERS, KEYWORD_NUMBERS, MARK_NUMBERS, STRINGS};
use lua_lex::{LexFault, MAX_SOURCE, Token, keyword, mark, tokens};
use std::test::Fail;

#[test]
fn literals_have_their_values(rt: HostRuntime) -> Result<(), Fail> {
    for (source, value) in &INTEGERS {
        assert_eq!(rt; tokens(rt.alloc(), source)?.token(0), &Token::Int(*value));
    }
    for (source, value) in &STRINGS {
        let list = tokens(rt.alloc(), source)?;
        assert!(rt; matches!(list.token(0), Token::Str(bytes) if bytes.as_slice() == *value));
    }
    Ok(())
}

#[test]
fn words_and_marks_have_their_places(rt: HostRuntime) -> Result<(), Fail> {
    for (source, number) in &KEYWORD_NUMBERS {
        assert_eq!(rt;
            tokens(rt.alloc(), source)?.token(0),
            &Token::Keyword(*number)
        );
    }
    for (source, number) in &MARK_NUMBERS {
        assert_eq!(rt; tokens(rt.alloc(), source)?.token(0), &Token::Mark(*number));
    }
    let list = tokens(rt.alloc(), b"local x1=6-- six\r\nprint(x1)<<=...")?;
    assert_eq!(rt; list.len(), 12);
    assert_eq!(rt; list.token(0), &Token::Keyword(keyword::LOCAL));
    assert!(rt; matches!(list.token(1), Token::Name(name) if name.as_slice() == b"x1".as_slice()));
    assert_eq!(rt; list.token(8), &Token::Mark(mark::SHIFT_LEFT));
    assert_eq!(rt; list.token(9), &Token::Mark(mark::ASSIGN));
    assert_eq!(rt; list.token(10), &Token::Mark(mark::DOTS));
    assert_eq!(rt; list.line(3), 1);
    assert_eq!(rt; list.line(4), 2);
    assert_eq!(rt; list.token(11), &Token::End);
    Ok(())
}

#[test]
fn a_source_has_a_greatest_length(rt: HostRuntime) -> Result<(), Fail> {
    let longest = vec![in rt.alloc(); b' '; MAX_SOURCE]?;
    assert_eq!(rt; tokens(rt.alloc(), &longest)?.len(), 1);
    let longer = vec![in rt.alloc(); b' '; MAX_SOURCE + 1]?;
    assert!(rt; matches!(tokens(rt.alloc(), &longer), Err(LexFault::Limit)));
    Ok(())
}
