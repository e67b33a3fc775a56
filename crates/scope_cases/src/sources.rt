// Each call with ample memory, and the order in which a source is refused.
use compile_text::{TextFault, source_tree};
use std::test::Fail;

#[test]
fn a_source_has_a_tree(rt: HostRuntime) -> Result<(), Fail> {
    let tree = source_tree(rt.alloc(), b"local x = 1\nreturn x")?;
    assert_eq!(rt; tree.main.block.stats.len(), 1);
    Ok(())
}

#[test]
fn refusals_have_their_lines(rt: HostRuntime) {
    let token = source_tree(rt.alloc(), b"x = 1\ny = 'open");
    assert!(rt; matches!(token, Err(TextFault::Source { line: 2 })));
    let grammar = source_tree(rt.alloc(), b"x = 1\n\ny = = 2");
    assert!(rt; matches!(grammar, Err(TextFault::Source { line: 3 })));
    let rules = source_tree(rt.alloc(), b"local x <const> = 1\nx = 2");
    assert!(rt; matches!(rules, Err(TextFault::Rule { rule: _, line: 2 })));
}

#[test]
fn a_long_source_is_refused_before_its_tokens(rt: HostRuntime) -> Result<(), Fail> {
    let source = vec![in rt.alloc(); b'\''; 1_048_577]?;
    let long = source_tree(rt.alloc(), source.as_slice());
    assert!(rt; matches!(long, Err(TextFault::Rule { rule: 13, line: 1 })));
    Ok(())
}
