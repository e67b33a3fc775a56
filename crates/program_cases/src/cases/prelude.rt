// The prelude's text, of which no clause says that it is a source: it is compiled, and has its functions.
use prelude_code::prelude_code;
use std::test::Fail;

#[test]
fn prelude_has_its_functions(rt: HostRuntime) -> Result<(), Fail> {
    let code = prelude_code(rt.alloc())?;
    assert_eq!(rt; code.proto().protos.len(), 20);
    assert!(rt; code.proto().source.is_none());
    Ok(())
}
