// The prelude's code passes the test.
use prelude_code::prelude_code;
use prelude_guard::all_guarded;
use std::test::Fail;

#[test]
fn prelude_is_guarded(rt: HostRuntime) -> Result<(), Fail> {
    let code = prelude_code(rt.alloc())?;
    assert!(rt; all_guarded(code.proto()));
    Ok(())
}
