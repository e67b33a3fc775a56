// A call that takes memory answers a tree where there is enough of it.
ghost use Rattle.std.specs.Prelude.{◌≡◌, IfOk};

use int_core::Bytes;
use std::alloc::Global;
use std::test::Fail;
use tree_core::{BinOp, Exp, Name, Place};
use tree_making::{Found, Infix, infix, name_of, string, variable};

fn x(alloc: Global) -> Result<Found<Box<Exp>>, Fail>
    ensures { IfOk result (λ found. found.height ≡ 0) }
{
    let name = Name {
        text: Bytes::of(Vec::from_slice(alloc, b"x")?),
        line: 1,
        place: Place::Unset,
    };
    let found = variable(alloc, name)?;
    Ok(found)
}

// `x .. "x"`
#[test]
fn levels_are_counted(rt: HostRuntime) -> Result<(), Fail> {
    let alloc = rt.alloc();
    let text = string(alloc, 1, Bytes::of(Vec::from_slice(alloc, b"x")?))?;
    let found = infix(alloc, 1, Infix::Binary(BinOp::Concat), x(alloc)?, text)?;
    assert_eq!(rt; found.height, 1);
    assert!(rt; name_of(found).is_none());
    assert!(rt; name_of(x(alloc)?).is_some());
    Ok(())
}
