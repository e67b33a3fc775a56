// Variables of nested functions, as the manual's sections on local variables and visibility have them.
use int_core::Bytes;
use scope_core::{FunctionScope, Functions, Least, Source, Variable, Violation, held_by_name};
use std::alloc::{AllocError, Global};
use std::test::Fail;
use tree_core::Place;

fn bytes(alloc: Global, text: &str) -> Result<Bytes, AllocError> {
    Ok(Bytes::of(text.as_bytes().to_vec(alloc)?))
}

fn named(alloc: Global, text: &str) -> Result<Variable, AllocError> {
    Ok(Variable::Named {
        text: bytes(alloc, text)?,
        fixed: false,
    })
}

// local x; local x; local y; function() function() x y x y print end end
#[test]
fn inner_functions_reach_the_last_variable_of_a_name(rt: HostRuntime) -> Result<(), Fail> {
    let alloc = rt.alloc();
    let (x, y) = (bytes(alloc, "x")?, bytes(alloc, "y")?);
    let mut main = FunctionScope::new(alloc);
    main.declare(named(alloc, "x")?)?;
    main.declare(named(alloc, "x")?)?;
    main.declare(named(alloc, "y")?)?;
    let mut middle = FunctionScope::new(alloc);
    middle.declare(Variable::Hidden)?;
    assert_eq!(rt; middle.len(), 1);
    middle.keep(0);
    let mut functions = Functions {
        scopes: vec![in alloc; main, middle, FunctionScope::new(alloc)]?,
    };
    for (name, index) in [(&x, 0), (&y, 1), (&x, 0)] {
        let count = functions.scopes.len();
        let found = functions.reach(alloc, count, name)?;
        assert_eq!(rt;
            found,
            Source {
                in_stack: false,
                index
            }
        );
    }
    assert_eq!(rt; functions.place(alloc, &y)?, Place::Upvalue(1));
    assert_eq!(rt;
        functions.place(alloc, &bytes(alloc, "print")?)?,
        Place::GlobalOf(2)
    );
    for main in functions.scopes.iter().take(1) {
        assert_eq!(rt; main.register_of(&x), Some(1));
        assert_eq!(rt; main.upvalue_of(&x), None);
    }
    for inner in functions.scopes.iter().skip(1) {
        assert_eq!(rt; inner.upvalue_of(&y), Some(1));
    }
    Ok(())
}

#[test]
fn earlier_line_and_then_lesser_rule_is_least(rt: HostRuntime) -> Result<(), Fail> {
    let mut least = Least { violation: None };
    for (line, rule) in [(3, 1), (2, 9), (2, 4), (2, 5)] {
        least.meet(Violation { line, rule });
    }
    assert_eq!(rt; least.violation, Some(Violation { line: 2, rule: 4 }));
    assert_eq!(rt; held_by_name(Place::GlobalIn(0)), 2);
    Ok(())
}
