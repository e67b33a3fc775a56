// The permanents of every session.
ghost use Rattle.std.specs.Prelude.{◌≡◌, ◌++◌, ℕ, None, map, IfOk, OnOk};
ghost use Rattle.image_core.specs.Records.{key_of};
ghost use Rattle.graph_core.specs.Permanents.{permanents, value_of};
ghost use Rattle.session_images.specs.Permanents.{base_permanents as base, by_keys};

use graph_core::{Permanent, PermanentKey, PermanentSort, Permanents};
use lua_prelude::{functions, names};
use std::alloc::{AllocError, Global};

/// The functions of the libraries by their keys: the primitives, and the functions of the prelude, which come first among all functions.
pub fn base_permanents(alloc: Global) -> Result<Permanents, AllocError>
    ensures { IfOk result (λ all. permanents all ≡ base) }
{
    let mut all = Permanents::new(alloc);
    add_all(&mut all, alloc, PermanentSort::Primitive, names())?;
    add_all(&mut all, alloc, PermanentSort::Func, functions())?;
    Ok(all)
}

/// Adds those of one sort from the number 0 on, each with its key.
fn add_all(
    all: &mut Permanents,
    alloc: Global,
    sort: PermanentSort,
    keys: &[&str],
) -> Result<(), AllocError>
    requires { (number : ℕ) → key_of (permanents all.old) (value_of sort number) ≡ None }
    ensures { OnOk result (permanents all.new ≡ permanents all.old ++ by_keys (value_of sort) 0 (map (λ key. key.now) keys.now)) }
{
    'keys: for number in 0..keys.len() {
        let key = keys[number].as_bytes().to_vec(alloc)?;
        all.add(Permanent { sort, number }, PermanentKey::Text(key))?;
    }
    Ok(())
}
