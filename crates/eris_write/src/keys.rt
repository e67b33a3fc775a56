// The keys of permanents, each of which is to stand for one object.
ghost use Rattle.std.specs.Prelude.{◌≡◌, IfOk};
ghost use Rattle.graph_core.specs.Permanents.{key_read, permanents as listed};
ghost use Rattle.eris_write.specs.Keys.{Tells, shown};

use graph_core::{PermanentKey, Permanents};
use indexmap::IndexSet;
use int_core::Allocated;
use std::alloc::Global;

/// The key of a permanent, where it stands.
#[derive(Debug, Clone, Copy, PartialEq, Eq, Hash)]
pub(crate) enum Key<'a> {
    Number(i64),
    Text(&'a [u8]),
}

/// Whether two permanents have one key.
pub(crate) fn have_equal_keys(alloc: Global, permanents: &Permanents) -> Allocated<bool>
    ensures { IfOk result (λ equal. Tells equal (listed permanents.now)) }
{
    let mut seen = IndexSet::new(alloc);
    for at in 0..permanents.len() {
        let is_new = seen.insert(key_of(permanents.at(at).1))?;
        if !is_new {
            return Ok(true);
        }
    }
    Ok(false)
}

/// A key, where it stands.
fn key_of(key: &PermanentKey) -> Key<'_>
    ensures { shown result ≡ key_read key.now }
{
    match key {
        PermanentKey::Number(n) => Key::Number(*n),
        PermanentKey::Text(text) => Key::Text(text.as_slice()),
    }
}
