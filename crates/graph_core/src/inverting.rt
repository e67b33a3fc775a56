// Permanents that are inverse to each other (Eris's manual, permanent values).
ghost use Rattle.std.specs.Prelude.{Decides};
ghost use Rattle.graph_core.specs.Inverse.{HaveKeysAmong, Inverse};
ghost use Rattle.graph_core.specs.Permanents.{permanents};

use crate::permanents::Permanents;

/// Whether what is written by the first permanents can be read by the second: both have the same objects with the same keys, and no two of these have one key.
/// Takes no memory. The pairs are compared in linear time, by the index of objects. Keys have no index, so each is compared with those before it.
pub fn inverse(forth: &Permanents, back: &Permanents) -> bool
    ensures { Decides result (Inverse (permanents forth.now) (permanents back.now)) }
{
    have_keys_among(forth, back) && have_keys_among(back, forth) && forth.has_each_key_once()
}

/// Whether each object of the first has its key among the second.
fn have_keys_among(inner: &Permanents, outer: &Permanents) -> bool
    ensures { Decides result (HaveKeysAmong (permanents inner.now) (permanents outer.now)) }
{
    for at in 0..inner.len() {
        let (object, key) = inner.at(at);
        if !outer.has(object, key) {
            return false;
        }
    }
    true
}
