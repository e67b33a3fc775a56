// Values that are few enough to stand in an array, so that they take no memory.
ghost use Rattle.std.specs.Prelude.{◌≡◌, ◌≤◌, ◌++◌, [], IfSome, drop, length};

use std::marker::Model;
use table_core::Value;

/// At most six values. Contracts see them as a list.
#[derive(Debug, Drop)]
pub struct Few {
    values: [Value; 6],
    count: usize,
}

impl Model for Few {
    ghost use Rattle.std.specs.Prelude.{List, ◌≤◌, take};
    ghost use Rattle.table_core.specs.declared.value.Value.{Value as Kept};

    ghost Value = { List Kept };

    ghost view = { λ few. take few.count few.values };

    ghost invariant = { λ few. few.count ≤ 6 };
}

impl Few {
    /// No values.
    #[inline(always)]
    pub fn new() -> Few
        ensures { result ≡ [] }
    {
        Few {
            values: [Value::Nil; 6],
            count: 0,
        }
    }

    /// Holds these values in the place of those before, where there are no more than six.
    #[inline(always)]
    pub fn hold(&mut self, values: &[Value]) -> Option<()>
        ensures same { IfSome result (λ _. self.new ≡ values.now) }
        ensures fits { IfSome result (λ _. length values.now ≤ 6) }
    {
        if values.len() > 6 {
            return None;
        }
        let count = put_first(&mut self.values, values);
        self.count = count;
        Some(())
    }

    /// The values, to read.
    pub fn as_slice(&self) -> &[Value]
        ensures { result.now ≡ self.now }
    {
        &self.values[..self.count]
    }
}

/// Puts values in front of others, and tells how many they are.
#[inline(always)]
fn put_first(all: &mut [Value; 6], values: &[Value]) -> usize
    requires { length values.now ≤ 6 }
    ensures written { all.new ≡ values.now ++ drop result all.old }
    ensures count { result ≡ length values.now }
    ensures short { result ≤ 6 }
{
    all[..values.len()].copy_from_slice(values);
    values.len()
}
