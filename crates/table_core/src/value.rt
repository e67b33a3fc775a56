// A value, which names strings and objects by their numbers, and the values that may be keys.
ghost use Rattle.std.specs.Prelude.{◌≡◌, ◌≢◌, ◌↔◌, None, IfSome};
ghost use Rattle.std.proofs.Common.{rules};
ghost use Rattle.std.specs.Cmp.Rules.{comparing};
ghost use Rattle.table_core.specs.Value.{is_nil, value_eq};

use std::marker::Model;

/// The number of a string.
#[derive(Debug, Clone, Copy, PartialEq, Eq)]
pub struct StrId(pub usize);

/// The number of a table.
#[derive(Debug, Clone, Copy, PartialEq, Eq)]
pub struct TableId(pub usize);

/// The number of a function.
#[derive(Debug, Clone, Copy, PartialEq, Eq)]
pub struct FuncId(pub usize);

/// The number of a cell, which holds a captured variable.
#[derive(Debug, Clone, Copy, PartialEq, Eq)]
pub struct CellId(pub usize);

/// The number of a coroutine.
#[derive(Debug, Clone, Copy, PartialEq, Eq)]
pub struct CoroId(pub usize);

/// The number of a function's code.
#[derive(Debug, Clone, Copy, PartialEq, Eq)]
pub struct ProtoId(pub usize);

/// A value (Lua 5.4 manual, 2.1). `==` is raw equality.
#[derive(Debug, Clone, Copy)]
pub enum Value {
    Nil,
    Bool(bool),
    Int(i64),
    Str(StrId),
    /// A primitive function, by its number.
    Prim(u16),
    Table(TableId),
    Func(FuncId),
    Coro(CoroId),
}

impl PartialEq for Value {
    ghost eq = { value_eq };

    ghost laws = { Prim.search (comparing, rules) };

    #[inline(always)]
    fn eq(&self, other: &Value) -> bool {
        match (self, other) {
            (Value::Nil, Value::Nil) => true,
            (Value::Bool(a), Value::Bool(b)) => a == b,
            (Value::Int(a), Value::Int(b)) => a == b,
            (Value::Str(a), Value::Str(b)) => a == b,
            (Value::Prim(a), Value::Prim(b)) => a == b,
            (Value::Table(a), Value::Table(b)) => a == b,
            (Value::Func(a), Value::Func(b)) => a == b,
            (Value::Coro(a), Value::Coro(b)) => a == b,
            _ => false,
        }
    }
}

impl Eq for Value {
    ghost laws = { Prim.search (comparing, rules) };
}

/// A value that may be a key of a table: any but nil (Lua 5.4 manual, 2.1). Contracts see the value.
#[derive(Debug, Clone, Copy, PartialEq, Eq)]
pub struct Key {
    value: Value,
}

impl Model for Key {
    ghost use Rattle.std.specs.Prelude.{◌≡◌, false};
    ghost use Rattle.table_core.specs.declared.value.Value.{Value as Plain};
    ghost use Rattle.table_core.specs.Value.{is_nil};

    ghost Value = { Plain };

    ghost view = { λ key. key.value };

    ghost invariant = { λ key. is_nil key.value ≡ false };

    ghost inverse = { λ plain. record { value = plain } };
}

impl Key {
    /// The key that is a value, where that is not nil.
    pub fn of(value: Value) -> Option<Key>
        ensures none { (result ≡ None) ↔ (value ≡ Value.Nil) }
        ensures some { IfSome result (λ key. key ≡ value) }
    {
        match value {
            Value::Nil => None,
            _ => Some(Key { value }),
        }
    }

    /// The value that a key is.
    pub fn value(self) -> Value
        ensures same { result ≡ self }
        ensures not_nil { result ≢ Value.Nil }
    {
        self.value
    }
}

impl Value {
    /// Whether it is nil.
    #[inline(always)]
    pub(crate) fn is_nil(self) -> bool
        ensures { result ≡ is_nil self }
    {
        matches!(self, Value::Nil)
    }
}
