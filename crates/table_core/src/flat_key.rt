// Keys as a map hashes and compares them.
ghost use Rattle.std.specs.Prelude.{◌≡◌};
ghost use Rattle.std.proofs.Common.{rules};
ghost use Rattle.std.specs.Cmp.Rules.{comparing, hashing};
ghost use Rattle.std.specs.Hash.{u64};
ghost use Rattle.table_core.specs.FlatKey.{hash_code, value_of, IsFlat};
ghost use Rattle.table_core.specs.Value.{value_eq};

use crate::value::{CoroId, FuncId, StrId, TableId, Value};
use std::hash::{Hash, Hasher};
use std::marker::Model;

const NIL: u8 = 0;

const BOOL: u8 = 1;

const INT: u8 = 2;

const STR: u8 = 3;

const PRIM: u8 = 4;

const TABLE: u8 = 5;

const FUNC: u8 = 6;

const CORO: u8 = 7;

/// A key as two numbers, which are compared and hashed without a jump by its kind. Contracts see the value.
#[derive(Debug, Clone, Copy)]
pub(crate) struct FlatKey {
    kind: u8,
    bits: u64,
}

impl Model for FlatKey {
    ghost use Rattle.table_core.specs.declared.value.Value.{Value as Plain};
    ghost use Rattle.table_core.specs.FlatKey.{IsFlat, bits_of, kind_of, value_of};

    ghost Value = { Plain };

    ghost view = { λ key. value_of key.kind key.bits };

    ghost invariant = { λ key. IsFlat key.kind key.bits };

    ghost inverse = { λ value. record { kind = kind_of value; bits = bits_of value } };

    ghost inverse_ok = { λ key is i. record { kind = is.same_kind i; bits = is.same_bits i } };
}

impl PartialEq for FlatKey {
    ghost eq = { value_eq };

    ghost laws = { Prim.search (comparing, rules) };

    #[inline(always)]
    fn eq(&self, other: &FlatKey) -> bool {
        self.kind == other.kind && self.bits == other.bits
    }
}

impl Eq for FlatKey {
    ghost laws = { Prim.search (comparing, rules) };
}

impl Hash for FlatKey {
    ghost hash_input = { λ key. u64 (hash_code key) };

    ghost respects_eq = { Prim.search (hashing, rules) };

    #[inline(always)]
    fn hash<H: Hasher>(&self, state: &mut H) {
        state.write_u64(self.bits.wrapping_mul(8).wrapping_add(u64::from(self.kind)));
    }
}

impl FlatKey {
    /// The key that a value is.
    #[inline(always)]
    pub(crate) fn of(value: Value) -> FlatKey
        ensures { result ≡ value }
    {
        match value {
            Value::Nil => flat(NIL, 0),
            Value::Bool(b) => flat(BOOL, u64::from(b)),
            Value::Int(n) => flat(INT, n.cast_unsigned()),
            Value::Str(id) => flat(STR, id.0 as u64),
            Value::Prim(number) => flat(PRIM, u64::from(number)),
            Value::Table(id) => flat(TABLE, id.0 as u64),
            Value::Func(id) => flat(FUNC, id.0 as u64),
            Value::Coro(id) => flat(CORO, id.0 as u64),
        }
    }

    /// The value that a key is.
    pub(crate) fn value(self) -> Value
        ensures { result ≡ self }
    {
        match self.kind {
            NIL => Value::Nil,
            BOOL => Value::Bool(self.bits == 1),
            INT => Value::Int(self.bits.cast_signed()),
            STR => Value::Str(StrId(self.bits as usize)),
            PRIM => Value::Prim((self.bits % 0x1_0000) as u16),
            TABLE => Value::Table(TableId(self.bits as usize)),
            FUNC => Value::Func(FuncId(self.bits as usize)),
            _ => Value::Coro(CoroId(self.bits as usize)),
        }
    }

    /// Some bits that tell most keys of one kind apart.
    #[inline(always)]
    pub(crate) fn low_bits(self) -> usize {
        self.bits as usize
    }
}

/// The key of a kind with some bits.
#[inline(always)]
fn flat(kind: u8, bits: u64) -> FlatKey
    requires { IsFlat kind bits }
    ensures { result ≡ value_of kind bits }
{
    FlatKey { kind, bits }
}
