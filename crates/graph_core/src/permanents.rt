// Permanent values, which stand in an image by their keys alone (Eris's manual, `eris.persist`).
ghost use Rattle.std.specs.Prelude.{◌≡◌, ◌<◌, ℕ, List, [], ◌∷◌, ◌++◌, Some, Decides, cond, length, is_some, slice_get, OnOk, OnErr};
ghost use Rattle.std.specs.Option.{option_map};
ghost use Rattle.image_core.specs.Records.{key_of};
ghost use Rattle.lua_heap.specs.Reading.{value as read};
ghost use Rattle.graph_core.specs.Inverse.{KeyIsBefore, KeysAreOnce, ObjectsAreOnce};
ghost use Rattle.graph_core.specs.Permanents.{key_read, object_read, permanent, permanents, stands_for};

use indexmap::IndexMap;
use int_core::Allocated;
use std::alloc::{AllocError, Global};
use table_core::Value;

/// What a permanent stands for: a primitive function, or an object that is not written.
#[derive(Debug, Clone, Copy, PartialEq, Eq, Hash)]
pub enum PermanentSort {
    Primitive,
    Table,
    Func,
    Coro,
}

/// A primitive function, or an object, by its number among those of its sort.
#[derive(Debug, Clone, Copy, PartialEq, Eq, Hash)]
pub struct Permanent {
    pub sort: PermanentSort,
    pub number: usize,
}

/// The name of a permanent in an image.
#[derive(Debug, PartialEq, Eq, Drop)]
pub enum PermanentKey {
    Number(i64),
    Text(Vec<u8>),
}

/// Permanents with their keys. Of several keys of one object the first counts.
#[derive(Drop)]
pub struct Permanents {
    keys: IndexMap<Permanent, PermanentKey>,
}

impl Permanent {
    /// What a value may stand for.
    pub fn of(value: Value) -> Option<Permanent>
        ensures { result ≡ stands_for value }
    {
        match value {
            Value::Nil => None,
            Value::Bool(_) => None,
            Value::Int(_) => None,
            Value::Str(_) => None,
            Value::Prim(number) => Some(Permanent {
                sort: PermanentSort::Primitive,
                number: number as usize,
            }),
            Value::Table(id) => Some(Permanent {
                sort: PermanentSort::Table,
                number: id.0,
            }),
            Value::Func(id) => Some(Permanent {
                sort: PermanentSort::Func,
                number: id.0,
            }),
            Value::Coro(id) => Some(Permanent {
                sort: PermanentSort::Coro,
                number: id.0,
            }),
        }
    }
}

impl Permanents {
    /// No permanents.
    pub fn new(alloc: Global) -> Permanents
        ensures { permanents result ≡ [] }
    {
        Permanents {
            keys: IndexMap::new(alloc),
        }
    }

    /// Adds a permanent. One that has a key keeps it. A refusal changes nothing.
    pub fn add(&mut self, object: Permanent, key: PermanentKey) -> Allocated<()>
        ensures ok { OnOk result (permanents self.new ≡ cond (is_some (key_of (permanents self.old) (object_read object))) (permanents self.old) (permanents self.old ++ permanent (object, key) ∷ [])) }
        ensures err { OnErr result (permanents self.new ≡ permanents self.old) }
    {
        if self.keys.contains_key(&object) {
            return Ok(());
        }
        match self.keys.insert(object, key) {
            Ok(_) => Ok(()),
            Err(_) => Err(AllocError),
        }
    }

    /// How many there are.
    pub fn len(&self) -> usize
        ensures { result ≡ length (permanents self.now) }
    {
        self.keys.len()
    }

    /// The permanent at a place, with its key.
    pub fn at(&self, at: usize) -> (Permanent, &PermanentKey)
        requires { at < length (permanents self.now) }
        ensures { Some (permanent (result.0, result.1.now)) ≡ slice_get (permanents self.now) at }
    {
        let (object, key) = self.keys.get_index(at).unwrap();
        (*object, key)
    }

    /// The key of a value, where it is a permanent.
    pub fn key(&self, value: Value) -> Option<&PermanentKey>
        ensures { (texts : List (List ℕ)) → option_map (λ k. key_read k.now) result ≡ key_of (permanents self.now) (read texts value) }
    {
        let object = Permanent::of(value)?;
        self.keys.get(&object)
    }

    /// Whether an object has this key.
    pub(crate) fn has(&self, object: Permanent, key: &PermanentKey) -> bool
        ensures { Decides result (key_of (permanents self.now) (object_read object) ≡ Some (key_read key.now)) }
    {
        match self.keys.get(&object) {
            Some(own) => own == key,
            None => false,
        }
    }

    /// Whether no two objects have one key.
    pub(crate) fn has_each_key_once(&self) -> bool
        ensures keys { Decides result (KeysAreOnce (permanents self.now)) }
        ensures objects { ObjectsAreOnce (permanents self.now) }
    {
        for at in 0..self.keys.len() {
            if self.has_key_before(at) {
                return false;
            }
        }
        true
    }

    /// Whether one before a place has the key of the one at it.
    fn has_key_before(&self, at: usize) -> bool
        requires { at < length (permanents self.now) }
        ensures { Decides result (KeyIsBefore (permanents self.now) at) }
    {
        let key = self.at(at).1;
        for before in 0..at {
            if self.at(before).1 == key {
                return true;
            }
        }
        false
    }
}
