// What the keys of permanents stand for.
ghost use Rattle.std.specs.Prelude.{◌≡◌, [], ◌∷◌, ◌++◌, Some, None, OnOk, OnErr};
ghost use Rattle.image_saved.specs.Permanents.{object_named};
ghost use Rattle.image_records.specs.Names.{entries_of, environment_of, perms_of, code_of, found_object, found_code, object_of, proto_of, sort_of_object, added};
ghost use Rattle.image_records.specs.Views.{key as name_of, kind as kind_shown};
ghost use Rattle.std.specs.Option.{option_map};

use crate::record::{Key, Kind};
use code_core::Proto;
use indexmap::IndexMap;
use std::alloc::{AllocError, Global};
use table_core::{TableId, Value};

/// A permanent value: a primitive function or an object, with the code of a Lua function.
#[derive(Clone, Copy)]
pub struct Named<'k> {
    pub object: Value,
    pub code: Option<&'k Proto>,
}

/// What keys stand for in the world that an image is read into. Of several permanents with one key the first counts.
#[derive(Drop)]
pub struct Known<'k> {
    objects: IndexMap<Key<'k>, Named<'k>>,
    /// The table of the prelude's own variables.
    environment: TableId,
}

impl<'k> Known<'k> {
    /// No permanents.
    pub fn new(alloc: Global, environment: TableId) -> Known<'k>
        ensures none { entries_of result ≡ [] }
        ensures environment { environment_of result ≡ environment }
    {
        Known {
            objects: IndexMap::new(alloc),
            environment,
        }
    }

    /// Adds a permanent, where its key is a new one. A refusal changes nothing.
    pub fn add(&mut self, key: Key<'k>, named: Named<'k>) -> Result<(), AllocError>
        ensures ok { OnOk result (entries_of self.new ≡ added (entries_of self.old) (key.entry, named.entry)) }
        ensures err { OnErr result (entries_of self.new ≡ entries_of self.old) }
        ensures environment { environment_of self.new ≡ environment_of self.old }
    {
        if self.objects.contains_key(&key) {
            return Ok(());
        }
        match self.objects.insert(key, named) {
            Ok(_) => Ok(()),
            Err(_) => Err(AllocError),
        }
    }

    /// The sort of what a key stands for.
    pub fn kind(&self, key: Key<'_>) -> Option<Kind>
        ensures { option_map kind_shown result ≡ sort_of_object (object_named (perms_of self.now) (name_of key.entry)) }
    {
        let named = self.find(key)?;
        kind_of(named.object)
    }

    /// The code of the Lua function that a key stands for.
    pub fn code(&self, key: Key<'_>) -> Option<&Proto>
        ensures { proto_of result ≡ code_of self.now (name_of key.entry) }
    {
        self.find(key)?.code
    }

    /// The table of the prelude's own variables.
    pub fn environment(&self) -> TableId
        ensures { result ≡ environment_of self.now }
    {
        self.environment
    }

    /// What a key stands for.
    pub fn find(&self, key: Key<'_>) -> Option<Named<'_>>
        ensures object { found_object result ≡ object_named (perms_of self.now) (name_of key.entry) }
        ensures code { found_code result ≡ code_of self.now (name_of key.entry) }
    {
        self.objects.get(&key).copied()
    }
}

/// What sort of object a value is, where it is one. A primitive counts as a function.
fn kind_of(value: Value) -> Option<Kind>
    ensures { option_map kind_shown result ≡ sort_of_object (object_of value) }
{
    match value {
        Value::Prim(_) => Some(Kind::Function),
        Value::Table(_) => Some(Kind::Table),
        Value::Func(_) => Some(Kind::Function),
        Value::Coro(_) => Some(Kind::Coroutine),
        Value::Nil => None,
        Value::Bool(_) => None,
        Value::Int(_) => None,
        Value::Str(_) => None,
    }
}
