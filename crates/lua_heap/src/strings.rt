// The strings of a world.
ghost use Rattle.std.specs.Prelude.{◌≡◌, ◌<◌, ◌≤◌, [], ◌∷◌, ◌++◌, false, IfOk, IfSome, OnOk, OnErr, Some, is_some, length, slice_get, take, bytes_eq};
ghost use Rattle.std.specs.List.{list_any};
ghost use Rattle.int_core.specs.Value.{greatest_string};
ghost use Rattle.lua_heap.specs.Strings.{interned, AreApart, AreShort};

use indexmap::IndexSet;
use int_core::Allocated;
use std::alloc::{AllocError, Global};
use std::marker::Model;
use table_core::StrId;

/// Strings, each named by its place among those that came before it, one for each content.
/// Contracts see the list of the contents.
#[derive(Drop)]
pub struct Strings {
    contents: IndexSet<Vec<u8>>,
    /// Where strings were found last, by a number of their bytes. What stands there is compared before it is believed.
    recent: [usize; 320],
}

impl Model for Strings {
    ghost use Rattle.std.specs.Prelude.{List, ℕ, map};
    ghost use Rattle.lua_heap.specs.Strings.{AreShort};

    ghost Value = { List (List ℕ) };

    ghost view = { λ strings. map (λ text. text.items) strings.contents.keys };

    ghost invariant = { λ strings. AreShort (map (λ text. text.items) strings.contents.keys) };
}

impl Strings {
    /// No strings.
    pub fn new(alloc: Global) -> Strings
        ensures { result ≡ [] }
    {
        Strings {
            contents: IndexSet::new(alloc),
            recent: [0; 320],
        }
    }

    /// How many there are. No two have the same bytes, and none is longer than a string may be.
    pub fn len(&self) -> usize
        ensures count { result ≡ length self.now }
        ensures apart { AreApart self.now }
        ensures short { AreShort self.now }
    {
        self.contents.len()
    }

    /// The bytes of a string.
    pub fn bytes(&self, id: StrId) -> &[u8]
        requires { id.0 < length self.now }
        ensures { slice_get self.now id.0 ≡ Some result.now }
    {
        self.contents.get_index(id.0).unwrap().as_slice()
    }

    /// The string with these bytes, where there is one.
    #[inline(always)]
    pub fn find(&self, bytes: &[u8]) -> Option<StrId>
        ensures found { IfSome result (λ id. slice_get self.now id.0 ≡ Some bytes.now) }
        ensures there { is_some result ≡ list_any (bytes_eq bytes.now) self.now }
    {
        let number = number_of(bytes);
        if let Some(id) = self.recalled(number, bytes) {
            return Some(id);
        }
        self.hashed(bytes)
    }

    /// The string with these bytes, where there is one, found by its hash.
    #[inline(never)]
    fn hashed(&self, bytes: &[u8]) -> Option<StrId>
        ensures found { IfSome result (λ id. slice_get self.now id.0 ≡ Some bytes.now) }
        ensures there { is_some result ≡ list_any (bytes_eq bytes.now) self.now }
    {
        Some(StrId(self.contents.get_index_of(bytes)?))
    }

    /// The string with these bytes, which is added where there is none. A refusal changes nothing.
    pub fn intern(&mut self, bytes: &[u8]) -> Allocated<StrId>
        requires { length bytes.now ≤ greatest_string }
        ensures named { IfOk result (λ id. slice_get self.new id.0 ≡ Some bytes.now) }
        ensures added { OnOk result (self.new ≡ interned self.old bytes.now) }
        ensures err { OnErr result (self.new ≡ self.old) }
    {
        let number = number_of(bytes);
        if let Some(id) = self.recalled(number, bytes) {
            return Ok(id);
        }
        let id = self.kept(bytes)?;
        self.remember(number, id);
        Ok(id)
    }

    /// The same where most likely there is none: its bytes are hashed once, and not once to look for them and once to add them.
    pub fn intern_new(&mut self, bytes: &[u8]) -> Result<StrId, AllocError>
        requires { length bytes.now ≤ greatest_string }
        ensures named { IfOk result (λ id. slice_get self.new id.0 ≡ Some bytes.now) }
        ensures added { OnOk result (self.new ≡ interned self.old bytes.now) }
        ensures err { OnErr result (self.new ≡ self.old) }
    {
        let number = number_of(bytes);
        if let Some(id) = self.recalled(number, bytes) {
            return Ok(id);
        }
        let id = self.inserted(bytes)?;
        self.remember(number, id);
        Ok(id)
    }

    /// The string with these bytes, where it was found last of those with this number.
    #[inline(always)]
    fn recalled(&self, number: usize, bytes: &[u8]) -> Option<StrId>
        requires { number < 320 }
        ensures { IfSome result (λ id. slice_get self.now id.0 ≡ Some bytes.now) }
    {
        let id = StrId(self.recent[number]);
        if id.0 >= self.len() {
            return None;
        }
        if same(self.bytes(id), bytes) {
            return Some(id);
        }
        None
    }

    /// Notes where a string with this number stands.
    fn remember(&mut self, number: usize, id: StrId)
        requires { number < 320 }
        ensures { self.new ≡ self.old }
    {
        self.recent[number] = id.0;
    }

    /// The string with these bytes, found by its hash, or added. A refusal changes nothing.
    fn kept(&mut self, bytes: &[u8]) -> Allocated<StrId>
        requires { length bytes.now ≤ greatest_string }
        ensures named { IfOk result (λ id. slice_get self.new id.0 ≡ Some bytes.now) }
        ensures added { OnOk result (self.new ≡ interned self.old bytes.now) }
        ensures err { OnErr result (self.new ≡ self.old) }
    {
        if let Some(id) = self.hashed(bytes) {
            return Ok(id);
        }
        self.add(bytes)
    }

    /// The string with these bytes, for which a copy of them is made first, and added where there is none. A refusal changes nothing.
    fn inserted(&mut self, bytes: &[u8]) -> Result<StrId, AllocError>
        requires { length bytes.now ≤ greatest_string }
        ensures named { IfOk result (λ id. slice_get self.new id.0 ≡ Some bytes.now) }
        ensures added { OnOk result (self.new ≡ interned self.old bytes.now) }
        ensures err { OnErr result (self.new ≡ self.old) }
    {
        let content = bytes.to_vec(*self.contents.allocator())?;
        match self.contents.insert_full(content) {
            Ok(told) => Ok(StrId(told.0)),
            Err(_) => Err(AllocError),
        }
    }

    /// Adds a string whose bytes no other has.
    fn add(&mut self, bytes: &[u8]) -> Allocated<StrId>
        requires short { length bytes.now ≤ greatest_string }
        requires new { list_any (bytes_eq bytes.now) self.old ≡ false }
        ensures id { IfOk result (λ id. id.0 ≡ length self.old) }
        ensures added { OnOk result (self.new ≡ self.old ++ bytes.now ∷ []) }
        ensures err { OnErr result (self.new ≡ self.old) }
    {
        let id = StrId(self.contents.len());
        let content = bytes.to_vec(*self.contents.allocator())?;
        match self.contents.insert(content) {
            Ok(_) => Ok(id),
            Err(_) => Err(AllocError),
        }
    }

    /// Keeps the first `count` strings.
    pub fn release_to(&mut self, count: usize)
        requires { count ≤ length self.old }
        ensures { self.new ≡ take count self.old }
    {
        self.contents.truncate(count);
    }
}

/// Whether two texts are the same.
fn same(a: &[u8], b: &[u8]) -> bool
    ensures { result ≡ bytes_eq a.now b.now }
{
    a == b
}

/// A number below 320 that tells most short texts apart, by their length and two of their bytes. The last 64 are those of texts that begin as the names of
/// handlers do, so that these are found however many other strings come and go: no two names of handlers have one number.
#[inline(always)]
fn number_of(bytes: &[u8]) -> usize
    ensures { result < 320 }
{
    if is_handler(bytes) {
        return 256 + mixed(bytes, 2) % 64;
    }
    mixed(bytes, 0) % 256
}

/// Whether a text begins as the names of handlers do (Lua 5.4 manual, 2.4).
#[inline(always)]
fn is_handler(bytes: &[u8]) -> bool {
    byte_at(bytes, 0) == b'_' && byte_at(bytes, 1) == b'_'
}

/// A number of a text's length, its last byte and another one.
#[inline(always)]
fn mixed(bytes: &[u8], at: usize) -> usize {
    let one = usize::from(byte_at(bytes, at));
    let last = usize::from(byte_at(bytes, bytes.len().saturating_sub(1)));
    one.wrapping_mul(23)
        .wrapping_add(last.wrapping_mul(2))
        .wrapping_add(bytes.len().wrapping_mul(11))
}

/// The byte of a place, or 0 where there is none.
#[inline(always)]
fn byte_at(bytes: &[u8], at: usize) -> u8 {
    match bytes.get(at) {
        Some(byte) => *byte,
        None => 0,
    }
}
