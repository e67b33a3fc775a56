// The smallest things in an image, put at its end.
ghost use Rattle.std.specs.Prelude.{◌≡◌, ◌∷◌, ◌++◌, [], None, length, OnOk};
ghost use Rattle.std.specs.Int.{w64, cast_unsigned};
ghost use Rattle.byteorder.specs.Endian.{little_bytes};
ghost use Rattle.eris_write.specs.Output.{Puts, key_bytes};
ghost use Rattle.eris_write.specs.Refusals.{shown};

use crate::fault::{PersistFault, Refusal};
use graph_core::PermanentKey;
use int_core::Allocated;
use std::alloc::Global;

/// One byte more than an image may have.
pub(crate) const MOST: usize = 2_147_483_648;

/// The bytes of an image that is being written, but none after the first that it has no room for, and what was refused first.
#[derive(Drop)]
pub(crate) struct Output {
    pub(crate) bytes: Vec<u8>,
    pub(crate) refusal: Option<Refusal>,
}

impl Output {
    /// Nothing is written yet.
    pub(crate) fn new(alloc: Global) -> Output
        ensures bytes { result.bytes.items ≡ [] }
        ensures refusal { result.refusal ≡ None }
    {
        Output {
            bytes: Vec::new(alloc),
            refusal: None,
        }
    }

    /// Keeps the first refusal.
    pub(crate) fn refuse(&mut self, refusal: Option<Refusal>)
        ensures { Puts self.old self.new (shown refusal) (λ _. []) }
    {
        if self.refusal.is_none() {
            self.refusal = refusal;
        }
    }

    /// Puts bytes.
    pub(crate) fn put(&mut self, bytes: &[u8]) -> Allocated<()>
        ensures { OnOk result (Puts self.old self.new None (λ _. bytes.now)) }
    {
        let room = MOST.saturating_sub(self.bytes.len());
        self.bytes
            .extend_from_slice(&bytes[..bytes.len().min(room)])?;
        Ok(())
    }

    /// Puts a byte.
    pub(crate) fn put_byte(&mut self, byte: u8) -> Allocated<()>
        ensures { OnOk result (Puts self.old self.new None (λ _. byte ∷ [])) }
    {
        self.put(&[byte])
    }

    /// Puts a number in four bytes. One that does not fit counts something of which an image has no room for so many.
    pub(crate) fn put_word(&mut self, n: usize) -> Allocated<()>
        ensures { OnOk result (Puts self.old self.new None (λ _. little_bytes 4 n)) }
    {
        let bytes = n.to_le_bytes();
        let low = &bytes[..4];
        self.put(low)
    }

    /// Puts an integer as a value or a key.
    pub(crate) fn put_integer_item(&mut self, n: i64) -> Allocated<()>
        ensures { OnOk result (Puts self.old self.new None (λ _. 3 ∷ little_bytes 8 (cast_unsigned w64 n))) }
    {
        self.put_byte(3)?;
        self.put(&n.to_le_bytes())
    }

    /// Puts a string as a value or a key: its length, and its bytes.
    pub(crate) fn put_text_item(&mut self, bytes: &[u8]) -> Allocated<()>
        ensures { OnOk result (Puts self.old self.new None (λ _. 4 ∷ little_bytes 4 (length bytes.now) ++ bytes.now)) }
    {
        self.put_byte(4)?;
        self.put_word(bytes.len())?;
        self.put(bytes)
    }

    /// Puts the key of a permanent.
    pub(crate) fn put_key(&mut self, key: &PermanentKey) -> Allocated<()>
        ensures { OnOk result (Puts self.old self.new None (λ _. key_bytes key.now)) }
    {
        match key {
            PermanentKey::Number(n) => self.put_integer_item(*n),
            PermanentKey::Text(text) => self.put_text_item(text.as_slice()),
        }
    }
}
