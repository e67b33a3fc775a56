// A text that grows, within the limit on strings.
ghost use Rattle.std.specs.Prelude.{◌≡◌};

use crate::fault::{Bounded, StringFault};
use std::alloc::Global;
use std::marker::Model;

/// The greatest number of bytes in a text.
pub const MAX_TEXT: usize = 16_777_216;

/// A text that is made piece by piece and has at most `MAX_TEXT` bytes. Contracts see the bytes so far.
#[derive(Drop)]
pub struct Builder {
    bytes: Vec<u8>,
}

impl Model for Builder {
    ghost use Rattle.std.specs.Prelude.{List, ℕ, ◌≤◌, vec_len};

    ghost Value = { List ℕ };

    ghost view = { λ builder. builder.bytes.items };

    ghost invariant = { λ builder. vec_len builder.bytes ≤ 16777216 };
}

impl Builder {
    ghost use Rattle.std.specs.Prelude.{◌≡◌, ◌<◌, ◌≤◌, ◌+◌, [], ◌∷◌, ◌++◌, length, OnOk, OnErr};
    ghost use Rattle.int_core.specs.Value.{greatest_string};
    ghost use Rattle.text_functions.specs.Made.{IsFaultOf};

    /// The empty text.
    pub fn new(alloc: Global) -> Builder
        ensures { result ≡ [] }
    {
        Builder {
            bytes: Vec::new(alloc),
        }
    }

    /// Puts a piece at the end.
    ///
    /// # Errors
    ///
    /// `TooLarge` where there is no room for all of it, else `Memory`; then the text stays as it was.
    pub fn push(&mut self, piece: &[u8]) -> Bounded<()>
        ensures joined { OnOk result (self.new ≡ self.old ++ piece.now) }
        ensures fits { OnOk result (length self.old + length piece.now ≤ greatest_string) }
        ensures refused { OnErr result (IsFaultOf (length self.old + length piece.now) result) }
        ensures kept { OnErr result (self.new ≡ self.old) }
    {
        if piece.len() > MAX_TEXT - self.bytes.len() {
            return Err(StringFault::TooLarge);
        }
        self.bytes.extend_from_slice(piece)?;
        Ok(())
    }

    /// How many bytes there are.
    pub fn len(&self) -> usize
        ensures len { result ≡ length self.now }
        ensures within { result ≤ greatest_string }
    {
        self.bytes.len()
    }

    /// The whole text.
    pub fn finish(self) -> Vec<u8>
        ensures { result.items ≡ self }
    {
        self.bytes
    }
}
