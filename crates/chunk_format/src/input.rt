// The bytes that are left to be read, and the smallest things in them.
ghost use Rattle.std.specs.Prelude.{◌≡◌, ◌≤◌, ◌<◌, ◌^◌, ◌∷◌, if◌then◌else◌, nat_lt, length, drop, IfOk};
ghost use Rattle.chunk_format.specs.Reading.{read, refused, Says, SaysOf, read_byte, read_number, read_flag, read_kind, read_word, read_integer, read_name};

use crate::fault::ChunkFault;
use byteorder::{ByteOrder, LittleEndian};
use int_core::Bytes;
use std::alloc::Global;
use std::marker::Model;

/// How many bytes a string can have.
pub const GREATEST_STRING: usize = 16_777_216;

/// Bytes that are left to be read. Contracts see their list.
#[derive(Drop)]
pub struct Input<'a> {
    bytes: &'a [u8],
}

impl<'a> Model for Input<'a> {
    ghost use Rattle.std.specs.Prelude.{List, ℕ};

    ghost Value = { List ℕ };

    ghost view = { λ input. input.bytes.now };
}

impl<'a> Input<'a> {
    /// All of these bytes.
    pub fn new(bytes: &'a [u8]) -> Input<'a>
        ensures { result ≡ bytes.now }
    {
        Input { bytes }
    }

    /// How many bytes are left.
    pub fn len(&self) -> usize
        ensures { result ≡ length self.now }
    {
        self.bytes.len()
    }

    /// The next byte.
    pub fn byte(&mut self) -> Result<u8, ChunkFault>
        ensures reads { Says (read_byte self.old) result self.new }
        ensures next { IfOk result (λ byte. self.old ≡ byte ∷ self.new) }
    {
        match self.bytes {
            [] => Err(ChunkFault::Refused { kind: 6 }),
            [byte, rest @ ..] => {
                self.bytes = rest;
                Ok(*byte)
            }
        }
    }

    /// A byte that is 0 or 1.
    pub fn flag(&mut self) -> Result<bool, ChunkFault>
        ensures reads { Says (read_flag self.old) result self.new }
    {
        match self.byte()? {
            0 => Ok(false),
            1 => Ok(true),
            _ => Err(ChunkFault::Refused { kind: 8 }),
        }
    }

    /// The kind of an upvalue.
    pub fn kind(&mut self) -> Result<u8, ChunkFault>
        ensures reads { Says (read_kind self.old) result self.new }
    {
        let kind = self.byte()?;
        if kind <= 3 {
            Ok(kind)
        } else {
            Err(ChunkFault::Refused { kind: 8 })
        }
    }

    /// A number.
    pub fn number(&mut self) -> Result<u32, ChunkFault>
        ensures reads { Says (read_number self.old) result self.new }
        ensures fits { IfOk result (λ number. number < 2 ^ 31) }
    {
        let mut so_far: u64 = 0;
        loop {
            let byte = self.byte()?;
            so_far = so_far * 128 + u64::from(byte) % 128;
            if so_far >= 1 << 31 {
                return Err(ChunkFault::Refused { kind: 7 });
            }
            if byte >= 128 {
                return Ok(so_far as u32);
            }
        }
    }

    /// What is left, which is at least so many bytes, and passes over these.
    fn front(&mut self, len: usize) -> Result<&'a [u8], ChunkFault>
        ensures reads { SaysOf (λ front. front.now) (if nat_lt (length self.old) len then refused 6 else read self.old (drop len self.old)) result self.new }
        ensures enough { IfOk result (λ front. len ≤ length front.now) }
    {
        if self.bytes.len() < len {
            return Err(ChunkFault::Refused { kind: 6 });
        }
        let front = self.bytes;
        self.bytes = &front[len..];
        Ok(front)
    }

    /// A number of 32 bits.
    pub fn word(&mut self) -> Result<u32, ChunkFault>
        ensures reads { Says (read_word self.old) result self.new }
    {
        Ok(LittleEndian::read_u32(self.front(4)?))
    }

    /// An integer of 64 bits.
    pub fn integer(&mut self) -> Result<i64, ChunkFault>
        ensures reads { Says (read_integer self.old) result self.new }
    {
        Ok(LittleEndian::read_i64(self.front(8)?))
    }

    /// A string, or none.
    pub fn name(&mut self, alloc: Global) -> Result<Option<Bytes>, ChunkFault>
        ensures reads { Says (read_name self.old) result self.new }
    {
        let number = self.number()? as usize;
        if number == 0 {
            return Ok(None);
        }
        if number > GREATEST_STRING + 1 {
            return Err(ChunkFault::Refused { kind: 7 });
        }
        let len = number - 1;
        Ok(Some(Bytes::of(self.front(len)?[..len].to_vec(alloc)?)))
    }
}
