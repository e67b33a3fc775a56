// The bytes that are left to be read, and the smallest things in them.
ghost use Rattle.std.specs.Prelude.{◌≡◌, [], ◌∷◌, length};
ghost use Rattle.image_bytes.specs.Format.{byte, word, integer_of, raw};
ghost use Rattle.image_bytes.specs.Bytes.{text, key};
ghost use Rattle.image_core.specs.Numbers.{meeting};
ghost use Rattle.image_reading.specs.Says.{Says, Meets, Needs, itself, shown};
ghost use Rattle.image_records.specs.Views.{key as name_of};

use crate::fault::{ReadFault, Refusal};
use byteorder::{ByteOrder, LittleEndian};
use image_records::Key;
use std::marker::Model;

/// How many bytes a string can have.
const GREATEST_STRING: usize = 16_777_216;

/// Bytes that are left to be read. Contracts see their list, and how many records were met.
#[derive(Drop)]
pub(crate) struct Input<'a> {
    bytes: &'a [u8],
    /// How many records something has named.
    met: u64,
}

impl<'a> Model for Input<'a> {
    ghost use Rattle.image_reading.specs.Says.{Place, place_code};

    ghost Value = { Place };

    ghost coded = { place_code };

    ghost view = { λ input. record { met = input.met; bytes = input.bytes.now } };
}

impl<'a> Input<'a> {
    /// All of these bytes, where no record was met.
    pub(crate) fn new(bytes: &'a [u8]) -> Input<'a>
        ensures { result ≡ record { met = 0; bytes = bytes.now } }
    {
        Input { bytes, met: 0 }
    }

    /// How many bytes are left.
    pub(crate) fn len(&self) -> usize
        ensures { result ≡ length self.now.bytes }
    {
        self.bytes.len()
    }

    /// How many records were met.
    pub(crate) fn met(&self) -> u64
        ensures { result ≡ self.now.met }
    {
        self.met
    }

    /// The next byte.
    #[tactic(auto, unfolding(image_bytes::specs::Format::byte))]
    pub(crate) fn byte(&mut self) -> Result<u8, ReadFault<'a>>
        ensures reads { Says itself (byte.scan self.old.met self.old.bytes) result self.new }
    {
        match self.bytes {
            [] => Err(ReadFault::Refused(Refusal::CutOff)),
            [byte, rest @ ..] => {
                self.bytes = rest;
                Ok(*byte)
            }
        }
    }

    /// Whether so many bytes are left.
    fn need(&self, count: usize) -> Result<(), ReadFault<'a>>
        ensures needs { Needs count (length self.now.bytes) result }
    {
        if self.bytes.len() < count {
            return Err(ReadFault::Refused(Refusal::CutOff));
        }
        Ok(())
    }

    /// A number of 32 bits.
    #[tactic(auto, unfolding(image_bytes::specs::Format::word))]
    pub(crate) fn word(&mut self) -> Result<u32, ReadFault<'a>>
        ensures reads { Says itself (word.scan self.old.met self.old.bytes) result self.new }
    {
        self.need(4)?;
        let word = LittleEndian::read_u32(self.bytes);
        self.bytes = &self.bytes[4..];
        Ok(word)
    }

    /// An integer of 64 bits.
    #[tactic(auto, unfolding(image_bytes::specs::Format::integer_of))]
    pub(crate) fn integer(&mut self) -> Result<i64, ReadFault<'a>>
        ensures reads { Says (λ n. n) (integer_of.scan self.old.met self.old.bytes) result self.new }
    {
        self.need(8)?;
        let n = LittleEndian::read_i64(self.bytes);
        self.bytes = &self.bytes[8..];
        Ok(n)
    }

    /// So many bytes as they are.
    #[tactic(auto, unfolding(image_bytes::specs::Format::raw))]
    pub(crate) fn raw(&mut self, count: usize) -> Result<&'a [u8], ReadFault<'a>>
        ensures reads { Says shown ((raw count).scan self.old.met self.old.bytes) result self.new }
    {
        self.need(count)?;
        let taken = &self.bytes[..count];
        self.bytes = &self.bytes[count..];
        Ok(taken)
    }

    /// A text: its length and its bytes.
    #[tactic(auto, unfolding(image_bytes::specs::Bytes::text, image_bytes::specs::Format::case, image_bytes::specs::Format::followed, image_bytes::specs::Format::tested))]
    pub(crate) fn text(&mut self) -> Result<&'a [u8], ReadFault<'a>>
        ensures reads { Says shown (text.scan self.old.met self.old.bytes) result self.new }
    {
        let len = self.word()? as usize;
        if len > GREATEST_STRING {
            return Err(ReadFault::Refused(Refusal::OutOfRange));
        }
        let text = self.raw(len)?;
        Ok(text)
    }

    /// The key of a permanent.
    #[tactic(auto, unfolding(image_bytes::specs::Bytes::key, image_bytes::specs::Format::case, image_bytes::specs::Format::tagged, image_bytes::specs::Format::when, image_bytes::specs::Format::wrong))]
    pub(crate) fn key(&mut self) -> Result<Key<'a>, ReadFault<'a>>
        ensures reads { Says name_of (key.scan self.old.met self.old.bytes) result self.new }
    {
        match self.byte()? {
            3 => Ok(Key::Number(self.integer()?)),
            4 => Ok(Key::Text(self.text()?)),
            _ => Err(ReadFault::Refused(Refusal::OutOfPlace)),
        }
    }

    /// A record is named: one that was met, or the next one.
    pub(crate) fn meet(&mut self, n: u32, count: usize) -> Result<(), ReadFault<'a>>
        ensures bytes { self.new.bytes ≡ self.old.bytes }
        ensures meets { Meets (meeting count self.old.met n) result self.new.met }
    {
        let number = u64::from(n);
        if number < self.met {
            return Ok(());
        }
        if number == self.met && number < count as u64 {
            self.met += 1;
            return Ok(());
        }
        Err(ReadFault::Refused(Refusal::OutOfRange))
    }
}
