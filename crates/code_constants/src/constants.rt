// The constants of a function.
ghost use Rattle.std.specs.Prelude.{◌≡◌, [], OnOk, None, cond, length, nat_lt};
ghost use Rattle.code_core.specs.declared.proto.Const.TheVariants.{Nil, False, True, Int, Str};
ghost use Rattle.code_of.specs.Constants.{number_in, with_constant, is_small};
ghost use Rattle.code_of.specs.Stores.{short_number};

use crate::numerals::short;
use code_core::Const;
use int_core::{Allocated, Bytes};
use std::alloc::Global;
use std::collections::HashMap;
use std::marker::Model;

/// The constants of a function, each once. Contracts see the list.
#[derive(Drop)]
pub struct Constants {
    list: Vec<Const>,
    /// The numbers of the strings among them.
    texts: HashMap<Vec<u8>, usize>,
    /// The numbers of the integers among them.
    integers: HashMap<i64, usize>,
    /// The number of nil, where it is one of them.
    nil: Option<usize>,
    /// The number of false.
    falsehood: Option<usize>,
    /// The number of true.
    truth: Option<usize>,
}

impl Model for Constants {
    ghost use Rattle.std.specs.Prelude.{List, nat_eq};
    ghost use Rattle.std.specs.Ordering.{int_eq};
    ghost use Rattle.std.specs.Cmp.Lexicographic.{pointwise};
    ghost use Rattle.std.specs.HashMap.{get, get_by};
    ghost use Rattle.code_core.specs.declared.proto.Const.{Const};
    ghost use Rattle.code_constants.specs.Indexed.{IsIndexed};

    ghost Value = { List Const };

    ghost view = { λ constants. constants.list.items };

    ghost invariant = { λ constants. IsIndexed constants.list.items (λ text. get_by (λ key. pointwise nat_eq text key.items) constants.texts) (get int_eq constants.integers) constants.nil constants.falsehood constants.truth };
}

/// Whether LOADI holds an integer, so that it is no constant.
pub fn is_small(integer: i64) -> bool
    ensures { result ≡ is_small integer }
{
    (-65535..=65536).contains(&integer)
}

impl Constants {
    /// No constants.
    pub fn new(alloc: Global) -> Constants
        ensures { result ≡ [] }
    {
        Constants {
            list: Vec::new(alloc),
            texts: HashMap::new(alloc),
            integers: HashMap::new(alloc),
            nil: None,
            falsehood: None,
            truth: None,
        }
    }

    /// The constants as a vector.
    pub fn into_vec(self) -> Vec<Const>
        ensures { result.items ≡ self }
    {
        self.list
    }

    /// Adds a string, where it is not there yet.
    #[tactic(auto, using(crate::proofs::Numbers::known, crate::proofs::Numbers::unknown))]
    pub fn add_text(&mut self, alloc: Global, text: &Bytes) -> Allocated<()>
        ensures { OnOk result (self.new ≡ with_constant (Str text.now) self.old) }
    {
        let number = self.list.len();
        if self.number_of_text(text) < number {
            return Ok(());
        }
        let key = text.as_slice().to_vec(alloc)?;
        let copy = Bytes::of(text.as_slice().to_vec(alloc)?);
        self.list.reserve(1)?;
        self.texts.insert(key, number)?;
        self.list.push(Const::Str(copy))?;
        Ok(())
    }

    /// Adds an integer, where it is not there yet.
    #[tactic(auto, using(crate::proofs::Numbers::known, crate::proofs::Numbers::unknown))]
    pub(crate) fn add_integer(&mut self, integer: i64) -> Allocated<()>
        ensures { OnOk result (self.new ≡ with_constant (Int integer) self.old) }
    {
        let number = self.list.len();
        if self.number_of_integer(integer) < number {
            return Ok(());
        }
        self.list.reserve(1)?;
        self.integers.insert(integer, number)?;
        self.list.push(Const::Int(integer))?;
        Ok(())
    }

    /// Adds nil, where it is not there yet.
    #[tactic(auto, using(crate::proofs::Numbers::known, crate::proofs::Numbers::unknown))]
    pub(crate) fn add_nil(&mut self) -> Allocated<()>
        ensures { OnOk result (self.new ≡ with_constant Nil self.old) }
    {
        let number = self.list.len();
        if self.number_of_nil() < number {
            return Ok(());
        }
        self.list.push(Const::Nil)?;
        self.nil = Some(number);
        Ok(())
    }

    /// Adds false, where it is not there yet.
    #[tactic(auto, using(crate::proofs::Numbers::known, crate::proofs::Numbers::unknown))]
    pub(crate) fn add_false(&mut self) -> Allocated<()>
        ensures { OnOk result (self.new ≡ with_constant False self.old) }
    {
        let number = self.list.len();
        if self.number_of_false() < number {
            return Ok(());
        }
        self.list.push(Const::False)?;
        self.falsehood = Some(number);
        Ok(())
    }

    /// Adds true, where it is not there yet.
    #[tactic(auto, using(crate::proofs::Numbers::known, crate::proofs::Numbers::unknown))]
    pub(crate) fn add_true(&mut self) -> Allocated<()>
        ensures { OnOk result (self.new ≡ with_constant True self.old) }
    {
        let number = self.list.len();
        if self.number_of_true() < number {
            return Ok(());
        }
        self.list.push(Const::True)?;
        self.truth = Some(number);
        Ok(())
    }

    /// The number of nil, or how many constants there are where it is none of them.
    pub(crate) fn number_of_nil(&self) -> usize
        ensures { result ≡ number_in self.now Nil }
    {
        match self.nil {
            Some(number) => number,
            None => self.list.len(),
        }
    }

    /// The number of false, or how many constants there are where it is none of them.
    pub(crate) fn number_of_false(&self) -> usize
        ensures { result ≡ number_in self.now False }
    {
        match self.falsehood {
            Some(number) => number,
            None => self.list.len(),
        }
    }

    /// The number of true, or how many constants there are where it is none of them.
    pub(crate) fn number_of_true(&self) -> usize
        ensures { result ≡ number_in self.now True }
    {
        match self.truth {
            Some(number) => number,
            None => self.list.len(),
        }
    }

    /// A number, where a constant has it and a field of 8 bits holds it, or none.
    pub(crate) fn short(&self, number: usize) -> Option<usize>
        ensures { result ≡ cond (nat_lt number (length self.now)) (short_number number) None }
    {
        if number < self.list.len() {
            short(number)
        } else {
            None
        }
    }

    /// The number of a string, or how many constants there are where it is none of them.
    pub fn number_of_text(&self, text: &Bytes) -> usize
        ensures { result ≡ number_in self.now (Str text.now) }
    {
        match self.texts.get(text.as_slice()) {
            Some(number) => *number,
            None => self.list.len(),
        }
    }

    /// The number of an integer, or how many constants there are where it is none of them.
    pub fn number_of_integer(&self, integer: i64) -> usize
        ensures { result ≡ number_in self.now (Int integer) }
    {
        match self.integers.get(&integer) {
            Some(number) => *number,
            None => self.list.len(),
        }
    }
}
