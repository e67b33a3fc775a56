// Values, and the numbers of records.
ghost use Rattle.std.specs.Prelude.{◌≡◌, [], ◌∷◌, map, nat_eq, slice_get};
ghost use Rattle.std.specs.List.{list_any};
ghost use Rattle.image_bytes.specs.Bytes.{Reader, reference, named_key, item_format, item_body, only, is_function_item, is_table_or_nil, sort_at};
ghost use Rattle.image_bytes.specs.Format.{list, times, word};
ghost use Rattle.image_records.specs.Names.{sort_of_object};
ghost use Rattle.image_reading.specs.Parts.{is_wanted, permanent_format};
ghost use Rattle.image_reading.specs.Says.{Says, itself, items_of, numbers_of, reader_in};
ghost use Rattle.image_records.specs.Views.{key as name_of, kind as kind_of, sort as sort_of, item as item_of};
ghost use Rattle.int_core.specs.Value.{same_kind};

use crate::fault::{ReadFault, Refusal};
use crate::input::Input;
use image_records::{Item, Key, Kind, Known, Sort};
use std::alloc::Global;

/// What is known where a value is read.
#[derive(Clone, Copy)]
pub(crate) struct Context<'k> {
    pub(crate) known: &'k Known<'k>,
    /// The sorts of all records.
    pub(crate) sorts: &'k [Sort],
    pub(crate) alloc: Global,
}

/// What a value is to be, at a place where not all may stand.
#[derive(Debug, Clone, Copy)]
pub(crate) enum Wanted {
    Function,
    /// A table or nil.
    Metatable,
}

impl<'a> Input<'a> {
    /// The number of a table's, function's or coroutine's record.
    pub(crate) fn object_number(&mut self, sorts: &[Sort]) -> Result<u32, ReadFault<'a>>
        ensures reads { Says itself ((reference (map sort_of sorts.now) (1 ∷ 2 ∷ 4 ∷ [])).scan self.old.met self.old.bytes) result self.new }
    {
        self.reference(sorts, &[Sort::Table, Sort::Function, Sort::Coroutine])
    }

    /// The number of a cell's record.
    pub(crate) fn cell_number(&mut self, sorts: &[Sort]) -> Result<u32, ReadFault<'a>>
        ensures reads { Says itself ((reference (map sort_of sorts.now) (3 ∷ [])).scan self.old.met self.old.bytes) result self.new }
    {
        self.reference(sorts, &[Sort::Cell])
    }

    /// The number of a coroutine's record.
    pub(crate) fn coroutine_number(&mut self, sorts: &[Sort]) -> Result<u32, ReadFault<'a>>
        ensures reads { Says itself ((reference (map sort_of sorts.now) (4 ∷ [])).scan self.old.met self.old.bytes) result self.new }
    {
        self.reference(sorts, &[Sort::Coroutine])
    }

    /// The number of a record that is of one of these sorts.
    #[tactic(auto, unfolding(image_bytes::specs::Bytes::reference))]
    fn reference(&mut self, sorts: &[Sort], wanted: &[Sort]) -> Result<u32, ReadFault<'a>>
        ensures reads { Says itself ((reference (map sort_of sorts.now) (map sort_of wanted.now)).scan self.old.met self.old.bytes) result self.new }
    {
        let n = self.word()?;
        self.meet(n, sorts.len())?;
        if is_of(sorts, n as usize, wanted) {
            Ok(n)
        } else {
            Err(ReadFault::Refused(Refusal::OutOfPlace))
        }
    }

    /// The key of a permanent of this sort.
    #[tactic(auto, unfolding(image_bytes::specs::Bytes::named_key, image_bytes::specs::Format::tested))]
    fn named_key(&mut self, kind: Kind, context: &Context<'_>) -> Result<Key<'a>, ReadFault<'a>>
        ensures reads { Says name_of ((named_key (reader_in context.now) (kind_of kind)).scan self.old.met self.old.bytes) result self.new }
    {
        let key = self.key()?;
        match context.known.kind(key) {
            Some(found) => {
                if kind.is(found) {
                    Ok(key)
                } else {
                    Err(ReadFault::Refused(Refusal::OtherSort(key)))
                }
            }
            None => Err(ReadFault::Refused(Refusal::Missing(key))),
        }
    }

    /// A permanent of this sort.
    #[tactic(auto, unfolding(image_bytes::specs::Format::case))]
    fn permanent(&mut self, kind: Kind, context: &Context<'_>) -> Result<Item<'a>, ReadFault<'a>>
        ensures reads { Says item_of ((permanent_format (reader_in context.now) (kind_of kind)).scan self.old.met self.old.bytes) result self.new }
    {
        let key = self.named_key(kind, context)?;
        Ok(Item::Permanent(kind, key))
    }

    /// A value.
    #[tactic(auto, unfolding(image_bytes::specs::Bytes::item_format, image_bytes::specs::Format::tagged))]
    pub(crate) fn item(&mut self, context: &Context<'_>) -> Result<Item<'a>, ReadFault<'a>>
        ensures reads { Says item_of ((item_format (reader_in context.now)).scan self.old.met self.old.bytes) result self.new }
    {
        let tag = self.byte()?;
        let item = self.item_behind(tag, context)?;
        Ok(item)
    }

    /// A value behind its tag.
    #[tactic(auto, unfolding(image_bytes::specs::Bytes::item_body, image_bytes::specs::Format::case, image_bytes::specs::Format::when, image_bytes::specs::Format::wrong, image_bytes::specs::Format::nothing))]
    fn item_behind(&mut self, tag: u8, context: &Context<'_>) -> Result<Item<'a>, ReadFault<'a>>
        ensures reads { Says item_of ((item_body (reader_in context.now) tag).scan self.old.met self.old.bytes) result self.new }
    {
        match tag {
            0 => Ok(Item::Nil),
            1 => Ok(Item::Bool(false)),
            2 => Ok(Item::Bool(true)),
            3 => Ok(Item::Int(self.integer()?)),
            4 => Ok(Item::Str(self.text()?)),
            5 => Ok(Item::Numbered(self.object_number(context.sorts)?)),
            6 => self.permanent(Kind::Function, context),
            7 => self.permanent(Kind::Table, context),
            8 => self.permanent(Kind::Coroutine, context),
            9 => Ok(Item::Environment),
            _ => Err(ReadFault::Refused(Refusal::OutOfPlace)),
        }
    }
}

impl<'a> Input<'a> {
    /// So many values.
    #[tactic(auto, unfolding(image_bytes::specs::Format::times), using(crate::proofs::Fronts::with_no_front))]
    pub(crate) fn items_of(
        &mut self,
        count: u32,
        context: &Context<'_>,
    ) -> Result<Vec<Item<'a>>, ReadFault<'a>>
        ensures reads { Says (items_of item_of) ((times count (item_format (reader_in context.now))).scan self.old.met self.old.bytes) result self.new }
    {
        let mut items = Vec::new(context.alloc);
        for _ in 0..count {
            let item = self.item(context)?;
            items.push(item)?;
        }
        Ok(items)
    }

    /// A list of values.
    #[tactic(auto, unfolding(image_bytes::specs::Format::list, image_bytes::specs::Format::list_by, image_bytes::specs::Format::case, image_bytes::specs::Format::followed))]
    pub(crate) fn items(&mut self, context: &Context<'_>) -> Result<Vec<Item<'a>>, ReadFault<'a>>
        ensures reads { Says (items_of item_of) ((list (item_format (reader_in context.now))).scan self.old.met self.old.bytes) result self.new }
    {
        let count = self.word()?;
        let items = self.items_of(count, context)?;
        Ok(items)
    }

    /// So many numbers.
    #[tactic(auto, unfolding(image_bytes::specs::Format::times), using(crate::proofs::Fronts::with_no_front))]
    fn words_of(&mut self, count: u32, alloc: Global) -> Result<Vec<u32>, ReadFault<'a>>
        ensures reads { Says numbers_of ((times count word).scan self.old.met self.old.bytes) result self.new }
    {
        let mut words = Vec::new(alloc);
        for _ in 0..count {
            let word = self.word()?;
            words.push(word)?;
        }
        Ok(words)
    }

    /// A list of numbers.
    #[tactic(auto, unfolding(image_bytes::specs::Format::list, image_bytes::specs::Format::list_by, image_bytes::specs::Format::case, image_bytes::specs::Format::followed))]
    pub(crate) fn words(&mut self, alloc: Global) -> Result<Vec<u32>, ReadFault<'a>>
        ensures reads { Says numbers_of ((list word).scan self.old.met self.old.bytes) result self.new }
    {
        let count = self.word()?;
        let words = self.words_of(count, alloc)?;
        Ok(words)
    }

    /// The numbers of so many cells' records.
    #[tactic(auto, unfolding(image_bytes::specs::Format::times), using(crate::proofs::Fronts::with_no_front))]
    pub(crate) fn cells(
        &mut self,
        count: u8,
        context: &Context<'_>,
    ) -> Result<Vec<u32>, ReadFault<'a>>
        ensures reads { Says numbers_of ((times count (reference (map sort_of context.now.sorts.now) (3 ∷ []))).scan self.old.met self.old.bytes) result self.new }
    {
        let mut cells = Vec::new(context.alloc);
        for _ in 0..count {
            let cell = self.cell_number(context.sorts)?;
            cells.push(cell)?;
        }
        Ok(cells)
    }

    /// A value that is what is wanted.
    #[tactic(auto, unfolding(image_bytes::specs::Bytes::only, image_bytes::specs::Format::tested))]
    pub(crate) fn wanted_item(
        &mut self,
        wanted: Wanted,
        context: &Context<'_>,
    ) -> Result<Item<'a>, ReadFault<'a>>
        ensures reads { Says item_of ((only (reader_in context.now) (is_wanted wanted (reader_in context.now))).scan self.old.met self.old.bytes) result self.new }
    {
        let item = self.item(context)?;
        if is_wanted(wanted, item, context.sorts) {
            Ok(item)
        } else {
            Err(ReadFault::Refused(Refusal::OutOfPlace))
        }
    }
}

/// Whether the record of a number is of one of these sorts.
fn is_of(sorts: &[Sort], n: usize, wanted: &[Sort]) -> bool
    ensures { result ≡ list_any (nat_eq (sort_at (map sort_of sorts.now) n)) (map sort_of wanted.now) }
{
    match sort_in(sorts, n) {
        Some(sort) => wanted.contains(&sort),
        None => false,
    }
}

/// The sort of the record of a number, if it is there.
fn sort_in(sorts: &[Sort], n: usize) -> Option<Sort>
    ensures { result ≡ slice_get sorts.now n }
{
    sorts.get(n).copied()
}

/// Whether a value is what is wanted.
fn is_wanted(wanted: Wanted, item: Item<'_>, sorts: &[Sort]) -> bool
    ensures { (R : Reader) → R.sorts ≡ map sort_of sorts.now → result ≡ is_wanted wanted R (item_of item.entry) }
{
    match wanted {
        Wanted::Function => is_function_item(item, sorts),
        Wanted::Metatable => is_table_or_nil(item, sorts),
    }
}

/// Whether a value is a function.
fn is_function_item(item: Item<'_>, sorts: &[Sort]) -> bool
    ensures { (R : Reader) → R.sorts ≡ map sort_of sorts.now → result ≡ is_function_item R (item_of item.entry) }
{
    match item {
        Item::Numbered(n) => matches!(sorts.get(n as usize), Some(Sort::Function)),
        Item::Permanent(kind, _) => matches!(kind, Kind::Function),
        Item::Nil | Item::Bool(_) | Item::Int(_) | Item::Str(_) | Item::Environment => false,
    }
}

/// Whether a value is a table or nil.
fn is_table_or_nil(item: Item<'_>, sorts: &[Sort]) -> bool
    ensures { (R : Reader) → R.sorts ≡ map sort_of sorts.now → result ≡ is_table_or_nil R (item_of item.entry) }
{
    match item {
        Item::Numbered(n) => matches!(sorts.get(n as usize), Some(Sort::Table)),
        Item::Permanent(kind, _) => matches!(kind, Kind::Table),
        Item::Nil | Item::Environment => true,
        Item::Bool(_) | Item::Int(_) | Item::Str(_) => false,
    }
}
